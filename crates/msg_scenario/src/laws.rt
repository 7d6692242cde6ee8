//! Laws of files. Calling one makes its fact available to the caller's proof; it does nothing at
//! run time.
ghost use Rattle.msg_scenario.specs.FromBytes.{EachFileHasOneReport};

/// A scenario file has one report: what two runs of it print is the same text, on however many
/// workers, and whatever engine ran it.
pub fn each_file_has_one_report()
    ensures law { EachFileHasOneReport }
{}
