//! Laws of lines. Calling one makes its fact available to the caller's proof; it does nothing at
//! run time.
ghost use Rattle.msg_serve.specs.Prelude.{EachFileHasOneTrace, EachLineHasOneAnswer, OnlyFramesChange, ServesAsRunsTell};

/// What is left after lines is what the frames among them leave, in one run: a line that asks for
/// the accounts, or is refused, changes nothing.
#[tactic(auto, using(crate::proofs::Requests::only_frames))]
pub fn only_frames_change()
    ensures law { OnlyFramesChange }
{}

/// What lines that are frames are answered is what a run of the file tells if it has these frames
/// after its own, but for the lines of its own frames.
#[tactic(auto, using(crate::proofs::FramesOfTheFile::serves_as_runs_tell))]
pub fn serves_as_runs_tell()
    ensures law { ServesAsRunsTell }
{}

/// Each line that asks for something is answered by one line: its answer has one line feed, at its
/// end.
#[tactic(auto, using(crate::proofs::OneLineEach::one_line_each))]
pub fn each_line_has_one_answer()
    ensures law { EachLineHasOneAnswer }
{}

/// A scenario file has one trace: what two runs of it tell by lines is the same text, on however
/// many workers, and whatever engine ran it.
pub fn each_file_has_one_trace()
    ensures law { EachFileHasOneTrace }
{}
