ghost use Rattle.std.specs.Prelude.{◌≡◌, ◌++◌, OnErr, OnOk};
ghost use Rattle.std.specs.Io.KnownBytes.{Appends};
ghost use Rattle.msg_json.specs.Prelude.{AppendsPrefix, TakesUnlessFailed, one_failure_more};
ghost use Rattle.msg_command.specs.Prelude.{line_of, lines_of, refusal_line, status_of};

use crate::fault::MainFault;
use crate::{InputFault, WordFault};
use msg_json::{PutFault, Refusal, ReportFault, Sink, put_all};
use msg_world::RunFault;

/// Puts the fault's line into the sink, and the lines that tell of a refused file below it, and
/// gives the status that the program ends with. Help has no line. A failure of the sink changes
/// nothing of the status. It takes no memory.
pub fn print_fault<S: Sink>(fault: &MainFault, sink: &mut S) -> u8
    ensures lines { TakesUnlessFailed (S.contents sink.old) (S.contents sink.new)
        (S.failures sink.old) (S.failures sink.new) (lines_of fault.now) }
    ensures status { result ≡ status_of fault.now }
{
    if let MainFault::CheckFailed(why, lines) = fault {
        let _ = put_both(refusal_line(*why), lines.as_slice(), sink);
    } else {
        let _ = put_all(sink, line_of(fault));
    }
    status_of(fault)
}

/// Puts one text after another.
fn put_both<S: Sink>(first: &[u8], second: &[u8], sink: &mut S) -> Result<(), PutFault>
    ensures ok { OnOk result
        (Appends (S.contents sink.old) (S.contents sink.new) (first.now ++ second.now)) }
    ensures quiet { OnOk result (S.failures sink.new ≡ S.failures sink.old) }
    ensures prefix { OnErr result
        (AppendsPrefix (S.contents sink.old) (S.contents sink.new) (first.now ++ second.now)) }
    ensures failed { OnErr result (S.failures sink.new ≡ one_failure_more (S.failures sink.old)) }
{
    put_all(sink, first)?;
    put_all(sink, second)?;
    Ok(())
}

fn line_of(fault: &MainFault) -> &[u8]
    ensures { result.now ≡ line_of fault.now }
{
    match fault {
        MainFault::Words(WordFault::Bad) => b"msgrun: bad command line\n",
        MainFault::Words(WordFault::Help(_)) => b"",
        MainFault::Input(InputFault::Failed) => b"msgrun: cannot read input\n",
        MainFault::Input(InputFault::TooLarge) => b"msgrun: input too large\n",
        MainFault::Refused(refusal) => refusal_line(*refusal),
        MainFault::CheckFailed(why, _) => refusal_line(*why),
        MainFault::Report(ReportFault::Run(RunFault::Spoiled)) => b"msgrun: run fault 1 Spoiled\n",
        MainFault::Report(ReportFault::Run(RunFault::BadOrder)) => {
            b"msgrun: run fault 2 BadOrder\n"
        }
        MainFault::Report(ReportFault::Run(RunFault::NoMemory)) => {
            b"msgrun: run fault 3 NoMemory\n"
        }
        MainFault::Report(ReportFault::Write) => b"msgrun: write fault\n",
        MainFault::Words(WordFault::NoMemory)
        | MainFault::Input(InputFault::NoMemory)
        | MainFault::Built
        | MainFault::Report(ReportFault::NoMemory) => b"msgrun: want of memory\n",
    }
}

/// The line of a refusal.
fn refusal_line(refusal: Refusal) -> &'static [u8]
    ensures line { result.now ≡ refusal_line refusal }
{
    match refusal {
        Refusal::NotJson => b"msgrun: refused 1 NotJson\n",
        Refusal::Shape => b"msgrun: refused 2 Shape\n",
        Refusal::UnknownKey => b"msgrun: refused 3 UnknownKey\n",
        Refusal::BadName => b"msgrun: refused 4 BadName\n",
        Refusal::TwiceNamed => b"msgrun: refused 5 TwiceNamed\n",
        Refusal::BadNumber => b"msgrun: refused 6 BadNumber\n",
        Refusal::TooMany => b"msgrun: refused 7 TooMany\n",
        Refusal::UnknownName => b"msgrun: refused 8 UnknownName\n",
        Refusal::Clash(_) => b"msgrun: refused 9 Clash\n",
        Refusal::Cycle(_) => b"msgrun: refused 10 Cycle\n",
        Refusal::NoMemory => b"msgrun: want of memory\n",
    }
}

fn status_of(fault: &MainFault) -> u8
    ensures { result ≡ status_of fault.now }
{
    match fault {
        MainFault::Words(WordFault::Help(_)) => 0,
        MainFault::Refused(Refusal::NoMemory) => 1,
        MainFault::Words(WordFault::Bad)
        | MainFault::Input(InputFault::TooLarge)
        | MainFault::Refused(_)
        | MainFault::CheckFailed(..) => 2,
        _ => 1,
    }
}
