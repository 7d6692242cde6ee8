// The lines of an input.
ghost use Rattle.std.specs.Prelude.{◌≡◌, ◌≢◌, ◌+◌, ◌-◌, ◌<◌, ◌≤◌, ◌⊎◌, ◌∷◌, ◌++◌, All, Err, IfErr, IfOk, IfSome, Ok, OnErr, OnOk, [], false, length, take, true};
ghost use Rattle.std.specs.Io.BufRead.{DropsThrough};
ghost use Rattle.std.specs.Io.KnownBytes.{Consumes, Keeps};
ghost use Rattle.msg_json.specs.Prelude.{Text, one_failure_more};
ghost use Rattle.msg_serve.specs.Served.{TakesInLine};
ghost use Rattle.msg_serve.specs.declared.serve_fault.ServeFault.{ServeFault as FaultView};
ghost use Rattle.msg_serve.specs.inner.Input.{IsPart, IsRead};

use crate::ServeFault;
use crate::limits::MAX_LINE;
use msg_json::{ReadFault, ReportFault, Source};

/// How many bytes are read at once, at most.
const PIECE: usize = 4096;

/// What the input has next.
#[derive(Clone, Copy, Debug, PartialEq, Eq)]
pub enum Line {
    /// A line of at most `MAX_LINE` bytes; the last one may be without its line feed.
    Whole,
    /// A longer line, which was skipped.
    TooLong,
    /// No line is left.
    End,
}

/// Reads the next line into `line`, without its line feed. What the input has left is what lies
/// past that; after a fault it may be less, but no line past this one was begun.
pub fn read_line<I: Source>(input: &mut I, line: &mut Vec<u8>) -> Result<Line, ServeFault>
    ensures short { length line.new.items ≤ MAX_LINE }
    ensures line { IfOk result (λ read. IfSome (I.remaining input.old) (λ bytes.
        IsRead read bytes line.new.items)) }
    ensures rest { OnOk result (DropsThrough (I.remaining input.old) (I.remaining input.new) 10) }
    ensures begun { (fault : FaultView) → result ≡ Err fault
        → IfSome (I.remaining input.old) (λ bytes.
        TakesInLine bytes (I.remaining input.new) fault) }

    // `Input` means that a read failed.
    ensures failed { result ≡ Err ServeFault.Input
        → I.failures input.new ≡ one_failure_more (I.failures input.old) }
    ensures quiet { result ≢ Err ServeFault.Input
        → I.failures input.new ≡ I.failures input.old }

    ensures fewer { OnOk result (I.reads_left input.new < I.reads_left input.old) }
    ensures faults { IfErr result (λ fault. (fault ≡ ServeFault.Input)
        ⊎ (fault ≡ ServeFault.Report ReportFault.NoMemory)) }
{
    line.clear();
    loop {
        match add_part(input, line)? {
            Part::More => {}
            Part::Last => return Ok(Line::Whole),
            Part::TooLong => {
                skip_line(input)?;
                return Ok(Line::TooLong);
            }
            Part::End if line.is_empty() => return Ok(Line::End),
            Part::End => return Ok(Line::Whole),
        }
    }
}

/// What a part of a line was.
#[derive(Clone, Copy, PartialEq, Eq)]
enum Part {
    /// More of the line follows, or the end of the input.
    More,
    /// Its line feed came too.
    Last,
    /// The line has more than `MAX_LINE` bytes.
    TooLong,
    /// Nothing is left.
    End,
}

/// Reads on in the line, and adds what was read.
fn add_part<I: Source>(input: &mut I, line: &mut Vec<u8>) -> Result<Part, ServeFault>
    requires short { length line.old.items ≤ MAX_LINE }
    ensures short { length line.new.items ≤ MAX_LINE }
    ensures part { IfOk result (λ part. (taken : Text) × (added : Text)
        × Consumes (I.remaining input.old) (I.remaining input.new) taken
        × (line.new.items ≡ line.old.items ++ added)
        × IsPart part taken (MAX_LINE - length line.old.items) added) }
    ensures end { result ≡ Ok Part.End → IfSome (I.remaining input.old) (λ bytes. bytes ≡ []) }
    ensures in_line { OnErr result ((taken : Text)
        × Consumes (I.remaining input.old) (I.remaining input.new) taken
        × All (λ byte. byte ≢ 10) (take (length taken - 1) taken)) }
    ensures kept { result ≡ Err ServeFault.Input
        → Keeps (I.remaining input.old) (I.remaining input.new) }
    ensures failed { result ≡ Err ServeFault.Input
        → I.failures input.new ≡ one_failure_more (I.failures input.old) }
    ensures quiet { result ≢ Err ServeFault.Input
        → I.failures input.new ≡ I.failures input.old }
    ensures fewer { OnOk result (I.reads_left input.new < I.reads_left input.old) }
    ensures faults { IfErr result (λ fault. (fault ≡ ServeFault.Input)
        ⊎ (fault ≡ ServeFault.Report ReportFault.NoMemory)) }
{
    let mut piece = [0u8; PIECE];
    let room = MAX_LINE - line.len();
    let read = input.read_in_line(&mut piece[..PIECE.min(room + 1)])?;
    let (part, length) = part_of(&piece[..read], room);
    line.extend_from_slice(&piece[..length])?;
    Ok(part)
}

/// What the bytes that were read are of a line that may have so many more, and how many of them
/// belong to it.
fn part_of(read: &[u8], room: usize) -> (Part, usize)
    requires one_line { All (λ byte. byte ≢ 10) (take (length read.now - 1) read.now) }
    requires few { length read.now ≤ room + 1 }
    ensures fits { result.1 ≤ room }
    ensures within { result.1 ≤ length read.now }
    ensures part { IsPart result.0 read.now room (take result.1 read.now) }
{
    if read.is_empty() {
        (Part::End, 0)
    } else if ends_line(read) {
        (Part::Last, read.len() - 1)
    } else if read.len() > room {
        (Part::TooLong, 0)
    } else {
        (Part::More, read.len())
    }
}

/// Skips what is left of a line.
fn skip_line<I: Source>(input: &mut I) -> Result<(), ReadFault>
    ensures rest { OnOk result (DropsThrough (I.remaining input.old) (I.remaining input.new) 10) }
    ensures in_line { OnErr result ((taken : Text)
        × Consumes (I.remaining input.old) (I.remaining input.new) taken
        × All (λ byte. byte ≢ 10) taken) }
    ensures failed { OnErr result
        (I.failures input.new ≡ one_failure_more (I.failures input.old)) }
    ensures quiet { OnOk result (I.failures input.new ≡ I.failures input.old) }
    ensures fewer { OnOk result (I.reads_left input.new < I.reads_left input.old) }
{
    let mut piece = [0u8; PIECE];
    loop {
        let read = input.read_in_line(&mut piece)?;
        if read == 0 || ends_line(&piece[..read]) {
            return Ok(());
        }
    }
}

/// Whether these bytes of a line end with its line feed.
fn ends_line(read: &[u8]) -> bool
    requires one_line { All (λ byte. byte ≢ 10) (take (length read.now - 1) read.now) }
    ensures feed { result ≡ true → (line : Text) × (read.now ≡ line ++ 10 ∷ [])
        × All (λ byte. byte ≢ 10) line }
    ensures none { result ≡ false → All (λ byte. byte ≢ 10) read.now }
{
    matches!(read.last(), Some(b'\n'))
}
