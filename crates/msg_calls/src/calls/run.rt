// Calls made one after another. Their lines are gathered, and put into the sink in large pieces.
ghost use Rattle.std.specs.Prelude.{◌≡◌, ◌⊎◌, ◌++◌, if◌then◌else◌, Err, IfErr, OnOk, OnErr, length, true};
ghost use Rattle.std.specs.Io.KnownBytes.{Appends};
ghost use Rattle.msg_json.specs.Prelude.{AppendsPrefix, one_failure_more};
ghost use Rattle.msg_calls.specs.{inner.Running.AreIn, inner.Running.TakesFront, Prelude.BufferState, Prelude.TakesFirstLines, Prelude.after, Prelude.calls_text, Prelude.has_cursor, Prelude.line as line_of_call};

use crate::call::Call;
use crate::calls::Calls;
use crate::calls::answer::answer;
use msg_buffer::{MessageCursor, Messages};
use msg_json::{ReportFault, Sink, put_text};
use std::alloc::Global;

/// How many bytes are gathered before they are put.
const FLUSH_BYTES: usize = 65536;

/// Makes the calls of a file on a new buffer, and puts the line of each into the sink.
///
/// # Errors
///
/// `NoMemory` if there was no memory for a call; the lines of the calls before it were put then.
/// `Write` if the sink failed.
pub fn run_calls<S: Sink>(alloc: Global, calls: &Calls, sink: &mut S) -> Result<(), ReportFault>
    ensures ok { OnOk result
        (Appends (S.contents sink.old) (S.contents sink.new) (calls_text calls.now)) }
    ensures quiet { OnOk result (S.failures sink.new ≡ S.failures sink.old) }
    ensures prefix { OnErr result
        (AppendsPrefix (S.contents sink.old) (S.contents sink.new) (calls_text calls.now)) }

    // The sink failed if the fault is `Write`, and not if it is `NoMemory`; then it took the lines
    // of the calls before the one that there was no memory for.
    ensures write { result ≡ Err ReportFault.Write
        → S.failures sink.new ≡ one_failure_more (S.failures sink.old) }
    ensures memory { result ≡ Err ReportFault.NoMemory → S.failures sink.new ≡ S.failures sink.old }
    ensures lines { result ≡ Err ReportFault.NoMemory
        → TakesFirstLines (S.contents sink.old) (S.contents sink.new) calls.now }
    ensures faults { IfErr result
        (λ fault. (fault ≡ ReportFault.Write) ⊎ (fault ≡ ReportFault.NoMemory)) }
{
    let mut messages = Messages::new(alloc, u64::from(calls.limit()));
    let mut cursors = Vec::new(alloc);
    if cursors.push(messages.get_cursor()).is_err() {
        return Err(ReportFault::NoMemory);
    }
    let (mut line, mut gathered) = (Vec::new(alloc), Vec::new(alloc));
    for call in calls.calls() {
        answer_next(
            call,
            &mut messages,
            &mut cursors,
            &mut line,
            &mut gathered,
            sink,
        )?;
    }
    put_text(gathered.as_slice(), sink)
}

/// Makes a call, and gathers its line, which is made in `line` first. If there is no memory for
/// the call, it puts the lines that were gathered. It puts them too if they are `FLUSH_BYTES` or
/// more, or if there is no memory to gather the line, and then the line.
fn answer_next<S: Sink>(
    call: &Call,
    messages: &mut Messages<i64>,
    cursors: &mut Vec<MessageCursor>,
    line: &mut Vec<u8>,
    gathered: &mut Vec<u8>,
    sink: &mut S,
) -> Result<(), ReportFault>
    requires { has_cursor (length cursors.old.items) call.now ≡ true }
    ensures ok { OnOk result ((s : BufferState) → AreIn messages.old cursors.old.items s
        → TakesFront (S.contents sink.old) (S.contents sink.new)
        (gathered.old.items ++ line_of_call call.now s) gathered.new.items) }
    ensures state { OnOk result ((s : BufferState) → AreIn messages.old cursors.old.items s
        → AreIn messages.new cursors.new.items (after call.now s)) }
    ensures quiet { OnOk result (S.failures sink.new ≡ S.failures sink.old) }
    ensures prefix { OnErr result ((s : BufferState) → AreIn messages.old cursors.old.items s
        → AppendsPrefix (S.contents sink.old) (S.contents sink.new)
        (gathered.old.items ++ line_of_call call.now s)) }
    ensures write { result ≡ Err ReportFault.Write
        → S.failures sink.new ≡ one_failure_more (S.failures sink.old) }
    ensures memory { result ≡ Err ReportFault.NoMemory → S.failures sink.new ≡ S.failures sink.old }
    ensures lines { result ≡ Err ReportFault.NoMemory
        → Appends (S.contents sink.old) (S.contents sink.new) gathered.old.items }
    ensures faults { IfErr result
        (λ fault. (fault ≡ ReportFault.Write) ⊎ (fault ≡ ReportFault.NoMemory)) }
{
    line.clear();
    let Ok(()) = answer(*gathered.allocator(), call, messages, cursors, line) else {
        put_text(gathered.as_slice(), sink)?;
        return Err(ReportFault::NoMemory);
    };
    if add_where_room(gathered, line.as_slice()) {
        return Ok(());
    }
    put_text(gathered.as_slice(), sink)?;
    gathered.clear();
    put_text(line.as_slice(), sink)
}

/// Adds a line unless many are there or memory is refused, and tells whether it did.
fn add_where_room(gathered: &mut Vec<u8>, line: &[u8]) -> bool
    ensures { gathered.new.items
        ≡ (if result then gathered.old.items ++ line.now else gathered.old.items) }
{
    gathered.len() < FLUSH_BYTES && gathered.extend_from_slice(line).is_ok()
}
