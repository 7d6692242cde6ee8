// The read that a frame told last. Many systems read the same messages, and then the text that was
// made for the first is copied.
ghost use Rattle.std.specs.Prelude.{◌≡◌, ◌-◌, ◌≤◌, ◌++◌, IsTrue, OnOk, drop, length, take};
ghost use Rattle.msg_scenario.specs.{Prelude.reply_text, inner.LastRead.IsInText};
ghost use Rattle.msg_system.specs.declared.reply.Reply.TheVariants as reply;

use crate::reports::reply::add_took;
use msg_buffer::NoMemory;
use msg_reading::Scenario;
use msg_system::Took;
use msg_world::Record;

/// What a read took, and from where to where that stands in the text of its frame.
#[derive(Clone, Copy)]
pub struct LastRead<'a> {
    took: &'a Took,
    start: usize,
    end: usize,
}

/// What a read took, as that follows the op on its line. If the read that was told last took the
/// same, its text is copied.
pub fn add_read<'a>(
    text: &mut Vec<u8>,
    last: &mut Option<LastRead<'a>>,
    scenario: &Scenario,
    took: &'a Took,
) -> Result<(), NoMemory>
    requires last { IsInText scenario.now last.old text.old.items }
    ensures appends { OnOk result
        (text.new.items ≡ text.old.items ++ reply_text scenario.now (reply.Read took.now)) }
    ensures last { OnOk result (IsInText scenario.now last.new text.new.items) }
{
    if let Some(read) = last {
        if is_same(read.took, took) {
            return copy_text(text, read.start, read.end);
        }
    }
    let start = text.len();
    add_took(text, scenario, took)?;
    let end = text.len();
    *last = Some(LastRead { took, start, end });
    Ok(())
}

/// Adds once more what stands from `start` to `end`.
fn copy_text(text: &mut Vec<u8>, start: usize, end: usize) -> Result<(), NoMemory>
    requires order { start ≤ end }
    requires within { end ≤ length text.old.items }
    ensures { OnOk result (text.new.items
        ≡ text.old.items ++ take (end - start) (drop start text.old.items)) }
{
    let at = text.len();
    text.resize(at + (end - start), 0)?;
    let (before, again) = text.split_at_mut(at);
    again.copy_from_slice(&before[start..end]);
    Ok(())
}

/// Whether two reads took the same.
fn is_same(a: &Took, b: &Took) -> bool
    ensures { IsTrue result → a.now ≡ b.now }
{
    a.missed == b.missed && a.first == b.first && are_same(a.items.as_slice(), b.items.as_slice())
}

/// Whether two lists have the same messages.
#[tactic(auto, using(crate::proofs::SameReads::same_record))]
fn are_same(a: &[Record], b: &[Record]) -> bool
    ensures { IsTrue result → a.now ≡ b.now }
{
    if a.len() != b.len() {
        return false;
    }
    for k in 0..a.len() {
        if a[k].writer != b[k].writer || a[k].value != b[k].value {
            return false;
        }
    }
    true
}
