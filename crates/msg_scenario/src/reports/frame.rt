// The text of one frame.
ghost use Rattle.std.specs.Prelude.{◌≡◌, ◌<◌, ◌++◌, [], IsOk, OnErr, OnOk, flat_map, length, zip};
ghost use Rattle.msg_scenario.specs.Prelude.{answered_line, frame_text, post_line, posts_text, reply_text, turn_text};
ghost use Rattle.msg_scenario.specs.inner.{LastRead.IsInText, LineStarts.AreLines, LineStarts.finished_outcome, LineStarts.finished_turn};

use crate::reports::last_read::{LastRead, add_read};
use crate::reports::lines::SystemLines;
use crate::reports::reply::add_reply;
use msg_buffer::NoMemory;
use msg_exec::{Frame, Log, Outcome, Turn};
use msg_json::numerals::add_count;
use msg_reading::Scenario;
use msg_reading::names::add_type;
use msg_system::Reply;
use msg_world::TypeNo;

/// The text of a frame that had this log.
pub fn add_frame(
    text: &mut Vec<u8>,
    scenario: &Scenario,
    lines: &[SystemLines],
    number: u64,
    frame: &Frame,
    log: &Log,
) -> Result<(), NoMemory>
    requires lines { AreLines scenario.now lines.now }
    ensures appends { OnOk result
        (text.new.items ≡ text.old.items ++ frame_text scenario.now number frame.now log.now) }
{
    add_count(text, b"frame ", number)?;
    text.extend_from_slice(b"\n")?;
    add_posts(text, scenario, frame.posts.as_slice(), log.posts.as_slice())?;
    add_turns(text, scenario, lines, log.turns.as_slice())
}

fn add_posts(
    text: &mut Vec<u8>,
    scenario: &Scenario,
    posts: &[(TypeNo, i64)],
    replies: &[Reply],
) -> Result<(), NoMemory>
    ensures appends { OnOk result
        (text.new.items ≡ text.old.items ++ posts_text scenario.now posts.now replies.now) }
    ensures refused { OnErr result ((0 < length posts.now) × (0 < length replies.now)) }
{
    for ((t, _), reply) in posts.iter().zip(replies) {
        add_post(text, scenario, *t, reply)?;
    }
    Ok(())
}

/// The line of a post to a type.
fn add_post(
    text: &mut Vec<u8>,
    scenario: &Scenario,
    t: TypeNo,
    reply: &Reply,
) -> Result<(), NoMemory>
    ensures { OnOk result
        (text.new.items ≡ text.old.items ++ post_line scenario.now t reply.now) }
{
    text.extend_from_slice(b"host post ")?;
    add_type(text, scenario, t)?;
    add_reply(text, scenario, reply)?;
    text.extend_from_slice(b"\n")
}

fn add_turns(
    text: &mut Vec<u8>,
    scenario: &Scenario,
    lines: &[SystemLines],
    turns: &[Turn],
) -> Result<(), NoMemory>
    requires lines { AreLines scenario.now lines.now }
    ensures appends { OnOk result
        (text.new.items ≡ text.old.items ++ flat_map (turn_text scenario.now) turns.now) }
    ensures no_memory { turns.now ≡ [] → IsOk result }
{
    let mut last = None;
    for turn in turns {
        add_turn(text, &mut last, scenario, lines, turn)?;
    }
    Ok(())
}

fn add_turn<'a>(
    text: &mut Vec<u8>,
    last: &mut Option<LastRead<'a>>,
    scenario: &Scenario,
    lines: &[SystemLines],
    turn: &'a Turn,
) -> Result<(), NoMemory>
    requires last { IsInText scenario.now last.old text.old.items }
    ensures appends { OnOk result
        (text.new.items ≡ text.old.items ++ finished_turn scenario.now lines.now turn.now) }
    ensures last { OnOk result (IsInText scenario.now last.new text.new.items) }
{
    match lines.get(turn.system as usize) {
        Some(lines) => add_outcome(text, last, scenario, lines, &turn.outcome),
        None => Ok(()),
    }
}

/// What came of a system's turn.
fn add_outcome<'a>(
    text: &mut Vec<u8>,
    last: &mut Option<LastRead<'a>>,
    scenario: &Scenario,
    lines: &SystemLines,
    outcome: &'a Outcome,
) -> Result<(), NoMemory>
    requires last { IsInText scenario.now last.old text.old.items }
    ensures appends { OnOk result
        (text.new.items ≡ text.old.items ++ finished_outcome scenario.now lines.now outcome.now) }
    ensures last { OnOk result (IsInText scenario.now last.new text.new.items) }
{
    match outcome {
        Outcome::Skipped => text.extend_from_slice(lines.skipped.as_slice()),
        Outcome::Ran(replies) => {
            let starts = lines.starts.as_slice();
            add_ops(text, last, scenario, starts, replies.as_slice())
        }
    }
}

/// The line of each op, by its start.
fn add_ops<'a>(
    text: &mut Vec<u8>,
    last: &mut Option<LastRead<'a>>,
    scenario: &Scenario,
    starts: &[Vec<u8>],
    replies: &'a [Reply],
) -> Result<(), NoMemory>
    requires last { IsInText scenario.now last.old text.old.items }
    ensures appends { OnOk result (text.new.items ≡ text.old.items
        ++ flat_map (λ p. answered_line scenario.now p.0.items p.1) (zip starts.now replies.now)) }
    ensures last { OnOk result (IsInText scenario.now last.new text.new.items) }
    ensures refused { OnErr result ((0 < length starts.now) × (0 < length replies.now)) }
{
    for (start, reply) in starts.iter().zip(replies) {
        add_line(text, last, scenario, start.as_slice(), reply)?;
    }
    Ok(())
}

/// The line of an op.
fn add_line<'a>(
    text: &mut Vec<u8>,
    last: &mut Option<LastRead<'a>>,
    scenario: &Scenario,
    start: &[u8],
    reply: &'a Reply,
) -> Result<(), NoMemory>
    requires last { IsInText scenario.now last.old text.old.items }
    ensures appends { OnOk result
        (text.new.items ≡ text.old.items ++ answered_line scenario.now start.now reply.now) }
    ensures last { OnOk result (IsInText scenario.now last.new text.new.items) }
{
    text.extend_from_slice(start)?;
    add_answer(text, last, scenario, reply)?;
    text.push(b'\n')?;
    Ok(())
}

/// What an op was answered, as that follows the op on its line.
fn add_answer<'a>(
    text: &mut Vec<u8>,
    last: &mut Option<LastRead<'a>>,
    scenario: &Scenario,
    reply: &'a Reply,
) -> Result<(), NoMemory>
    requires last { IsInText scenario.now last.old text.old.items }
    ensures appends { OnOk result
        (text.new.items ≡ text.old.items ++ reply_text scenario.now reply.now) }
    ensures last { OnOk result (IsInText scenario.now last.new text.new.items) }
{
    match reply {
        Reply::Read(took) => add_read(text, last, scenario, took),
        _ => add_reply(text, scenario, reply),
    }
}
