// The turns of a frame as objects.
ghost use Rattle.std.specs.Prelude.{◌≡◌, ◌++◌, OnOk, codes, zip};
ghost use Rattle.msg_log_json.specs.Prelude as Spec;
ghost use Rattle.msg_reading.specs.Prelude.{system_name};

use crate::list::add_comma;
use crate::op::add_op;
use crate::reply::add_reply;
use msg_buffer::NoMemory;
use msg_frames::{Outcome, Turn};
use msg_reading::names::add_system_name;
use msg_reading::{Scenario, SystemSpec};
use msg_system::{Op, Reply};

/// The turns of a frame.
pub fn add_turns(text: &mut Vec<u8>, scenario: &Scenario, turns: &[Turn]) -> Result<(), NoMemory>
    ensures appends { OnOk result (text.new.items
        ≡ text.old.items ++ Spec.listed (Spec.turn_json scenario.now) turns.now) }
{
    for (k, turn) in turns.iter().enumerate() {
        add_comma(text, k)?;
        add_turn(text, scenario, turn)?;
    }
    Ok(())
}

fn add_turn(text: &mut Vec<u8>, scenario: &Scenario, turn: &Turn) -> Result<(), NoMemory>
    ensures appends { OnOk result
        (text.new.items ≡ text.old.items ++ Spec.turn_json scenario.now turn.now) }
{
    text.extend_from_slice(b"{\"system\":\"")?;
    add_system_name(text, scenario, turn.system)?;
    text.extend_from_slice(b"\"")?;
    add_outcome(text, scenario, turn)?;
    text.extend_from_slice(b"}")
}

/// What came of a turn; nothing if the scenario has no such system.
fn add_outcome(text: &mut Vec<u8>, scenario: &Scenario, turn: &Turn) -> Result<(), NoMemory>
    ensures appends { OnOk result
        (text.new.items ≡ text.old.items ++ Spec.outcome_json_of scenario.now turn.now) }
{
    let Some(system) = scenario.systems.as_slice().get(turn.system as usize) else {
        return Ok(());
    };
    match &turn.outcome {
        Outcome::Skipped => text.extend_from_slice(b",\"skipped\":true"),
        Outcome::Ran(replies) => add_replies(text, scenario, system, replies.as_slice()),
    }
}

/// What the ops of a system were answered.
fn add_replies(
    text: &mut Vec<u8>,
    scenario: &Scenario,
    system: &SystemSpec,
    replies: &[Reply],
) -> Result<(), NoMemory>
    ensures appends { OnOk result
        (text.new.items ≡ text.old.items ++ Spec.replies_json scenario.now system.now replies.now) }
{
    text.extend_from_slice(b",\"replies\":[")?;
    add_answers(text, scenario, system.program.ops.as_slice(), replies)?;
    text.extend_from_slice(b"]")
}

/// Each op with its reply.
fn add_answers(
    text: &mut Vec<u8>,
    scenario: &Scenario,
    ops: &[Op],
    replies: &[Reply],
) -> Result<(), NoMemory>
    ensures appends { OnOk result (text.new.items ≡ text.old.items
        ++ Spec.listed (Spec.answer_json scenario.now) (zip ops.now replies.now)) }
{
    for k in 0..ops.len().min(replies.len()) {
        add_comma(text, k)?;
        add_answer(text, scenario, &ops[k], &replies[k])?;
    }
    Ok(())
}

/// An op with its reply.
fn add_answer(
    text: &mut Vec<u8>,
    scenario: &Scenario,
    op: &Op,
    reply: &Reply,
) -> Result<(), NoMemory>
    ensures appends { OnOk result
        (text.new.items ≡ text.old.items ++ Spec.answer_json scenario.now (op.now, reply.now)) }
{
    text.extend_from_slice(b"{\"op\":\"")?;
    add_op(text, scenario, op)?;
    text.extend_from_slice(b"\"")?;
    add_reply(text, scenario, reply)?;
    text.extend_from_slice(b"}")
}
