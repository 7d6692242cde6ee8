// One call of a file, by its head and the number of parts that follow it.
ghost use Rattle.std.specs.Prelude.{◌≡◌, ◌<◌, IfOk};
ghost use Rattle.serde_json.specs.View.{view};
ghost use Rattle.msg_calls.specs.CallsFormat as Spec;
ghost use Rattle.msg_json.specs.{Faults.Reads, Faults.in_element};
ghost use Rattle.msg_calls.specs.inner.Cursors.{FitsCursors};

use crate::call::Call;
use crate::calls::read::part;
use crate::limits::MAX_CURSORS;
use msg_json::fault::at_step;
use msg_json::json::head_and_parts;
use msg_json::{Fault, PathStep, Reason, numbers};
use serde_json::Value;
use std::alloc::Global;

/// The call of this number, if so many cursors were made before.
pub fn read_call(alloc: Global, made: u32, number: usize, value: &Value) -> Result<Call, Fault>
    ensures call { Reads (in_element number (Spec.call_of made (view value.now))) result }
    ensures fits { IfOk result (FitsCursors made) }
{
    at_step(PathStep::Element(number), read_headed(alloc, made, value))
}

fn read_headed(alloc: Global, made: u32, value: &Value) -> Result<Call, Fault>
    ensures call { Reads (Spec.call_of made (view value.now)) result }
    ensures fits { IfOk result (FitsCursors made) }
{
    let (head, parts) = head_and_parts(value)?;
    match parts {
        [] => read_bare(made, head),
        [part] => read_with_one(alloc, made, head, part),
        [part, other] => read_with_two(made, head, part, other),
        [_, _, _, ..] => Err(Fault::here(Reason::Parts)),
    }
}

fn read_bare(made: u32, head: &str) -> Result<Call, Fault>
    ensures call { result ≡ Spec.bare_call made head.now }
    ensures fits { IfOk result (FitsCursors made) }
{
    match head {
        "update" => Ok(Call::Update),
        "cursor" => one_cursor_more(made, Call::Cursor),
        "cursor_current" => one_cursor_more(made, Call::CursorCurrent),
        "current" => Ok(Call::Current),
        "oldest" => Ok(Call::Oldest),
        "count" => Ok(Call::Count),
        "total" => Ok(Call::Total),
        "drain" => Ok(Call::Drain),
        "clear_all" => Ok(Call::ClearAll),
        _ => Err(Fault::here(Reason::Parts)),
    }
}

/// A call that makes a cursor, if one more may be made.
fn one_cursor_more(made: u32, call: Call) -> Result<Call, Fault>
    ensures call { result ≡ Spec.one_cursor_more made call }
    ensures room { IfOk result (λ c. (c ≡ call) × (made < MAX_CURSORS)) }
{
    if made < MAX_CURSORS {
        Ok(call)
    } else {
        Err(Fault::here(Reason::AtMost(MAX_CURSORS as usize)))
    }
}

fn read_with_one(alloc: Global, made: u32, head: &str, part: &Value) -> Result<Call, Fault>
    ensures call { Reads (Spec.call_with_one made head.now (view part.now)) result }
    ensures fits { IfOk result (FitsCursors made) }
{
    match head {
        "write" => Ok(Call::Write(at_step(PathStep::Part(1), numbers::value(part))?)),
        "batch" => Ok(Call::Batch(at_step(PathStep::Part(1), numbers::values(alloc, part))?)),
        "read" => Ok(Call::Read(part::cursor(made, part)?, None)),
        "missed" => Ok(Call::Missed(part::cursor(made, part)?)),
        "len" => Ok(Call::Len(part::cursor(made, part)?)),
        "clear" => Ok(Call::Clear(part::cursor(made, part)?)),
        "get" => Ok(Call::Get(part::message_number(part)?)),
        _ => Err(Fault::here(Reason::Parts)),
    }
}

fn read_with_two(made: u32, head: &str, part: &Value, other: &Value) -> Result<Call, Fault>
    ensures call { result ≡ Spec.call_with_two made head.now (view part.now) (view other.now) }
    ensures fits { IfOk result (FitsCursors made) }
{
    if head != "read" {
        return Err(Fault::here(Reason::Parts));
    }
    let (cursor, limit) = part::cursor_and_limit(made, part, other)?;
    Ok(Call::Read(cursor, Some(limit)))
}
