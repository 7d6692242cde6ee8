// Reads the parts of a call.
ghost use Rattle.std.specs.Prelude.{◌≡◌, ◌<◌, IfOk};
ghost use Rattle.serde_json.specs.View.{view};
ghost use Rattle.msg_calls.specs.CallsFormat.{cursor_and_limit, cursor_part, message_part};

use msg_json::fault::at_step;
use msg_json::numbers::{natural_number, number, small_number};
use msg_json::{Fault, MAX_LIMIT, PathStep};
use serde_json::Value;

/// The number of a cursor that was made.
pub fn cursor(made: u32, part: &Value) -> Result<u32, Fault>
    ensures small { IfOk result (λ c. c < made) }
    ensures cursor { result ≡ cursor_part made (view part.now) }
{
    let number = at_step(PathStep::Part(1), number(part))?;
    at_step(PathStep::Part(1), small_number(number, made))
}

/// The number of a message.
pub fn message_number(part: &Value) -> Result<u64, Fault>
    ensures number { result ≡ message_part (view part.now) }
{
    let number = at_step(PathStep::Part(1), number(part))?;
    at_step(PathStep::Part(1), natural_number(number))
}

/// A cursor that was made, and how many messages it reads at most.
pub fn cursor_and_limit(made: u32, part: &Value, limit: &Value) -> Result<(u32, u32), Fault>
    ensures small { IfOk result (λ p. p.0 < made) }
    ensures both { result ≡ cursor_and_limit made (view part.now) (view limit.now) }
{
    let part = at_step(PathStep::Part(1), number(part))?;
    let limit = at_step(PathStep::Part(2), number(limit))?;
    let cursor = at_step(PathStep::Part(1), small_number(part, made))?;
    Ok((
        cursor,
        at_step(PathStep::Part(2), small_number(limit, MAX_LIMIT + 1))?,
    ))
}
