// What wasn't written, since too few numbers of a type were left.
ghost use Rattle.std.specs.Prelude.{◌≡◌, ◌<◌, ◌≤◌, ◌&&◌, List, false, length, nat_lt, slice_get};
ghost use Rattle.std.specs.Option.{option_map_or};
ghost use Rattle.msg_system.specs.Prelude.{is_spent, refused_by};
ghost use Rattle.msg_function.specs.{declared.port.Port.Port, Functions.write_op, Functions.written_op};

use crate::Port;
use msg_system::{Refused, Reply};

/// How many ops write these values to a part: none if there are no values, and else one.
pub(crate) fn op_count<V>(values: &[V]) -> usize
    ensures count { (port : Port) → result ≡ length (written_op port values.now) }
    ensures few { result ≤ 1 }
    ensures some { 0 < result → 0 < length values.now }
{
    if values.is_empty() { 0 } else { 1 }
}

/// Whether there are such values, and the reply to the op that writes them, which has this number,
/// tells that they weren't written.
pub(crate) fn is_refused<V>(values: &[V], replies: &[Reply<V>], k: usize) -> bool
    ensures refused { result ≡ (nat_lt 0 (length values.now)
        && option_map_or is_spent (slice_get replies.now k) false) }
{
    !values.is_empty() && replies.get(k).is_some_and(|reply| reply.is_spent())
}

/// What `n` messages to a part come to if they were answered so.
pub(crate) fn refused_of<V>(port: Port, n: u64, reply: &Reply<V>) -> Option<Refused>
    ensures refused { (values : List V) (last : V) → length values ≡ n
        → result ≡ refused_by (write_op port values last) reply.now }
{
    match port {
        Port::Messages(of_type) if matches!(reply, Reply::Spent) => Some(Refused { of_type, n }),
        _ => None,
    }
}
