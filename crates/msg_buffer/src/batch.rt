// Writing many messages at once.
ghost use Rattle.std.specs.Prelude.{◌≡◌, ◌+◌, ◌^◌, ◌<◌, ◌≤◌, ◌++◌, List, length, vec_len, vec_capacity};
ghost use Rattle.std.specs.{Fn.FnReturnsAt, List.AllZip};
ghost use Rattle.msg_buffer.specs.Prelude.{numbered};

use crate::instance::{Instance, MessageId};
use std::alloc::Allocator;

/// Appends the messages under the numbers from `first` on. The room was made before.
pub(crate) fn append_numbered<M: Drop, A: Allocator>(
    instances: &mut Vec<Instance<M>, A>,
    first: u64,
    batch: Vec<M, A>,
)
    requires room { vec_len instances.old + vec_len batch ≤ vec_capacity instances.old }
    requires numbers { first + vec_len batch < 2 ^ 64 }
    ensures appended { instances.new.items ≡ instances.old.items ++ numbered first batch.items }
    ensures long { vec_len instances.new ≡ vec_len instances.old + vec_len batch }
{
    let mut next = first;
    for message in batch {
        let id = MessageId(next);
        instances.push_reserved(Instance { id, message });
        next += 1;
    }
}

/// Appends what the function makes of each item, under the numbers from `first` on. The room was
/// made before. The list comes and goes by value, so that its length isn't stored for each item.
pub(crate) fn append_each<T, M, A: Allocator, F: Fn(&T) -> M>(
    mut instances: Vec<Instance<M>, A>,
    first: u64,
    items: &[T],
    message_of: F,
) -> Vec<Instance<M>, A>
    requires callable { F.IsAlwaysCallable message_of }
    requires room { vec_len instances + length items.now ≤ vec_capacity instances }
    requires numbers { first + length items.now < 2 ^ 64 }
    ensures appended { (ms : List M) × AllZip (FnReturnsAt F.Fn message_of) items.now ms
        × (result.items ≡ instances.items ++ numbered first ms) }
{
    let mut next = first;
    for item in items {
        let id = MessageId(next);
        let message = message_of(item);
        instances.push_reserved(Instance { id, message });
        next += 1;
    }
    instances
}
