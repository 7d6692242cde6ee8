// Counting messages.
ghost use Rattle.std.specs.Prelude.{◌≡◌};
ghost use Rattle.msg_function.specs.Ready.{counted_on};

use crate::{Function, Inbox, NoMemory, Outbox};
use msg_world::{Record, Value};

/// Counts these messages too.
fn counted_on<V: Value>(so_far: V, one: V, messages: &[Record<V>]) -> V
    ensures count { result ≡ counted_on V.values one so_far messages.now }
{
    let mut count = so_far;
    for _message in messages {
        count = count.plus(one);
    }
    count
}

/// Reads a type, and if messages came, writes how many there were so far: each adds `one`, as
/// `Value::plus` says.
///
/// ```
/// let count = Count { so_far: 0, one: 1 };
/// let seen = FunctionSystem::new(alloc, count, [Port::Messages(hits)], [Port::Resource(seen)])?;
/// ```
#[derive(Drop)]
pub struct Count<V = i64> {
    pub so_far: V,
    pub one: V,
}

impl<V: Value> Function<1, 1> for Count<V> {
    type Value = V;

    ghost use Rattle.msg_function.specs.Ready.{counted};

    ghost answers = { counted V.values };

    fn answer(&mut self, inbox: &Inbox<V>, outbox: &mut Outbox<V, 1>) -> Result<(), NoMemory> {
        if inbox.read(0).is_empty() {
            return Ok(());
        }
        self.so_far = counted_on(self.so_far, self.one, inbox.read(0));
        outbox.write(0, self.so_far)
    }
}
