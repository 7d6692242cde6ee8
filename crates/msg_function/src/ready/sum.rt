// Adding up values.
use crate::{Function, Inbox, NoMemory, Outbox};
use msg_system::added_up;
use msg_world::Value;

/// Reads a type, and if messages came, writes the sum of all values so far, as `Value::plus` says.
///
/// ```
/// let score = FunctionSystem::new(alloc, Sum { so_far: 0 }, [Port::Messages(hits)], [Port::Resource(score)])?;
/// ```
#[derive(Drop)]
pub struct Sum<V = i64> {
    pub so_far: V,
}

impl<V: Value> Function<1, 1> for Sum<V> {
    type Value = V;

    ghost use Rattle.msg_function.specs.Ready.{summed};

    ghost answers = { summed V.values };

    fn answer(&mut self, inbox: &Inbox<V>, outbox: &mut Outbox<V, 1>) -> Result<(), NoMemory> {
        if inbox.read(0).is_empty() {
            return Ok(());
        }
        self.so_far = added_up(self.so_far, inbox.read(0));
        outbox.write(0, self.so_far)
    }
}
