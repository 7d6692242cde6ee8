// Forwarding what passes a test.
ghost use Rattle.std.specs.Prelude.{◌≡◌, OnOk, if◌then◌else◌};
ghost use Rattle.msg_function.specs.Functions.{answered, put};

use crate::{Function, Inbox, NoMemory, Outbox};
use msg_world::Value;

/// Says which values pass.
pub trait Test: Drop {
    type Value: Value;

    ghost use Rattle.std.specs.Prelude.{◌≡◌, Bool};

    // Whether a value passes.
    ghost passes: { Self → Self.Value → Bool };

    /// Whether this value passes.
    fn passes(&self, value: Self::Value) -> bool
        ensures passes { result ≡ passes self.now value };
}

/// Reads a type, and writes again the values that pass a test, in order. If it writes a resource,
/// that has the last of them.
///
/// ```
/// /// Who was hit hard.
/// impl Test for Hard {
///     type Value = i64;
///
///     ghost passes = { λ hard points. int_lt (pos 9) points };
///
///     fn passes(&self, points: i64) -> bool {
///         points > 9
///     }
/// }
///
/// let hard = FunctionSystem::new(alloc, Filter { test: Hard }, [Port::Messages(hits)], [Port::Messages(falls)])?;
/// ```
#[derive(Drop)]
pub struct Filter<T> {
    pub test: T,
}

/// Writes a value again if it passes.
fn write_if<T: Test>(
    test: &T,
    value: T::Value,
    outbox: &mut Outbox<T::Value, 1>,
) -> Result<(), NoMemory>
    ensures written { OnOk result (answered outbox.new ≡ (if T.passes test.now value
        then put 0 value (answered outbox.old) else answered outbox.old)) }
{
    if test.passes(value) {
        outbox.write(0, value)?;
    }
    Ok(())
}

impl<T: Test> Function<1, 1> for Filter<T> {
    type Value = T::Value;

    ghost use Rattle.msg_function.specs.Ready.{filtered};

    ghost answers = { filtered T.passes };

    fn answer(
        &mut self,
        inbox: &Inbox<T::Value>,
        outbox: &mut Outbox<T::Value, 1>,
    ) -> Result<(), NoMemory> {
        for message in inbox.read(0) {
            write_if(&self.test, message.value, outbox)?;
        }
        Ok(())
    }
}
