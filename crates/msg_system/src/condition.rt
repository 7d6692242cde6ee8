use crate::Access;
use msg_world::{ResNo, TypeNo, Value};

/// What a condition looks at.
#[derive(Clone, Copy, Debug, PartialEq, Eq)]
pub enum Probe<V = i64> {
    /// Whether messages are unread by its own cursor. It goes past them.
    OnMessage(TypeNo),
    /// Whether a resource has this value, by `==`.
    ResourceEquals(ResNo, V),
}

/// A probe whose answer is inverted `nots` times.
#[derive(Clone, Copy, Debug, PartialEq, Eq)]
pub struct Condition<V = i64> {
    pub nots: u8,
    pub probe: Probe<V>,
}

impl<V: Value> Condition<V> {
    ghost use Rattle.std.specs.Prelude.{◌≡◌, ◌+◌, ◌<◌};
    ghost use Rattle.msg_system.specs.Needs.{IsAccessOf, condition_needs};

    /// Whether messages of this type came since it was last asked.
    pub fn on_message(t: TypeNo) -> Condition<V>
        ensures condition { result ≡ record { nots = 0; probe = Probe.OnMessage t } }
    {
        Condition {
            nots: 0,
            probe: Probe::OnMessage(t),
        }
    }

    /// Whether a resource has this value.
    pub fn resource_equals(r: ResNo, value: V) -> Condition<V>
        ensures condition { result ≡ record { nots = 0; probe = Probe.ResourceEquals r value } }
    {
        Condition {
            nots: 0,
            probe: Probe::ResourceEquals(r, value),
        }
    }

    /// Whether this doesn't hold.
    pub fn not(self) -> Condition<V>
        requires few { self.nots < 255 }
        ensures condition { result ≡ record self { nots = self.nots + 1 } }
    {
        Condition {
            nots: self.nots + 1,
            probe: self.probe,
        }
    }

    /// What its probe reads.
    pub fn access(&self) -> Access
        ensures needs { IsAccessOf (condition_needs self.now) result }
    {
        match self.probe {
            Probe::OnMessage(t) => Access::none().with_read_type(t),
            Probe::ResourceEquals(r, _) => Access::none().with_read_res(r),
        }
    }
}
