use crate::Items;
use msg_system::Condition;

/// What stands beside a system: its run conditions, and the frame that it joins with.
#[derive(Debug, PartialEq, Eq, Drop)]
pub struct Place<V = i64> {
    /// All of them must hold for the system to run on its turn. At most 8 in a scenario file.
    pub conditions: Items<Condition<V>>,
    /// The frame that it joins with, from 1 to `LAST_JOIN`. With 1 it joins as the engine is
    /// made.
    pub join: u32,
}
