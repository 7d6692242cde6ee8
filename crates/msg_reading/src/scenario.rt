use crate::{Kind, Name};
use msg_frames::{Frame, Items, Place};
use msg_order::Rule;
use msg_system::Program;

/// One system of a scenario.
#[derive(Debug, Drop)]
pub struct SystemSpec {
    pub name: Name,
    pub kind: Kind,
    pub program: Program,
    pub place: Place,
}

/// A world, the systems over it, and the frames to be run. Types, resources and systems are
/// numbered by their place here.
///
/// `read_scenario` makes one of a file. Code may make each part itself, and then asks `is_runnable`
/// whether the whole can be run.
///
/// ```
/// let hit = (Name::new(alloc, "hit")?, 10);
/// let scenario = Scenario {
///     types: Items::from_vec(vec![in alloc; hit]?),
///     resources: Items::from_vec(Vec::new(alloc)),
///     held: false,
///     systems: Items::from_vec(systems),
///     rules: Items::from_vec(vec![in alloc; Rule::before(0, 1)]?),
///     frames: Items::from_vec(frames),
/// };
/// let can_be_run = scenario.is_runnable();
/// ```
#[derive(Debug, Drop)]
pub struct Scenario {
    /// Each message type's name, and the greatest number of messages that may ever be written.
    pub types: Items<(Name, u64)>,
    /// Each resource's name, and its value at first.
    pub resources: Items<(Name, i64)>,
    /// Whether types are updated only in frames after a signal.
    pub held: bool,
    pub systems: Items<SystemSpec>,
    pub rules: Items<Rule>,
    pub frames: Items<Frame>,
}
