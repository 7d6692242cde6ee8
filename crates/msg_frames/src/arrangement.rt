use msg_order::Rule;
use msg_world::Access;

/// What the order of an engine's turns comes of. Of each system, by number: what it reads and
/// writes, its conditions too, and the frame that it joins with. Then the rules, and how many types
/// and resources the world has.
#[derive(Clone, Copy, Debug)]
pub struct Arrangement<'a> {
    pub accesses: &'a [Access],
    pub joins: &'a [u32],
    pub rules: &'a [Rule],
    pub types: u32,
    pub resources: u32,
}
