// The messages of the game.

/// Who hits.
#[derive(Clone, Copy, Debug, PartialEq, Eq)]
pub enum Hero {
    Archer,
    Mage,
}

/// A hit, and what it takes.
#[derive(Clone, Copy, Debug, PartialEq, Eq)]
pub struct Damage {
    pub by: Hero,
    pub points: u32,
}
