/// Where the cursors of a system stand as it joins.
#[derive(Clone, Copy, Debug, PartialEq, Eq)]
pub enum Start {
    /// At 0: they read all that is kept, and miss what was dropped.
    Zero,
    /// At the counts: they read what is written from then on.
    Current,
}
