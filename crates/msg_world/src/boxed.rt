// Parts in boxes.
use std::marker::Model;

/// A part in a box, so that little is moved where it goes out of a world and comes home. Contracts
/// see the part.
#[derive(Drop)]
pub(crate) struct Boxed<T> {
    pub part: Box<T>,
}

impl<T> Model for Boxed<T> {
    ghost Value = { T };

    ghost view = { λ b. b.part.value };
}
