use crate::{ResNo, TypeNo};

/// A part of a world that a job may use: the messages of a type, a resource, or the registry of
/// signals.
#[derive(Clone, Copy, Debug, PartialEq, Eq)]
pub enum Part {
    OfType(TypeNo),
    OfResource(ResNo),
    Registry,
}
