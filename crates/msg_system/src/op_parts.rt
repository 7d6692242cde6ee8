// The parts of a world that one op uses.
ghost use Rattle.std.specs.Prelude.{◌≡◌, ◌≢◌, ◌||◌, ◌&&◌, Some};
ghost use Rattle.msg_world.specs.{declared.part.Part.Part as PartView, declared.part.Part.TheVariants.Registry, Prelude.reads, Prelude.writes};
ghost use Rattle.msg_system.specs.Needs.{is_none_or, is_part, may_read, needs_of};

use msg_world::{Access, Part};

/// An op reads one part at most, and writes one part at most.
#[derive(Clone, Copy)]
pub struct OpParts {
    pub read: Option<Part>,
    pub written: Option<Part>,
}

impl OpParts {
    /// Whether they are no more than this access.
    pub(crate) fn are_in(&self, access: &Access) -> bool
        ensures within { result ≡ (is_none_or (may_read (needs_of access.now)) self.now.read
            && is_none_or (writes access.now) self.now.written) }
    {
        let may_read = match &self.read {
            None => true,
            Some(Part::OfType(t)) => access.reads_type(*t),
            Some(Part::OfResource(r)) => access.reads_res(*r) || access.writes_res(*r),
            Some(Part::Registry) => false,
        };
        let may_write = match &self.written {
            None => true,
            Some(Part::OfType(t)) => access.writes_type(*t),
            Some(Part::OfResource(r)) => access.writes_res(*r),
            Some(Part::Registry) => access.registry,
        };
        may_read && may_write
    }

    /// An access with these beside. (The registry is only ever written.)
    pub(crate) fn added_to(&self, access: Access) -> Access
        requires signals { self.now.read ≢ Some Registry }
        ensures reads { (p : PartView)
            → reads result p ≡ (is_part self.now.read p || reads access p) }
        ensures writes { (p : PartView)
            → writes result p ≡ (is_part self.now.written p || writes access p) }
    {
        let access = match &self.read {
            Some(Part::OfType(t)) => access.with_read_type(*t),
            Some(Part::OfResource(r)) => access.with_read_res(*r),
            Some(Part::Registry) | None => access,
        };
        match &self.written {
            Some(Part::OfType(t)) => access.with_write_type(*t),
            Some(Part::OfResource(r)) => access.with_write_res(*r),
            Some(Part::Registry) => access.with_registry(),
            None => access,
        }
    }
}
