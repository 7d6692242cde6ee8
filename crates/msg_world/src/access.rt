ghost use Rattle.std.specs.Prelude.{◌≡◌, ◌||◌, ◌&&◌, not, ◌↔◌, true, false, IsTrue};

use crate::{ResNo, TypeNo, masks};

/// What a job reads and writes: a bit for each message type and each resource, by its number, and
/// whether it signals to the registry.
///
/// Two jobs may run side by side if their accesses don't conflict.
#[derive(Clone, Copy, Debug, Default, PartialEq, Eq)]
pub struct Access {
    pub read_types: u64,
    pub write_types: u64,
    pub read_res: u64,
    pub write_res: u64,
    pub registry: bool,
}

impl Access {
    ghost use Rattle.msg_world.specs.Access.{Part, OfType, OfResource, Registry, reads, writes, uses, same_part, Conflict, IsClash, FitsWorldOf, WritesTypeOrResource};

    /// The access that uses nothing.
    pub fn none() -> Self
        ensures nothing { (p : Part) → uses result p ≡ false }
    {
        Access::default()
    }

    /// This access, and reads of a type.
    pub fn with_read_type(self, t: TypeNo) -> Self
        ensures reads { (p : Part) → reads result p ≡ (same_part p (OfType t) || reads self p) }
        ensures writes { (p : Part) → writes result p ≡ writes self p }
    {
        Access {
            read_types: masks::with_bit(self.read_types, t.number()),
            ..self
        }
    }

    /// This access, and writes to a type.
    pub fn with_write_type(self, t: TypeNo) -> Self
        ensures reads { (p : Part) → reads result p ≡ reads self p }
        ensures writes { (p : Part) → writes result p ≡ (same_part p (OfType t) || writes self p) }
    {
        Access {
            write_types: masks::with_bit(self.write_types, t.number()),
            ..self
        }
    }

    /// This access, and reads of a resource.
    pub fn with_read_res(self, r: ResNo) -> Self
        ensures reads { (p : Part) → reads result p ≡ (same_part p (OfResource r) || reads self p) }
        ensures writes { (p : Part) → writes result p ≡ writes self p }
    {
        Access {
            read_res: masks::with_bit(self.read_res, r.number()),
            ..self
        }
    }

    /// This access, and writes to a resource.
    pub fn with_write_res(self, r: ResNo) -> Self
        ensures reads { (p : Part) → reads result p ≡ reads self p }
        ensures writes { (p : Part) → writes result p
            ≡ (same_part p (OfResource r) || writes self p) }
    {
        Access {
            write_res: masks::with_bit(self.write_res, r.number()),
            ..self
        }
    }

    /// This access, and signals to the registry.
    pub fn with_registry(self) -> Self
        ensures reads { (p : Part) → reads result p ≡ reads self p }
        ensures writes { (p : Part) → writes result p ≡ (same_part p Registry || writes self p) }
    {
        Access {
            registry: true,
            ..self
        }
    }

    /// Whether it reads the type.
    pub fn reads_type(&self, t: TypeNo) -> bool
        ensures read { result ≡ reads self.now (OfType t) }
    {
        masks::has(self.read_types, t.number())
    }

    /// Whether it writes to the type.
    pub fn writes_type(&self, t: TypeNo) -> bool
        ensures written { result ≡ writes self.now (OfType t) }
    {
        masks::has(self.write_types, t.number())
    }

    /// Whether it reads the resource.
    pub fn reads_res(&self, r: ResNo) -> bool
        ensures read { result ≡ reads self.now (OfResource r) }
    {
        masks::has(self.read_res, r.number())
    }

    /// Whether it writes to the resource.
    pub fn writes_res(&self, r: ResNo) -> bool
        ensures written { result ≡ writes self.now (OfResource r) }
    {
        masks::has(self.write_res, r.number())
    }

    /// Whether it writes a type or a resource.
    #[tactic(auto, using(crate::proofs::Bits::of_masks))]
    pub(crate) fn writes_type_or_res(&self) -> bool
        ensures some { IsTrue result ↔ WritesTypeOrResource self.now }
    {
        self.write_types | self.write_res != 0
    }

    /// Whether one of them writes a part that the other uses, so that their jobs can't run side by
    /// side.
    #[tactic(auto, using(crate::proofs::Conflicts::conflicts_lem))]
    pub fn conflicts(&self, other: &Access) -> bool
        ensures conflict { IsTrue result ↔ Conflict self.now other.now }
    {
        let types = masks::collide(
            self.read_types,
            self.write_types,
            other.read_types,
            other.write_types,
        );
        let resources = masks::collide(
            self.read_res,
            self.write_res,
            other.read_res,
            other.write_res,
        );
        let registry = self.registry & other.registry;
        types | resources | registry
    }

    /// The access of a job that does the work of both: what either writes is written, and no longer
    /// listed as read.
    #[tactic(auto, using(crate::proofs::Bits::of_masks))]
    pub fn union(&self, other: &Access) -> Access
        ensures writes { (p : Part) → writes result p ≡ (writes self.now p || writes other.now p) }
        ensures reads { (p : Part)
            → reads result p ≡ ((reads self.now p || reads other.now p) && not (writes result p)) }
    {
        let write_types = self.write_types | other.write_types;
        let write_res = self.write_res | other.write_res;
        Access {
            read_types: masks::without(self.read_types | other.read_types, write_types),
            write_types,
            read_res: masks::without(self.read_res | other.read_res, write_res),
            write_res,
            registry: self.registry || other.registry,
        }
    }

    /// Whether something is both read and written, which one system may not do.
    pub fn is_clash(&self) -> bool
        ensures clash { IsTrue result ↔ IsClash self.now }
    {
        masks::share_bit(self.read_types, self.write_types)
            | masks::share_bit(self.read_res, self.write_res)
    }

    /// Whether a world of so many types and resources has all that is used.
    #[tactic(auto, using(crate::proofs::Bits::of_masks))]
    pub fn fits(&self, types: u32, resources: u32) -> bool
        ensures fit { IsTrue result ↔ FitsWorldOf types resources self.now }
    {
        masks::is_below(self.read_types | self.write_types, types)
            && masks::is_below(self.read_res | self.write_res, resources)
    }
}
