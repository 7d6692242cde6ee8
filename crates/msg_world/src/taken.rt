use crate::Value;
use crate::boxed::Boxed;
use crate::marks::Marks;
use crate::moved::MovedParts;
use crate::record::Record;
use crate::slots::each_stands;
use crate::spare_lists::SpareLists;
use msg_buffer::Messages;
use std::alloc::{AllocError, Global};
use std::marker::Model;

/// The types and the resources that were moved out of a world, and what goes with them.
#[derive(Drop)]
pub(crate) struct MovedOut<V> {
    pub types: MovedParts<Boxed<Messages<Record<V>>>>,
    pub resources: MovedParts<V>,
    /// Memory for what is read.
    pub lists: SpareLists<V>,
}

/// The parts of a world that were moved out for an access to write. It has to be taken back, or the
/// world stays without them.
#[derive(Drop)]
pub struct Taken<V = i64> {
    /// None if no type and no resource was moved out; it may be there if types are read. It is in a
    /// box, so that little is moved where a turn takes it along and gives it back.
    pub(crate) moved: Option<Box<MovedOut<V>>>,
    /// How many types the world has, and how many resources.
    pub(crate) types: u8,
    pub(crate) resources: u8,
    pub(crate) marks: Option<Marks>,
}

impl<V> Model for Taken<V> {
    ghost use Rattle.msg_world.specs.Parts.{Parts};
    ghost use Rattle.msg_world.specs.inner.Taken.{slots_of};

    ghost Value = { Parts V };

    ghost view = { λ t. record {
      types = slots_of (λ m. m.types) t.types t.moved;
      resources = slots_of (λ m. m.resources) t.resources t.moved;
      marks = t.marks;
    } };
}

impl<V: Value> MovedOut<V> {
    ghost use Rattle.std.specs.Prelude.{IfOk};
    ghost use Rattle.msg_world.specs.inner.Taken.{IsSpare};

    /// Nothing yet, of a world of so many types and resources.
    pub(crate) fn new(
        alloc: Global,
        types: usize,
        resources: usize,
    ) -> Result<Box<MovedOut<V>>, AllocError>
        ensures spare { IfOk result (λ b. IsSpare types resources b.value) }
    {
        let moved = MovedOut {
            types: MovedParts::new(alloc, types)?,
            resources: MovedParts::new(alloc, resources)?,
            lists: SpareLists::new(alloc),
        };
        Ok(Box::new(alloc, moved)?)
    }
}

impl<V: Value> Taken<V> {
    ghost use Rattle.std.specs.Prelude.{◌≡◌, [], None, is_some, option_map};
    ghost use Rattle.msg_world.specs.{Access.Registry, Parts.PartsStand, Parts.slot, World.WorldState, World.signalled_marks};

    /// No parts. It fills the place of a `Taken` that was moved elsewhere, and takes no memory.
    pub fn none() -> Taken<V>
        ensures types { result.types ≡ [] }
        ensures resources { result.resources ≡ [] }
        ensures marks { result.marks ≡ None }
    {
        Taken {
            moved: None,
            types: 0,
            resources: 0,
            marks: None,
        }
    }

    /// A law: what was moved out stands for some state.
    pub(crate) fn stands_for_some(&self)
        ensures state { (s : WorldState V.values) × PartsStand self.now s }
    {
        if let Some(moved) = &self.moved {
            each_stands(&moved.types.slots);
        }
    }

    /// Marks a signal, if the registry is there; says whether it is.
    pub(crate) fn signal(&mut self) -> bool
        ensures answer { result ≡ is_some (slot Registry self.old) }
        ensures marks { self.new ≡ record self.old {
          marks = option_map signalled_marks self.old.marks;
        } }
    {
        let Some(marks) = self.marks else {
            return false;
        };
        self.marks = Some(marks.signalled());
        true
    }
}
