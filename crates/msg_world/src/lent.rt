use crate::access::Access;
use crate::record::Record;
use crate::slots::slot_ref;
use crate::taken::Taken;
use crate::world::World;
use crate::{ResNo, TypeNo, Value};
use msg_buffer::Messages;
use std::alloc::Global;

/// What one job works on. The parts that its access only reads stay in the world, where other jobs
/// may read them meanwhile. The parts that its access writes are its own until it gives them back.
///
/// ```
/// let taken = world.lend_out(&access)?;
/// let mut lent = Lent::open(&world, &access, taken);
/// if let Some(blows) = lent.writer(blows) {
///     blows.write(Record { writer: 3, value: 5 })?;
/// }
/// let taken = lent.into_taken();
/// world.take_back(taken);
/// ```
#[derive(Drop)]
pub struct Lent<'a, V = i64> {
    world: &'a World<V>,
    access: &'a Access,
    taken: Taken<V>,
}

impl<'a, V: Value> Lent<'a, V> {
    ghost use Rattle.std.specs.Prelude.{◌≡◌, [], IsTrue, is_some, not};
    ghost use Rattle.std.specs.{Borrow.sem, Option.option_copied, Option.option_copied_mut};
    ghost use Rattle.msg_world.specs.Parts.{PartsStand};
    ghost use Rattle.msg_world.specs.Access.{OfResource, OfType, Registry};
    ghost use Rattle.msg_world.specs.Loan.{IsComplete, IsLoanOf, LendsResource, LendsWriter, LoanStands, SameLoan, access_of_loan, shown, taken_of, writable};
    ghost use Rattle.msg_world.specs.World.{WorldState, after_signal};

    /// Opens the loan of what was moved out of the world for this access.
    pub fn open(world: &'a World<V>, access: &'a Access, taken: Taken<V>) -> Lent<'a, V>
        requires loan { IsLoanOf access.now world.now taken }
        ensures access { access_of_loan result ≡ access.now }
        ensures taken { taken_of result ≡ taken }
        ensures complete { IsComplete result }
        ensures meaning { (s : WorldState V.values) → PartsStand world.now s → PartsStand taken s
            → LoanStands result s }
    {
        Lent {
            world,
            access,
            taken,
        }
    }

    /// A law: a loan stands for some state.
    pub fn stands_for_some(&self)
        ensures state { (s : WorldState V.values) × LoanStands self.now s }
    {
        self.world.stands_for_some();
        self.taken.stands_for_some();
    }

    /// An empty list for what is read. It has memory that served before, if there is some.
    pub fn empty_list(&mut self, alloc: Global) -> Vec<Record<V>>
        ensures empty { result.items ≡ [] }
        ensures same { self.new ≡ self.old }
    {
        match &mut self.taken.moved {
            Some(moved) => moved.lists.take(alloc),
            None => Vec::new(alloc),
        }
    }

    /// The messages of a type that is lent, for reading or for writing.
    pub fn reader(&self, t: TypeNo) -> Option<&Messages<Record<V>>>
        ensures shown { option_copied result ≡ shown (OfType t) self.now }
    {
        if self.access.writes_type(t) {
            let moved = self.taken.moved.as_ref()?;
            Some(&slot_ref(&moved.types.slots, t.number() as usize)?.part)
        } else if self.access.reads_type(t) {
            self.world.messages(t)
        } else {
            None
        }
    }

    /// The value of a resource that is lent, for reading or for writing.
    pub fn res(&self, r: ResNo) -> Option<V>
        ensures shown { result ≡ shown (OfResource r) self.now }
    {
        if self.access.writes_res(r) {
            let moved = self.taken.moved.as_ref()?;
            slot_ref(&moved.resources.slots, r.number() as usize).copied()
        } else if self.access.reads_res(r) {
            self.world.resource(r)
        } else {
            None
        }
    }

    /// Asks for an update of a held world. It is false, and changes nothing, if the registry
    /// isn't lent.
    #[tactic(auto, using(crate::proofs::Loans::signal_stands))]
    pub fn signal(&mut self) -> bool
        ensures answer { result ≡ is_some (writable Registry self.old) }
        ensures signalled { IsTrue result → (s : WorldState V.values) → LoanStands self.old s
            → LoanStands self.new (after_signal s) }
        ensures same { SameLoan self.old self.new }
        ensures refused { IsTrue (not result) → self.new ≡ self.old }
    {
        if !self.access.registry {
            return false;
        }
        self.taken.signal()
    }

    /// The messages of a type that is lent for writing.
    pub fn writer(&mut self, t: TypeNo) -> Option<&mut Messages<Record<V>>>
        ensures* writes_back { sem 𝓛 (LendsWriter V.row self.entry t result) }
        ensures writable { option_copied_mut result ≡ writable (OfType t) self.old }
    {
        if self.access.writes_type(t) {
            let moved = self.taken.moved.as_mut()?;
            Some(&mut moved.types.get_mut(t.number() as usize)?.part)
        } else {
            None
        }
    }

    /// The value of a resource that is lent for writing.
    pub fn res_mut(&mut self, r: ResNo) -> Option<&mut V>
        ensures* writes_back { sem 𝓛 (LendsResource V.row self.entry r result) }
        ensures writable { option_copied_mut result ≡ writable (OfResource r) self.old }
    {
        if self.access.writes_res(r) {
            let moved = self.taken.moved.as_mut()?;
            moved.resources.get_mut(r.number() as usize)
        } else {
            None
        }
    }

    /// Ends the loan, and gives back what it owned.
    pub fn into_taken(self) -> Taken<V>
        ensures taken { result ≡ taken_of self.entry }
    {
        let Lent {
            world: _,
            access: _,
            taken,
        } = self;
        taken
    }
}
