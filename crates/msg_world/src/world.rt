ghost use Rattle.std.specs.Prelude.{◌≡◌, ℕ, ◌+◌, ◌<◌, ◌≤◌, ◌↔◌, [], ◌∷◌, length, slice_index, slice_get, is_some, Some, None, IfOk, IfErr, IfSome, OnOk, OnErr, IsTrue, IsSome, IsSomeAnd, map, replicate, if◌then◌else◌};
ghost use Rattle.std.specs.Option.{option_copied};
ghost use Rattle.msg_buffer.specs.Prelude.{History, IsSpent, StandsFor, count, empty, message_refused, update, write};
ghost use Rattle.msg_world.specs.Prelude.{IsApart, IsHome, IsWhole, LendsOut, OfResource, OfType, PartsStand, SameShape, TakesBack, WorldState, WritesTypeOrResource, after_update, by, has_bit, held_world, new_world, slot, with_history};
ghost use Rattle.msg_world.specs.inner.Moved.{GoesHome, MovesHome, MovesOut};
ghost use Rattle.msg_world.specs.inner.Slots.{AllUpdated, BufferStands, HaveEach, at};
ghost use Rattle.msg_world.specs.inner.Taken.{IsSpare, slots_of};

use crate::access::Access;
use crate::boxed::Boxed;
use crate::counts::Counts;
use crate::limits::{MAX_RESOURCES, MAX_TYPES};
use crate::marks::Marks;
use crate::record::{HOST, Record};
use crate::slots::{each_stands, have_each, slot_ref};
use crate::taken::{MovedOut, Taken};
use crate::{ResNo, TypeNo, Value};
use msg_buffer::{MessageId, Messages, NoMemory, WriteRefusal};
use std::alloc::Global;
use std::marker::Model;

/// What systems share: the messages of each type, the value of each resource, and the registry of
/// signals. Parts of it may be out on loan.
///
/// Updates of a held world wait for a signal, which they spend. A world has at most `MAX_TYPES`
/// types and `MAX_RESOURCES` resources.
///
/// ```
/// // Two types, of at most 100 messages each, and a resource that is 0 at first.
/// let mut world = World::new(alloc, &[100, 100], &[0])?;
/// if let Some(blows) = TypeNo::new(0) {
///     world.post(blows, 5)?;
/// }
/// world.update_all();
/// ```
#[derive(Drop)]
pub struct World<V = i64> {
    types: Vec<Option<Boxed<Messages<Record<V>>>>>,
    resources: Vec<Option<V>>,
    marks: Option<Marks>,
    /// What parts came home from: it serves those that go out next. There is room for one for each
    /// part, since no more can be out at once with something in it.
    spares: Vec<Box<MovedOut<V>>>,
}

impl<V> Model for World<V> {
    ghost use Rattle.std.specs.Prelude.{◌≤◌, All, length};
    ghost use Rattle.msg_world.specs.Parts.{Parts};
    ghost use Rattle.msg_world.specs.inner.Taken.{IsSpare};
    ghost use Rattle.msg_world.specs.declared.limits.TheConstants.{MAX_RESOURCES, MAX_TYPES};

    ghost Value = { Parts V };

    ghost view = { λ w. record {
      types = w.types.items;
      resources = w.resources.items;
      marks = w.marks;
    } };

    ghost invariant = { λ w. (length w.types.items ≤ MAX_TYPES)
        × (length w.resources.items ≤ MAX_RESOURCES)
        × All (λ b. IsSpare (length w.types.items) (length w.resources.items) b.value)
        w.spares.items };
}

/// A buffer for each limit.
fn new_types<V: Value>(
    alloc: Global,
    limits: &[u64],
) -> Result<Vec<Option<Boxed<Messages<Record<V>>>>>, NoMemory>
    ensures as_many { IfOk result (λ v. length v.items ≡ length limits.now) }
    ensures empty { IfOk result (λ v. (t : ℕ) → t < length limits.now
        → IsSomeAnd (at v.items t) (λ k. StandsFor k (empty (slice_index limits.now t)))) }
{
    let mut types = Vec::new(alloc);
    for limit in limits {
        let part = Box::new(alloc, Messages::new(alloc, *limit))?;
        types.push(Some(Boxed { part }))?;
    }
    Ok(types)
}

/// A slot for each value.
fn new_resources<V: Value>(alloc: Global, values: &[V]) -> Result<Vec<Option<V>>, NoMemory>
    ensures values { IfOk result (λ v. v.items ≡ map (λ z. Some z) values.now) }
{
    let mut resources = Vec::new(alloc);
    for value in values {
        resources.push(Some(*value))?;
    }
    Ok(resources)
}

/// Updates a buffer, if there is one.
fn update_slot<V: Value>(slot: &mut Option<Boxed<Messages<Record<V>>>>)
    ensures there { is_some slot.new ≡ is_some slot.old }
    ensures updated { (h : History (Record V)) → BufferStands slot.old h
        → BufferStands slot.new (update h) }
{
    if let Some(messages) = slot {
        messages.part.update();
    }
}

/// Updates every buffer that is there.
fn update_each<V: Value>(types: &mut Vec<Option<Boxed<Messages<Record<V>>>>>)
    ensures updated { AllUpdated types.old.items types.new.items }
{
    for slot in types.iter_mut() {
        update_slot(slot);
    }
}

/// How many messages were ever written to a buffer; 0 if there is none.
fn count_of<V: Value>(slot: &Option<Boxed<Messages<Record<V>>>>) -> u64
    ensures count { IsSome slot.now → (h : History (Record V)) → BufferStands slot.now h
        → result ≡ count h }
{
    match slot {
        Some(messages) => messages.part.count(),
        None => 0,
    }
}

/// The counts of all buffers.
fn counts_of<V: Value>(types: &Vec<Option<Boxed<Messages<Record<V>>>>>) -> Counts
    requires few { length types.now.items ≤ MAX_TYPES }
    ensures types { length result ≡ length types.now.items }
    ensures counts { (t : ℕ) → IsSome (at types.now.items t) → (h : History (Record V))
        → BufferStands (at types.now.items t) h → slice_get result t ≡ Some (count h) }
{
    let mut counts = Counts::none();
    for slot in types {
        counts.push(count_of(slot));
    }
    counts
}

/// Takes the marks out, if they are lent.
fn take_marks(marks: &mut Option<Marks>, lent: bool) -> Option<Marks>
    ensures taken { result ≡ (if lent then marks.old else None) }
    ensures left { marks.new ≡ (if lent then None else marks.old) }
{
    if lent { marks.take() } else { None }
}

impl<V: Value> World<V> {
    /// A world that isn't held, with a message type for each limit and a resource for each value.
    pub fn new(alloc: Global, limits: &[u64], resources: &[V]) -> Result<World<V>, NoMemory>
        requires types { length limits.now ≤ MAX_TYPES }
        requires resources { length resources.now ≤ MAX_RESOURCES }
        ensures meaning { IfOk result
            (λ w. PartsStand w (new_world V.values limits.now resources.now)) }
        ensures whole { IfOk result IsWhole }
        ensures types { IfOk result (λ w. length w.types ≡ length limits.now) }
        ensures resources { IfOk result (λ w. length w.resources ≡ length resources.now) }
    {
        let types = new_types(alloc, limits)?;
        let resources = new_resources(alloc, resources)?;
        let mut spares = Vec::with_capacity(alloc, types.len() + resources.len())?;
        spares.push(MovedOut::new(alloc, types.len(), resources.len())?)?;
        let marks = Some(Marks {
            held: false,
            pending: false,
        });
        Ok(World {
            types,
            resources,
            marks,
            spares,
        })
    }

    /// A world that isn't held, with so many message types, each with as many numbers as there are,
    /// and a resource for each value. A limit takes no memory; at a million messages a second these
    /// last for half a million years.
    ///
    /// ```
    /// let world = World::unlimited(alloc, 2, &[5])?; // two types, and a resource that is 5
    /// ```
    pub fn unlimited(alloc: Global, types: usize, resources: &[V]) -> Result<World<V>, NoMemory>
        requires types { types ≤ MAX_TYPES }
        requires resources { length resources.now ≤ MAX_RESOURCES }
        ensures meaning { IfOk result
            (λ w. PartsStand w (new_world V.values (replicate types u64.MAX) resources.now)) }
        ensures whole { IfOk result IsWhole }
        ensures types { IfOk result (λ w. length w.types ≡ types) }
        ensures resources { IfOk result (λ w. length w.resources ≡ length resources.now) }
    {
        World::new(alloc, &[u64::MAX; MAX_TYPES][..types], resources)
    }

    /// A law: a world stands for some state, and has no more types and resources than it may.
    pub fn stands_for_some(&self)
        ensures state { (s : WorldState V.values) × PartsStand self.now s }
        ensures few { (length self.now.types ≤ MAX_TYPES)
            × (length self.now.resources ≤ MAX_RESOURCES) }
    {
        each_stands(&self.types);
    }

    /// The update at the beginning of a frame: every type, or none if a held world waits.
    #[tactic(auto, using(crate::proofs::Worlds::waiting_stays))]
    pub fn update_all(&mut self)
        requires whole { IsWhole self.old }
        ensures meaning { (s : WorldState V.values) → PartsStand self.old s
            → PartsStand self.new (after_update s) }
        ensures shape { SameShape self.old self.new }
    {
        let Some(marks) = self.marks else {
            return;
        };
        if marks.is_waiting() {
            return;
        }
        update_each(&mut self.types);
        self.marks = Some(Marks {
            pending: false,
            ..marks
        });
    }

    /// Holds the world: its updates wait for a signal from now on. A signal that wasn't spent is
    /// lost.
    pub fn set_held(&mut self)
        requires whole { IsWhole self.old }
        ensures meaning { (s : WorldState V.values) → PartsStand self.old s
            → PartsStand self.new (held_world s) }
        ensures shape { SameShape self.old self.new }
    {
        self.marks = Some(Marks {
            held: true,
            pending: false,
        });
    }

    /// Writes one message of the host.
    pub fn post(&mut self, t: TypeNo, value: V) -> Result<MessageId, WriteRefusal<Record<V>>>
        requires home { IsSome (slot (OfType t) self.old) }
        ensures meaning { OnOk result ((s : WorldState V.values) → PartsStand self.old s
            → PartsStand self.new
            (with_history s t (write (by HOST value ∷ []) (s.histories t)))) }
        ensures number { IfOk result (λ id. (s : WorldState V.values) → PartsStand self.old s
            → id.0 ≡ count (s.histories t)) }
        ensures room { OnOk result ((s : WorldState V.values) → PartsStand self.old s
            → count (s.histories t) + 1 ≤ (s.histories t).limit) }
        ensures spent { IfErr result (λ e. (s : WorldState V.values) → PartsStand self.old s
            → (IsSpent e ↔ ((s.histories t).limit < count (s.histories t) + 1))) }
        ensures shape { SameShape self.old self.new }
        ensures err { OnErr result (self.new ≡ self.old) }
        ensures handed_back { IfErr result (λ e. message_refused e ≡ by HOST value) }
    {
        let slot = &mut self.types[t.number() as usize];
        let record = Record {
            writer: HOST,
            value,
        };
        match slot {
            Some(messages) => messages.part.write(record),
            None => unreachable!(),
        }
    }

    /// How many message types it has, at home or out.
    pub fn types(&self) -> usize
        ensures types { result ≡ length self.now.types }
        ensures few { result ≤ MAX_TYPES }
    {
        self.types.len()
    }

    /// How many resources it has, at home or out.
    pub fn resources(&self) -> usize
        ensures resources { result ≡ length self.now.resources }
        ensures few { result ≤ MAX_RESOURCES }
    {
        self.resources.len()
    }

    /// How many messages of each type were ever written.
    pub fn counts(&self) -> Counts
        requires whole { IsWhole self.now }
        ensures types { length result ≡ length self.now.types }
        ensures few { length result ≤ MAX_TYPES }
        ensures meaning { (s : WorldState V.values) → PartsStand self.now s → (t : ℕ)
            → t < length self.now.types → slice_get result t ≡ Some (count (s.histories t)) }
    {
        counts_of(&self.types)
    }

    /// The messages of a type; None if there is no such type, or it is out.
    pub fn messages(&self, t: TypeNo) -> Option<&Messages<Record<V>>>
        ensures home { option_copied result ≡ slot (OfType t) self.now }
    {
        Some(&slot_ref(&self.types, t.number() as usize)?.part)
    }

    /// The value of a resource; None if there is no such resource, or it is out.
    pub fn resource(&self, r: ResNo) -> Option<V>
        ensures home { result ≡ slot (OfResource r) self.now }
    {
        slot_ref(&self.resources, r.number() as usize).copied()
    }

    /// Whether all that the access uses is in this world, and at home.
    pub fn is_home(&self, access: &Access) -> bool
        ensures home { IsTrue result ↔ IsHome access.now self.now }
    {
        have_each(&self.types, access.read_types, access.write_types)
            & have_each(&self.resources, access.read_res, access.write_res)
            & (!access.registry | self.marks.is_some())
    }

    /// Moves out what the access writes. What it only reads stays, to be read by others too.
    #[inline(always)]
    pub fn lend_out(&mut self, access: &Access) -> Result<Taken<V>, NoMemory>
        requires home { IsHome access.now self.old }
        ensures lent { IfOk result (λ taken. LendsOut access.now self.old self.new taken) }
        ensures err { OnErr result (self.new ≡ self.old) }
        ensures refused { OnErr result (WritesTypeOrResource access.now) }
    {
        let moved = self.moved_for(access)?;
        Ok(Taken {
            moved,
            types: self.types.len() as u8,
            resources: self.resources.len() as u8,
            marks: take_marks(&mut self.marks, access.registry),
        })
    }

    /// What parts are moved out into: one that serves again, or a new one.
    fn spare(&mut self) -> Result<Box<MovedOut<V>>, NoMemory>
        ensures spare { IfOk result (λ b.
            IsSpare (length self.old.types) (length self.old.resources) b.value) }
        ensures same { self.new ≡ self.old }
    {
        if let Some(spare) = self.spares.pop() {
            return Ok(spare);
        }
        let alloc = *self.types.allocator();
        Ok(MovedOut::new(alloc, self.types.len(), self.resources.len())?)
    }

    /// What goes with a job that moves nothing out: one that serves again, if there is one and the
    /// job reads a type, for the lists of what it reads.
    fn spare_for(&mut self, access: &Access) -> Option<Box<MovedOut<V>>>
        ensures spare { IfSome result (λ b.
            IsSpare (length self.old.types) (length self.old.resources) b.value) }
        ensures same { self.new ≡ self.old }
    {
        if access.read_types == 0 {
            return None;
        }
        self.spares.pop()
    }

    /// What goes with a job: the types and the resources that it writes, moved out, if there are
    /// any.
    #[inline(always)]
    fn moved_for(&mut self, access: &Access) -> Result<Option<Box<MovedOut<V>>>, NoMemory>
        requires types { HaveEach self.old.types (has_bit access.now.write_types) }
        requires resources { HaveEach self.old.resources (has_bit access.now.write_res) }
        ensures types { IfOk result (λ b. MovesOut access.now.write_types self.old.types
            self.new.types (slots_of (λ m. m.types) (length self.new.types) b)) }
        ensures resources { IfOk result (λ b. MovesOut access.now.write_res self.old.resources
            self.new.resources (slots_of (λ m. m.resources) (length self.new.resources) b)) }
        ensures marks { self.new.marks ≡ self.old.marks }
        ensures err { OnErr result (self.new ≡ self.old) }
        ensures refused { OnErr result (WritesTypeOrResource access.now) }
    {
        if !access.writes_type_or_res() {
            return Ok(self.spare_for(access));
        }
        let mut moved = self.spare()?;
        moved.types.move_out(&mut self.types, access.write_types);
        moved
            .resources
            .move_out(&mut self.resources, access.write_res);
        Ok(Some(moved))
    }

    /// Moves home what was moved out. It takes no memory.
    #[inline(always)]
    pub fn take_back(&mut self, taken: Taken<V>)
        requires apart { IsApart taken self.old }
        ensures home { TakesBack taken self.old self.new }
    {
        let Taken {
            moved,
            types: _,
            resources: _,
            marks,
        } = taken;
        self.marks = marks.or(self.marks);
        if let Some(mut moved) = moved {
            moved.types.move_home(&mut self.types);
            moved.resources.move_home(&mut self.resources);
            self.keep(moved);
        }
    }

    /// Keeps the memory of a list for what will be read.
    pub fn keep_list(&mut self, list: Vec<Record<V>>)
        ensures same { self.new ≡ self.old }
    {
        if let Some(mut spare) = self.spares.pop() {
            spare.lists.keep(list);
            self.keep(spare);
        }
    }

    /// Keeps what parts came home from, if there is room for it.
    fn keep(&mut self, spare: Box<MovedOut<V>>)
        requires spare { IsSpare (length self.old.types) (length self.old.resources) spare.value }
        ensures same { self.new ≡ self.old }
    {
        if self.spares.len() < self.spares.capacity() {
            self.spares.push_reserved(spare);
        }
    }
}
