ghost use Rattle.std.specs.Prelude.{◌≡◌, ◌<◌, ◌≤◌, [], length, map, nat_le, Bool, List, Err, IfErr, IfOk, OnErr, OnOk};
ghost use Rattle.msg_order.specs.{declared.plan_refusal.PlanRefusal.TheVariants.NoMemory, Graph.IsAcyclic, Order.NameSystemsBelow, Settled.rules_among, Plan.IsPlanOf, Plan.PlanView, Plan.RefusesPlan, inner.Paths.AreKept, inner.Paths.ArePaths, inner.Paths.IsSetOf, inner.Paths.view_of};

use crate::levels::batches_of;
use crate::paths::settle;
use crate::system_set::SystemSet;
use crate::{PlanRefusal, Rule};
use msg_world::{Access, MAX_SYSTEMS};
use std::alloc::{AllocError, Allocator, Global};
use std::marker::Model;

/// In which order systems run: batches one after the other, and the systems of a batch side by
/// side.
///
/// ```
/// let plan = Plan::build(alloc, &accesses, &[Rule::before(2, 0)], &[true; 3])?;
/// for batch in plan.batches() {
///     println!(rt; "{} side by side", batch.len())?;
/// }
/// ```
#[derive(Debug, Drop)]
pub struct Plan<A: Allocator = Global> {
    before: Vec<SystemSet, A>,
    batches: Vec<Vec<u32, A>, A>,
    joined: SystemSet,
}

impl<A: Allocator> Model for Plan<A> {
    ghost Value = { PlanView };

    ghost view = { λ p. view_of p.before.items p.joined
        (map (λ batch. batch.items) p.batches.items) };

    ghost invariant = { λ p. AreKept p.before.items p.joined };
}

/// Of each system, whether it has joined by this frame.
fn joined_by(alloc: Global, joins: &[u32], frame: u32) -> Result<Vec<bool>, AllocError>
    ensures joined { IfOk result (λ joined. joined.items ≡ map (λ j. nat_le j frame) joins.now) }
{
    let mut joined = Vec::new(alloc);
    for join in joins {
        joined.push(*join <= frame)?;
    }
    Ok(joined)
}

fn set_of(joined: &[bool]) -> SystemSet
    requires { length joined.now ≤ MAX_SYSTEMS }
    ensures { IsSetOf joined.now result }
{
    let mut set = SystemSet::empty();
    for i in 0..joined.len() {
        if joined[i] {
            set.insert(i);
        }
    }
    set
}

/// The sets, in memory of their own.
fn kept<A: Allocator>(alloc: A, sets: &[SystemSet]) -> Result<Vec<SystemSet, A>, AllocError>
    ensures items { IfOk result (λ kept. kept.items ≡ sets.now) }
    ensures asked { OnErr result (0 < length sets.now) }
{
    let mut kept = Vec::with_capacity(alloc, sets.len())?;
    for set in sets {
        kept.push(*set)?;
    }
    Ok(kept)
}

impl<A: Allocator + Copy> Plan<A> {
    /// Settles the order of the joined systems, given by their accesses and by rules, and parts
    /// them into batches.
    ///
    /// Conflicting systems run by order of addition if the rules, and the pairs that were
    /// settled before, leave that open. A rule or a conflict with a system that hasn't joined has
    /// no effect.
    ///
    /// # Errors
    ///
    /// `Cycle` with the lowest joined system from which the rules among joined systems lead back to
    /// it; else `NoMemory`.
    pub fn build(
        alloc: A,
        accesses: &[Access],
        rules: &[Rule],
        joined: &[bool],
    ) -> Result<Self, PlanRefusal>
        requires few { length accesses.now ≤ MAX_SYSTEMS }
        requires one_each { length joined.now ≡ length accesses.now }
        requires in_range { NameSystemsBelow (length accesses.now) rules.now }

        ensures plan { IfOk result (IsPlanOf accesses.now rules.now joined.now) }
        ensures acyclic { OnOk result (IsAcyclic (rules_among joined.now rules.now)) }
        ensures refusal { IfErr result (RefusesPlan (rules_among joined.now rules.now)) }

        // It takes memory only once it knows that there is no cycle, and for no systems none.
        ensures no_memory { result ≡ Err NoMemory
            → IsAcyclic (rules_among joined.now rules.now) × (0 < length accesses.now) }
    {
        let mut before = [SystemSet::empty(); MAX_SYSTEMS];
        let before = &mut before[..accesses.len()];
        // (the order is settled before it takes memory)
        if let Some(s) = settle(before, accesses, rules, joined) {
            return Err(PlanRefusal::Cycle(s));
        }
        let joined = set_of(joined);
        let before = kept(alloc, before)?;
        let batches = batches_of(alloc, &before, &joined)?;
        Ok(Plan {
            before,
            batches,
            joined,
        })
    }
}

impl Plan {
    /// The plan of the systems that have joined by this frame, each with the frame in `joins`, if
    /// the rules make no cycle.
    ///
    /// # Errors
    ///
    /// Want of memory.
    pub fn of_frame(
        alloc: Global,
        accesses: &[Access],
        rules: &[Rule],
        joins: &[u32],
        frame: u32,
    ) -> Result<Plan, AllocError>
        requires few { length accesses.now ≤ MAX_SYSTEMS }
        requires one_each { length joins.now ≡ length accesses.now }
        requires in_range { NameSystemsBelow (length accesses.now) rules.now }
        requires no_cycle { (joined : List Bool) → length joined ≡ length accesses.now
            → IsAcyclic (rules_among joined rules.now) }
        ensures plan { IfOk result
            (IsPlanOf accesses.now rules.now (map (λ j. nat_le j frame) joins.now)) }
    {
        let joined = joined_by(alloc, joins, frame)?;
        match Plan::build(alloc, accesses, rules, &joined) {
            Ok(plan) => Ok(plan),
            Err(PlanRefusal::Cycle(_)) => unreachable!(),
            Err(PlanRefusal::NoMemory) => Err(AllocError),
        }
    }
}

impl<A: Allocator> Plan<A> {
    ghost use Rattle.std.specs.Prelude.{ℕ, List, Bool, IsTrue, ◌↔◌};
    ghost use Rattle.msg_order.specs.{declared.rule.Rule.Rule as RuleView, Graph.IsEdge, Order.IsLawfulOrder, Plan.plan_of, Settled.settled};

    /// The joined systems batch by batch, each batch by order of addition. All systems of a batch
    /// have to end before the next batch begins.
    pub fn batches(&self) -> &[Vec<u32, A>]
        ensures items { map (λ batch. batch.items) result.now ≡ self.now.batches }
    {
        &self.batches
    }

    /// Whether `later` must wait for `earlier`: a path of the settled order leads there. False for
    /// a number that is no joined system's.
    pub fn precedes(&self, earlier: u32, later: u32) -> bool
        ensures edge { IsTrue result ↔ IsEdge self.now.precedes earlier later }
    {
        let earlier = earlier as usize;
        let later = later as usize;
        if earlier >= self.before.len() || later >= self.before.len() {
            return false;
        }
        self.before[later].contains(earlier)
    }

    /// Whether the order has each joined system once, and keeps the settled order.
    pub fn accepts(&self, order: &[u32]) -> bool
        ensures keeps_what_precedes { IsTrue result
            ↔ IsLawfulOrder self.now.precedes self.now.joined order.now }

        // If this is the plan of a settled order, the order is lawful for that.
        ensures lawful { (rules : List RuleView) (joined : List Bool) (conflict : ℕ → ℕ → Bool)
            → self.now ≡ plan_of (settled conflict rules joined) joined
            → IsTrue result ↔ IsLawfulOrder (settled conflict rules joined) joined order.now }
    {
        let mut left = self.joined;
        for &system in order {
            let system = system as usize;
            if system >= self.before.len()
                || !left.contains(system)
                || self.before[system].meets(&left)
            {
                return false;
            }
            left.remove(system);
        }
        left.is_empty()
    }
}
