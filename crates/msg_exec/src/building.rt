// The parts of a new engine.
ghost use Rattle.std.specs.Prelude.{◌≡◌, ◌≤◌, ◌↔◌, ℕ, IfOk, IfErr, OnOk, IsTrue, length, map};
ghost use Rattle.msg_order.specs.Prelude.{IsAcyclic, NameSystemsBelow, edges_of};
ghost use Rattle.msg_system.specs.Prelude.{HasClash, new_asked};
ghost use Rattle.msg_frames.specs.Prelude.{no_totals};
ghost use Rattle.msg_exec.specs.Prelude.{Clash, EachIs, IsLowestClash, NoneIsClash, RefusesFor, TotalsStand};
ghost use Rattle.msg_exec.specs.inner.EngineParts.{IsAccessAt, IsPreparedFor, IsGuardedAt};

use crate::job::GuardedSystem;
use crate::{BuildRefusal, NoMemory, Place, Totals};
use msg_order::{Plan, Rule, lowest_on_cycle};
use msg_system::{Condition, Guard, SystemOf, job_access};
use msg_world::{Access, MAX_SYSTEMS, Value};
use std::alloc::Global;

/// What is reckoned of the systems of a new engine and its rules.
pub(crate) struct Prepared {
    pub accesses: Vec<Access>,
    pub joins: Vec<u32>,
    pub plan: Plan,
    pub totals: Vec<Vec<Totals>>,
}

/// Whether a system, without its conditions, reads and writes one part.
fn is_clash<V: Value, S: SystemOf<Value = V>>(system: &S) -> bool
    ensures clash { IsTrue result ↔ HasClash (S.meaning system.now).needs }
{
    system.access().is_clash()
}

/// Refuses the lowest system that is a clash.
fn check_clashes<V: Value, S: SystemOf<Value = V>>(systems: &[S]) -> Result<(), BuildRefusal>
    requires few { length systems.now ≤ MAX_SYSTEMS }
    ensures none { OnOk result (NoneIsClash S.meaning systems.now) }
    ensures clash { IfErr result (λ e. (s : ℕ) × (e ≡ Clash s)
        × IsLowestClash S.meaning systems.now s) }
{
    for i in 0..systems.len() {
        if is_clash(&systems[i]) {
            return Err(BuildRefusal::Clash(i as u32));
        }
    }
    Ok(())
}

/// Refuses a system that is a clash, and else rules that make a cycle. It takes no memory.
pub(crate) fn check_build<V: Value, S: SystemOf<Value = V>>(
    systems: &[S],
    rules: &[Rule],
) -> Result<(), BuildRefusal>
    requires few { length systems.now ≤ MAX_SYSTEMS }
    requires in_range { NameSystemsBelow (length systems.now) rules.now }
    ensures no_clash { OnOk result (NoneIsClash S.meaning systems.now) }
    ensures no_cycle { OnOk result (IsAcyclic (edges_of rules.now)) }
    ensures refusal { IfErr result (RefusesFor S.meaning systems.now rules.now) }
{
    check_clashes(systems)?;
    match lowest_on_cycle(systems.len(), rules) {
        Some(system) => Err(BuildRefusal::Cycle(system)),
        None => Ok(()),
    }
}

/// The access of each system's job.
fn accesses_of<V: Value, S: SystemOf<Value = V>>(
    alloc: Global,
    systems: &[S],
    places: &[Place<V>],
) -> Result<Vec<Access>, NoMemory>
    requires one_place_each { length places.now ≡ length systems.now }
    ensures as_many { IfOk result (λ v. length v.items ≡ length systems.now) }
    ensures accesses { IfOk result (λ v. EachIs (IsAccessAt S.meaning systems.now places.now)
        v.items) }
{
    let mut accesses = Vec::new(alloc);
    for i in 0..systems.len() {
        let own = systems[i].access();
        let access = job_access(&own, places[i].conditions.as_slice());
        accesses.push(access)?;
    }
    Ok(accesses)
}

/// The frame with which each system joins.
fn joins_of<V: Value>(alloc: Global, places: &[Place<V>]) -> Result<Vec<u32>, NoMemory>
    ensures joins { IfOk result (λ v. v.items ≡ map (λ place. place.join) places.now) }
{
    let mut joins = Vec::new(alloc);
    for place in places {
        joins.push(place.join)?;
    }
    Ok(joins)
}

/// The conditions as guards, which were asked nothing yet.
fn guards_of<V: Value>(
    alloc: Global,
    conditions: &[Condition<V>],
) -> Result<Vec<Guard<V>>, NoMemory>
    ensures guards { IfOk result (λ v. v.items ≡ map new_asked conditions.now) }
{
    let mut guards = Vec::new(alloc);
    for condition in conditions {
        guards.push(Guard::new(*condition))?;
    }
    Ok(guards)
}

/// Each system with the conditions of its place.
pub(crate) fn guarded_systems<V: Value, S: SystemOf<Value = V>>(
    alloc: Global,
    systems: Vec<S>,
    places: &[Place<V>],
) -> Result<Vec<Option<Box<GuardedSystem<S, V>>>>, NoMemory>
    requires one_place_each { length places.now ≡ length systems.items }
    ensures as_many { IfOk result (λ v. length v.items ≡ length systems.items) }
    ensures guarded { IfOk result (λ v. EachIs (IsGuardedAt S.meaning systems.items places.now)
        v.items) }
{
    let mut guarded = Vec::new(alloc);
    for system in systems {
        let guards = guards_of(alloc, places[guarded.len()].conditions.as_slice())?;
        let boxed = Box::new(alloc, GuardedSystem { system, guards })?;
        guarded.push(Some(boxed))?;
    }
    Ok(guarded)
}

/// For each system the totals of readers that haven't joined, one for each type.
fn totals_of(alloc: Global, systems: usize, types: usize) -> Result<Vec<Vec<Totals>>, NoMemory>
    ensures as_many { IfOk result (λ v. length v.items ≡ systems) }
    ensures totals { IfOk result (λ v.
        EachIs (λ i w. TotalsStand types w.items (λ t. no_totals)) v.items) }
{
    let none = Totals {
        start: None,
        got: 0,
        missed: 0,
        cleared: 0,
        refused: 0,
    };
    let mut totals = Vec::new(alloc);
    for _system in 0..systems {
        totals.push(Vec::from_elem(alloc, none, types)?)?;
    }
    Ok(totals)
}

/// The access, the join and the totals of each system, and the plan of the first frame, over a
/// world of so many types.
pub(crate) fn prepare<V: Value, S: SystemOf<Value = V>>(
    alloc: Global,
    types: usize,
    systems: &[S],
    places: &[Place<V>],
    rules: &[Rule],
) -> Result<Prepared, NoMemory>
    requires few { length systems.now ≤ MAX_SYSTEMS }
    requires one_place_each { length places.now ≡ length systems.now }
    requires in_range { NameSystemsBelow (length systems.now) rules.now }
    requires no_cycle { IsAcyclic (edges_of rules.now) }
    ensures prepared { IfOk result
        (IsPreparedFor S.meaning types systems.now places.now rules.now) }
{
    let accesses = accesses_of(alloc, systems, places)?;
    let joins = joins_of(alloc, places)?;
    let plan = Plan::of_frame(alloc, &accesses, rules, &joins, 1)?;
    let totals = totals_of(alloc, systems.len(), types)?;
    Ok(Prepared {
        accesses,
        joins,
        plan,
        totals,
    })
}
