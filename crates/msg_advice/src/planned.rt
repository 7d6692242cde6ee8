// The plan of one frame, with what each system reads and writes.
ghost use Rattle.std.specs.Prelude.{◌≡◌, ◌<◌, ◌&&◌, IfOk, find, map};
ghost use Rattle.std.specs.List.{concat, list_any};
ghost use Rattle.msg_system.specs.Prelude.{IsAccessOf};
ghost use Rattle.msg_order.specs.Prelude.{PlanView};
ghost use Rattle.msg_frames.specs.Prelude.{IsArrangementOf, IsOrderly};
ghost use Rattle.msg_reading.specs.Prelude.{IsRunnable, state_of};
ghost use Rattle.msg_advice.specs.Prelude.{IsPlanFor, chain, is_next, link, plan_in, precedes, turns_in};
ghost use Rattle.msg_advice.specs.inner.Tables.{AreAccesses, spec_needs};

use msg_frames::Arrangement;
use msg_order::Plan;
use msg_reading::{Scenario, SystemSpec};
use msg_system::job_access;
use msg_world::{Access, NoMemory};
use std::alloc::Global;
use std::marker::Model;

/// In which order the systems of a scenario, or of an engine, take their turns in one frame.
/// Nothing is run for it.
///
/// ```
/// let planned = plan_frame(alloc, &scenario, 1)?;
/// for batch in planned.batches() {
///     println!(rt; "{} side by side", batch.len())?;
/// }
/// ```
#[derive(Drop)]
pub struct Planned {
    accesses: Vec<Access>,
    plan: Plan,
    turns: Vec<u32>,
}

impl Model for Planned {
    ghost Value = { PlanView };

    ghost view = { λ p. p.plan };

    ghost invariant = { λ p. p.turns.items ≡ turns_in p.plan };
}

fn access_of(system: &SystemSpec) -> Access
    ensures needs { IsAccessOf (spec_needs system.now) result }
{
    job_access(&system.program.access(), system.place.conditions.as_slice())
}

#[tactic(auto, using(crate::proofs::Tables::accesses_more))]
fn accesses_of(alloc: Global, systems: &[SystemSpec]) -> Result<Vec<Access>, NoMemory>
    ensures accesses { IfOk result (λ v. AreAccesses systems.now v.items) }
{
    let mut accesses = Vec::new(alloc);
    for system in systems {
        accesses.push(access_of(system))?;
    }
    Ok(accesses)
}

fn joins_of(alloc: Global, systems: &[SystemSpec]) -> Result<Vec<u32>, NoMemory>
    ensures joins { IfOk result (λ v. v.items ≡ map (λ x. x.place.join) systems.now) }
{
    let mut joins = Vec::new(alloc);
    for system in systems {
        joins.push(system.place.join)?;
    }
    Ok(joins)
}

/// What the order of the systems of a scenario comes of.
fn arrangement_of<'a>(
    scenario: &'a Scenario,
    accesses: &'a [Access],
    joins: &'a [u32],
) -> Arrangement<'a>
    requires runnable { IsRunnable scenario.now }
    requires accesses { AreAccesses scenario.now.systems accesses.now }
    requires joins { joins.now ≡ map (λ x. x.place.join) scenario.now.systems }
    ensures arranged { IsArrangementOf (state_of scenario.now) result }
    ensures orderly { IsOrderly result }
{
    Arrangement {
        accesses,
        joins,
        rules: scenario.rules.as_slice(),
        types: scenario.types.as_slice().len() as u32,
        resources: scenario.resources.as_slice().len() as u32,
    }
}

/// The systems batch by batch.
fn turns_of(alloc: Global, plan: &Plan) -> Result<Vec<u32>, NoMemory>
    ensures turns { IfOk result (λ v. v.items ≡ concat plan.now.batches) }
{
    let mut turns = Vec::new(alloc);
    for batch in plan.batches() {
        turns.extend_from_slice(batch.as_slice())?;
    }
    Ok(turns)
}

/// The plan of a frame of what is arranged so. What an engine tells (`EngineOf::arrangement`) has
/// the plan of its frames (`laws::arrangements_tell_plans`).
pub fn plan_arrangement(
    alloc: Global,
    arrangement: &Arrangement,
    frame: u32,
) -> Result<Planned, NoMemory>
    requires orderly { IsOrderly arrangement.now }
    ensures plan { IfOk result (IsPlanFor arrangement.now frame) }
{
    let Arrangement {
        accesses,
        joins,
        rules,
        ..
    } = *arrangement;
    let plan = Plan::of_frame(alloc, accesses, rules, joins, frame)?;
    let turns = turns_of(alloc, &plan)?;
    let accesses = Vec::from_slice(alloc, accesses)?;
    Ok(Planned {
        accesses,
        plan,
        turns,
    })
}

/// The plan of a frame of a scenario, from frame 1 on. One past the last of the file has the plan
/// that it would have.
pub fn plan_frame(alloc: Global, scenario: &Scenario, frame: u32) -> Result<Planned, NoMemory>
    requires runnable { IsRunnable scenario.now }
    requires some { 0 < frame }
    ensures plan { IfOk result (λ planned. planned ≡ plan_in (state_of scenario.now) frame) }
{
    let accesses = accesses_of(alloc, scenario.systems.as_slice())?;
    let joins = joins_of(alloc, scenario.systems.as_slice())?;
    plan_arrangement(alloc, &arrangement_of(scenario, &accesses, &joins), frame)
}

impl Planned {
    /// The systems that have joined batch by batch.
    pub fn batches(&self) -> &[Vec<u32>]
        ensures batches { map (λ batch. batch.items) result.now
            ≡ self.now.batches }
    {
        self.plan.batches()
    }

    /// The same systems in the order of their turns.
    pub fn turns(&self) -> &[u32]
        ensures turns { result.now ≡ turns_in self.now }
    {
        &self.turns
    }

    /// Whether system `i` has to run before system `j`.
    pub fn precedes(&self, i: u32, j: u32) -> bool
        ensures precedes { result ≡ precedes self.now i j }
    {
        self.plan.precedes(i, j)
    }

    /// Whether system `i` has to run before system `j`, and no other stands between them.
    pub fn is_next(&self, i: u32, j: u32) -> bool
        ensures next { result ≡ is_next self.now i j }
    {
        self.precedes(i, j) && !self.has_between(i, j)
    }

    fn has_between(&self, i: u32, j: u32) -> bool
        ensures between { result ≡ list_any
            (λ b. precedes self.now i b && precedes self.now b j) (turns_in self.now) }
    {
        let mut turns = self.turns().iter();
        turns.any(|b| self.precedes(i, *b) && self.precedes(*b, j))
    }

    /// A system of each batch, each of which has to run before the next: as many as the longest
    /// chain has.
    pub fn chain(&self, alloc: Global) -> Result<Vec<u32>, NoMemory>
        ensures chain { IfOk result (λ v. v.items ≡ chain self.now self.now.batches) }
    {
        self.chain_through(alloc, self.batches())
    }

    /// The chain through these batches.
    fn chain_through(&self, alloc: Global, batches: &[Vec<u32>]) -> Result<Vec<u32>, NoMemory>
        ensures chain { IfOk result (λ v. v.items
            ≡ chain self.now (map (λ batch. batch.items) batches.now)) }
    {
        let [batch, later @ ..] = batches else {
            return Ok(Vec::new(alloc));
        };
        let mut chain = self.chain_through(alloc, later)?;
        if let Some(system) = self.link(batch, &chain) {
            chain.insert(0, system)?;
        }
        Ok(chain)
    }

    /// The first system of a batch that has to run before the first of a chain.
    fn link(&self, batch: &[u32], chain: &[u32]) -> Option<u32>
        ensures link { result ≡ link self.now batch.now chain.now }
    {
        match chain {
            [next, ..] => self.first_before(batch, *next),
            [] => batch.first().copied(),
        }
    }

    /// The first system of a batch that has to run before another.
    fn first_before(&self, batch: &[u32], system: u32) -> Option<u32>
        ensures first { result ≡ find (λ i. precedes self.now i system) batch.now }
    {
        match batch {
            [i, ..] if self.precedes(*i, system) => Some(*i),
            [_, later @ ..] => self.first_before(later, system),
            [] => None,
        }
    }

    /// What a system reads and writes, its conditions too.
    pub(crate) fn access(&self, system: u32) -> Access {
        match self.accesses.get(system as usize) {
            Some(access) => *access,
            None => Access::none(),
        }
    }
}
