// Systems, their places and rules, of which an engine is made once all that it asks is tested.
ghost use Rattle.std.specs.Prelude.{◌≡◌, ℕ, ◌≤◌, ◌↔◌, ◌++◌, [], ◌∷◌, IfErr, IfOk, IsTrue, OnOk, length, map};
ghost use Rattle.msg_world.specs.Prelude.{IsWhole, PartsStand, WorldState};
ghost use Rattle.msg_order.specs.Prelude.{IsAcyclic, IsFirstUnknown, NameSystemsBelow, edges_of};
ghost use Rattle.msg_order.specs.declared.rule.Rule.{Rule as RuleView};
ghost use Rattle.msg_frames.specs.Prelude.{first_state};
ghost use Rattle.msg_exec.specs.Prelude.{AllFit, EachIs, IsEngine, IsLowestMisfit, HasRunSince, IsSpoiled, Misfit, NoneIsClash, RefusesToAdd, RefusesToBuild, UnknownSystem, numbered_from};

use crate::{BuildError, EngineOf, Items, NoMemory, Place};
use msg_frames::LAST_JOIN;
use msg_order::{Rule, first_unknown};
use msg_system::{Condition, Numbered, SystemOf, fits_world};
use msg_world::{MAX_SYSTEMS, Value, World};
use std::alloc::Global;
use std::marker::Model;

/// Systems and rules, added in any order, which make an engine. It numbers the systems in order of
/// addition, and tests all that `EngineOf::new` asks of them.
///
/// ```
/// let mut systems = EngineBuilder::new(alloc);
/// let adder = systems.add_system(adder, Vec::new(alloc), 1)?;
/// let judge = systems.add_system(judge, vec![in alloc; condition]?, 3)?;
/// systems.add_rule(Rule::before(judge, adder))?;
/// let mut engine = systems.build(World::new(alloc, &[100], &[0])?)?;
/// ```
#[derive(Drop)]
pub struct EngineBuilder<S, V = i64> {
    alloc: Global,
    systems: Vec<S>,
    places: Vec<Place<V>>,
    rules: Vec<Rule>,
}

impl<S, V> Model for EngineBuilder<S, V> {
    ghost use Rattle.std.specs.Prelude.{◌≡◌, ◌≤◌, All, length};
    ghost use Rattle.msg_world.specs.declared.limits.TheConstants.{MAX_SYSTEMS};
    ghost use Rattle.msg_exec.specs.Building.{Added, IsJoin};

    ghost Value = { Added S V };

    ghost view = { λ b. record {
      systems = b.systems.items;
      places = b.places.items;
      rules = b.rules.items;
    } };

    ghost invariant = { λ b. (length b.systems.items ≤ MAX_SYSTEMS)
        × (length b.places.items ≡ length b.systems.items)
        × All (λ place. IsJoin place.join) b.places.items };
}

/// Refuses the lowest system that doesn't fit the world.
fn check_systems<V: Value, S: SystemOf<Value = V>>(
    world: &World<V>,
    systems: &[S],
    places: &[Place<V>],
) -> Result<(), BuildError>
    requires few { length systems.now ≤ MAX_SYSTEMS }
    requires one_place_each { length places.now ≡ length systems.now }
    ensures fit { OnOk result (AllFit S.meaning world.now systems.now places.now) }
    ensures misfit { IfErr result (λ e. (s : ℕ) × (e ≡ Misfit s)
        × IsLowestMisfit S.meaning world.now systems.now places.now s) }
{
    let types = world.types() as u32;
    let resources = world.resources() as u32;
    for i in 0..systems.len() {
        let conditions = places[i].conditions.as_slice();
        if !fits_world(&systems[i].access(), conditions, types, resources) {
            return Err(BuildError::Misfit(i as u32));
        }
    }
    Ok(())
}

/// Refuses the first rule that names a system which isn't there.
fn check_names<S>(rules: &[Rule], systems: &[S]) -> Result<(), BuildError>
    requires few { length systems.now ≤ MAX_SYSTEMS }
    ensures named { OnOk result (NameSystemsBelow (length systems.now) rules.now) }
    ensures unknown { IfErr result (λ e. (rule : RuleView) × (e ≡ UnknownSystem rule)
        × IsFirstUnknown (length systems.now) rules.now rule) }
{
    match first_unknown(systems.len(), rules) {
        Some(rule) => Err(BuildError::UnknownSystem(rule)),
        None => Ok(()),
    }
}

/// Gives each system its number.
fn number_all<V: Value, S: Numbered + SystemOf<Value = V>>(mut systems: Vec<S>) -> Vec<S>
    requires few { length systems.items ≤ MAX_SYSTEMS }
    ensures as_many { length result.items ≡ length systems.items }
    ensures numbered { map S.meaning result.items
        ≡ numbered_from 0 (map S.meaning systems.items) }
{
    for i in 0..systems.len() {
        systems[i].set_number(i as u32);
    }
    systems
}

impl<V: Value, S: Numbered + SystemOf<Value = V>> EngineBuilder<S, V> {
    /// Nothing is added yet. It takes no memory.
    pub fn new(alloc: Global) -> EngineBuilder<S, V>
        ensures new { result ≡ record { systems = []; places = []; rules = [] } }
    {
        EngineBuilder {
            alloc,
            systems: Vec::new(alloc),
            places: Vec::new(alloc),
            rules: Vec::new(alloc),
        }
    }

    /// Adds a system that takes its turns from the frame `join` on, if all its conditions hold,
    /// and gives its number. With 1 it joins as the engine is made.
    ///
    /// # Errors
    ///
    /// `Full` if there are `MAX_SYSTEMS` systems; else `BadJoin` if `join` isn't from 1 to
    /// `LAST_JOIN`; else want of memory. Then nothing is added.
    pub fn add_system(
        &mut self,
        system: S,
        conditions: Vec<Condition<V>>,
        join: u32,
    ) -> Result<u32, BuildError>
        ensures added { OnOk result (self.new ≡ record self.old {
          systems = self.old.systems ++ system ∷ [];
          places = self.old.places ++ record { conditions = conditions.items; join = join } ∷ [];
        }) }
        ensures number { IfOk result (λ number. number ≡ length self.old.systems) }
        ensures refusal { IfErr result (RefusesToAdd (length self.old.systems) join) }
        ensures unchanged { IfErr result (λ _. self.new ≡ self.old) }
    {
        if self.systems.len() >= MAX_SYSTEMS {
            return Err(BuildError::Full);
        }
        if join == 0 || join > LAST_JOIN {
            return Err(BuildError::BadJoin(join));
        }
        let number = self.systems.len() as u32;
        self.systems.reserve(1)?;
        self.places.reserve(1)?;
        let place = Place {
            conditions: Items::from_vec(conditions),
            join,
        };
        let Ok(()) = self.systems.push(system) else {
            unreachable!()
        };
        let Ok(()) = self.places.push(place) else {
            unreachable!()
        };
        Ok(number)
    }

    /// Adds a rule. Its systems may be added later.
    ///
    /// # Errors
    ///
    /// `NoMemory`, and then nothing is added.
    pub fn add_rule(&mut self, rule: Rule) -> Result<(), NoMemory>
        ensures added { OnOk result
            (self.new ≡ record self.old { rules = self.old.rules ++ rule ∷ [] }) }
        ensures unchanged { IfErr result (λ _. self.new ≡ self.old) }
    {
        self.rules.push(rule)?;
        Ok(())
    }

    /// The engine of what was added, over this world, with no frame run. System i writes as i, and
    /// has read nothing.
    ///
    /// # Errors
    ///
    /// `Misfit` with the lowest system that the world lacks something for; else `UnknownSystem`
    /// with the first rule without its systems; else what `EngineOf::new` refuses. The world and
    /// the systems are dropped then.
    pub fn build(self, world: World<V>) -> Result<EngineOf<S, V>, BuildError>
        requires whole { IsWhole world }
        ensures since { IfOk result (λ e. (w : WorldState V.values) → PartsStand world w
            → HasRunSince S.meaning (first_state (numbered_from 0 (map S.meaning self.systems))
            self.places self.rules (length world.types) (length world.resources) w) [] [] e) }
        ensures engine { IfOk result (IsEngine V.values S.meaning) }
        ensures fresh { IfOk result (λ e. ¬ IsSpoiled e) }
        ensures fit { OnOk result (AllFit S.meaning world self.systems self.places) }
        ensures named { OnOk result (NameSystemsBelow (length self.systems) self.rules) }
        ensures no_clash { OnOk result (NoneIsClash S.meaning self.systems) }
        ensures no_cycle { OnOk result (IsAcyclic (edges_of self.rules)) }
        ensures refusal { IfErr result (RefusesToBuild S.meaning world self) }
    {
        check_systems(&world, &self.systems, &self.places)?;
        check_names(&self.rules, &self.systems)?;
        let EngineBuilder {
            alloc,
            systems,
            places,
            rules,
        } = self;
        let systems = number_all(systems);
        Ok(EngineOf::new(alloc, world, systems, places, rules)?)
    }
}
