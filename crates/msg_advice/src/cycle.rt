// The rules round a cycle.
ghost use Rattle.std.specs.Prelude.{◌≡◌, ◌<◌, IfOk, IfSome, length, slice_get};
ghost use Rattle.msg_advice.specs.Unfit.{Lead};

use crate::names::system_name;
use msg_order::Rule;
use msg_reading::Scenario;
use msg_world::NoMemory;
use std::alloc::Global;

/// The rules that lead from a system back to it, as few as there are, by their places; none if it
/// isn't on a cycle.
pub fn shortest_cycle(alloc: Global, rules: &[Rule], system: u32) -> Result<Vec<usize>, NoMemory>
    ensures leads_back { IfOk result (λ v. Lead rules.now v.items system system) }
{
    let levels = levels_back(alloc, rules, system)?;
    rules_along(alloc, rules, system, &levels)
}

/// The systems from which a rule leads to one of these.
fn one_before(alloc: Global, rules: &[Rule], systems: &[u32]) -> Result<Vec<u32>, NoMemory> {
    let leading = rules.iter().filter(|rule| systems.contains(&rule.later));
    leading.map(|rule| rule.earlier).collect(alloc)
}

/// Levels of systems from a system back to it, without the first one: a rule leads from each system
/// of a level to one of the level after it. They are as few as there are.
fn levels_back(alloc: Global, rules: &[Rule], system: u32) -> Result<Vec<Vec<u32>>, NoMemory> {
    let mut level = Vec::new(alloc);
    level.push(system)?;
    let mut levels = Vec::new(alloc);
    levels.push(level)?;
    for _ in 0..rules.len() {
        let Some(level) = levels.first() else {
            break;
        };
        let next = one_before(alloc, rules, level)?;
        if next.contains(&system) {
            return Ok(levels);
        }
        levels.insert(0, next)?;
    }
    Ok(Vec::new(alloc))
}

/// The first rule that leads from a system to one of these, by its place.
fn first_rule(rules: &[Rule], system: u32, systems: &[u32]) -> Option<usize>
    ensures below { IfSome result (λ k. k < length rules.now) }
    ensures leads { IfSome result (λ k. IfSome (slice_get rules.now k)
        (λ rule. rule.earlier ≡ system)) }
{
    let mut rules = rules.iter();
    rules.position(|rule| rule.earlier == system && systems.contains(&rule.later))
}

/// A way from a system through these levels, if it leads back to the system; else none.
fn rules_along(
    alloc: Global,
    rules: &[Rule],
    system: u32,
    levels: &[Vec<u32>],
) -> Result<Vec<usize>, NoMemory>
    ensures leads_back { IfOk result (λ v. Lead rules.now v.items system system) }
{
    let mut way = Vec::new(alloc);
    let mut at = system;
    for level in levels {
        let Some(k) = first_rule(rules, at, level) else {
            return Ok(Vec::new(alloc));
        };
        way.push(k)?;
        at = rules[k].later;
    }
    if at == system {
        Ok(way)
    } else {
        Ok(Vec::new(alloc))
    }
}

/// Adds a line for each rule round a cycle.
pub(crate) fn add_cycle(
    text: &mut String,
    scenario: &Scenario,
    system: u32,
) -> Result<(), NoMemory> {
    let rules = scenario.rules.as_slice();
    let cycle = shortest_cycle(*text.allocator(), rules, system)?;
    for k in cycle.as_slice() {
        if let Some(rule) = rules.get(*k) {
            let earlier = system_name(scenario, rule.earlier);
            let later = system_name(scenario, rule.later);
            writeln!(text, "rules[{k}]: {earlier} before {later}")?;
        }
    }
    Ok(())
}
