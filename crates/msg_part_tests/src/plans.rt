// Plans of worked rules and accesses.
ghost use Rattle.std.specs.Prelude.{◌≡◌, ◌≤◌, length};
ghost use Rattle.msg_order.specs.Prelude.{NameSystemsBelow};

mod out_of_memory;

use crate::equal::{Have, expect_eq, expect_text};
use crate::numbers::of_types as uses;
use msg_order::{Plan, PlanRefusal, Rule};
use msg_world::{Access, MAX_SYSTEMS};
use std::alloc::Global;
use std::process::Abort;

fn has_batches(plan: &Plan, want: &[&[u32]]) -> bool {
    for (batch, want) in plan.batches().iter().zip(want) {
        if batch.as_slice() != *want {
            return false;
        }
    }
    plan.batches().len() == want.len()
}

/// The plan of these systems, which has these batches.
fn plan_with(
    rt: &(impl Abort + AllocGlobal),
    accesses: &[Access],
    rules: &[Rule],
    joined: &[bool],
    batches: &[&[u32]],
) -> Plan
    requires few { length accesses.now ≤ MAX_SYSTEMS }
    requires one_each { length joined.now ≡ length accesses.now }
    requires in_range { NameSystemsBelow (length accesses.now) rules.now }
{
    let plan = Plan::build(rt.alloc(), accesses, rules, joined).have(rt);
    expect_eq(rt, has_batches(&plan, batches), true);
    plan
}

/// Whether one system precedes the other.
fn expect_precedes(rt: &impl Abort, plan: &Plan, one: u32, other: u32, want: bool) {
    let precedes = plan.precedes(one, other);
    expect_eq(rt, (one, other, precedes), (one, other, want));
}

#[test]
fn batches_of_worked_plans(rt: HostRuntime) {
    let rt = &rt;
    let plan = plan_with(rt, &[], &[], &[], &[]);
    expect_eq(rt, plan.accepts(&[]), true);
    drop(plan);
    let readers = [uses(0, 1), uses(1, 0), uses(1, 0), uses(0, 1)];
    drop(plan_with(rt, &readers, &[], &[true; 4], &[&[0], &[1, 2], &[3]]));
    // A settled pair leaves the next no choice.
    let (writers, rules) = ([uses(0, 1); 3], [Rule::before(2, 0)]);
    drop(plan_with(rt, &writers, &rules, &[true; 3], &[&[2], &[0], &[1]]));
}

/// The plan of two writers and their readers, where each reader runs before the other's writer.
fn contradictory_plan(alloc: Global) -> Result<Plan, PlanRefusal> {
    let accesses = [uses(0, 1), uses(0, 2), uses(2, 0), uses(1, 0)];
    let rules = [Rule::before(3, 1), Rule::after(0, 2)];
    Plan::build(alloc, &accesses, &rules, &[true; 4])
}

/// Its batches.
const CONTRADICTORY: [&[u32]; 4] = [&[2], &[0], &[3], &[1]];

/// Orders, and whether it takes each.
const ORDERS: [(&[u32], bool); 4] = [
    (&[2, 0, 3, 1], true),
    (&[0, 2, 3, 1], false),
    (&[2, 0, 3], false),
    (&[2, 0, 3, 1, 1], false),
];

/// It is that plan.
fn expect_contradictory(rt: &impl Abort, plan: &Plan) {
    expect_eq(rt, has_batches(plan, &CONTRADICTORY), true);
    expect_precedes(rt, plan, 2, 1, true);
    expect_precedes(rt, plan, 1, 2, false);
    for (order, want) in &ORDERS {
        expect_eq(rt, (*order, plan.accepts(order)), (*order, *want));
    }
}

/// The lowest system on the cycle for which a plan was refused.
fn cycle_in(refusal: PlanRefusal) -> Option<u32> {
    match refusal {
        PlanRefusal::Cycle(lowest) => Some(lowest),
        PlanRefusal::NoMemory => None,
    }
}

/// There is no plan of these systems: their rules make a cycle, of which this is the lowest system.
fn expect_cycle(
    rt: &(impl Abort + AllocGlobal),
    accesses: &[Access],
    rules: &[Rule],
    joined: &[bool],
    lowest: u32,
)
    requires few { length accesses.now ≤ MAX_SYSTEMS }
    requires one_each { length joined.now ≡ length accesses.now }
    requires in_range { NameSystemsBelow (length accesses.now) rules.now }
{
    let refused = Plan::build(rt.alloc(), accesses, rules, joined).err();
    expect_eq(rt, cycle_in(refused.have(rt)), Some(lowest));
}

#[test]
fn a_cycle_of_rules_names_its_lowest_system(rt: HostRuntime) {
    let rt = &rt;
    let (idle, joined) = ([Access::none(); 2], [true; 2]);
    let around = [Rule::before(0, 1), Rule::before(1, 0)];
    expect_cycle(rt, &idle, &around, &joined, 0);
    expect_cycle(rt, &idle, &[Rule::before(1, 1)], &joined, 1);
}

#[test]
fn refusals_say_why(rt: HostRuntime) {
    let rt = &rt;
    let circle = "the rules go round in a circle through system 1";
    expect_text(rt, &PlanRefusal::Cycle(1), circle);
    expect_text(rt, &PlanRefusal::NoMemory, "want of memory");
}

#[test]
fn what_has_not_joined_has_no_effect(rt: HostRuntime) {
    let rt = &rt;
    let (idle, early, all) = ([Access::none(); 3], [true, false, true], [true; 3]);
    let chain = [Rule::before(0, 1), Rule::before(1, 2)];
    let plan = plan_with(rt, &idle, &chain, &early, &[&[0, 2]]);
    expect_precedes(rt, &plan, 0, 2, false);
    drop(plan);
    let plan = plan_with(rt, &idle, &chain, &all, &[&[0], &[1], &[2]]);
    expect_precedes(rt, &plan, 0, 2, true);
    drop(plan);
    let own = [Rule::before(1, 1)];
    drop(plan_with(rt, &idle, &own, &early, &[&[0, 2]]));
    expect_cycle(rt, &idle, &own, &all, 1);
}
