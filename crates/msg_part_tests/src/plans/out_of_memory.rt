// If there is no memory for a plan there is none, and the same call gives it once memory is
// there.
use super::{contradictory_plan, cycle_in, expect_contradictory};
use crate::equal::expect_eq;
use crate::outcome::tell;
use std::alloc::Global;
use std::process::Abort;
use std::test::Fail;

/// Whether the plan was refused memory.
fn is_refused(rt: &impl Abort, alloc: Global) -> bool {
    match contradictory_plan(alloc) {
        Ok(plan) => {
            expect_contradictory(rt, &plan);
            drop(plan);
            false
        }
        Err(refusal) => {
            expect_eq(rt, cycle_in(refusal), None);
            true
        }
    }
}

#[test]
fn contradictory_order(rt: HostRuntime) -> Result<(), Fail> {
    let rt = &rt;
    let is_first_refused = is_refused(rt, rt.alloc());
    if is_first_refused {
        expect_eq(rt, is_refused(rt, rt.alloc()), false);
    }
    tell(rt, is_first_refused)
}
