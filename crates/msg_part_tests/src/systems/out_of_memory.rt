// If there is no memory for a copy of a program there is none, and the program is as before.
use crate::equal::expect_eq;
use crate::numbers::type_no;
use crate::outcome::tell;
use msg_system::{Items, Op, Program, Start};
use std::alloc::{AllocError, Global};
use std::process::Abort;
use std::test::Fail;

/// A batch and a write; its cursors start at the counts.
fn made(alloc: Global) -> Result<Program, AllocError> {
    let t = type_no(0);
    let values = Items::from_vec(Vec::from_slice(alloc, &[2, 3])?);
    let ops = vec![in alloc; Op::Batch(t, values), Op::Write(t, 5)]?;
    Ok(Program {
        ops: Items::from_vec(ops),
        start: Start::Current,
    })
}

/// Both are equal.
fn expect_like(rt: &impl Abort, program: &Program, other: &Program) {
    expect_eq(rt, program.ops.as_slice(), other.ops.as_slice());
    expect_eq(rt, program.start, other.start);
}

#[test]
fn a_copy(rt: HostRuntime) -> Result<(), Fail> {
    let rt = &rt;
    let (program, other) = (made(rt.alloc())?, made(rt.alloc())?);
    let copied = program.copy(rt.alloc());
    expect_like(rt, &program, &other);
    let is_refused = copied.is_err();
    if let Ok(copied) = copied {
        expect_like(rt, &copied, &other);
        drop(copied);
    }
    drop((program, other));
    tell(rt, is_refused)
}
