// Jobs that hold a boxed object and a shared reference to a number.
ghost use Rattle.std.specs.Prelude.{◌≡◌, ◌/◌, ℕ};

use super::{Runs, run_jobs};
use crate::equal::{Have, expect_eq};
use msg_board::Work;
use std::marker::PhantomData;
use std::process::Abort;

trait Tool: Send + Drop {
    ghost gain: { Self → ℕ → ℕ };

    fn apply(&self, x: u64) -> u64
        ensures { result ≡ gain self.now x };
}

#[derive(Drop)]
struct Half;

impl Tool for Half {
    ghost gain = { λ _ x. x / 2 };

    fn apply(&self, x: u64) -> u64 {
        x / 2
    }
}

#[derive(Drop)]
struct Constant(u64);

impl Tool for Constant {
    ghost gain = { λ it _. it.0 };

    fn apply(&self, _x: u64) -> u64 {
        self.0
    }
}

/// The tools' work: each is applied to the number that it comes with.
struct Tools<'a> {
    marker: PhantomData<&'a u64>,
}

impl<'a> Work for Tools<'a> {
    type Job = (Box<dyn Tool>, &'a u64);

    type Done = (Box<dyn Tool>, u64);

    ghost lawful = { λ j d. d.1 ≡ (Tool-box j.0).gain j.0.value j.1.now };
}

impl<'a> Runs for Tools<'a> {
    fn run(job: (Box<dyn Tool>, &'a u64)) -> (Box<dyn Tool>, u64) {
        let (tool, base) = job;
        let value = tool.apply(*base);
        (tool, value)
    }
}

fn boxed<T: Drop>(rt: &(impl Abort + AllocGlobal), tool: T) -> Box<T> {
    Box::new(rt.alloc(), tool).have(rt)
}

/// Adds a job that applies this tool to the number.
fn add<'a>(
    rt: &impl Abort,
    jobs: &mut Vec<(Box<dyn Tool>, &'a u64)>,
    base: &'a u64,
    tool: Box<dyn Tool>,
) {
    jobs.push((tool, base)).have(rt);
}

#[test]
fn boxes_of_two_kinds(rt: HostRuntime) {
    let rt = &rt;
    let base = 20;
    let mut jobs = Vec::new(rt.alloc());
    add(rt, &mut jobs, &base, boxed(rt, Half));
    add(rt, &mut jobs, &base, boxed(rt, Constant(7)));
    add(rt, &mut jobs, &base, boxed(rt, Half));
    assert!(rt; jobs.len() == 3);
    let done = run_jobs::<HostRuntime, Tools>(rt, rt.alloc(), jobs, 2).have(rt);
    assert!(rt; done.len() == 3);
    expect_eq(rt, (done[0].1, done[1].1, done[2].1), (10, 7, 10));
    drop(done);
}
