// What an engine tells, with names, and its plan beside that of the scenario that it was made of.
ghost use Rattle.std.specs.Prelude.{◌<◌};
ghost use Rattle.msg_frames.specs.Prelude.{IsOrderly};
ghost use Rattle.msg_reading.specs.Prelude.{IsRunnable};
ghost use Rattle.msg_exec.specs.Prelude.{IsEngine};
ghost use Rattle.msg_world.specs.Prelude.{i64_values};

use crate::equal::{Have, expect_eq, expect_text};
use crate::scenario_files::accepted;
use crate::sparing::{sparing_engine, workers};
use msg_exec::{Arrangement, EngineOf, Frame, NoGate};
use msg_names::Names;
use msg_part_tests::prefaced::Prefaced;
use msg_scenario::{Form, MemorySink, Scenario, put_engine_plan, put_plan};
use msg_system::SystemOf;
use msg_world::{Access, TypeNo};
use std::process::Abort;
use std::thread::Threads;

/// A writer that signals, a reader with a condition that writes too, a tally that joins late, and a
/// reader that a rule puts before its writer.
const SCENARIO: &str =
    r#"{"types":[["hit",9],["pay",9]],"resources":[["till",0]],"systems":[{"name":"a","ops":[["write","hit",1],["signal"]]},{"name":"b","if":[["resource_equals","till",0]],"ops":[["read","hit"],["write","pay",2]]},{"name":"c","join":2,"ops":[["sum","pay","till"]]},{"name":"d","ops":[["read","pay"],["clear","hit"]]}],"rules":[["d","b"]],"frames":[]}"#;

const NAMES: Names<'static> = Names {
    systems: &["a", "b", "c", "d"],
    types: &["hit", "pay"],
    resources: &["till"],
};

const NO_NAMES: Names<'static> = Names {
    systems: &[],
    types: &[],
    resources: &[],
};

/// An engine of two systems, of which the first uses all 129 parts that a world may have.
const CROWDED: Arrangement<'static> = Arrangement {
    accesses: &[
        Access {
            read_types: u64::MAX,
            write_types: 0,
            read_res: 0,
            write_res: u64::MAX,
            registry: true,
        },
        Access {
            read_types: 0,
            write_types: 1,
            read_res: 0,
            write_res: 0,
            registry: false,
        },
    ],
    joins: &[1, 1],
    rules: &[],
    types: 64,
    resources: 64,
};

const LANE: Names<'static> = Names {
    systems: &["early 0", "tower 0"],
    types: &["walks 0"],
    resources: &["lives"],
};

/// The plan of a frame of an engine.
fn plan_of(
    rt: &(impl Abort + AllocGlobal),
    arrangement: &Arrangement,
    names: &Names,
    frame: u32,
) -> MemorySink
    requires orderly { IsOrderly arrangement.now }
{
    let mut text = MemorySink::new();
    put_engine_plan(
        rt.alloc(),
        arrangement,
        names,
        frame,
        Form::Lines,
        &mut text,
    )
    .have(rt);
    text
}

/// An engine and the scenario that it was made of have one plan of a frame.
fn expect_same_plans(
    rt: &(impl Abort + AllocGlobal),
    scenario: &Scenario,
    arrangement: &Arrangement,
    frame: u32,
)
    requires runnable { IsRunnable scenario.now }
    requires orderly { IsOrderly arrangement.now }
    requires some { 0 < frame }
{
    let mut want = MemorySink::new();
    put_plan(rt.alloc(), scenario, frame, Form::Lines, &mut want).have(rt);
    expect_eq(
        rt,
        plan_of(rt, arrangement, &NAMES, frame).bytes(),
        want.bytes(),
    );
    assert!(rt; !want.bytes().is_empty());
}

/// An engine has the plans of its scenario. What has no name is told by its number.
fn expect_plans(rt: &(impl Abort + AllocGlobal), scenario: &Scenario, arrangement: &Arrangement)
    requires runnable { IsRunnable scenario.now }
    requires orderly { IsOrderly arrangement.now }
{
    expect_same_plans(rt, scenario, arrangement, 1);
    expect_same_plans(rt, scenario, arrangement, 2);
    let want = "frame 1\nbatch 1: system 0\nbatch 2: system 3\nbatch 3: system 1\n";
    let text = plan_of(rt, arrangement, &NO_NAMES, 1);
    assert!(rt; text.bytes().starts_with(want.as_bytes()));
}

#[test]
fn an_engine_has_the_plan_of_its_scenario(rt: HostRuntime) {
    let rt = &rt;
    let scenario = accepted(rt, SCENARIO);
    let engine = sparing_engine(rt.alloc(), &scenario, 0).have(rt);
    let arrangement = engine.arrangement().have(rt);
    expect_plans(rt, &scenario, &arrangement);
    drop(engine);
}

#[test]
fn a_system_may_use_all_parts_and_have_spaces_in_its_name(rt: HostRuntime) {
    const PLAN: &str = "\
        frame 1\n\
        batch 1: early 0\n\
        batch 2: tower 0\n\
        early 0 before tower 0: type walks 0\n\
        type walks 0: written by tower 0; read by early 0 (a frame late)\n\
        type 1: written by no system; read by early 0\n";
    let text = plan_of(&rt, &CROWDED, &LANE, 1);
    assert!(rt; text.bytes().starts_with(PLAN.as_bytes()));
}

/// What the next frame with a post and the account of the last reader tell, with these names.
fn expect_told(
    rt: &(impl Threads + Sync + Abort + AllocGlobal),
    engine: &mut EngineOf<Prefaced>,
    names: Names,
    log: &str,
    account: &str,
)
    requires engine { IsEngine i64_values ⟦<Prefaced as SystemOf>⟧.meaning engine.old }
    ensures engine { IsEngine i64_values ⟦<Prefaced as SystemOf>⟧.meaning engine.new }
{
    let frame = Frame::of(vec![in rt.alloc(); (TypeNo::of(1), 7)].have(rt));
    assert!(rt; engine.fits(&frame));
    let told = engine
        .run_frame(rt, &frame, workers(rt, 2), &NoGate)
        .have(rt);
    expect_text(rt, &names.log(&told), log);
    let accounts = engine.accounts().have(rt);
    let last = accounts.last().have(rt);
    expect_text(rt, &names.account(*last, engine.backlog(last)), account);
}

#[test]
fn logs_and_accounts_are_told_by_name(rt: HostRuntime) {
    const LOG: &str = "\
        host wrote 0+1\n\
        a wrote 0+1\n\
        a signalled\n\
        d missed 0: 0=7@host\n\
        d missed 0 cleared 1\n\
        b missed 0: 0=1@a\n\
        b wrote 1+1\n";
    const ACCOUNT: &str = "d reads pay: start 0 got 1 missed 0 cleared 0 place 1 lost 0 unread 1";
    const NUMBERED: &str =
        "system 3 reads type 1: start 0 got 3 missed 0 cleared 0 place 3 lost 0 unread 1";
    const NUMBERED_LOG: &str = "\
        host wrote 2+1\n\
        system 0 wrote 1+1\n\
        system 0 signalled\n\
        system 3 missed 0: 1=2@system 1 2=7@host\n\
        system 3 missed 0 cleared 1\n\
        system 1 missed 0: 1=1@system 0\n\
        system 1 wrote 3+1\n\
        system 2 missed 0: 0=7@host 1=2@system 1 2=7@host 3=2@system 1; 18\n";
    let rt = &rt;
    let scenario = accepted(rt, SCENARIO);
    let mut engine = sparing_engine(rt.alloc(), &scenario, 9).have(rt);
    expect_told(rt, &mut engine, NAMES, LOG, ACCOUNT);
    expect_told(rt, &mut engine, NO_NAMES, NUMBERED_LOG, NUMBERED);
    drop(engine);
}
