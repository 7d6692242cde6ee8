// Where systems of a new engine start, engines that there are not, and numbers of workers.
ghost use Rattle.msg_exec.specs.Prelude.{IsEngine};
ghost use Rattle.msg_world.specs.Prelude.{i64_values};

use crate::equal::{expect_eq, expect_text};
use crate::expecting::expect_frame;
use crate::making::{add, reader, scripted};
use crate::told::expect_engine;
use msg_exec::{BuildError, BuildRefusal, EngineBuilder, EngineOf, Workers};
use msg_order::Rule;
use msg_part_tests::numbers::type_no;
use msg_system::{Op, Scripted, Start, SystemOf};
use msg_world::World;
use std::alloc::Global;
use std::panic::Expect;
use std::process::Abort;

/// Two readers, of which one starts at 0 and one at the count.
fn two_readers(rt: &impl Abort, alloc: Global) -> EngineBuilder<Scripted> {
    let mut systems = EngineBuilder::new(alloc);
    for start in [Start::Zero, Start::Current] {
        let reader = reader(rt, alloc, start);
        add(rt, &mut systems, reader, Vec::new(alloc), 1);
    }
    systems
}

/// An engine of the two in a world with one message.
fn readers_after_a_post(rt: &impl Abort, alloc: Global) -> EngineOf<Scripted>
    ensures engine { IsEngine i64_values ⟦<Scripted as SystemOf>⟧.meaning result }
{
    let t = type_no(0);
    let mut world = World::new(alloc, &[10], &[]).expect(rt, "a world");
    assert!(rt; world.messages(t).is_some());
    world.post(t, 5).expect(rt, "a post");
    let systems = two_readers(rt, alloc);
    systems.build(world).expect(rt, "an engine")
}

/// The first frame in a world that had a message before the engine was made.
#[test]
fn starts_in_a_world_with_a_message(rt: HostRuntime) {
    let rt = &rt;
    let mut engine = readers_after_a_post(rt, rt.alloc());
    let told = "[0 read from 0: host=5][1 read from 1:]";
    expect_frame(rt, &mut engine, 1, &(&[], told));
    let told = "1 frames, from 0 to 1: host=5\
        [0 of 0: start Some(0) got 1 missed 0 cleared 0 place 1]\
        [1 of 0: start Some(1) got 0 missed 0 cleared 0 place 1]";
    expect_engine(rt, &engine, told);
    drop(engine);
}

/// Why no engine is made of so many scripts without ops and then one of these ops, which is to run
/// before itself, over one type.
fn expect_none_before_itself(
    rt: &(impl Abort + AllocGlobal),
    number: u32,
    ops: Vec<Op>,
    why: &str,
) {
    let mut systems = EngineBuilder::new(rt.alloc());
    for _number in 0..number {
        let script = scripted(rt, Vec::new(rt.alloc()), Start::Zero);
        add(rt, &mut systems, script, Vec::new(rt.alloc()), 1);
    }
    let script = scripted(rt, ops, Start::Zero);
    add(rt, &mut systems, script, Vec::new(rt.alloc()), 1);
    let rule = Rule::before(number, number);
    systems.add_rule(rule).expect(rt, "a rule");
    let world = World::new(rt.alloc(), &[10], &[]).expect(rt, "a world");
    let refused = systems.build(world).err();
    expect_text(rt, &refused.expect(rt, why), why);
}

/// A script that reads and writes the only type.
fn expect_clash(rt: &(impl Abort + AllocGlobal), number: u32, why: &str) {
    let ops = vec![in rt.alloc(); Op::Forward(type_no(0), type_no(0))];
    expect_none_before_itself(rt, number, ops.expect(rt, "ops"), why);
}

/// A script that reads and writes the only type, and one without ops.
#[test]
fn a_script_before_itself(rt: HostRuntime) {
    let rt = &rt;
    expect_clash(rt, 0, "system 0 reads and writes one type or resource");
    expect_clash(rt, 1, "system 1 reads and writes one type or resource");
    let why = "the rules go round in a circle through system 0";
    expect_none_before_itself(rt, 0, Vec::new(rt.alloc()), why);
    let why = "the rules go round in a circle through system 2";
    expect_none_before_itself(rt, 2, Vec::new(rt.alloc()), why);
}

#[test]
fn builders_say_why(rt: HostRuntime) {
    const ROWS: &[(BuildError, &str)] = &[
        (
            BuildError::Full,
            "there are 256 systems, and an engine has no more",
        ),
        (
            BuildError::BadJoin(0),
            "a system can't join with frame 0, but with one from 1 to 10000",
        ),
        (
            BuildError::Misfit(7),
            "system 7 or a condition of it reads or writes what the world hasn't got",
        ),
        (
            BuildError::UnknownSystem(Rule {
                earlier: 3,
                later: 9,
            }),
            "no system 3, or no system 9, which a rule names",
        ),
        (
            BuildError::Refused(BuildRefusal::NoMemory),
            "want of memory",
        ),
    ];
    for (error, why) in ROWS {
        expect_text(&rt, error, why);
    }
}

#[test]
fn numbers_of_workers(rt: HostRuntime) {
    const ROWS: &[(u32, bool)] = &[(0, false), (1, true), (64, true), (65, false)];
    for row in ROWS {
        let found = Workers::new(row.0).is_some();
        expect_eq(&rt, (row.0, found), *row);
    }
}
