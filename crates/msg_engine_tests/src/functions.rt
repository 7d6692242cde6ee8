// Systems that are one function, of those that are there already, on 1 and 2 workers.
ghost use Rattle.std.specs.Prelude.{◌≡◌, nat_lt, negsuc, pos, if◌then◌else◌};
ghost use Rattle.msg_exec.specs.Prelude.{IsEngine};
ghost use Rattle.msg_world.specs.Prelude.{i64_values};

use crate::equal::expect_eq;
use crate::expecting::{Told, expect_each, expect_frames};
use crate::making::{add, engine_over};
use msg_exec::{EngineBuilder, EngineOf};
use msg_function::Port::{Messages, Resource};
use msg_function::ready::{Count, Filter, HoldBack, Sum, Test};
use msg_function::{Either, Function, FunctionSystem, Inbox, NoMemory, Outbox};
use msg_part_tests::numbers::{res_no, type_no};
use msg_system::SystemOf;
use msg_world::Value;
use std::alloc::Global;
use std::panic::Expect;
use std::process::Abort;

/// Numbers above 9.
#[derive(Drop)]
pub struct Large;

impl Test for Large {
    type Value = i64;

    ghost use Rattle.std.specs.Prelude.{int_lt, pos};

    ghost passes = { λ l value. int_lt (pos 9) value };

    fn passes(&self, value: i64) -> bool {
        value > 9
    }
}

/// A system of one of the functions that are there already.
pub type Ready = Either<
    Either<FunctionSystem<Filter<Large>, 1, 1>, FunctionSystem<HoldBack, 1, 1>>,
    Either<FunctionSystem<Count, 1, 1>, FunctionSystem<Sum, 1, 1>>,
>;

/// A filter writes the second type, and one that holds back the third; a count and a sum write
/// resources.
fn add_ready(rt: &impl Abort, alloc: Global, systems: &mut EngineBuilder<Ready>) {
    let from = type_no(0);
    let filter = Filter { test: Large };
    let filter = FunctionSystem::new(alloc, filter, [Messages(from)], [Messages(type_no(1))]);
    let filter = Either::Left(Either::Left(filter.expect(rt, "a filter")));
    add(rt, systems, filter, Vec::new(alloc), 1);
    let held = HoldBack::new(alloc, 2);
    let held = FunctionSystem::new(alloc, held, [Messages(from)], [Messages(type_no(2))]);
    let held = Either::Left(Either::Right(held.expect(rt, "one that holds back")));
    add(rt, systems, held, Vec::new(alloc), 1);
    let count = Count { so_far: 0, one: 1 };
    let count = FunctionSystem::new(alloc, count, [Messages(from)], [Resource(res_no(0))]);
    let count = Either::Right(Either::Left(count.expect(rt, "a count")));
    add(rt, systems, count, Vec::new(alloc), 1);
    let sum = Sum { so_far: 0 };
    let sum = FunctionSystem::new(alloc, sum, [Messages(from)], [Resource(res_no(1))]);
    let sum = Either::Right(Either::Right(sum.expect(rt, "a sum")));
    add(rt, systems, sum, Vec::new(alloc), 1);
}

/// An engine of one of each, over three types of this limit and two resources.
pub fn ready(rt: &impl Abort, alloc: Global, limit: u64) -> EngineOf<Ready>
    ensures engine { IsEngine i64_values ⟦<Ready as SystemOf>⟧.meaning result }
{
    let mut systems = EngineBuilder::new(alloc);
    add_ready(rt, alloc, &mut systems);
    engine_over(rt, alloc, systems, &[limit; 3], &[0, 0])
}

#[test]
fn functions_that_are_there_already(rt: HostRuntime) {
    const FRAMES: &[Told<'static>] = &[
        (
            &[5, 12],
            " wrote 1 from 0 wrote 1 from 1[0 read from 0: host=5 host=12 wrote 1 from 0]\
             [1 read from 0: host=5 host=12][2 read from 0: host=5 host=12 Value(2)]\
             [3 read from 0: host=5 host=12 Value(17)]",
        ),
        (
            &[10],
            " wrote 1 from 2[0 read from 2: host=10 wrote 1 from 1]\
             [1 read from 2: host=10 wrote 3 from 0][2 read from 2: host=10 Value(3)]\
             [3 read from 2: host=10 Value(27)]",
        ),
    ];
    for number in [1, 2] {
        expect_frames(&rt, ready(&rt, rt.alloc(), 10), number, FRAMES);
    }
}

/// Writes a message, and to a resource first a 7 and then what it is told of losses: -1 if its last
/// message was refused, 5 if it missed some, and else 0.
#[derive(Drop)]
struct Teller;

impl Function<1, 2> for Teller {
    type Value = i64;

    ghost use Rattle.std.specs.Prelude.{nat_lt, negsuc, pos, if◌then◌else◌};
    ghost use Rattle.msg_function.specs.Prelude.{nothing, put};

    ghost answers = { λ teller given. (
      teller,
      put 0 (pos 1)
          (put 1 (if given.spent 0 then negsuc 0 else (if nat_lt 0 (given.missed 0) then pos 5 else pos 0))
          (put 1 (pos 7) nothing)),
    ) };

    fn answer(&mut self, inbox: &Inbox<i64>, outbox: &mut Outbox<i64, 2>) -> Result<(), NoMemory> {
        outbox.write(1, 7)?;
        outbox.write(1, told(inbox.spent(0), inbox.missed(0)))?;
        outbox.write(0, 1)?;
        Ok(())
    }
}

/// What it is told of losses.
fn told(spent: bool, missed: u64) -> i64
    ensures { result ≡ (if spent then negsuc 0 else (if nat_lt 0 missed then pos 5 else pos 0)) }
{
    if spent {
        -1
    } else if missed > 0 {
        5
    } else {
        0
    }
}

/// An engine of one that joins with frame 3, of a type with two numbers.
fn telling(rt: &impl Abort, alloc: Global) -> EngineOf<FunctionSystem<Teller, 1, 2>>
    ensures engine { IsEngine i64_values ⟦<FunctionSystem<Teller, 1, 2> as SystemOf>⟧.meaning result }
{
    let mut systems = EngineBuilder::new(alloc);
    let writes = [Messages(type_no(1)), Resource(res_no(0))];
    let teller = FunctionSystem::new(alloc, Teller, [Messages(type_no(0))], writes);
    let teller = teller.expect(rt, "a teller");
    add(rt, &mut systems, teller, Vec::new(alloc), 3);
    engine_over(rt, alloc, systems, &[10, 2], &[0])
}

/// How many messages the first writer was refused.
fn first_refused<V: Value, S: SystemOf<Value = V>>(
    rt: &impl Abort,
    engine: &EngineOf<S, V>,
) -> Option<u64> {
    let accounts = engine.writer_accounts().expect(rt, "accounts of writers");
    accounts.first().map(|account| account.refused)
}

#[test]
fn functions_hear_what_they_lost(rt: HostRuntime) {
    const FRAMES: &[Told<'static>] = &[
        (&[1], " wrote 1 from 0"),
        (&[2], " wrote 1 from 1"),
        (
            &[3],
            " wrote 1 from 2[0 missed 1 read from 1: host=2 host=3 wrote 1 from 0 Value(5)]",
        ),
        (&[], "[0 read from 3: wrote 1 from 1 Value(0)]"),
        (&[], "[0 read from 3: Spent Value(0)]"),
        (&[], "[0 read from 3: Spent Value(-1)]"),
    ];
    let rt = &rt;
    let mut engine = telling(rt, rt.alloc());
    expect_each(rt, &mut engine, 1, FRAMES);
    expect_eq(rt, first_refused(rt, &engine), Some(2));
    drop(engine);
}

/// Asks for parts that its system wasn't made with, and writes 1 to a resource if it is told that
/// the first of them takes nothing and the second has nothing; it writes to the first of them too.
#[derive(Drop)]
struct Lonely;

impl Function<2, 2> for Lonely {
    type Value = i64;

    ghost use Rattle.std.specs.Prelude.{length, nat_lt, pos, if◌then◌else◌};
    ghost use Rattle.msg_function.specs.Prelude.{nothing, put};

    ghost answers = { λ lonely given. (
      lonely,
      put 1 (pos 9) (put 0 (if given.spent 1 then
          (if nat_lt 0 (length (given.messages 1)) then pos 2 else pos 1) else pos 3) nothing),
    ) };

    fn answer(&mut self, inbox: &Inbox<i64>, outbox: &mut Outbox<i64, 2>) -> Result<(), NoMemory> {
        let told = match (inbox.spent(1), inbox.read(1).is_empty()) {
            (true, true) => 1,
            (true, false) => 2,
            (false, _) => 3,
        };
        outbox.write(0, told)?;
        outbox.write(1, 9)
    }
}

#[test]
fn parts_may_be_absent(rt: HostRuntime) {
    let mut systems = EngineBuilder::new(rt.alloc());
    let (read, written) = ([Messages(type_no(0))], [Resource(res_no(0))]);
    let lonely = FunctionSystem::new(rt.alloc(), Lonely, read, written);
    let lonely = lonely.expect(&rt, "a system of fewer parts");
    add(&rt, &mut systems, lonely, Vec::new(rt.alloc()), 1);
    let engine = engine_over(&rt, rt.alloc(), systems, &[10], &[0]);
    expect_frames(
        &rt,
        engine,
        1,
        &[
            (&[5], " wrote 1 from 0[0 read from 0: host=5 Value(1)]"),
            (&[], "[0 read from 1: Value(1)]"),
        ],
    );
}
