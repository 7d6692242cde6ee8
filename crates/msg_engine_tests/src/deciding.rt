// How often code of a caller's is asked: a system that decides, and a test of values.
use crate::equal::expect_eq;
use crate::making::{add, engine_over, run_frame};
use crate::prefaced::shared_number;
use msg_exec::{EngineBuilder, NoGate};
use msg_function::FunctionSystem;
use msg_function::Port::Messages;
use msg_function::ready::{Filter, Test};
use msg_part_tests::numbers::type_no;
use msg_system::{Access, Behavior, BehaviorSystem, NoMemory, Op, Reply, Start};
use msg_world::TypeNo;
use std::alloc::Global;
use std::panic::Expect;
use std::process::Abort;
use std::sync::Arc;
use std::sync::atomic::{AtomicU64, Ordering};
use std::thread::Threads;

/// Writes `writes` messages in each turn, and counts how often it is asked for an op.
#[derive(Drop)]
struct Asked {
    to: TypeNo,
    writes: u64,
    asked: Arc<AtomicU64>,
}

impl Behavior for Asked {
    type Value = i64;

    ghost use Rattle.std.specs.Prelude.{Some, None, length, nat_lt, pos, if◌then◌else◌};
    ghost use Rattle.msg_system.specs.declared.op.Op.TheVariants.{Write};
    ghost use Rattle.msg_engine_tests.specs.declared.deciding.Asked.{Asked};

    ghost Memory = { Asked };

    ghost memory = { λ a. a };

    ghost next_op = { λ a replies.
        if nat_lt (length replies) a.writes then Some (Write a.to (pos 1)) else None };

    ghost remembered = { λ a replies. a };

    fn next(&self, _alloc: Global, replies: &[Reply]) -> Result<Option<Op>, NoMemory> {
        self.asked.fetch_add(1, Ordering::SeqCst);
        Ok(if (replies.len() as u64) < self.writes {
            Some(Op::Write(self.to, 1))
        } else {
            None
        })
    }

    fn remember(&mut self, _alloc: Global, _replies: &[Reply]) -> Result<(), NoMemory> {
        Ok(())
    }
}

/// How many messages each of two systems would write in a turn, and how often it is asked for an
/// op: once for each that it writes, and once more.
const ASKED: &[(u64, u64)] = &[(0, 1), (1, 2), (3, 4), (63, 64), (64, 65), (65, 65)];

/// A system that writes so many messages to this type.
fn asked_system(
    rt: &(impl Abort + AllocGlobal),
    to: TypeNo,
    writes: u64,
    asked: &Arc<AtomicU64>,
) -> BehaviorSystem<Asked> {
    let asked = Arc::try_clone(asked).expect(rt, "a count");
    let behavior = Asked { to, writes, asked };
    let access = Access::none().with_write_type(to);
    BehaviorSystem::new(rt.alloc(), behavior, access, Start::Zero, 0)
}

/// Runs a frame of two of them on so many workers.
fn expect_asked<R: Threads + Sync + Abort + AllocGlobal>(
    rt: &R,
    writes: u64,
    asks: u64,
    number: u32,
) {
    let asked = shared_number(rt, rt.alloc());
    let mut systems = EngineBuilder::new(rt.alloc());
    for to in [type_no(0), type_no(1)] {
        let system = asked_system(rt, to, writes, &asked);
        add(rt, &mut systems, system, Vec::new(rt.alloc()), 1);
    }
    let mut engine = engine_over(rt, rt.alloc(), systems, &[100, 100], &[]);
    drop(run_frame(rt, &mut engine, &[], number, &NoGate));
    drop(engine);
    let found = asked.load(Ordering::SeqCst);
    drop(asked);
    expect_eq(rt, (writes, found), (writes, asks.saturating_mul(2)));
}

#[test]
fn they_are_asked_once_for_each_op(rt: HostRuntime) {
    for (writes, asks) in ASKED {
        for number in [1, 2] {
            expect_asked(&rt, *writes, *asks, number);
        }
    }
}

/// Lets numbers above 9 pass, and counts how often it is asked.
#[derive(Drop)]
struct AskedTest {
    asked: Arc<AtomicU64>,
}

impl Test for AskedTest {
    type Value = i64;

    ghost use Rattle.std.specs.Prelude.{int_lt, pos};

    ghost passes = { λ t value. int_lt (pos 9) value };

    fn passes(&self, value: i64) -> bool {
        self.asked.fetch_add(1, Ordering::SeqCst);
        value > 9
    }
}

/// Whether it passes or not, a test is asked of each value once.
#[test]
fn a_test_is_asked_once_for_each_value(rt: HostRuntime) {
    let rt = &rt;
    let asked = shared_number(rt, rt.alloc());
    let test = AskedTest {
        asked: Arc::try_clone(&asked).expect(rt, "a count"),
    };
    let (from, to) = (Messages(type_no(0)), Messages(type_no(1)));
    let filter = FunctionSystem::new(rt.alloc(), Filter { test }, [from], [to]);
    let mut systems = EngineBuilder::new(rt.alloc());
    add(
        rt,
        &mut systems,
        filter.expect(rt, "a filter"),
        Vec::new(rt.alloc()),
        1,
    );
    let mut engine = engine_over(rt, rt.alloc(), systems, &[10, 10], &[]);
    drop(run_frame(rt, &mut engine, &[5, 12, 30], 1, &NoGate));
    drop(engine);
    let found = asked.load(Ordering::SeqCst);
    drop(asked);
    expect_eq(rt, found, 3);
}
