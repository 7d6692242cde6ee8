// What refused requests for ordinary memory leave of engines. Each test prints `refused` if
// the call that it tests answered want of memory, and `ample` if it gave its whole answer.
ghost use Rattle.std.specs.Prelude.{◌≡◌, IfOk, Ok};
ghost use Rattle.msg_world.specs.Prelude.{i64_values};
ghost use Rattle.msg_exec.specs.Prelude.{IsEngine};

use crate::cases::{BOARD, CONTRADICTORY, Case, LAG};
use crate::equal::expect_eq;
use crate::expecting::{Told, expect_logs, expect_unlawful};
use crate::functions::Large;
use crate::making::{Does, engine_of, replay, run_two_quiet, script};
use crate::spoiled::expect_spoiled;
use crate::told::{expect_accounts, expect_log};
use msg_exec::{Account, BuildError, BuildRefusal, EngineBuilder, EngineOf, NoMemory, RunFault};
use msg_function::Port::Messages;
use msg_function::ready::Filter;
use msg_function::{Either, FunctionSystem};
use msg_part_tests::numbers::type_no;
use msg_part_tests::outcome::tell;
use msg_system::{Scripted, Start, SystemOf};
use msg_world::World;
use std::alloc::Global;
use std::io::Print;
use std::panic::Expect;
use std::process::Abort;
use std::test::Fail;
use std::thread::Threads;

/// What was made, unless there was no memory for it.
fn made<T: Drop>(rt: &impl Abort, made: Result<T, BuildError>) -> Result<T, NoMemory>
    ensures made { IfOk result (λ value. made ≡ Ok value) }
{
    match made {
        Ok(value) => Ok(value),
        Err(BuildError::Refused(BuildRefusal::NoMemory)) => Err(NoMemory),
        Err(_other) => panic!(rt; "the engine can be built"),
    }
}

/// The engine of a case.
fn engine_for(rt: &impl Abort, alloc: Global, case: &Case) -> Result<EngineOf<Scripted>, NoMemory>
    ensures engine { IfOk result (IsEngine i64_values ⟦<Scripted as SystemOf>⟧.meaning) }
{
    made(rt, engine_of(rt, alloc, 10, case.acts, case.rules))
}

/// Whether a call was refused memory. If it was, the engine is spoiled after `frames_run`
/// frames.
fn is_refused<R: Threads + Sync + Abort + AllocGlobal, S: SystemOf<Value = i64> + Send>(
    rt: &R,
    engine: &mut EngineOf<S>,
    frames_run: u32,
    came: Result<(), RunFault>,
) -> bool
    requires engine { IsEngine i64_values S.meaning engine.old }
{
    let Err(fault) = came else {
        expect_eq(rt, engine.frames_run(), frames_run);
        return false;
    };
    expect_eq(rt, fault, RunFault::NoMemory);
    expect_spoiled(rt, engine, frames_run);
    true
}

/// Runs two frames on `number` workers. Gives whether memory was refused.
fn run_two<R: Threads + Sync + Abort + AllocGlobal, S: SystemOf<Value = i64> + Send>(
    rt: &R,
    mut engine: EngineOf<S>,
    number: u32,
    frames: &[Told<'_>],
) -> bool
    requires engine { IsEngine i64_values S.meaning engine }
{
    let mut logs = Vec::new(rt.alloc());
    let ran = run_two_quiet(rt, &mut engine, number, &mut logs);
    let whole = engine.frames_run();
    expect_eq(rt, logs.len(), whole as usize);
    expect_eq(rt, ran.is_err() || whole == 2, true);
    expect_logs(rt, &logs, frames);
    drop(logs);
    let is_refused = is_refused(rt, &mut engine, whole, ran);
    drop(engine);
    is_refused
}

/// Runs two frames of the case on `number` workers, and tells whether memory was refused.
fn tell_two<R: Threads + Sync + Abort + AllocGlobal + Print>(
    rt: &R,
    case: &Case,
    number: u32,
) -> Result<(), Fail> {
    let engine = engine_for(rt, rt.alloc(), case)?;
    tell(rt, run_two(rt, engine, number, case.frames))
}

#[test]
fn frames_on_one_worker(rt: HostRuntime) -> Result<(), Fail> {
    tell_two(&rt, LAG, 1)
}

#[test]
fn frames_on_two_workers(rt: HostRuntime) -> Result<(), Fail> {
    tell_two(&rt, LAG, 2)
}

#[test]
fn a_board_on_two_workers(rt: HostRuntime) -> Result<(), Fail> {
    tell_two(&rt, BOARD, 2)
}

/// A script, or a filter of large numbers.
type Filtering = Either<Scripted, FunctionSystem<Filter<Large>, 1, 1>>;

/// Adds a script that writes a large number, and two filters that may run side by side: each writes
/// it again, to a type of its own.
fn add_filtering(
    rt: &impl Abort,
    alloc: Global,
    systems: &mut EngineBuilder<Filtering>,
) -> Result<(), BuildError> {
    let writer = script(rt, alloc, (0, Does::Writes(12)), Start::Zero)?;
    systems.add_system(Either::Left(writer), Vec::new(alloc), 1)?;
    for to in [1, 2] {
        let (read, written) = (Messages(type_no(0)), Messages(type_no(to)));
        let filter = FunctionSystem::new(alloc, Filter { test: Large }, [read], [written])?;
        systems.add_system(Either::Right(filter), Vec::new(alloc), 1)?;
    }
    Ok(())
}

/// The engine of these.
fn filtering(rt: &impl Abort, alloc: Global) -> Result<EngineOf<Filtering>, NoMemory>
    ensures engine { IfOk result (IsEngine i64_values ⟦<Filtering as SystemOf>⟧.meaning) }
{
    let world = World::new(alloc, &[10; 3], &[])?;
    let mut systems = EngineBuilder::new(alloc);
    let added = add_filtering(rt, alloc, &mut systems);
    made(rt, added)?;
    made(rt, systems.build(world))
}

/// Runs two frames of functions on `number` workers, and tells whether memory was refused.
fn tell_two_of_functions<R: Threads + Sync + Abort + AllocGlobal + Print>(
    rt: &R,
    number: u32,
) -> Result<(), Fail> {
    const FRAMES: &[Told<'static>] = &[
        (
            &[],
            "[0 wrote 1 from 0][1 read from 0: 0=12 wrote 1 from 0]\
             [2 read from 0: 0=12 wrote 1 from 0]",
        ),
        (
            &[],
            "[0 wrote 1 from 1][1 read from 1: 0=12 wrote 1 from 1]\
             [2 read from 1: 0=12 wrote 1 from 1]",
        ),
    ];
    let engine = filtering(rt, rt.alloc())?;
    tell(rt, run_two(rt, engine, number, FRAMES))
}

#[test]
fn functions_on_one_worker(rt: HostRuntime) -> Result<(), Fail> {
    tell_two_of_functions(&rt, 1)
}

#[test]
fn functions_on_two_workers(rt: HostRuntime) -> Result<(), Fail> {
    tell_two_of_functions(&rt, 2)
}

/// Replays these frames in this order, up to the first fault, and counts those that were replayed.
fn replay_all<S: SystemOf<Value = i64>>(
    rt: &(impl Abort + AllocGlobal),
    engine: &mut EngineOf<S>,
    order: &[u32],
    frames: &[Told<'_>],
    replayed: &mut u32,
) -> Result<(), RunFault>
    requires engine { IsEngine i64_values S.meaning engine.old }
    ensures engine { IsEngine i64_values S.meaning engine.new }
{
    for frame in frames {
        let log = replay(rt, engine, frame.0, order)?;
        expect_log(rt, &log, frame.1);
        drop(log);
        *replayed = replayed.saturating_add(1);
    }
    Ok(())
}

#[test]
fn a_replayed_frame(rt: HostRuntime) -> Result<(), Fail> {
    let rt = &rt;
    let mut engine = engine_for(rt, rt.alloc(), LAG)?;
    let mut replayed = 0;
    let came = replay_all(rt, &mut engine, &[0, 1], LAG.frames, &mut replayed);
    let is_refused = is_refused(rt, &mut engine, replayed, came);
    drop(engine);
    tell(rt, is_refused)
}

/// It takes the one lawful order, and no other.
fn expect_settled(
    rt: &(impl Abort + AllocGlobal),
    engine: &mut EngineOf<Scripted>,
) -> Result<(), RunFault>
    requires engine { IsEngine i64_values ⟦<Scripted as SystemOf>⟧.meaning engine.old }
{
    expect_unlawful(rt, engine, &[], &[0, 1, 2, 3]);
    replay_all(rt, engine, &[2, 0, 3, 1], CONTRADICTORY.frames, &mut 0)
}

/// What came of frames that aren't tested here: they were run, unless there was no memory.
fn ran(rt: &impl Abort, came: Result<(), RunFault>) -> Result<(), NoMemory> {
    match came {
        Ok(()) => Ok(()),
        Err(RunFault::NoMemory) => Err(NoMemory),
        Err(_other) => panic!(rt; "the order is lawful"),
    }
}

/// If there is no memory for an engine there is none.
#[test]
fn a_new_engine(rt: HostRuntime) -> Result<(), Fail> {
    let rt = &rt;
    let Ok(mut engine) = engine_for(rt, rt.alloc(), CONTRADICTORY) else {
        return tell(rt, true);
    };
    let came = expect_settled(rt, &mut engine);
    drop(engine);
    ran(rt, came)?;
    tell(rt, false)
}

/// What the readers were given, and whether that was refused memory. A second call gives it then.
fn accounts_of<S: SystemOf<Value = i64>>(
    rt: &impl Abort,
    engine: &EngineOf<S>,
) -> (Vec<Account>, bool) {
    match engine.accounts() {
        Ok(accounts) => (accounts, false),
        Err(fault) => {
            expect_eq(rt, fault, RunFault::NoMemory);
            (engine.accounts().expect(rt, "accounts"), true)
        }
    }
}

/// Whether the accounts after two frames of the lagging engine were refused memory.
fn are_accounts_refused(
    rt: &(impl Abort + AllocGlobal),
    engine: &mut EngineOf<Scripted>,
) -> Result<bool, NoMemory>
    requires engine { IsEngine i64_values ⟦<Scripted as SystemOf>⟧.meaning engine.old }
{
    ran(rt, replay_all(rt, engine, &[0, 1], LAG.frames, &mut 0))?;
    let (accounts, is_refused) = accounts_of(rt, engine);
    let told = "[0 of 0: start Some(0) got 1 missed 0 cleared 0 place 1]";
    expect_accounts(rt, &accounts, told);
    drop(accounts);
    let left = (engine.frames_run(), engine.world().is_some());
    expect_eq(rt, left, (2, true));
    Ok(is_refused)
}

/// If there is no memory for the accounts nothing has changed: a second call gives them.
#[test]
fn accounts(rt: HostRuntime) -> Result<(), Fail> {
    let rt = &rt;
    let mut engine = engine_for(rt, rt.alloc(), LAG)?;
    let is_refused = are_accounts_refused(rt, &mut engine);
    drop(engine);
    tell(rt, is_refused?)
}
