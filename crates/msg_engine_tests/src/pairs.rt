//! Engines that are made alike: what they are told depends on their frames alone.
ghost use Rattle.std.specs.Prelude.{◌≡◌, [], All, IfOk, IfSome, map};
ghost use Rattle.msg_frames.specs.Prelude.{IsSoundState, run};
ghost use Rattle.msg_laws.specs.Prelude.{NothingDrained, log_entries};
ghost use Rattle.msg_exec.specs.Prelude.{HasRunSince, IsEngine};
ghost use Rattle.msg_engine_tests.specs.Pairs.{one_op, pair_places, pair_state, pair_systems, waking_state};
ghost use Rattle.msg_world.specs.Prelude.{i64_values};

use msg_exec::engine_laws::engines_stand;
use msg_exec::{BuildError, EngineBuilder, EngineOf, Frame, Items, Log, NoGate, NoMemory, Workers};
use msg_laws::reader_laws::{each_message_meets_one_fate, no_wake_up_is_lost, programs_read_all};
use msg_system::{Condition, Op, Probe, Program, Scripted, Start, SystemOf};
use msg_world::{TypeNo, World};
use std::alloc::Global;
use std::thread::Threads;

/// A script of one op.
fn one_op(alloc: Global, op: Op) -> Result<Scripted, NoMemory>
    ensures meaning { IfOk result (λ s. ⟦<Scripted as SystemOf>⟧.meaning s ≡ one_op op) }
{
    let ops = Items::from_vec(vec![in alloc; op]?);
    let start = Start::Zero;
    Ok(Scripted::new(Program { ops, start }, 0))
}

/// A writer and a reader of one type, which runs under these conditions.
fn pair(alloc: Global, conditions: Vec<Condition>) -> Result<EngineBuilder<Scripted>, BuildError>
    ensures systems { IfOk result (λ b.
        map ⟦<Scripted as SystemOf>⟧.meaning b.systems ≡ pair_systems) }
    ensures places { IfOk result (λ b. b.places ≡ pair_places conditions.items) }
    ensures rules { IfOk result (λ b. b.rules ≡ []) }
{
    let t = TypeNo::new(0).unwrap();
    let mut systems = EngineBuilder::new(alloc);
    systems.add_system(one_op(alloc, Op::Write(t, 7))?, Vec::new(alloc), 1)?;
    systems.add_system(one_op(alloc, Op::Read(t, None))?, conditions, 1)?;
    Ok(systems)
}

/// An engine of the two.
fn engine(alloc: Global, conditions: Vec<Condition>) -> Result<EngineOf<Scripted>, BuildError>
    ensures since { IfOk result
        (HasRunSince ⟦<Scripted as SystemOf>⟧.meaning (pair_state conditions.items) [] []) }
    ensures engine { IfOk result (IsEngine i64_values ⟦<Scripted as SystemOf>⟧.meaning) }
{
    let world = World::new(alloc, &[100], &[])?;
    Ok(pair(alloc, conditions)?.build(world)?)
}

/// Makes such an engine, and runs frames on it; None if there was no memory, or if a post is to
/// another type.
fn run_pair<R: Threads + Sync>(
    rt: &R,
    alloc: Global,
    conditions: Vec<Condition>,
    frames: &[Frame],
    workers: Workers,
) -> Option<Vec<Log>>
    ensures ran { IfSome result
        (λ logs. logs.items ≡ (run frames.now (pair_state conditions.items)).logs) }
    ensures sound { IfSome result (λ logs. IsSoundState (pair_state conditions.items)) }
{
    engines_stand::<Scripted>();
    let Ok(mut engine) = engine(alloc, conditions) else {
        return None;
    };
    if !engine.all_fit(frames) {
        drop(engine);
        return None;
    }
    let mut logs = Vec::new(alloc);
    let came = engine.run_frames(rt, frames, workers, &NoGate, &mut logs);
    drop(engine);
    match came {
        Ok(()) => Some(logs),
        Err(_) => None,
    }
}

/// Makes two such engines, and runs the same frames on both, each on workers of its own.
pub fn run_both<R: Threads + Sync>(
    rt: &R,
    alloc: Global,
    frames: &[Frame],
    workers: (Workers, Workers),
) -> Option<(Vec<Log>, Vec<Log>)>

    // However many workers each has, the logs are equal.
    ensures equal { IfSome result (λ logs. logs.0.items ≡ logs.1.items) }
{
    let one = run_pair(rt, alloc, Vec::new(alloc), frames, workers.0)?;
    let other = run_pair(rt, alloc, Vec::new(alloc), frames, workers.1)?;
    Some((one, other))
}

/// Makes such an engine whose reader waits for a message, and runs frames on it.
pub fn run_waking<R: Threads + Sync>(
    rt: &R,
    alloc: Global,
    frames: &[Frame],
    workers: Workers,
) -> Option<Vec<Log>>

    // Unless the type is drained, the reader misses nothing: it loses no wake-up.
    ensures none_missed { IfSome result (λ logs.
        NothingDrained 0 waking_state (run frames.now waking_state).state
        → All (λ e. e.stretch.missed ≡ 0)
        (log_entries 1 0 (waking_state.members 1).job.system logs.items)) }
{
    no_wake_up_is_lost::<i64>();
    programs_read_all::<i64>();
    each_message_meets_one_fate::<i64>();
    let probe = Probe::OnMessage(TypeNo::new(0).unwrap());
    let Ok(conditions) = vec![in alloc; Condition { nots: 0, probe }] else {
        return None;
    };
    let Some(logs) = run_pair(rt, alloc, conditions, frames, workers) else {
        return None;
    };
    Some(logs)
}
