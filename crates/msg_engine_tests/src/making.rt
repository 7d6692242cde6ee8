// Engines and frames for tests, and the calls that run them.
ghost use Rattle.std.specs.Prelude.{◌≤◌, IfOk, length};
ghost use Rattle.msg_exec.specs.Prelude.{IsEngine};
ghost use Rattle.msg_world.specs.Prelude.{i64_values};

use msg_buffer::NoMemory;
use msg_exec::{BuildError, EngineBuilder, EngineOf, Frame, Gate, Log, NoGate, RunFault, Workers};
use msg_order::Rule;
use msg_part_tests::numbers::type_no;
use msg_system::{Condition, Items, MAX_OPS, Numbered, Op, Program, Scripted, Start, SystemOf};
use msg_world::{MAX_RESOURCES, MAX_TYPES, TypeNo, Value, World};
use std::alloc::Global;
use std::panic::Expect;
use std::process::Abort;
use std::thread::Threads;

/// How many workers the worked runs are run on.
pub const NUMBERS: [u32; 4] = [1, 2, 7, 64];

/// What a script does to a type by its one op.
#[derive(Clone, Copy)]
pub enum Does {
    Reads,
    /// Reads at most so many messages.
    ReadsAtMost(u64),
    Writes(i64),
    /// Writes the values from the first one to below the second, as one batch.
    WritesFrom(i64, i64),
    Drains,
}

/// The number of a type, and what is done to it.
pub type Act = (u32, Does);

fn op_of(rt: &impl Abort, alloc: Global, act: Act) -> Result<Op, NoMemory> {
    let t = TypeNo::new(act.0).expect(rt, "a type");
    Ok(match act.1 {
        Does::Reads => Op::Read(t, None),
        Does::ReadsAtMost(most) => Op::Read(t, Some(most)),
        Does::Writes(value) => Op::Write(t, value),
        Does::WritesFrom(first, end) => {
            Op::Batch(t, Items::from_vec((first..end).collect(alloc)?))
        }
        Does::Drains => Op::Drain(t),
    })
}

/// A script of this act.
pub fn script(
    rt: &impl Abort,
    alloc: Global,
    act: Act,
    start: Start,
) -> Result<Scripted, NoMemory> {
    let ops = Items::from_vec(vec![in alloc; op_of(rt, alloc, act)?]?);
    Ok(Scripted::new(Program { ops, start }, 0))
}

/// A script of this act, if there is memory for it.
pub fn acting(rt: &impl Abort, alloc: Global, act: Act, start: Start) -> Scripted {
    script(rt, alloc, act, start).expect(rt, "a script")
}

/// A script of these ops.
pub fn scripted<V: Value>(rt: &impl Abort, ops: Vec<Op<V>>, start: Start) -> Scripted<V> {
    assert!(rt; ops.len() <= MAX_OPS);
    let ops = Items::from_vec(ops);
    Scripted::new(Program { ops, start }, 0)
}

/// A script that reads the first type.
pub fn reader(rt: &impl Abort, alloc: Global, start: Start) -> Scripted {
    acting(rt, alloc, (0, Does::Reads), start)
}

/// Adds a system.
pub fn add<V: Value, S: Numbered + SystemOf<Value = V>>(
    rt: &impl Abort,
    systems: &mut EngineBuilder<S, V>,
    system: S,
    conditions: Vec<Condition<V>>,
    join: u32,
) {
    systems
        .add_system(system, conditions, join)
        .expect(rt, "a system");
}

/// An engine of these systems, over types of these limits and over these resources.
pub fn engine_over<V: Value, S: Numbered + SystemOf<Value = V>>(
    rt: &impl Abort,
    alloc: Global,
    systems: EngineBuilder<S, V>,
    limits: &[u64],
    resources: &[V],
) -> EngineOf<S, V>
    requires types { length limits.now ≤ MAX_TYPES }
    requires resources { length resources.now ≤ MAX_RESOURCES }
    ensures engine { IsEngine V.values S.meaning result }
{
    let world = World::new(alloc, limits, resources).expect(rt, "a world");
    systems.build(world).expect(rt, "an engine")
}

/// Adds a script of each of these acts, and these rules.
fn add_scripts(
    rt: &impl Abort,
    alloc: Global,
    systems: &mut EngineBuilder<Scripted>,
    acts: &[Act],
    rules: &[Rule],
) -> Result<(), BuildError> {
    for act in acts {
        let script = script(rt, alloc, *act, Start::Zero)?;
        systems.add_system(script, Vec::new(alloc), 1)?;
    }
    for rule in rules {
        systems.add_rule(*rule)?;
    }
    Ok(())
}

/// An engine of scripts of these acts, over two types of this limit.
pub fn engine_of(
    rt: &impl Abort,
    alloc: Global,
    limit: u64,
    acts: &[Act],
    rules: &[Rule],
) -> Result<EngineOf<Scripted>, BuildError>
    ensures engine { IfOk result (IsEngine i64_values ⟦<Scripted as SystemOf>⟧.meaning) }
{
    let world = World::new(alloc, &[limit; 2], &[])?;
    let mut systems = EngineBuilder::new(alloc);
    add_scripts(rt, alloc, &mut systems, acts, rules)?;
    systems.build(world)
}

/// Such an engine, if there is memory for it.
pub fn scripted_engine(
    rt: &impl Abort,
    alloc: Global,
    limit: u64,
    acts: &[Act],
    rules: &[Rule],
) -> EngineOf<Scripted>
    ensures engine { IsEngine i64_values ⟦<Scripted as SystemOf>⟧.meaning result }
{
    engine_of(rt, alloc, limit, acts, rules).expect(rt, "an engine")
}

/// An engine of `number` readers of one type.
pub fn readers(rt: &impl Abort, alloc: Global, number: u32) -> EngineOf<Scripted>
    ensures engine { IsEngine i64_values ⟦<Scripted as SystemOf>⟧.meaning result }
{
    let acts = Vec::from_elem(alloc, (0, Does::Reads), number as usize).expect(rt, "acts");
    scripted_engine(rt, alloc, 10, &acts, &[])
}

/// A frame with posts of these values to the first type.
pub fn frame_of<V: Value>(rt: &impl Abort, alloc: Global, posts: &[V]) -> Frame<V> {
    let mut all = Vec::new(alloc);
    for value in posts {
        all.push((type_no(0), *value)).expect(rt, "a post");
    }
    Frame::of(all)
}

/// So many frames without posts.
pub fn quiet_frames(rt: &impl Abort, alloc: Global, number: u32) -> Vec<Frame> {
    let mut frames = Vec::new(alloc);
    for _frame in 0..number {
        frames.push(Frame::quiet(alloc)).expect(rt, "a frame");
    }
    frames
}

/// `number` workers.
pub fn workers(rt: &impl Abort, number: u32) -> Workers {
    Workers::new(number).expect(rt, "from 1 to 64 workers")
}

/// Runs a frame with these posts on `number` workers.
pub fn try_frame<
    R: Threads + Sync + Abort + AllocGlobal,
    V: Value + Send + Sync,
    S: SystemOf<Value = V> + Send,
    G: Gate,
>(
    rt: &R,
    engine: &mut EngineOf<S, V>,
    posts: &[V],
    number: u32,
    gate: &G,
) -> Result<Log<V>, RunFault>
    requires engine { IsEngine V.values S.meaning engine.old }
    ensures engine { IsEngine V.values S.meaning engine.new }
{
    let frame = frame_of(rt, rt.alloc(), posts);
    assert!(rt; engine.fits(&frame));
    let log = engine.run_frame(rt, &frame, workers(rt, number), gate);
    drop(frame);
    log
}

/// Such a frame, for which there is memory.
pub fn run_frame<
    R: Threads + Sync + Abort + AllocGlobal,
    V: Value + Send + Sync,
    S: SystemOf<Value = V> + Send,
    G: Gate,
>(rt: &R, engine: &mut EngineOf<S, V>, posts: &[V], number: u32, gate: &G) -> Log<V>
    requires engine { IsEngine V.values S.meaning engine.old }
    ensures engine { IsEngine V.values S.meaning engine.new }
{
    try_frame(rt, engine, posts, number, gate).expect(rt, "a frame")
}

/// Runs frames on `number` workers, and appends their logs.
pub fn run_frames<
    R: Threads + Sync + Abort,
    V: Value + Send + Sync,
    S: SystemOf<Value = V> + Send,
    G: Gate,
>(
    rt: &R,
    engine: &mut EngineOf<S, V>,
    frames: &[Frame<V>],
    number: u32,
    gate: &G,
    logs: &mut Vec<Log<V>>,
) -> Result<(), RunFault>
    requires engine { IsEngine V.values S.meaning engine.old }
    ensures engine { IsEngine V.values S.meaning engine.new }
{
    assert!(rt; engine.all_fit(frames));
    engine.run_frames(rt, frames, workers(rt, number), gate, logs)
}

/// Runs two frames without posts in one call on `number` workers, and appends their logs.
pub fn run_two_quiet<R: Threads + Sync + Abort + AllocGlobal, S: SystemOf<Value = i64> + Send>(
    rt: &R,
    engine: &mut EngineOf<S>,
    number: u32,
    logs: &mut Vec<Log>,
) -> Result<(), RunFault>
    requires engine { IsEngine i64_values S.meaning engine.old }
    ensures engine { IsEngine i64_values S.meaning engine.new }
{
    let frames = [Frame::quiet(rt.alloc()), Frame::quiet(rt.alloc())];
    run_frames(rt, engine, &frames, number, &NoGate, logs)
}

/// Replays a frame with these posts on this thread, in this order.
pub fn replay<V: Value, S: SystemOf<Value = V>>(
    rt: &(impl Abort + AllocGlobal),
    engine: &mut EngineOf<S, V>,
    posts: &[V],
    order: &[u32],
) -> Result<Log<V>, RunFault>
    requires engine { IsEngine V.values S.meaning engine.old }
    ensures engine { IsEngine V.values S.meaning engine.new }
{
    let frame = frame_of(rt, rt.alloc(), posts);
    assert!(rt; engine.fits(&frame));
    let log = engine.replay_frame(&frame, order);
    drop(frame);
    log
}
