//! Runs frames of 64 systems without a file and without text, so that one can count what the engine
//! takes for a job: by `valgrind --tool=callgrind`, once for some frames and once for twice as
//! many. It prints how many turns were taken, and how many messages were written and read.
//!
//! `frame_bench KIND FRAMES [WORKERS]`, where KIND says what each system does in its turn: `idle`
//! nothing, `skipped` has a condition that doesn't hold, `get` gets a resource, `len` asks for a
//! length, `write` writes a message, `batch` writes 1,024, `read` reads two by a script, `limited`
//! reads one of two, `decide` reads two by a behavior, and `function` reads two and writes one by a
//! function. `forward` forwards two, `sum` adds two to a resource, and of `drain` each system
//! drains a type of its own, to one of which two were posted. Of `half` each two are one of
//! `skipped` and one of `get`. Of `boxed` each system is in a box, and half of them read by a
//! script and half by a behavior. In the first frame alone, and skipped in the others, `large`
//! reads 4,096 at once, and `many` reads 64, each by an op of its own. Of `replayed` each system
//! does nothing, and each frame is run after it was replayed. On one worker, or on that many.
#![tactic(auto)]

ghost use Rattle.std.specs.Prelude.{◌≤◌, IfOk, length};
ghost use Rattle.msg_exec.specs.Prelude.{IsEngine};
ghost use Rattle.msg_frames.specs.Prelude.{IsNew};
ghost use Rattle.msg_world.specs.Prelude.{IsWhole, i64_values};

mod boxes;
mod hearing;
mod poster;
mod reader;
mod replays;

use anyhow::{Context, bail};
use boxes::run_boxes;
use hearing::Hearing;
use msg_exec::{EngineBuilder, EngineOf, Workers};
use msg_function::{FunctionSystem, Port};
use msg_system::{
    Access, BehaviorSystem, Condition, Items, MAX_OPS, NoMemory, Numbered, Op, Probe, Program,
    Scripted, Start, SystemOf,
};
use msg_world::{ResNo, TypeNo, World};
use poster::Poster;
use reader::Reading;
use replays::run_replays;
use std::alloc::Global;
use std::env;
use std::env::Env;
use std::io::Print;
use std::thread::Threads;

/// How many systems there are, and as many types.
const SYSTEMS: u32 = 64;

/// A script of these ops, which writes as this number.
fn script(ops: Vec<Op>, number: u32) -> Scripted
    requires few { length ops.items ≤ MAX_OPS }
    ensures new { IsNew number (⟦<Scripted as SystemOf>⟧.meaning result) }
{
    let ops = Items::from_vec(ops);
    let start = Start::Zero;
    Scripted::new(Program { ops, start }, number)
}

/// A system that decides to read, and writes as this number.
fn reading(alloc: Global, from: TypeNo, number: u32) -> BehaviorSystem<Reading>
    ensures new { IsNew number (⟦<BehaviorSystem<Reading> as SystemOf>⟧.meaning result) }
{
    let access = Access::none().with_read_type(from);
    BehaviorSystem::new(alloc, Reading { from }, access, Start::Zero, number)
}

/// A batch of 1,024 values.
fn batch(alloc: Global, own: TypeNo) -> Result<Op, NoMemory> {
    let values = Vec::from_slice(alloc, &[1; 1024])?;
    Ok(Op::Batch(own, Items::from_vec(values)))
}

/// What a script of this kind does in its turn.
fn ops_of(
    alloc: Global,
    kind: &str,
    own: TypeNo,
    shared: TypeNo,
    r: ResNo,
) -> anyhow::Result<Vec<Op>> {
    let mut ops = Vec::new(alloc);
    match kind {
        "idle" | "skipped" => {}
        "get" => ops.push(Op::Get(r))?,
        "len" => ops.push(Op::Len(shared))?,
        "write" => ops.push(Op::Write(own, 1))?,
        "batch" => ops.push(batch(alloc, own)?)?,
        "read" | "large" => ops.push(Op::Read(shared, None))?,
        "limited" => ops.push(Op::Read(shared, Some(1)))?,
        "forward" => ops.push(Op::Forward(shared, own))?,
        "sum" => ops.push(Op::Sum(shared, r))?,
        "drain" => ops.push(Op::Drain(own))?,
        "many" => {
            for _ in 0..MAX_OPS {
                ops.push(Op::Read(shared, Some(1)))?;
            }
        }
        _ => bail!("no kind has this name"),
    }
    Ok(ops)
}

/// How many messages the host posts in the first frame of this kind, and in each later one.
fn posts_of(kind: &str) -> (u32, u32) {
    match kind {
        "read" | "limited" | "decide" | "function" | "boxed" | "forward" | "sum" | "drain" => {
            (2, 2)
        }
        "large" => (4_096, 0),
        "many" => (64, 0),
        _ => (0, 0),
    }
}

/// Prints what was done.
fn tell<R: Print, S: SystemOf<Value = i64>>(
    rt: &R,
    engine: &EngineOf<S>,
    turns: u64,
) -> anyhow::Result<()> {
    let mut written: u64 = 0;
    for t in 0..SYSTEMS {
        let messages = engine
            .world()
            .and_then(|world| world.messages(TypeNo::new(t)?));
        written = written.saturating_add(messages.map_or(0, |messages| messages.count()));
    }
    let mut read: u64 = 0;
    for account in engine.accounts()? {
        read = read.saturating_add(account.got);
    }
    println!(rt; "{turns} turns, {written} messages written and {read} read")?;
    Ok(())
}

/// The world before the first frame.
fn world(alloc: Global) -> Result<World, NoMemory>
    ensures whole { IfOk result IsWhole }
{
    World::new(alloc, &[1_000_000; 64], &[0])
}

/// Runs the frames that are given, and prints what was done.
fn run_frames<R: Threads + Print + Sync, S: SystemOf<Value = i64> + Send>(
    rt: &R,
    mut engine: EngineOf<S>,
    mut poster: Poster,
    workers: Workers,
) -> anyhow::Result<()>
    requires engine { IsEngine i64_values S.meaning engine }
{
    engine.run_loop(rt, &mut poster, u64::MAX, workers)?;
    tell(rt, &engine, poster.turns)
}

/// Runs frames of these systems, and prints what was done.
fn bench<R: Threads + AllocGlobal + Print + Sync, S: Numbered + SystemOf<Value = i64> + Send>(
    rt: &R,
    systems: EngineBuilder<S>,
    poster: Poster,
    workers: Workers,
) -> anyhow::Result<()> {
    let engine = systems.build(world(rt.alloc())?)?;
    run_frames(rt, engine, poster, workers)
}

/// Runs frames of idle systems, each after one that is replayed, and prints what was done.
fn bench_replays<R: Threads + AllocGlobal + Print + Sync>(
    rt: &R,
    systems: EngineBuilder<Scripted>,
    frames: u64,
    workers: Workers,
) -> anyhow::Result<()> {
    let mut engine = systems.build(world(rt.alloc())?)?;
    run_replays(rt, rt.alloc(), &mut engine, frames, workers)
}

/// Systems that decide to read.
fn readers(alloc: Global, from: TypeNo) -> anyhow::Result<EngineBuilder<BehaviorSystem<Reading>>> {
    let mut systems = EngineBuilder::new(alloc);
    for _ in 0..SYSTEMS {
        systems.add_system(reading(alloc, from, 0), Vec::new(alloc), 1)?;
    }
    Ok(systems)
}

/// The type that system `t` writes, of those that all read the first: its own, but for system 0.
fn other_type(t: u32) -> Option<TypeNo> {
    TypeNo::new(t.max(1))
}

/// Systems that are one function.
fn hearers(
    alloc: Global,
    from: TypeNo,
) -> anyhow::Result<EngineBuilder<FunctionSystem<Hearing, 1, 1>>> {
    let mut systems = EngineBuilder::new(alloc);
    for t in 0..SYSTEMS {
        let to = other_type(t).context("a type")?;
        let (from, to) = (Port::Messages(from), Port::Messages(to));
        let hearer = FunctionSystem::new(alloc, Hearing { heard: 0 }, [from], [to])?;
        systems.add_system(hearer, Vec::new(alloc), 1)?;
    }
    Ok(systems)
}

/// The conditions of a script of this kind.
fn conditions_of(
    alloc: Global,
    kind: &str,
    shared: TypeNo,
    r: ResNo,
) -> Result<Vec<Condition>, NoMemory> {
    let mut conditions = Vec::new(alloc);
    let probe = match kind {
        "skipped" => Probe::ResourceEquals(r, 1),
        "large" | "many" => Probe::OnMessage(shared),
        _ => return Ok(conditions),
    };
    conditions.push(Condition { nots: 0, probe })?;
    Ok(conditions)
}

/// Adds a script of this kind.
fn add_script(
    systems: &mut EngineBuilder<Scripted>,
    alloc: Global,
    kind: &str,
    own: TypeNo,
    shared: TypeNo,
    r: ResNo,
) -> anyhow::Result<()> {
    let ops = ops_of(alloc, kind, own, shared, r)?;
    anyhow::ensure!(ops.len() <= MAX_OPS, "a turn has fewer ops");
    let system = script(ops, 0);
    systems.add_system(system, conditions_of(alloc, kind, shared, r)?, 1)?;
    Ok(())
}

/// The kind of script `t`, of those of this kind.
fn kind_of(kind: &str, t: u32) -> &str {
    match (kind, t % 2) {
        ("half", 0) => "skipped",
        ("half", _) => "get",
        _ => kind,
    }
}

/// Scripts of this kind, each with a type of its own.
fn scripts(
    alloc: Global,
    kind: &str,
    shared: TypeNo,
    r: ResNo,
) -> anyhow::Result<EngineBuilder<Scripted>> {
    let mut systems = EngineBuilder::new(alloc);
    for t in 0..SYSTEMS {
        let own = match kind {
            "forward" => other_type(t),
            _ => TypeNo::new(t),
        };
        let own = own.context("a type")?;
        add_script(&mut systems, alloc, kind_of(kind, t), own, shared, r)?;
    }
    Ok(systems)
}

/// Runs that many frames of systems of this kind.
fn run<R: Threads + AllocGlobal + Print + Sync>(
    rt: &R,
    kind: &str,
    frames: u64,
    workers: Workers,
) -> anyhow::Result<()> {
    let alloc = rt.alloc();
    let (shared, r) = (TypeNo::new(0).unwrap(), ResNo::new(0).unwrap());
    let (posts, later) = posts_of(kind);
    let poster = Poster {
        left: frames,
        posts,
        later,
        to: shared,
        turns: 0,
    };
    match kind {
        "boxed" => run_boxes(rt, shared, poster, workers),
        "decide" => bench(rt, readers(alloc, shared)?, poster, workers),
        "function" => bench(rt, hearers(alloc, shared)?, poster, workers),
        "replayed" => bench_replays(rt, scripts(alloc, "idle", shared, r)?, frames, workers),
        _ => bench(rt, scripts(alloc, kind, shared, r)?, poster, workers),
    }
}

fn main(rt: HostRuntime) -> anyhow::Result<()> {
    let words: Vec<String> = env::args(&rt)?.skip(1).collect(rt.alloc())?;
    let (kind, frames, workers) = match words.as_slice() {
        [kind, frames] => (kind, frames, 1),
        [kind, frames, workers] => (
            kind,
            frames,
            workers.parse().context("a number of workers")?,
        ),
        _ => bail!("wanted a kind, a number of frames, and one of workers or none"),
    };
    let workers = Workers::new(workers).context("from 1 to 64 workers")?;
    run(
        &rt,
        kind,
        frames.parse().context("a number of frames")?,
        workers,
    )
}
