//! A tower defence over messages of a game's own: creeps, towers and gates, which are functions of
//! one kind, put together by a builder and run on four workers.
#![tactic(auto)]

ghost use Rattle.std.specs.Prelude.{◌++◌, List, OnOk};
ghost use Rattle.msg_frames.specs.Prelude.{State};
ghost use Rattle.msg_frames.specs.declared.frame.Frame.{Frame as FrameView};
ghost use Rattle.msg_exec.specs.Prelude.{EngineStands, HasRunFrames, HasRunSince, IsEngine};

mod event;
mod part;

use event::Event;
use msg_exec::engine_laws::{engines_stand, frames_run_one_by_one};
use msg_game::{
    Condition, EngineOf, Frame, FunctionSystem, Game, Global, Log, NoGate, ResNo, SystemOf, Value,
    Workers, systems,
};
use part::Part::{self, Creep, Gate, Tower};
use part::{BREAKS, BROKEN, LEFT, LIVES, SHOT, SHOTS, WALKED, WALKS};
use std::thread::Threads;

/// What the types and parts of each lane are called.
const LANES: [[&str; 7]; 3] = [
    [
        "walks 0", "shots 0", "breaks 0", "early 0", "late 0", "tower 0", "gate 0",
    ],
    [
        "walks 1", "shots 1", "breaks 1", "early 1", "late 1", "tower 1", "gate 1",
    ],
    [
        "walks 2", "shots 2", "breaks 2", "early 2", "late 2", "tower 2", "gate 2",
    ],
];

/// Adds a lane to the keep, in which an early and a late creep walk, and a tower and a gate stand.
fn add_lane(
    game: &mut Game<FunctionSystem<Part, 2, 2>, Event>,
    lives: ResNo,
    names: [&'static str; 7],
    amount: u32,
) -> anyhow::Result<()> {
    let [walks, shots, breaks, early, late, tower, gate] = names;
    let (walks, shots) = (game.add_type(walks)?, game.add_type(shots)?);
    let breaks = game.add_type(breaks)?;
    let alive = Condition::resource_equals(lives, Event::Lives(0)).not();
    systems! { game;
        early as early: Creep(0, 6, 5), [SHOTS = shots] -> [WALKS = walks, BREAKS = breaks] if alive;
        late as late: Creep(1, 6, 5), [SHOTS = shots] -> [WALKS = walks, BREAKS = breaks] if alive, join 3;
        tower as tower: Tower(3, amount), [WALKED = walks] -> [SHOT = shots];
        gate as gate: Gate, [BROKEN = breaks, LIVES = lives] -> [LEFT = lives];
    }
    Ok(())
}

/// Runs frames one by one, as a game does that draws after each of them, and appends their logs.
/// What holds after each round stands in `proofs/go_on/Invariants.antt`.
fn go_on<R: Threads + Sync, V: Value + Send + Sync, S: SystemOf<Value = V> + Send>(
    rt: &R,
    engine: &mut EngineOf<S, V>,
    frames: &[Frame<V>],
    workers: Workers,
    logs: &mut Vec<Log<V>>,
) -> anyhow::Result<()>
    requires engine { IsEngine V.values S.meaning engine.old }

    // The logs that it appends are those of one thread, turn by turn, as `run_frames` says it of a
    // list.
    ensures ran { OnOk result ((s : State V.values) → EngineStands S.meaning engine.old s
        → HasRunFrames S.meaning frames.now s logs.old.items logs.new.items engine.new) }

    // Whatever was run before: these frames go on with that run.
    ensures since { OnOk result ((s : State V.values) (before : List (FrameView V))
        → HasRunSince S.meaning s before logs.old.items engine.old
        → HasRunSince S.meaning s (before ++ frames.now) logs.new.items engine.new) }
{
    anyhow::ensure!(
        engine.all_fit(frames),
        "a post is to a type that isn't there"
    );
    engines_stand::<S>();
    frames_run_one_by_one::<S>();
    for frame in frames {
        logs.push(engine.run_frame(rt, frame, workers, &NoGate)?)?;
    }
    Ok(())
}

/// Frames before which the host posts nothing.
fn quiet_frames(alloc: Global, n: u32) -> anyhow::Result<Vec<Frame<Event>>> {
    let mut frames = Vec::new(alloc);
    for _ in 0..n {
        frames.push(Frame::quiet(alloc))?;
    }
    Ok(frames)
}

/// Plays on four workers, and prints what became of each reader's messages, and how many lives are
/// left. The tower of lane n shoots with n + 1.
fn main(rt: HostRuntime) -> anyhow::Result<()> {
    let (rt, alloc, workers) = (&rt, rt.alloc(), Workers::new(4).unwrap());
    let mut game = Game::new(alloc);
    let lives = game.add_resource("lives", Event::Lives(5))?;
    for n in 0..3u32 {
        add_lane(&mut game, lives, LANES[n as usize], n + 1)?;
    }
    let (mut engine, names) = game.build()?;
    let (frames, mut logs) = (quiet_frames(alloc, 10)?, Vec::new(alloc));
    go_on(rt, &mut engine, &frames, workers, &mut logs)?;
    names.tell(rt, &engine)?;
    if let Some(Event::Lives(left)) = engine.world().and_then(|world| world.resource(lives)) {
        println!(rt; "{left} of 5 lives are left")?;
    }
    Ok(())
}
