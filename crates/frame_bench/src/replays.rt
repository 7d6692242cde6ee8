// Frames that are run, each after one that is replayed.
ghost use Rattle.msg_exec.specs.Prelude.{IsEngine};
ghost use Rattle.msg_world.specs.Prelude.{i64_values};

use crate::{SYSTEMS, tell};
use msg_exec::{EngineOf, Frame, NoGate, Workers};
use msg_system::SystemOf;
use std::alloc::Global;
use std::io::Print;
use std::thread::Threads;

/// Replays a frame in this order, and then runs it.
fn replay_and_run<R: Threads + Sync, S: SystemOf<Value = i64> + Send>(
    rt: &R,
    engine: &mut EngineOf<S>,
    frame: &Frame,
    order: &[u32],
    workers: Workers,
) -> anyhow::Result<()>
    requires engine { IsEngine i64_values S.meaning engine.old }
    ensures engine { IsEngine i64_values S.meaning engine.new }
{
    anyhow::ensure!(engine.fits(frame), "a post is to a type that isn't there");
    let replayed = engine.replay_frame(frame, order)?;
    engine.recycle(replayed);
    let ran = engine.run_frame(rt, frame, workers, &NoGate)?;
    engine.recycle(ran);
    Ok(())
}

/// Runs so many frames without posts, each after one that is replayed in the order of addition, and
/// prints what was done.
pub fn run_replays<R: Threads + Print + Sync, S: SystemOf<Value = i64> + Send>(
    rt: &R,
    alloc: Global,
    engine: &mut EngineOf<S>,
    frames: u64,
    workers: Workers,
) -> anyhow::Result<()>
    requires engine { IsEngine i64_values S.meaning engine.old }
{
    let order: Vec<u32> = (0..SYSTEMS).collect(alloc)?;
    let frame = Frame::quiet(alloc);
    'frames: for _ in 0..frames {
        replay_and_run(rt, engine, &frame, &order, workers)?;
    }
    let turns = frames.saturating_mul(2 * u64::from(SYSTEMS));
    tell(rt, engine, turns)
}
