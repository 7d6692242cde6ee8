// Frames and what is expected of them: what their logs tell, as `told.rt` has it.
ghost use Rattle.msg_exec.specs.Prelude.{IsEngine};
ghost use Rattle.msg_world.specs.Prelude.{i64_values};

use crate::equal::expect_eq;
use crate::making::{replay, run_frame};
use crate::told::expect_log;
use msg_exec::{EngineOf, Log, NoGate, RunFault};
use msg_system::SystemOf;
use msg_world::Value;
use std::fmt::Debug;
use std::panic::Expect;
use std::process::Abort;
use std::thread::Threads;

/// A frame: the values that the host posts to the first type, and what its log tells.
pub type Told<'a, V = i64> = (&'a [V], &'a str);

/// These are the logs of the first frames.
pub fn expect_logs(rt: &impl Abort, logs: &[Log], frames: &[Told<'_>]) {
    for (log, frame) in logs.iter().zip(frames) {
        expect_log(rt, log, frame.1);
    }
}

/// Runs a frame on `number` workers.
pub fn expect_frame<
    R: Threads + Sync + Abort + AllocGlobal,
    V: Value + Send + Sync + Debug,
    S: SystemOf<Value = V> + Send,
>(rt: &R, engine: &mut EngineOf<S, V>, number: u32, frame: &Told<'_, V>)
    requires engine { IsEngine V.values S.meaning engine.old }
    ensures engine { IsEngine V.values S.meaning engine.new }
{
    let log = run_frame(rt, engine, frame.0, number, &NoGate);
    expect_log(rt, &log, frame.1);
    drop(log);
}

/// Runs these frames on `number` workers.
pub fn expect_each<
    R: Threads + Sync + Abort + AllocGlobal,
    V: Value + Send + Sync + Debug,
    S: SystemOf<Value = V> + Send,
>(rt: &R, engine: &mut EngineOf<S, V>, number: u32, frames: &[Told<'_, V>])
    requires engine { IsEngine V.values S.meaning engine.old }
    ensures engine { IsEngine V.values S.meaning engine.new }
{
    for frame in frames {
        expect_frame(rt, engine, number, frame);
    }
}

/// The same, and drops the engine.
pub fn expect_frames<
    R: Threads + Sync + Abort + AllocGlobal,
    V: Value + Send + Sync + Debug,
    S: SystemOf<Value = V> + Send,
>(rt: &R, mut engine: EngineOf<S, V>, number: u32, frames: &[Told<'_, V>])
    requires engine { IsEngine V.values S.meaning engine }
{
    expect_each(rt, &mut engine, number, frames);
    drop(engine);
}

/// Replays a frame in this order.
pub fn expect_replay<V: Value + Debug, S: SystemOf<Value = V>>(
    rt: &(impl Abort + AllocGlobal),
    engine: &mut EngineOf<S, V>,
    order: &[u32],
    frame: &Told<'_, V>,
)
    requires engine { IsEngine V.values S.meaning engine.old }
    ensures engine { IsEngine V.values S.meaning engine.new }
{
    let log = replay(rt, engine, frame.0, order).expect(rt, "a frame");
    expect_log(rt, &log, frame.1);
    drop(log);
}

/// This order is refused.
pub fn expect_unlawful<S: SystemOf<Value = i64>>(
    rt: &(impl Abort + AllocGlobal),
    engine: &mut EngineOf<S>,
    posts: &[i64],
    order: &[u32],
)
    requires engine { IsEngine i64_values S.meaning engine.old }
    ensures engine { IsEngine i64_values S.meaning engine.new }
{
    expect_fault(rt, replay(rt, engine, posts, order), RunFault::BadOrder);
}

/// A call was refused for this reason.
pub fn expect_fault<T: Drop>(rt: &impl Abort, came: Result<T, RunFault>, want: RunFault) {
    expect_eq(rt, came.err(), Some(want));
}
