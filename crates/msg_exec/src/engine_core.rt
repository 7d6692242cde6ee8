// What an engine works on, and one frame of it.
ghost use Rattle.std.specs.Prelude.{◌≡◌, ◌<◌, All, IfOk, OnErr, OnOk, length};
ghost use Rattle.msg_exec.specs.Prelude.{CoreStands, SomeJoin, frame_count};
ghost use Rattle.msg_workers.specs.Prelude.{EachPassedGate};
ghost use Rattle.msg_exec.specs.inner.FrameSteps.{HasBegunFrame, HasLeft, HasOpened, IsNextPlan};
ghost use Rattle.msg_frames.specs.Prelude.{frame as frame_of, turn_order_in, State};

use crate::batch::run_batches;
use crate::joining::join_those;
use crate::lender::Lender;
use crate::posts::post_all;
use crate::side_by_side::RunContext;
use crate::spares::Spares;
use crate::{Frame, Gate, Items, Log, NoMemory};
use msg_order::{Plan, Rule};
use msg_system::{Reply, SystemOf};
use msg_world::Value;
use std::alloc::Global;
use std::thread::Threads;

/// The systems and the world with what lends them out, the rules, and the plan of those that have
/// joined.
#[derive(Drop)]
pub struct Core<S, V = i64> {
    pub lender: Lender<S, V>,
    /// The frame with which each system joins.
    pub joins: Vec<u32>,
    pub rules: Vec<Rule>,
    pub plan: Plan,
}

/// The number of the next frame and its plan, if some join with it. If nobody does there is none,
/// and the plan stays.
pub(crate) fn next_plan<V: Value, S: SystemOf<Value = V>>(
    alloc: Global,
    core: &Core<S, V>,
    frames: u32,
) -> Result<Option<(u32, Plan)>, NoMemory>
    requires stands { (s : State V.values)
        × (CoreStands S.meaning core.now s × (frames ≡ frame_count s)) }
    ensures plan { IfOk result (λ next. (s : State V.values) → CoreStands S.meaning core.now s
        → frames ≡ frame_count s → IsNextPlan core.now s next) }
    ensures asked { OnErr result ((s : State V.values) → CoreStands S.meaning core.now s
        → frames ≡ frame_count s → SomeJoin s) }
{
    let Some(next) = frames.checked_add(1) else {
        return Ok(None);
    };
    // Those of join 1 joined as the engine was made.
    if frames == 0 || !core.joins.contains(&next) {
        return Ok(None);
    }
    let plan = Plan::of_frame(alloc, &core.lender.accesses, &core.rules, &core.joins, next)?;
    Ok(Some((next, plan)))
}

/// Starts those that join with the next frame, and takes the plan of it.
fn join_next<V: Value, S: SystemOf<Value = V>>(
    alloc: Global,
    core: &mut Core<S, V>,
    frames: u32,
) -> Result<(), NoMemory>
    requires stands { (s : State V.values)
        × (CoreStands S.meaning core.old s × (frames ≡ frame_count s)) }
    ensures begun { OnOk result ((s : State V.values) → CoreStands S.meaning core.old s
        → frames ≡ frame_count s → HasBegunFrame S.meaning core.new s) }
    ensures types { OnOk result (core.new.lender.world ≡ core.old.lender.world) }
{
    if let Some((next, plan)) = next_plan(alloc, core, frames)? {
        join_those(&mut core.lender, &core.joins, next);
        core.plan = plan;
    }
    Ok(())
}

/// Opens the next frame: those that join do so, the types are updated, and the host's posts are
/// written. Gives what they were answered.
pub(crate) fn open_frame<V: Value, S: SystemOf<Value = V>>(
    alloc: Global,
    core: &mut Core<S, V>,
    frames: u32,
    frame: &Frame<V>,
) -> Result<Vec<Reply<V>>, NoMemory>
    requires stands { (s : State V.values)
        × (CoreStands S.meaning core.old s × (frames ≡ frame_count s)) }
    requires posts { All (λ p. p.0 < length core.old.lender.world.types) frame.now.posts }
    ensures opened { IfOk result (λ posts. (s : State V.values) → CoreStands S.meaning core.old s
        → frames ≡ frame_count s → HasOpened S.meaning frame.now s core.new posts.items) }
{
    join_next(alloc, core, frames)?;
    core.lender.world.update_all();
    let posts = frame.posts.as_slice();
    let mut replies = Vec::with_capacity(alloc, posts.len())?;
    post_all(&mut core.lender.world, posts, &mut replies)?;
    Ok(replies)
}

/// Runs one frame after so many others.
pub(crate) fn run_core_frame<
    R: Threads + Sync,
    V: Value + Send + Sync,
    S: SystemOf<Value = V> + Send,
    G: Gate,
>(
    context: &RunContext<R, G>,
    core: &mut Core<S, V>,
    frames: u32,
    frame: &Frame<V>,
    spares: &mut Spares<V>,
) -> Result<Log<V>, NoMemory>
    requires stands { (s : State V.values)
        × (CoreStands S.meaning core.old s × (frames ≡ frame_count s)) }
    requires posts { All (λ p. p.0 < length core.old.lender.world.types) frame.now.posts }
    ensures ran { IfOk result (λ log. (s : State V.values) → CoreStands S.meaning core.old s
        → frames ≡ frame_count s
        → HasLeft S.meaning (log ≡ (frame_of frame.now s).log) frame.now s core.new) }
    ensures gate_passed { IfOk result
        (λ log. EachPassedGate (G.passed context.now.gate.now) context.now.workers
        (turn_order_in log)) }
{
    let posts = open_frame(context.alloc, core, frames, frame)?;
    let batches = core.plan.batches();
    let turns = run_batches(context, &mut core.lender, batches, spares)?;
    Ok(Log {
        posts: Items::from_vec(posts),
        turns: Items::from_vec(turns),
    })
}
