// One frame in a given order, on the calling thread.
ghost use Rattle.std.specs.Prelude.{◌≡◌, ◌<◌, ◌↔◌, All, IfOk, IsTrue, OnErr, length};
ghost use Rattle.msg_frames.specs.declared.frame.Frame.{Frame as FrameView};
ghost use Rattle.msg_exec.specs.Prelude.{CoreStands, SomeJoin, frame_count};
ghost use Rattle.msg_exec.specs.inner.FrameSteps.{HasLeft, IsReplay};
ghost use Rattle.msg_frames.specs.Prelude.{IsLawfulFor, State};

use crate::batch::run_turns;
use crate::engine_core::{Core, next_plan, open_frame};
use crate::spares::Spares;
use crate::{Frame, Items, Log, NoGate, NoMemory};
use msg_system::SystemOf;
use msg_world::Value;
use std::alloc::Global;

/// Whether the order is lawful for the next frame, with those that will join in it.
pub(crate) fn accepts_next<V: Value, S: SystemOf<Value = V>>(
    alloc: Global,
    core: &Core<S, V>,
    frames: u32,
    order: &[u32],
) -> Result<bool, NoMemory>
    requires stands { (s : State V.values)
        × (CoreStands S.meaning core.now s × (frames ≡ frame_count s)) }
    ensures lawful { IfOk result (λ accepts. (s : State V.values) → CoreStands S.meaning core.now s
        → frames ≡ frame_count s
        → (frame : FrameView V) → IsTrue accepts ↔ IsLawfulFor frame s order.now) }
    ensures asked { OnErr result ((s : State V.values) → CoreStands S.meaning core.now s
        → frames ≡ frame_count s → SomeJoin s) }
{
    match next_plan(alloc, core, frames)? {
        Some((_, plan)) => Ok(plan.accepts(order)),
        None => Ok(core.plan.accepts(order)),
    }
}

/// Runs one frame after so many others, in an order that is lawful for it.
pub(crate) fn replay_one<V: Value, S: SystemOf<Value = V>>(
    alloc: Global,
    core: &mut Core<S, V>,
    frames: u32,
    frame: &Frame<V>,
    order: &[u32],
    spares: &mut Spares<V>,
) -> Result<Log<V>, NoMemory>
    requires stands { (s : State V.values)
        × (CoreStands S.meaning core.old s × (frames ≡ frame_count s)) }
    requires posts { All (λ p. p.0 < length core.old.lender.world.types) frame.now.posts }
    requires lawful { (s : State V.values) → CoreStands S.meaning core.old s
        → frames ≡ frame_count s → IsLawfulFor frame.now s order.now }
    ensures replayed { IfOk result (λ log. (s : State V.values) → CoreStands S.meaning core.old s
        → frames ≡ frame_count s
        → HasLeft S.meaning (IsReplay frame.now order.now s log) frame.now s core.new) }
{
    let posts = open_frame(alloc, core, frames, frame)?;
    let mut turns = spares.turns(alloc, order.len())?;
    run_turns(alloc, &mut core.lender, order, &NoGate, spares, &mut turns)?;
    Ok(Log {
        posts: Items::from_vec(posts),
        turns: Items::from_vec(turns),
    })
}
