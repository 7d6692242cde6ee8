//! What a client shows by the engine's clauses alone.
ghost use Rattle.std.specs.Prelude.{◌≡◌, ◌<◌, ◌∷◌, [], ℕ, ℤ, All, Contains, IfOk, IsTrue, flat_map};
ghost use Rattle.msg_exec.specs.Prelude.{IsEngine, PostsFit, EngineStands};
ghost use Rattle.msg_frames.specs.Prelude.{State, before_turns, join_flags, entry_numbers};
ghost use Rattle.msg_frames.specs.Frames.{frame as frame_of, settled_order};
ghost use Rattle.msg_laws.specs.Prelude.{Meets, ReadsAll, given, log_entries, written_by};
ghost use Rattle.msg_order.specs.Prelude.{Path, has_joined};
ghost use Rattle.msg_world.specs.{declared.record.Record.Record as RecordView, Prelude.i64_values};

use msg_exec::engine_laws::engines_stand;
use msg_exec::{EngineOf, Frame, Log, NoGate, RunFault, Workers};
use msg_laws::reader_laws::{each_message_meets_one_fate, what_is_written_is_read_in_time};
use msg_system::SystemOf;
use std::alloc::Global;
use std::thread::Threads;

/// Runs frames, and knows of each reader that no two of its reads gave one message.
pub fn run_once<R: Threads + Sync, S: SystemOf<Value = i64> + Send>(
    rt: &R,
    alloc: Global,
    engine: &mut EngineOf<S>,
    frames: &[Frame],
    workers: Workers,
) -> Result<Vec<Log>, RunFault>
    requires engine { IsEngine i64_values S.meaning engine.old
        × All (PostsFit engine.old) frames.now }
    ensures never_twice { IfOk result
        (λ logs. (s : State i64_values) → EngineStands S.meaning engine.old s
        → (u : State i64_values) × EngineStands S.meaning engine.new u
        × ((i t n j k : ℕ) → t < s.types → IsTrue (has_joined (join_flags u) i)
        → Meets (log_entries i t (s.members i).job.system logs.items) n j given
        → Meets (log_entries i t (s.members i).job.system logs.items) n k given → j ≡ k)) }
{
    each_message_meets_one_fate::<i64>();
    let mut logs = Vec::new(alloc);
    engine.run_frames(rt, frames, workers, &NoGate, &mut logs)?;
    Ok(logs)
}

/// Runs a frame, and knows of each reader that comes after a writer in the settled order, and reads
/// all, that the log tells it what this writer wrote in the frame.
pub fn run_in_time<R: Threads + Sync, S: SystemOf<Value = i64> + Send>(
    rt: &R,
    engine: &mut EngineOf<S>,
    frame: &Frame,
    workers: Workers,
) -> Result<Log, RunFault>
    requires engine { IsEngine i64_values S.meaning engine.old }
    requires posts { PostsFit engine.old frame.now }
    ensures at_once { IfOk result
        (λ log. (s : State i64_values) → EngineStands S.meaning engine.old s
        → (i j t n : ℕ) (m : RecordView ℤ) → t < s.types
        → Path (settled_order (before_turns frame.now.posts s)) i j → ReadsAll j t frame.now s
        → Contains (written_by i t (frame_of frame.now s).steps) (n, m)
        → Contains (flat_map entry_numbers
        (log_entries j t (s.members j).job.system (log ∷ []))) n) }
{
    engines_stand::<S>();
    each_message_meets_one_fate::<i64>();
    what_is_written_is_read_in_time::<i64>();
    Ok(engine.run_frame(rt, frame, workers, &NoGate)?)
}
