//! Laws of engines: what is known of one that stands for a state, without a look into it.
ghost use Rattle.std.specs.Prelude.{◌≡◌, ◌<◌, ◌↔◌, ◌++◌, ◌∷◌, [], ℕ, All, List};
ghost use Rattle.msg_world.specs.declared.record.TheConstants.{HOST};
ghost use Rattle.msg_exec.specs.Prelude.{EngineOf as EngineView, EngineStands, HasRunFrame, HasRunFrames, HasRunSince, IsSpoiled, PostsFit, frame_count, frame_number};
ghost use Rattle.msg_exec.specs.Hosts.{IsSettled, LoopsAgree};
ghost use Rattle.msg_frames.specs.Prelude.{IsSoundState, State, run};
ghost use Rattle.msg_frames.specs.declared.frame.Frame.{Frame as FrameView};
ghost use Rattle.msg_frames.specs.declared.log.Log.{Log as LogView};

use crate::Host;
use msg_system::SystemOf;
use msg_world::Value;

/// An engine that stands for a state isn't spoiled, has counted the state's frames, and takes posts
/// to the types of the state. Nothing was run since that state, each of its systems writes as its
/// number, and none as the host. The state is sound, as the laws of frames and of readers ask.
pub fn engines_stand<S: SystemOf>()
    ensures alive { (e : EngineView S S.Value) (s : State S.Value.values)
        → EngineStands S.meaning e s → ¬ IsSpoiled e }
    ensures counted { (e : EngineView S S.Value) (s : State S.Value.values)
        → EngineStands S.meaning e s
        → frame_number e ≡ frame_count s }
    ensures fits { (e : EngineView S S.Value) (s : State S.Value.values)
        → EngineStands S.meaning e s
        → (frame : FrameView S.Value) → PostsFit e frame ↔ All (λ p. p.0 < s.types) frame.posts }
    ensures since { (e : EngineView S S.Value) (s : State S.Value.values)
        → EngineStands S.meaning e s
        → HasRunSince S.meaning s [] [] e }
    ensures writers { (e : EngineView S S.Value) (s : State S.Value.values)
        → EngineStands S.meaning e s
        → (i : ℕ) → i < s.systems → ((s.members i).job.system.writer ≡ i) × (i < HOST) }
    ensures sound { (e : EngineView S S.Value) (s : State S.Value.values)
        → EngineStands S.meaning e s
        → IsSoundState s }
{}

/// No frames, and frames and one more: so a loop over `run_frame` says of its logs what
/// `run_frames` says of those that it appends. If the logs since a state are exactly those of its
/// run, and not only but for the order of turns, they stay so as frames are run.
pub fn frames_run_one_by_one<S: SystemOf>()
    ensures none { (e : EngineView S S.Value) (s : State S.Value.values)
        (logs : List (LogView S.Value))
        → EngineStands S.meaning e s → HasRunFrames S.meaning [] s logs logs e }
    ensures more { (old new : EngineView S S.Value) (s : State S.Value.values)
        (frames : List (FrameView S.Value)) (frame : FrameView S.Value)
        (before logs : List (LogView S.Value)) (log : LogView S.Value)
        → IsSoundState s → HasRunFrames S.meaning frames s before logs old
        → ((u : State S.Value.values) → EngineStands S.meaning old u
        → HasRunFrame S.meaning frame u log new)
        → HasRunFrames S.meaning (frames ++ frame ∷ []) s before (logs ++ log ∷ []) new }
    ensures exact { (old new : EngineView S S.Value) (s : State S.Value.values)
        (before frames : List (FrameView S.Value)) (earlier after : List (LogView S.Value))
        → HasRunSince S.meaning s before earlier old → earlier ≡ (run before s).logs
        → ((u : State S.Value.values) → EngineStands S.meaning old u
        → HasRunFrames S.meaning frames u earlier after new)
        → after ≡ (run (before ++ frames) s).logs }
{}

/// If a host is settled by what it is told, a loop before it is the same whatever the workers: two
/// engines that stand for one state run the same frames, and tell it equal logs.
pub fn loops_agree<V: Value, S: SystemOf<Value = V>, H: Host<Value = V>>()
    ensures { IsSettled H.gives → LoopsAgree V.values S.meaning H.gives }
{}
