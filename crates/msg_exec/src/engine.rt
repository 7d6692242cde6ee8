use crate::building::{Prepared, check_build, guarded_systems, prepare};
use crate::engine_core::{Core, run_core_frame};
use crate::joining::join_those;
use crate::lender::Lender;
use crate::replay::{accepts_next, replay_one};
use crate::side_by_side::RunContext;
use crate::spares::Spares;
use crate::{BuildRefusal, Frame, Gate, Host, Log, LoopFault, NoGate, Place, RunFault, Workers};
use msg_order::Rule;
use msg_system::{System, SystemOf};
use msg_world::{MAX_SYSTEMS, Value, World};
use std::alloc::Global;
use std::thread::Threads;

/// Systems over one world, which run frame by frame: one (`run_frame`), a list (`run_frames`), or
/// those that a `Host` gives one by one, by the log of the last (`run_loop`).
///
/// After want of memory in a call that runs a frame the engine is spoiled: from then on each such
/// call answers so, `accounts` too, and there is no world any more.
///
/// ```
/// let mut engine = systems.build(world)?;
/// if engine.fits(&frame) {
///     let log = engine.run_frame(&rt, &frame, workers, &NoGate)?;
///     println!(rt; "{} systems took their turn", log.turns.as_slice().len())?;
/// }
/// ```
#[derive(Drop)]
pub struct EngineOf<S, V = i64> {
    pub(crate) alloc: Global,
    pub(crate) core: Option<Core<S, V>>,
    pub(crate) frames: u32,
    spares: Spares<V>,
}

/// An engine of boxed systems.
pub type Engine = EngineOf<Box<dyn System>>;

impl<V: Value, S: SystemOf<Value = V>> EngineOf<S, V> {
    ghost use Rattle.std.specs.Prelude.{◌≡◌, ◌⊎◌, ◌<◌, ◌++◌, ◌∷◌, [], ◌-◌, ◌^◌, ◌+◌, ◌↔◌, ℕ, All, drop, min, IfOk, OnOk, Err, ◌≤◌, IfErr, IfSome, IsNone, IsTrue, List, None, Some, length, map};
    ghost use Rattle.std.specs.Option.{option_copied};
    ghost use Rattle.msg_world.specs.declared.run_fault.RunFault.TheVariants.{BadOrder, NoMemory, Spoiled};
    ghost use Rattle.msg_world.specs.Prelude.{IsWhole, PartsStand, WorldState};
    ghost use Rattle.msg_order.specs.Prelude.{IsAcyclic, NameSystemsBelow, edges_of};
    ghost use Rattle.msg_exec.specs.{Building.EachIs, Building.MayBeAdded, Building.NoneIsClash, Building.RefusesFor, Cores.SomeJoin, Cores.frame_count, Engines.HasReplayed, Engines.HasRunFrame, Engines.HasRunFrames, Engines.HasRunSince, Engines.HasRunSome, Engines.IsEngine, Engines.IsSpoiled, Engines.PostsFit, Engines.EngineStands, Engines.frame_number, Engines.world_of};
    ghost use Rattle.msg_frames.specs.Prelude.{IsCompleteRun, IsLawfulFor, IsSoundState, State, first_state, turn_order_in};
    ghost use Rattle.msg_frames.specs.{declared.frame.Frame.Frame as FrameView, declared.log.Log.Log as LogView};

    /// An engine with no frame run. The systems go by number, in order of addition, and each has
    /// its place; those of join 1 have joined, and start at 0 or at the counts of this moment.
    ///
    /// # Errors
    ///
    /// `Clash` with the lowest system that reads and writes one part; else `Cycle` with the lowest
    /// system from which the rules lead back to it; else `NoMemory`. The world and the systems are
    /// dropped then.
    pub fn new(
        alloc: Global,
        world: World<V>,
        systems: Vec<S>,
        places: Vec<Place<V>>,
        rules: Vec<Rule>,
    ) -> Result<EngineOf<S, V>, BuildRefusal>
        requires whole { IsWhole world }
        requires few { length systems.items ≤ MAX_SYSTEMS }
        requires one_place_each { length places.items ≡ length systems.items }
        requires in_range { NameSystemsBelow (length systems.items) rules.items }
        requires each { EachIs (MayBeAdded S.meaning world places.items) systems.items }
        ensures since { IfOk result (λ e. (w : WorldState V.values) → PartsStand world w
            → HasRunSince S.meaning
            (first_state (map S.meaning systems.items) places.items rules.items
            (length world.types) (length world.resources) w) [] [] e) }
        ensures engine { IfOk result (IsEngine V.values S.meaning) }
        ensures fresh { IfOk result (λ e. ¬ IsSpoiled e) }
        ensures no_clash { OnOk result (NoneIsClash S.meaning systems.items) }
        ensures no_cycle { OnOk result (IsAcyclic (edges_of rules.items)) }
        ensures refusal { IfErr result (RefusesFor S.meaning systems.items rules.items) }
    {
        world.stands_for_some();
        check_build(&systems, &rules)?;
        let Prepared {
            accesses,
            joins,
            plan,
            totals,
        } = prepare(alloc, world.types(), &systems, &places, &rules)?;
        let guarded = guarded_systems(alloc, systems, &places)?;
        let mut lender = Lender {
            world,
            systems: guarded,
            accesses,
            totals,
        };
        join_those(&mut lender, &joins, 1);
        let core = Core {
            lender,
            joins,
            rules,
            plan,
        };
        Ok(EngineOf {
            alloc,
            core: Some(core),
            frames: 0,
            spares: Spares::new(alloc),
        })
    }

    /// Drops its world and its systems.
    fn spoil(&mut self)
        ensures spoiled { self.new ≡ record self.old { core = None } }
    {
        self.core = None;
    }

    /// Counts a frame that was run.
    fn count_frame(&mut self)
        ensures core { self.new.core ≡ self.old.core }
        ensures counted { frame_number self.new ≡ min (frame_number self.old + 1) (2 ^ 32 - 1) }
    {
        self.frames = self.frames.saturating_add(1);
    }

    /// Takes the lists of turns, replies and read messages of a log that is no longer needed, for
    /// frames to come. What is kept of them no clause says.
    pub fn recycle(&mut self, log: Log<V>)
        ensures meaning { (s : State V.values) → EngineStands S.meaning self.old s
            → EngineStands S.meaning self.new s }
        ensures since { (s : State V.values) (frames : List (FrameView V)) (logs : List (LogView V))
            → HasRunSince S.meaning s frames logs self.old
            → HasRunSince S.meaning s frames logs self.new }
        ensures counted { frame_number self.new ≡ frame_number self.old }
        ensures fits { (f : FrameView V) → PostsFit self.old f → PostsFit self.new f }
        ensures world { world_of self.new ≡ world_of self.old }
        ensures spoiled { IsSpoiled self.new ↔ IsSpoiled self.old }
        ensures engine { IsEngine V.values S.meaning self.old
            → IsEngine V.values S.meaning self.new }
    {
        self.keep(Some(log));
    }

    /// The same of a log, if there is one.
    pub(crate) fn keep(&mut self, log: Option<Log<V>>)
        ensures same { self.new ≡ self.old }
    {
        if let (Some(core), Some(log)) = (&mut self.core, log) {
            self.spares.keep(log, &mut core.lender.world);
        }
    }

    /// Runs one frame on the calling thread, in an order that the caller gives; the log has the
    /// turns in that order. It counts like any other frame.
    ///
    /// # Errors
    ///
    /// `Spoiled`; `BadOrder` if the order isn't lawful for those that will have joined by this
    /// frame: each of them once, and each after those that the settled order puts before it. Then
    /// nothing has changed: nobody has joined. `NoMemory`, and then the engine is spoiled; an order
    /// that isn't lawful gets it only in a frame that systems join with.
    pub fn replay_frame(&mut self, frame: &Frame<V>, order: &[u32]) -> Result<Log<V>, RunFault>
        requires engine { IsEngine V.values S.meaning self.old }
        requires posts { PostsFit self.old frame.now }

        // The order is lawful; the log has the frame's posts and each system's turn as it came out
        // in the frame, which gave each reader every message once, and the engine stands for the
        // state that the frame leaves.
        ensures replayed { IfOk result
            (λ log. (s : State V.values) → EngineStands S.meaning self.old s
            → HasReplayed S.meaning frame.now order.now s log self.new) }
        ensures since { IfOk result (λ log.
            (s : State V.values) (frames : List (FrameView V)) (logs : List (LogView V))
            → HasRunSince S.meaning s frames logs self.old
            → HasRunSince S.meaning s (frames ++ frame.now ∷ []) (logs ++ log ∷ []) self.new) }
        ensures counted { OnOk result
            (frame_number self.new ≡ min (frame_number self.old + 1) (2 ^ 32 - 1)) }
        ensures alive { OnOk result (¬ IsSpoiled self.new) }
        ensures fits { OnOk result
            ((f : FrameView V) → PostsFit self.old f → PostsFit self.new f) }
        ensures bad_order { (s : State V.values) → EngineStands S.meaning self.old s
            → ¬ (result ≡ Err NoMemory)
            → (result ≡ Err BadOrder) ↔ (¬ IsLawfulFor frame.now s order.now) }
        ensures asked { result ≡ Err NoMemory → (s : State V.values)
            → EngineStands S.meaning self.old s
            → IsLawfulFor frame.now s order.now ⊎ SomeJoin s }
        ensures nothing_done { result ≡ Err BadOrder → self.new ≡ self.old }
        ensures spoiled { (result ≡ Err Spoiled) ↔ IsSpoiled self.old }
        ensures unchanged { result ≡ Err Spoiled → self.new ≡ self.old }
        ensures no_memory { result ≡ Err NoMemory → IsSpoiled self.new }
        ensures not_counted { result ≡ Err NoMemory
            → frame_number self.new ≡ frame_number self.old }
        ensures engine { IsEngine V.values S.meaning self.new }
    {
        let Some(core) = &mut self.core else {
            return Err(RunFault::Spoiled);
        };
        let Ok(is_lawful) = accepts_next(self.alloc, core, self.frames, order) else {
            self.spoil();
            return Err(RunFault::NoMemory);
        };
        if !is_lawful {
            return Err(RunFault::BadOrder);
        }
        let Ok(log) = replay_one(
            self.alloc,
            core,
            self.frames,
            frame,
            order,
            &mut self.spares,
        ) else {
            self.spoil();
            return Err(RunFault::NoMemory);
        };
        self.count_frame();
        Ok(log)
    }

    /// Its world; None if it is spoiled.
    pub fn world(&self) -> Option<&World<V>>
        ensures world { option_copied result ≡ world_of self.now }
        ensures spoiled { IsNone result ↔ IsSpoiled self.now }
        ensures meaning { (s : State V.values) → EngineStands S.meaning self.now s
            → IfSome result (λ w. PartsStand w.now s.world) }
        ensures whole { IsEngine V.values S.meaning self.now → IfSome result (λ w. IsWhole w.now) }
        ensures types { (s : State V.values) → EngineStands S.meaning self.now s
            → IfSome result (λ w. length w.now.types ≡ s.types) }
        ensures resources { (s : State V.values) → EngineStands S.meaning self.now s
            → IfSome result (λ w. length w.now.resources ≡ s.resources) }
    {
        match &self.core {
            Some(core) => Some(&core.lender.world),
            None => None,
        }
    }

    /// Whether each post of the frame is to a type of its world, as the calls that run it ask.
    /// Every frame fits an engine that is spoiled.
    pub fn fits(&self, frame: &Frame<V>) -> bool
        ensures fits { IsTrue result ↔ PostsFit self.now frame.now }
    {
        let Some(core) = &self.core else {
            return true;
        };
        let world = &core.lender.world;
        for post in frame.posts.as_slice() {
            if post.0.number() as usize >= world.types() {
                return false;
            }
        }
        true
    }

    /// Whether each of the frames fits.
    pub fn all_fit(&self, frames: &[Frame<V>]) -> bool
        ensures fit { IsTrue result ↔ All (PostsFit self.now) frames.now }
    {
        for frame in frames {
            if !self.fits(frame) {
                return false;
            }
        }
        true
    }

    /// How many whole frames were run. It stays at the greatest number.
    pub fn frames_run(&self) -> u32
        ensures frames { result ≡ frame_number self.now }
        ensures meaning { (s : State V.values) → EngineStands S.meaning self.now s
            → result ≡ frame_count s }
    {
        self.frames
    }
}

// Frames over workers, to which values and systems may be sent.
impl<V: Value + Send + Sync, S: SystemOf<Value = V> + Send> EngineOf<S, V> {
    ghost use Rattle.std.specs.Prelude.{◌≡◌, ◌<◌, ◌++◌, ◌∷◌, [], ◌-◌, ◌^◌, ◌+◌, ◌↔◌, ℕ, All, drop, min, IfOk, OnOk, Err, ◌≤◌, IfErr, IfSome, IsNone, IsTrue, List, None, Some, length, map};
    ghost use Rattle.msg_world.specs.declared.run_fault.RunFault.TheVariants.{BadOrder, NoMemory, Spoiled};
    ghost use Rattle.msg_exec.specs.{Building.EachIs, Building.MayBeAdded, Building.RefusesFor, Cores.frame_count, Engines.HasReplayed, Engines.HasRunFrame, Engines.HasRunFrames, Engines.HasRunSince, Engines.HasRunSome, Engines.IsEngine, Engines.IsSpoiled, Engines.PostsFit, Engines.EngineStands, Engines.frame_number, Engines.world_of};
    ghost use Rattle.msg_exec.specs.Hosts.{HasMetRefusal, HasRunLoop, HasRunShort, StoppedAtUnknownType};
    ghost use Rattle.msg_workers.specs.Prelude.{EachPassedGate};
    ghost use Rattle.msg_frames.specs.Prelude.{IsCompleteRun, IsLawfulFor, IsSoundState, State, first_state, turn_order_in};
    ghost use Rattle.msg_frames.specs.{declared.frame.Frame.Frame as FrameView, declared.log.Log.Log as LogView};

    /// Runs one frame: those that join do so, the types are updated, the host's posts are written,
    /// and all that have joined take their turns.
    ///
    /// A `for` in which each round runs a frame needs an invariant: `go_on` of `crates/tower` is
    /// such a loop, which says what its frames came to, and `proofs/go_on/Invariants.antt` there
    /// has its invariant. If nothing is to be said of them, one line does: `expect_frames` of
    /// `crates/msg_engine_tests` (`src/expecting.rt`).
    ///
    /// # Errors
    ///
    /// `Spoiled`, and then nothing has changed; `NoMemory`, and then the engine is spoiled.
    pub fn run_frame<R: Threads + Sync, G: Gate>(
        &mut self,
        rt: &R,
        frame: &Frame<V>,
        workers: Workers,
        gate: &G,
    ) -> Result<Log<V>, RunFault>
        requires engine { IsEngine V.values S.meaning self.old }
        requires posts { PostsFit self.old frame.now }

        // Whatever the workers and the gate: the log is that of one thread over lists of messages
        // that only grow, and each reader is given every message once.
        ensures ran { IfOk result (λ log. (s : State V.values) → EngineStands S.meaning self.old s
            → HasRunFrame S.meaning frame.now s log self.new) }
        ensures since { IfOk result (λ log.
            (s : State V.values) (frames : List (FrameView V)) (logs : List (LogView V))
            → HasRunSince S.meaning s frames logs self.old
            → HasRunSince S.meaning s (frames ++ frame.now ∷ []) (logs ++ log ∷ []) self.new) }

        // For each turn one of the workers passed the gate, with its own number, which is below the
        // number of turns too, and the system's.
        ensures gate_passed { IfOk result
            (λ log. EachPassedGate (G.passed gate.now) workers (turn_order_in log)) }
        ensures counted { OnOk result
            (frame_number self.new ≡ min (frame_number self.old + 1) (2 ^ 32 - 1)) }
        ensures alive { OnOk result (¬ IsSpoiled self.new) }
        ensures fits { OnOk result
            ((f : FrameView V) → PostsFit self.old f → PostsFit self.new f) }
        ensures spoiled { (result ≡ Err Spoiled) ↔ IsSpoiled self.old }
        ensures unchanged { result ≡ Err Spoiled → self.new ≡ self.old }
        ensures no_memory { result ≡ Err NoMemory → IsSpoiled self.new }
        ensures not_counted { result ≡ Err NoMemory
            → frame_number self.new ≡ frame_number self.old }
        ensures no_bad_order { ¬ (result ≡ Err BadOrder) }
        ensures engine { IsEngine V.values S.meaning self.new }
    {
        let Some(core) = &mut self.core else {
            return Err(RunFault::Spoiled);
        };
        let context = RunContext {
            rt,
            alloc: self.alloc,
            workers,
            gate,
        };
        let Ok(log) = run_core_frame(&context, core, self.frames, frame, &mut self.spares) else {
            self.spoil();
            return Err(RunFault::NoMemory);
        };
        self.count_frame();
        Ok(log)
    }

    /// Runs frames one after the other, and appends the log of each whole one.
    ///
    /// # Errors
    ///
    /// As for `run_frame`. After `NoMemory` the logs of the frames that were run before stand in
    /// `out`.
    pub fn run_frames<R: Threads + Sync, G: Gate>(
        &mut self,
        rt: &R,
        frames: &[Frame<V>],
        workers: Workers,
        gate: &G,
        out: &mut Vec<Log<V>>,
    ) -> Result<(), RunFault>
        requires engine { IsEngine V.values S.meaning self.old }
        requires posts { All (PostsFit self.old) frames.now }

        // Whatever the workers and the gate: the logs are those of one thread over lists of
        // messages that only grow, and each reader is given every message once.
        ensures ran { OnOk result ((s : State V.values) → EngineStands S.meaning self.old s
            → HasRunFrames S.meaning frames.now s out.old.items out.new.items self.new) }
        ensures since { OnOk result ((s : State V.values) (before : List (FrameView V))
            → HasRunSince S.meaning s before out.old.items self.old
            → HasRunSince S.meaning s (before ++ frames.now) out.new.items self.new) }

        ensures counted { OnOk result
            (frame_number self.new
            ≡ min (frame_number self.old + length frames.now) (2 ^ 32 - 1)) }
        ensures alive { OnOk result (¬ IsSpoiled self.new) }
        ensures fits { OnOk result
            ((f : FrameView V) → PostsFit self.old f → PostsFit self.new f) }

        // For each turn in the logs that were appended, as in `run_frame`.
        ensures gate_passed { All (λ log. EachPassedGate (G.passed gate.now) workers
            (turn_order_in log))
            (drop (length out.old.items) out.new.items) }
        ensures spoiled { (result ≡ Err Spoiled) ↔ IsSpoiled self.old }
        ensures unchanged { result ≡ Err Spoiled → self.new ≡ self.old }
        ensures nothing_appended { result ≡ Err Spoiled → out.new ≡ out.old }
        ensures no_memory { result ≡ Err NoMemory → (s : State V.values)
            → EngineStands S.meaning self.old s
            → HasRunSome S.meaning frames.now s out.old.items out.new.items self.new }
        ensures no_bad_order { ¬ (result ≡ Err BadOrder) }
        ensures engine { IsEngine V.values S.meaning self.new }
    {
        if self.core.is_none() {
            return Err(RunFault::Spoiled);
        }
        for frame in frames {
            if out.reserve(1).is_err() {
                self.spoil();
                return Err(RunFault::NoMemory);
            }
            let log = self.run_frame(rt, frame, workers, gate)?;
            let Ok(()) = out.push(log) else {
                unreachable!()
            };
        }
        Ok(())
    }

    /// Runs the frames that a host gives, each by the log of the one before, until it gives none or
    /// `most` were run. Whatever the workers: the logs that the host is told are those of one
    /// thread.
    ///
    /// # Errors
    ///
    /// `Run`, as for `run_frame`. `Misfit` if a post of the frame is to a type that the world
    /// hasn't got, and `Host` if the host had no memory: then the frames before that one were run,
    /// and the engine can go on.
    pub fn run_loop<R: Threads + Sync, H: Host<Value = V>>(
        &mut self,
        rt: &R,
        host: &mut H,
        most: u64,
        workers: Workers,
    ) -> Result<(), LoopFault>
        requires engine { IsEngine V.values S.meaning self.old }
        ensures ran { OnOk result
            (HasRunLoop V.values S.meaning H.gives most host.old self.old host.new self.new) }
        ensures misfit { result ≡ Err LoopFault.Misfit
            → StoppedAtUnknownType V.values S.meaning H.gives most
            host.old self.old host.new self.new }
        ensures alive { OnOk result (¬ IsSpoiled self.new) }
        ensures goes_on { (result ≡ Err LoopFault.Misfit) → ¬ IsSpoiled self.new }
        ensures no_memory_for_host { (result ≡ Err LoopFault.Host) → ¬ IsSpoiled self.new }
        ensures host { result ≡ Err LoopFault.Host
            → HasMetRefusal V.values S.meaning H.gives H.refuses most
            host.old self.old host.new self.new }
        ensures spoiled { (result ≡ Err (LoopFault.Run RunFault.Spoiled)) ↔ IsSpoiled self.old }
        ensures unchanged { result ≡ Err (LoopFault.Run RunFault.Spoiled) → self.new ≡ self.old }
        ensures host_unasked { result ≡ Err (LoopFault.Run RunFault.Spoiled) → host.new ≡ host.old }
        ensures no_memory { result ≡ Err (LoopFault.Run RunFault.NoMemory)
            → HasRunShort V.values S.meaning H.gives most host.old self.old host.new self.new }
        ensures no_bad_order { ¬ (result ≡ Err (LoopFault.Run RunFault.BadOrder)) }
        ensures engine { IsEngine V.values S.meaning self.new }
    {
        if self.world().is_none() {
            return Err(LoopFault::Run(RunFault::Spoiled));
        }
        let mut last = None;
        for _ in 0..most {
            let Some(frame) = host.next(self.alloc, last.as_ref())? else {
                return Ok(());
            };
            if !self.fits(&frame) {
                return Err(LoopFault::Misfit);
            }
            self.keep(last.take());
            last = Some(self.run_frame(rt, &frame, workers, &NoGate)?);
        }
        Ok(())
    }
}
