// Loops of the frames that a host gives: how each ends, what its host is told, and that its workers
// run side by side.
ghost use Rattle.msg_exec.specs.Prelude.{IsEngine};
ghost use Rattle.msg_world.specs.Prelude.{i64_values};

use crate::equal::{expect_eq, expect_text};
use crate::making::{Act, Does, add, engine_over, readers, scripted_engine, workers};
use crate::told::expect_engine;
use msg_exec::{EngineBuilder, EngineOf, Frame, Host, Log, LoopFault, NoMemory, RunFault, Turn};
use msg_order::Rule;
use msg_part_tests::meeting::Meeting;
use msg_part_tests::numbers::type_no;
use msg_system::{Access, Behavior, BehaviorSystem, Op, Reply, Start, SystemOf};
use std::alloc::Global;
use std::process::Abort;
use std::thread::Threads;
use std::time::Clock;

/// What a host does once it has given its frames.
#[derive(Clone, Copy)]
enum Then {
    Ends,
    PostsToNoType,
    HasNoMemory,
}

/// A host that gives so many frames without posts, and then does this.
#[derive(Clone, Copy)]
struct Giver {
    frames: u32,
    then: Then,
}

impl Host for Giver {
    type Value = i64;

    fn next(&mut self, alloc: Global, _last: Option<&Log>) -> Result<Option<Frame>, NoMemory> {
        if self.frames > 0 {
            self.frames -= 1;
            return Ok(Some(Frame::quiet(alloc)));
        }
        match self.then {
            Then::Ends => Ok(None),
            Then::PostsToNoType => {
                let posts = Vec::from_slice(alloc, &[(type_no(9), 1)])?;
                Ok(Some(Frame::of(posts)))
            }
            Then::HasNoMemory => Err(NoMemory),
        }
    }
}

/// How many frames a loop runs at most, how many its host gives and what it does then, what the
/// loop comes to, and how many frames were run.
type Row = (u64, u32, Then, Result<(), LoopFault>, u32);

const ROWS: &[Row] = &[
    (9, 2, Then::Ends, Ok(()), 2),
    (2, 3, Then::Ends, Ok(()), 2),
    (u64::MAX, 1_000_001, Then::Ends, Ok(()), 1_000_001),
    (9, 1, Then::PostsToNoType, Err(LoopFault::Misfit), 1),
    (9, 1, Then::HasNoMemory, Err(LoopFault::Host), 1),
];

/// The loop ends so, and the engine can go on.
fn expect_end<R: Threads + Sync + Abort + AllocGlobal>(rt: &R, row: &Row) {
    let (most, frames, then, came, run) = *row;
    let mut host = Giver { frames, then };
    let mut engine = readers(rt, rt.alloc(), 0);
    let ended = engine.run_loop(rt, &mut host, most, workers(rt, 1));
    let found = (ended, engine.frames_run(), engine.world().is_some());
    drop(engine);
    expect_eq(rt, found, (came, run, true));
}

#[test]
fn a_loop_ends_as_its_host_says(rt: HostRuntime) {
    for row in ROWS {
        expect_end(&rt, row);
    }
}

#[test]
fn loop_faults_say_why(rt: HostRuntime) {
    const WHY: &[(LoopFault, &str)] = &[
        (
            LoopFault::Misfit,
            "a post is to a type that the world hasn't got",
        ),
        (LoopFault::Host, "want of memory for the next frame"),
        (LoopFault::Run(RunFault::Spoiled), "the engine is spoiled"),
    ];
    for (fault, why) in WHY {
        expect_text(&rt, fault, why);
    }
}

/// A host that gives so many frames. Each posts in which order the last one's systems took their
/// turns, as a digit for each, and the first a 7.
#[derive(Clone, Copy)]
struct Follower {
    frames: u32,
}

/// The numbers of the systems that took these turns, in their order, as digits.
fn digits_of(turns: &[Turn]) -> i64 {
    let mut digits: i64 = 0;
    for turn in turns {
        digits = digits.wrapping_mul(10).wrapping_add(turn.system as i64);
    }
    digits
}

impl Host for Follower {
    type Value = i64;

    fn next(&mut self, alloc: Global, last: Option<&Log>) -> Result<Option<Frame>, NoMemory> {
        if self.frames == 0 {
            return Ok(None);
        }
        self.frames -= 1;
        let value = last.map_or(7, |log| digits_of(log.turns.as_slice()));
        let posts = Vec::from_slice(alloc, &[(type_no(0), value)])?;
        Ok(Some(Frame::of(posts)))
    }
}

/// Three readers, of which the last runs before the first: so their turns are those of 1, 2 and 0.
const READERS: &[Act] = &[(0, Does::Reads), (0, Does::Reads), (0, Does::Reads)];

const LAST_BEFORE_FIRST: &[Rule] = &[Rule {
    earlier: 2,
    later: 0,
}];

const FOLLOWED: &str = "3 frames, from 1 to 3: host=120 host=120\
    [0 of 0: start Some(0) got 3 missed 0 cleared 0 place 3]\
    [1 of 0: start Some(0) got 3 missed 0 cleared 0 place 3]\
    [2 of 0: start Some(0) got 3 missed 0 cleared 0 place 3]";

/// The loop of this host comes to the same on so many workers.
fn expect_followed<R: Threads + Sync + Abort + AllocGlobal>(rt: &R, number: u32) {
    let mut host = Follower { frames: 3 };
    let mut engine = scripted_engine(rt, rt.alloc(), 10, READERS, LAST_BEFORE_FIRST);
    let ended = engine.run_loop(rt, &mut host, 9, workers(rt, number));
    expect_eq(rt, (number, ended, host.frames), (number, Ok(()), 0));
    expect_engine(rt, &engine, FOLLOWED);
    drop(engine);
}

#[test]
fn a_host_is_told_the_turns_in_their_order(rt: HostRuntime) {
    for number in [1, 2, 7] {
        expect_followed(&rt, number);
    }
}

/// In each of its turns it waits until all that are awaited there have begun theirs, and does
/// nothing else.
#[derive(Drop)]
struct Waiter<'a, 'c, C> {
    meetings: &'a [Meeting<'c, C>; 2],
    /// How many turns it took.
    turns: usize,
}

impl<C: Clock + Sync> Behavior for Waiter<'_, '_, C> {
    type Value = i64;

    ghost use Rattle.std.specs.Prelude.{None, ⊤};

    ghost Memory = { ⊤ };

    ghost memory = { λ _. tt };

    ghost next_op = { λ memory replies. None };

    ghost remembered = { λ memory replies. memory };

    fn next(&self, _alloc: Global, _replies: &[Reply]) -> Result<Option<Op>, NoMemory> {
        let meetings = self.meetings;
        if let Some(meeting) = meetings.get(self.turns) {
            meeting.come();
            meeting.wait();
        }
        Ok(None)
    }

    fn remember(&mut self, _alloc: Global, _replies: &[Reply]) -> Result<(), NoMemory> {
        self.turns = self.turns.saturating_add(1);
        Ok(())
    }
}

/// What a loop of two frames comes to on two workers.
fn end_of_two<R: Threads + Sync + Abort, S: SystemOf<Value = i64> + Send>(
    rt: &R,
    mut engine: EngineOf<S>,
) -> Result<(), LoopFault>
    requires engine { IsEngine i64_values S.meaning engine }
{
    let mut host = Giver {
        frames: 2,
        then: Then::Ends,
    };
    let ended = engine.run_loop(rt, &mut host, 9, workers(rt, 2));
    drop(engine);
    ended
}

/// Two systems, each of which waits in each frame until the other has begun too, come to their ends
/// in a loop on two workers. That the other worker ran one of the two jobs of the first frame is
/// why the second goes over workers too.
fn expect_both_begin<R: Threads + Clock + Sync + Abort + AllocGlobal>(rt: &R) {
    let meetings = [Meeting::new(rt, 2), Meeting::new(rt, 2)];
    let mut systems = EngineBuilder::new(rt.alloc());
    for _system in 0..2 {
        let waiter = Waiter {
            meetings: &meetings,
            turns: 0,
        };
        let system = BehaviorSystem::new(rt.alloc(), waiter, Access::none(), Start::Zero, 0);
        add(rt, &mut systems, system, Vec::new(rt.alloc()), 1);
    }
    let engine = engine_over(rt, rt.alloc(), systems, &[], &[]);
    let ended = end_of_two(rt, engine);
    for meeting in &meetings {
        expect_eq(
            rt,
            (ended, meeting.came(), meeting.missed()),
            (Ok(()), 2, 0),
        );
    }
}

#[test]
fn a_loop_runs_over_its_workers(rt: HostRuntime) {
    expect_both_begin(&rt);
}
