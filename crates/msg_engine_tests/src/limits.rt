// Frames and functions past what a file may have: there is memory for each.
ghost use Rattle.std.specs.Prelude.{◌+◌, ◌≤◌};
ghost use Rattle.msg_system.specs.declared.limits.TheConstants.{MAX_OPS};

use crate::equal::expect_eq;
use crate::functions::ready;
use crate::making::{
    Act, Does, add, engine_over, quiet_frames, readers, run_frame, run_frames, scripted_engine,
};
use msg_exec::{EngineBuilder, LAST_JOIN, NoGate, Outcome, Turn};
use msg_function::Port::Messages;
use msg_function::{Function, FunctionSystem, Inbox, NoMemory, Outbox};
use msg_part_tests::numbers::{res_no, type_no};
use msg_system::Reply;
use msg_world::{TypeNo, World};
use std::panic::Expect;
use std::process::Abort;
use std::thread::Threads;

/// How many messages the reply to a turn's one op has.
fn messages_in(turn: &Turn) -> Option<usize> {
    let Outcome::Ran(replies) = &turn.outcome else {
        return None;
    };
    match replies.as_slice().first()? {
        Reply::Drained { items, .. } => Some(items.as_slice().len()),
        reply => Some(reply.took()?.items.as_slice().len()),
    }
}

/// Many posts, a batch of many values, and a read and a drain of all of them. A read asks for room
/// for what is unread, however great its limit is.
#[test]
fn many_posts_and_values(rt: HostRuntime) {
    const ACTS: &[Act] = &[
        (0, Does::ReadsAtMost(u64::MAX)),
        (0, Does::ReadsAtMost(0)),
        (0, Does::ReadsAtMost(1)),
        (0, Does::WritesFrom(0, 100_001)),
        (0, Does::Reads),
        (0, Does::Drains),
    ];
    const MESSAGES: &[Option<usize>] = &[
        Some(100_000),
        Some(0),
        Some(1),
        None,
        Some(200_001),
        Some(200_001),
    ];
    let rt = &rt;
    let mut engine = scripted_engine(rt, rt.alloc(), u64::MAX, ACTS, &[]);
    let posts: Vec<i64> = (0..100_000).collect(rt.alloc()).expect(rt, "posts");
    let log = run_frame(rt, &mut engine, &posts, 2, &NoGate);
    expect_eq(rt, log.turns.as_slice().len(), MESSAGES.len());
    for (turn, messages) in log.turns.as_slice().iter().zip(MESSAGES) {
        expect_eq(
            rt,
            (turn.system, messages_in(turn)),
            (turn.system, *messages),
        );
    }
    drop((log, engine, posts));
}

/// More frames in one call than a system may wait before it joins.
#[test]
fn many_frames_in_one_call(rt: HostRuntime) {
    let rt = &rt;
    const NUMBER: u32 = LAST_JOIN + 1;
    let mut engine = readers(rt, rt.alloc(), 1);
    let (frames, mut logs) = (quiet_frames(rt, rt.alloc(), NUMBER), Vec::new(rt.alloc()));
    let ran = run_frames(rt, &mut engine, &frames, 1, &NoGate, &mut logs);
    ran.expect(rt, "frames");
    expect_eq(
        rt,
        (engine.frames_run(), logs.len()),
        (NUMBER, NUMBER as usize),
    );
    drop((engine, frames, logs));
}

/// How many messages of this type were written.
fn written_to(rt: &impl Abort, world: &World, t: u32) -> Option<u64> {
    let t = TypeNo::new(t).expect(rt, "a type");
    Some(world.messages(t)?.count())
}

/// Writes these values to the last of its parts.
#[derive(Drop)]
struct Wide {
    values: Vec<i64>,
}

impl<const READS: usize, const WRITES: usize> Function<READS, WRITES> for Wide {
    type Value = i64;

    ghost use Rattle.std.specs.Prelude.{◌-◌, if◌then◌else◌, nat_lt};
    ghost use Rattle.msg_function.specs.Prelude.{nothing, put_all};

    ghost answers = { λ w given. (
      w,
      if nat_lt 0 WRITES
          then put_all (WRITES - 1) w.values.items nothing else nothing,
    ) };

    fn answer(
        &mut self,
        _inbox: &Inbox<i64>,
        outbox: &mut Outbox<i64, WRITES>,
    ) -> Result<(), NoMemory> {
        if WRITES > 0 {
            outbox.write_all(WRITES - 1, self.values.as_slice())?;
        }
        Ok(())
    }
}

/// A function of so many parts writes 5,000 messages, if it writes some part.
fn expect_wide<R: Threads + Sync + Abort + AllocGlobal, const READS: usize, const WRITES: usize>(
    rt: &R,
)
    requires few { READS + WRITES ≤ MAX_OPS }
{
    let values = (0..5_000).collect(rt.alloc()).expect(rt, "values");
    let reads = [Messages(type_no(0)); READS];
    let writes = [Messages(type_no(1)); WRITES];
    let wide = FunctionSystem::<Wide, READS, WRITES>::new(
        rt.alloc(),
        Wide { values },
        reads,
        writes,
    );
    let mut systems = EngineBuilder::new(rt.alloc());
    add(
        rt,
        &mut systems,
        wide.expect(rt, "a function"),
        Vec::new(rt.alloc()),
        1,
    );
    let mut engine = engine_over(rt, rt.alloc(), systems, &[10_000; 2], &[]);
    drop(run_frame(rt, &mut engine, &[7], 1, &NoGate));
    let written = engine.world().and_then(|world| written_to(rt, world, 1));
    drop(engine);
    let want = if WRITES > 0 { 5_000 } else { 0 };
    expect_eq(rt, (READS, WRITES, written), (READS, WRITES, Some(want)));
}

/// As many parts as a function may have: read alone, written alone, and both.
#[test]
fn functions_of_many_parts(rt: HostRuntime) {
    let rt = &rt;
    expect_wide::<_, 64, 0>(rt);
    expect_wide::<_, 63, 1>(rt);
    expect_wide::<_, 32, 32>(rt);
    expect_wide::<_, 0, 64>(rt);
}

/// 5,000 messages for each of the functions that are there already: a filter, which lets numbers
/// above 9 pass, one that holds back to every second turn, a count and a sum.
#[test]
fn many_messages_for_functions(rt: HostRuntime) {
    let rt = &rt;
    let mut engine = ready(rt, rt.alloc(), 10_000);
    let posts: Vec<i64> = (0..5_000).collect(rt.alloc()).expect(rt, "posts");
    drop(run_frame(rt, &mut engine, &posts, 1, &NoGate));
    drop(run_frame(rt, &mut engine, &[], 1, &NoGate));
    let world = engine.world().expect(rt, "a world");
    let written = (written_to(rt, world, 1), written_to(rt, world, 2));
    let values = (world.resource(res_no(0)), world.resource(res_no(1)));
    drop((engine, posts));
    expect_eq(rt, written, (Some(4_990), Some(5_000)));
    expect_eq(rt, values, (Some(5_000), Some(12_497_500)));
}
