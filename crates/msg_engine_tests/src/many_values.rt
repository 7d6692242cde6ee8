// An engine of values that aren't numbers, on each number of workers: structs of 24 bytes.
ghost use Rattle.msg_exec.specs.Prelude.{IsEngine};

use crate::expecting::{Told, expect_replay};
use crate::making::{NUMBERS, add, engine_over, run_frame, scripted};
use msg_exec::{EngineBuilder, EngineOf, NoGate};
use msg_part_tests::numbers::{res_no, type_no};
use msg_system::{Condition, Op, Probe, Scripted, Start, SystemOf};
use msg_world::Value;
use std::alloc::Global;
use std::panic::Expect;
use std::process::Abort;
use std::thread::Threads;

/// A force in space.
#[derive(Clone, Copy, Debug, PartialEq, Eq)]
struct Force {
    x: i64,
    y: i64,
    z: i64,
}

impl Value for Force {
    ghost use Rattle.std.specs.Prelude.{pos, ◌+ℤ◌, refl};
    ghost use Rattle.std.specs.Int.{saturate_signed, w64};

    ghost values = { record {
      some = record { x = pos 0; y = pos 0; z = pos 0 };
      plus = λ f g. record {
        x = saturate_signed w64 (f.x +ℤ g.x);
        y = saturate_signed w64 (f.y +ℤ g.y);
        z = saturate_signed w64 (f.z +ℤ g.z);
      };
      same = Self.PartialEq.eq;
    } };

    ghost same_is_eq = { refl };

    fn plus(self, other: Force) -> Force {
        Force {
            x: self.x.saturating_add(other.x),
            y: self.y.saturating_add(other.y),
            z: self.z.saturating_add(other.z),
        }
    }
}

/// What the resource is at first.
const FIRST: Force = Force { x: 1, y: -2, z: 3 };

/// What is written in each frame.
const WRITTEN: Force = Force {
    x: 100,
    y: 0,
    z: i64::MAX,
};

/// What is posted in each frame.
const POSTED: &[Force] = &[Force {
    x: 10,
    y: 20,
    z: 30,
}];

/// What the third frame tells, in which the late system runs before the others that read.
const THIRD: &Told<'static, Force> = &(
    POSTED,
    " wrote 1 from 4[0 wrote 1 from 5]\
     [3 read from 4: host=Force { x: 10, y: 20, z: 30 } \
     0=Force { x: 100, y: 0, z: 9223372036854775807 }, \
     Some(Written { first: 0, n: 2 })]\
     [1 was skipped]\
     [2 read from 4: host=Force { x: 10, y: 20, z: 30 } \
     0=Force { x: 100, y: 0, z: 9223372036854775807 }, \
     sum Force { x: 331, y: 58, z: 9223372036854775807 }]",
);

/// Adds a script of this op. One that joins late starts at what is written then.
fn add_script(
    rt: &impl Abort,
    alloc: Global,
    systems: &mut EngineBuilder<Scripted<Force>, Force>,
    op: Op<Force>,
    conditions: Vec<Condition<Force>>,
    join: u32,
) {
    let start = if join == 1 {
        Start::Zero
    } else {
        Start::Current
    };
    let ops = vec![in alloc; op].expect(rt, "an op");
    add(rt, systems, scripted(rt, ops, start), conditions, join);
}

/// System 0 writes a message, 1 reads while the resource is as it was, 2 adds all messages to the
/// resource, and 3 joins with the third frame and writes again what it reads then.
fn engine(rt: &impl Abort, alloc: Global) -> EngineOf<Scripted<Force>, Force>
    ensures engine { IsEngine ⟦<Force as Value>⟧.values
        ⟦<Scripted<Force> as SystemOf>⟧.meaning result }
{
    let (t, r) = (type_no(0), res_no(0));
    let probe = Probe::ResourceEquals(r, FIRST);
    let as_it_was = vec![in alloc; Condition { nots: 0, probe }].expect(rt, "a condition");
    let mut systems = EngineBuilder::new(alloc);
    let written = Op::Write(t, WRITTEN);
    add_script(rt, alloc, &mut systems, written, Vec::new(alloc), 1);
    add_script(rt, alloc, &mut systems, Op::Read(t, None), as_it_was, 1);
    add_script(rt, alloc, &mut systems, Op::Sum(t, r), Vec::new(alloc), 1);
    let again = Op::Forward(t, type_no(1));
    add_script(rt, alloc, &mut systems, again, Vec::new(alloc), 3);
    engine_over(rt, alloc, systems, &[10, 10], &[FIRST])
}

/// Runs two frames on so many workers, and replays a third.
fn expect_forces<R: Threads + Sync + Abort + AllocGlobal>(rt: &R, number: u32) {
    let mut engine = engine(rt, rt.alloc());
    drop(run_frame(rt, &mut engine, POSTED, number, &NoGate));
    drop(run_frame(rt, &mut engine, POSTED, number, &NoGate));
    expect_replay(rt, &mut engine, &[0, 3, 1, 2], THIRD);
    drop(engine);
}

#[test]
fn forces(rt: HostRuntime) {
    for number in NUMBERS {
        expect_forces(&rt, number);
    }
}
