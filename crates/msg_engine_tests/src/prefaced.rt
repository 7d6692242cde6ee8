// Engines of scripts before whose runs something is done.
ghost use Rattle.msg_exec.specs.Prelude.{IsEngine};
ghost use Rattle.msg_world.specs.Prelude.{i64_values};

use crate::making::{Act, acting, add, engine_over, reader};
use msg_exec::{EngineBuilder, EngineOf};
use msg_part_tests::prefaced::{Before, Prefaced};
use msg_system::{Start, SystemOf};
use std::alloc::Global;
use std::panic::Expect;
use std::process::Abort;
use std::sync::Arc;
use std::sync::atomic::AtomicU64;

/// A number that systems share, 0 at first.
pub fn shared_number(rt: &impl Abort, alloc: Global) -> Arc<AtomicU64> {
    Arc::new(alloc, AtomicU64::new(0)).expect(rt, "a number")
}

/// An engine of readers of one type. Of each it says what is done before its runs.
pub fn prefaced_readers(rt: &impl Abort, alloc: Global, all: Vec<Before>) -> EngineOf<Prefaced>
    ensures engine { IsEngine i64_values ⟦<Prefaced as SystemOf>⟧.meaning result }
{
    let mut systems = EngineBuilder::new(alloc);
    for before in all {
        let script = reader(rt, alloc, Start::Zero);
        let reader = Prefaced { script, before };
        add(rt, &mut systems, reader, Vec::new(alloc), 1);
    }
    engine_over(rt, alloc, systems, &[10], &[])
}

/// That `number` systems count their runs.
pub fn add_counts(rt: &impl Abort, all: &mut Vec<Before>, number: u32, runs: &Arc<AtomicU64>) {
    for _system in 0..number {
        let runs = Arc::try_clone(runs).expect(rt, "a count");
        all.push(Before::Count(runs)).expect(rt, "a list");
    }
}

/// A script of this act that notes its runs by this digit.
fn noting(
    rt: &impl Abort,
    alloc: Global,
    (act, start_at): (Act, Start),
    digit: u64,
    noted: &Arc<AtomicU64>,
) -> Prefaced {
    let noted = Arc::try_clone(noted).expect(rt, "a number");
    Prefaced {
        script: acting(rt, alloc, act, start_at),
        before: Before::Note { digit, noted },
    }
}

/// An engine of noting scripts that join with this frame, each with one act, over a world of one
/// type. System i notes i + 1, if there are at most nine.
pub fn noting_engine(
    rt: &impl Abort,
    alloc: Global,
    join: u32,
    acts: &[(Act, Start)],
    noted: &Arc<AtomicU64>,
) -> EngineOf<Prefaced>
    ensures engine { IsEngine i64_values ⟦<Prefaced as SystemOf>⟧.meaning result }
{
    let mut systems = EngineBuilder::new(alloc);
    let mut digit = 0;
    for act in acts {
        digit = digit % 9 + 1;
        let noting = noting(rt, alloc, *act, digit, noted);
        add(rt, &mut systems, noting, Vec::new(alloc), join);
    }
    engine_over(rt, alloc, systems, &[10], &[])
}
