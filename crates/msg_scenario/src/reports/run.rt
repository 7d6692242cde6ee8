// The report of a scenario: frame by frame, and then the readers.
ghost use Rattle.std.specs.Prelude.{◌+◌, ◌<◌, ℤ, All, OnErr, OnOk, length};
ghost use Rattle.msg_exec.specs.declared.engine.EngineOf.{EngineOf as EngineView};
ghost use Rattle.msg_exec.specs.Prelude.{EngineStands};
ghost use Rattle.msg_scenario.specs.Prelude.{LeavesEngine, LeavesReport};
ghost use Rattle.msg_reading.specs.Prelude.{PostsAreToTypes, state_of};
ghost use Rattle.msg_scenario.specs.{inner.LineStarts.AreLines, inner.SoFar.IsAfter, inner.SoFar.ReportSoFar};

use crate::reports::accounts::{Readers, told_writers};
use crate::reports::lines::make_lines;
use crate::reports::put::{Reporter, put_accounts, put_frame};
use msg_exec::{EngineOf, Gate, Workers};
use msg_json::{ReportFault, Sink};
use msg_reading::Scenario;
use msg_system::SystemOf;
use std::thread::Threads;

/// Runs the next frame of a scenario, and puts its text.
fn report_frame<R: Threads + Sync, X: SystemOf<Value = i64> + Send, S: Sink, G: Gate>(
    rt: &R,
    engine: &mut EngineOf<X>,
    reporter: &mut Reporter,
    workers: Workers,
    gate: &G,
    sink: &mut S,
) -> Result<(), ReportFault>
    requires so_far { (old : S) × (first : EngineView X ℤ) × ReportSoFar S.contents S.failures
        X.meaning reporter.old.scenario.now first reporter.old.reported old sink.old engine.old }
    requires lines { AreLines reporter.old.scenario.now reporter.old.lines.items }
    requires next { reporter.old.reported < length reporter.old.scenario.now.frames }
    requires posts { All (PostsAreToTypes reporter.old.scenario.now)
        reporter.old.scenario.now.frames }
    ensures goes_on { OnOk result
        (IsAfter (reporter.old.reported + 1) reporter.old reporter.new) }
    ensures ok { OnOk result ((old : S) (first : EngineView X ℤ)
        → ReportSoFar S.contents S.failures
        X.meaning reporter.old.scenario.now first reporter.old.reported old sink.old engine.old
        → ReportSoFar S.contents S.failures
        X.meaning reporter.old.scenario.now first (reporter.old.reported + 1) old sink.new
        engine.new) }
    ensures leaves { OnErr result ((old : S) (first : EngineView X ℤ)
        → ReportSoFar S.contents S.failures
        X.meaning reporter.old.scenario.now first reporter.old.reported old sink.old engine.old
        → (left : LeavesReport S.contents S.failures
        reporter.old.readers reporter.old.scenario.now result old sink.new)
        × LeavesEngine X.meaning left first engine.new) }
{
    let scenario = reporter.scenario;
    let frame = &scenario.frames.as_slice()[reporter.reported];
    let log = match engine.run_frame(rt, frame, workers, gate) {
        Ok(log) => log,
        Err(fault) => return Err(ReportFault::Run(fault)),
    };
    let number = reporter.reported as u64 + 1;
    put_frame(reporter, number, frame, &log, sink)?;
    reporter.reported += 1;
    engine.recycle(log);
    Ok(())
}

/// A scenario, and how its readers are told.
#[derive(Clone, Copy)]
pub struct Told<'a> {
    pub scenario: &'a Scenario,
    pub readers: Readers,
}

/// Runs the frames of a scenario, and puts the text of each before it runs the next; and then a
/// line for each reader. The engine is one of the scenario, which has run no frame.
///
/// # Errors
///
/// `Run` if a frame or the accounts had no memory, `Write` if the sink failed, and `NoMemory`
/// if a text had none: that of a frame or of the readers, or what is made once for all frames.
pub fn report<R: Threads + Sync + AllocGlobal, X: SystemOf<Value = i64> + Send, S: Sink, G: Gate>(
    rt: &R,
    engine: &mut EngineOf<X>,
    scenario: &Scenario,
    workers: Workers,
    gate: &G,
    sink: &mut S,
) -> Result<(), ReportFault>
    requires engine { EngineStands X.meaning engine.old (state_of scenario.now) }
    requires posts { All (PostsAreToTypes scenario.now) scenario.now.frames }

    // Whatever the workers and the gate: the text is that of one thread, and each reader was given
    // every message once.
    ensures leaves { (left : LeavesReport S.contents S.failures
        Readers.Plain scenario.now result sink.old sink.new)
        × LeavesEngine X.meaning left engine.old engine.new }
{
    let readers = Readers::Plain;
    report_with(rt, engine, Told { scenario, readers }, workers, gate, sink)
}

/// The same, with the readers told as is asked for.
pub(crate) fn report_with<
    R: Threads + Sync + AllocGlobal,
    X: SystemOf<Value = i64> + Send,
    S: Sink,
    G: Gate,
>(
    rt: &R,
    engine: &mut EngineOf<X>,
    told: Told<'_>,
    workers: Workers,
    gate: &G,
    sink: &mut S,
) -> Result<(), ReportFault>
    requires engine { EngineStands X.meaning engine.old (state_of told.scenario.now) }
    requires posts { All (PostsAreToTypes told.scenario.now) told.scenario.now.frames }
    ensures leaves { (left : LeavesReport S.contents S.failures
        told.entry.readers told.entry.scenario.now result sink.old sink.new)
        × LeavesEngine X.meaning left engine.old engine.new }
{
    let Told { scenario, readers } = told;
    let lines = make_lines(rt.alloc(), scenario)?;
    let mut reporter = Reporter {
        scenario,
        readers,
        lines,
        reported: 0,
        text: Vec::new(rt.alloc()),
    };
    for _ in scenario.frames.as_slice() {
        report_frame(rt, engine, &mut reporter, workers, gate, sink)?;
    }
    let accounts = match engine.accounts() {
        Ok(accounts) => accounts,
        Err(fault) => return Err(ReportFault::Run(fault)),
    };
    let writers = match told_writers(rt.alloc(), engine, readers) {
        Ok(writers) => writers,
        Err(fault) => return Err(ReportFault::Run(fault)),
    };
    put_accounts(
        &mut reporter,
        engine,
        accounts.as_slice(),
        writers.as_slice(),
        sink,
    )
}
