// Parts of a report, made in memory and put into a sink.
ghost use Rattle.std.specs.Prelude.{◌++◌, ◌≡◌, ◌≢◌, ◌⊎◌, [], Err, IfErr};
ghost use Rattle.msg_scenario.specs.Prelude.{accounts_text, frame_text, writers_text};
ghost use Rattle.msg_scenario.specs.{inner.LineStarts.AreLines, inner.SoFar.IsAfter};
ghost use Rattle.msg_json.specs.Prelude.{IsPut};
ghost use Rattle.msg_frames.specs.Prelude.{State};
ghost use Rattle.msg_exec.specs.Prelude.{EngineStands};
ghost use Rattle.msg_world.specs.Prelude.{i64_values};

use crate::reports::accounts::{Readers, add_accounts, add_writers};
use crate::reports::frame::add_frame;
use crate::reports::lines::SystemLines;
use msg_exec::{Account, EngineOf, Frame, Log, WriterAccount};
use msg_json::{ReportFault, Sink, put_text};
use msg_reading::Scenario;
use msg_system::SystemOf;

/// A report that is being made: of which scenario, how its readers are told, what the lines of its
/// turns begin with, how many frames have been reported, and room in which the text of each part is
/// made.
#[derive(Drop)]
pub struct Reporter<'a> {
    pub scenario: &'a Scenario,
    pub readers: Readers,
    pub lines: Vec<SystemLines>,
    pub reported: usize,
    pub text: Vec<u8>,
}

/// Puts the text of a frame that had this log; it is made in `text` first.
pub fn put_frame<S: Sink>(
    reporter: &mut Reporter,
    number: u64,
    frame: &Frame,
    log: &Log,
    sink: &mut S,
) -> Result<(), ReportFault>
    requires lines { AreLines reporter.old.scenario.now reporter.old.lines.items }
    ensures same { IsAfter reporter.old.reported reporter.old reporter.new }
    ensures put { IsPut S.contents S.failures
        (frame_text reporter.old.scenario.now number frame.now log.now)
        result sink.old sink.new }
    ensures faults { IfErr result
        (λ fault. (fault ≡ ReportFault.Write) ⊎ (fault ≡ ReportFault.NoMemory)) }
{
    let lines = reporter.lines.as_slice();
    reporter.text.clear();
    add_frame(
        &mut reporter.text,
        reporter.scenario,
        lines,
        number,
        frame,
        log,
    )?;
    put_text(reporter.text.as_slice(), sink)
}

/// Puts a line for each reader and each of these writers; they are made in `text` first.
pub fn put_accounts<X: SystemOf<Value = i64>, S: Sink>(
    reporter: &mut Reporter,
    engine: &EngineOf<X>,
    accounts: &[Account],
    writers: &[WriterAccount],
    sink: &mut S,
) -> Result<(), ReportFault>
    ensures put { (state : State i64_values) → EngineStands X.meaning engine.now state
        → IsPut S.contents S.failures
        (accounts_text reporter.old.scenario.now reporter.old.readers state accounts.now
        ++ writers_text reporter.old.scenario.now writers.now)
        result sink.old sink.new }
    ensures faults { IfErr result
        (λ fault. (fault ≡ ReportFault.Write) ⊎ (fault ≡ ReportFault.NoMemory)) }
    ensures no_memory { accounts.now ≡ [] → writers.now ≡ [] → result ≢ Err ReportFault.NoMemory }
{
    let (scenario, readers) = (reporter.scenario, reporter.readers);
    reporter.text.clear();
    add_accounts(&mut reporter.text, scenario, engine, readers, accounts)?;
    add_writers(&mut reporter.text, scenario, writers)?;
    put_text(reporter.text.as_slice(), sink)
}
