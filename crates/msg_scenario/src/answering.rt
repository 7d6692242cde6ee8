// From the bytes of a file to what a sink takes.
ghost use Rattle.std.specs.Prelude.{◌≡◌, ◌<◌, ◌⊎◌, [], Err, OnOk};
ghost use Rattle.std.specs.Io.KnownBytes.{Appends};
ghost use Rattle.msg_json.specs.Prelude.{AppendsAtLeast, one_failure_more};
ghost use Rattle.msg_json.specs.declared.report_fault.ReportFault.{ReportFault as FaultView};
ghost use Rattle.msg_json.specs.declared.refusal.Refusal.{Refusal as RefusalView};
ghost use Rattle.msg_calls.specs.Prelude.{TakesFirstLines, calls_text, file_of};
ghost use Rattle.msg_reading.specs.Prelude.{HasFault};
ghost use Rattle.msg_scenario.specs.Prelude.{IsReported, LeavesReport};
ghost use Rattle.msg_scenario.specs.FromBytes.{AreOfCalls, EndsText, IsOfScenario, IsRefusedFile};

use crate::reports::{Told, report_with};
use crate::{AnswerFault, Readers, engine_of, systems_of};
use msg_advice::{Form, put_plan};
use msg_calls::{read_calls, run_calls};
use msg_exec::{NoGate, Workers};
use msg_json::{ReportFault, Sink};
use msg_reading::read_scenario;
use std::alloc::Global;
use std::thread::Threads;

/// Answers the calls of a calls file, a line for each.
///
/// # Errors
///
/// `Refused` if the bytes are no calls file, and then the sink is as it was; `Report` if the sink
/// failed, or if there was no memory for a call or a line.
pub fn answer_bytes<S: Sink>(alloc: Global, bytes: &[u8], sink: &mut S) -> Result<(), AnswerFault>
    ensures ok { OnOk result (AreOfCalls bytes.now (λ calls.
        Appends (S.contents sink.old) (S.contents sink.new) (calls_text calls))) }
    ensures quiet { OnOk result (S.failures sink.new ≡ S.failures sink.old) }
    ensures report { (fault : FaultView) → result ≡ Err (AnswerFault.Report fault)
        → AreOfCalls bytes.now (λ calls.
        EndsText S.contents S.failures (calls_text calls) fault sink.old sink.new) }

    // If there was no memory for a call, the lines of those before it were put.
    ensures lines { result ≡ Err (AnswerFault.Report ReportFault.NoMemory)
        → AreOfCalls bytes.now (λ calls.
        TakesFirstLines (S.contents sink.old) (S.contents sink.new) calls) }
    ensures refused { (why : RefusalView) → result ≡ Err (AnswerFault.Refused why)
        → IsRefusedFile (λ d e. file_of d ≡ Err e) bytes.now why }
    ensures unread { (why : RefusalView) → result ≡ Err (AnswerFault.Refused why)
        → sink.new ≡ sink.old }

    // An answer needs no engine, and no input of lines.
    ensures no_engine { ¬ (result ≡ Err AnswerFault.NoMemory) }
    ensures no_input { ¬ (result ≡ Err AnswerFault.Input) }
{
    let calls = read_calls(alloc, bytes)?;
    Ok(run_calls(alloc, &calls, sink)?)
}

/// Runs the scenario of a scenario file, and reports it. The text is a function of the bytes,
/// whatever the workers: a file has one report (`laws::each_file_has_one_report`).
///
/// ```
/// let mut sink = MemorySink::new();
/// report_bytes(&rt, file.as_bytes(), workers, &mut sink)?;
/// ```
///
/// # Errors
///
/// `Refused` if the bytes are no scenario file, `NoMemory` if there was no engine, and then the
/// sink is as it was; `Report` with the fault of the report.
pub fn report_bytes<R: Threads + Sync + AllocGlobal, S: Sink>(
    rt: &R,
    bytes: &[u8],
    workers: Workers,
    sink: &mut S,
) -> Result<(), AnswerFault>

    // Whatever the workers: the report is that of one thread.
    ensures ok { OnOk result (IsOfScenario bytes.now (λ scenario.
        IsReported Readers.Plain scenario (S.contents sink.old) (S.contents sink.new))) }
    ensures quiet { OnOk result (S.failures sink.new ≡ S.failures sink.old) }
    ensures report { (fault : FaultView) → result ≡ Err (AnswerFault.Report fault)
        → IsOfScenario bytes.now (λ scenario.
        LeavesReport S.contents S.failures Readers.Plain scenario (Err fault) sink.old sink.new) }
    ensures refused { (why : RefusalView) → result ≡ Err (AnswerFault.Refused why)
        → IsRefusedFile HasFault bytes.now why }
    ensures unread { (why : RefusalView) → result ≡ Err (AnswerFault.Refused why)
        → sink.new ≡ sink.old }
    ensures no_engine { result ≡ Err AnswerFault.NoMemory
        → IsOfScenario bytes.now (λ scenario. sink.new ≡ sink.old) }
    ensures no_input { ¬ (result ≡ Err AnswerFault.Input) }
{
    report_bytes_with(rt, bytes, Readers::Plain, workers, sink)
}

/// As `report_bytes`, with the readers told as is asked for.
///
/// # Errors
///
/// As those of `report_bytes`.
pub fn report_bytes_with<R: Threads + Sync + AllocGlobal, S: Sink>(
    rt: &R,
    bytes: &[u8],
    readers: Readers,
    workers: Workers,
    sink: &mut S,
) -> Result<(), AnswerFault>
    ensures ok { OnOk result (IsOfScenario bytes.now (λ scenario.
        IsReported readers scenario (S.contents sink.old) (S.contents sink.new))) }
    ensures quiet { OnOk result (S.failures sink.new ≡ S.failures sink.old) }
    ensures report { (fault : FaultView) → result ≡ Err (AnswerFault.Report fault)
        → IsOfScenario bytes.now (λ scenario.
        LeavesReport S.contents S.failures readers scenario (Err fault) sink.old sink.new) }
    ensures refused { (why : RefusalView) → result ≡ Err (AnswerFault.Refused why)
        → IsRefusedFile HasFault bytes.now why }
    ensures unread { (why : RefusalView) → result ≡ Err (AnswerFault.Refused why)
        → sink.new ≡ sink.old }
    ensures no_engine { result ≡ Err AnswerFault.NoMemory
        → IsOfScenario bytes.now (λ scenario. sink.new ≡ sink.old) }
    ensures no_input { ¬ (result ≡ Err AnswerFault.Input) }
{
    let scenario = read_scenario(rt.alloc(), bytes)?;
    let systems = systems_of(rt.alloc(), &scenario)?;
    let mut engine = engine_of(rt.alloc(), &scenario, systems)?;
    let told = Told {
        scenario: &scenario,
        readers,
    };
    Ok(report_with(rt, &mut engine, told, workers, &NoGate, sink)?)
}

/// Tells the plan of a frame of a scenario file, as lines or for Graphviz. Nothing is run. Frames
/// are counted from 1; one past the last of the file has the plan that it would have.
///
/// # Errors
///
/// `Refused` if the bytes are no scenario file, and then the sink is as it was; `Report` if the
/// sink failed, or if there was no memory for the plan, and then the sink is as it was too.
pub fn plan_bytes<S: Sink>(
    alloc: Global,
    bytes: &[u8],
    frame: u32,
    form: Form,
    sink: &mut S,
) -> Result<(), AnswerFault>
    requires some { 0 < frame }
    ensures ok { OnOk result (IsOfScenario bytes.now (λ scenario.
        AppendsAtLeast (S.contents sink.old) (S.contents sink.new) [])) }
    ensures quiet { OnOk result (S.failures sink.new ≡ S.failures sink.old) }
    ensures report { (fault : FaultView) → result ≡ Err (AnswerFault.Report fault)
        → IsOfScenario bytes.now (λ scenario.
        AppendsAtLeast (S.contents sink.old) (S.contents sink.new) []
        × (((fault ≡ ReportFault.Write)
        × (S.failures sink.new ≡ one_failure_more (S.failures sink.old)))
        ⊎ ((fault ≡ ReportFault.NoMemory) × (S.failures sink.new ≡ S.failures sink.old)))) }
    ensures memory { result ≡ Err (AnswerFault.Report ReportFault.NoMemory)
        → sink.new ≡ sink.old }
    ensures refused { (why : RefusalView) → result ≡ Err (AnswerFault.Refused why)
        → IsRefusedFile HasFault bytes.now why }
    ensures unread { (why : RefusalView) → result ≡ Err (AnswerFault.Refused why)
        → sink.new ≡ sink.old }

    // A plan needs no engine, and no input of lines.
    ensures no_engine { ¬ (result ≡ Err AnswerFault.NoMemory) }
    ensures no_input { ¬ (result ≡ Err AnswerFault.Input) }
{
    let scenario = read_scenario(alloc, bytes)?;
    Ok(put_plan(alloc, &scenario, frame, form, sink)?)
}
