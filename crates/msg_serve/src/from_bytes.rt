// From the bytes of a file, and lines after it, to what a sink takes.
ghost use Rattle.std.specs.Prelude.{◌≡◌, ◌≢◌, [], Err, IfSome, OnOk, Some};
ghost use Rattle.msg_world.specs.declared.run_fault.RunFault.{RunFault as RunView};
ghost use Rattle.msg_json.specs.Prelude.{one_failure_more};
ghost use Rattle.msg_json.specs.declared.report_fault.ReportFault.{ReportFault as FaultView};
ghost use Rattle.msg_json.specs.declared.refusal.Refusal.{Refusal as RefusalView};
ghost use Rattle.msg_reading.specs.Prelude.{HasFault, IsRunnable};
ghost use Rattle.msg_serve.specs.Prelude.{EndsServing, EndsTrace, IsAnswered, IsTraced};
ghost use Rattle.msg_serve.specs.declared.serve_fault.ServeFault.{ServeFault as ServeView};
ghost use Rattle.msg_scenario.specs.FromBytes.{IsOfScenario, IsRefusedFile};

use crate::serve_fault::ServeFault;
use crate::serving::serve_scenario;
use crate::tracing::trace_scenario;
use msg_exec::Workers;
use msg_json::{ReportFault, Sink, Source};
use msg_reading::{Scenario, read_scenario};
use msg_scenario::{AnswerFault, systems_of};
use msg_world::RunFault;
use std::thread::Threads;

/// Makes the systems of a scenario, and serves the scenario by them.
fn serve_systems<R: Threads + Sync + AllocGlobal, I: Source, S: Sink>(
    rt: &R,
    scenario: &Scenario,
    workers: Workers,
    input: &mut I,
    sink: &mut S,
) -> Result<(), ServeFault>
    requires runnable { IsRunnable scenario.now }
    ensures ok { OnOk result (IfSome (I.remaining input.old) (λ lines.
        IsAnswered scenario.now lines (S.contents sink.old) (S.contents sink.new))) }
    ensures all_read { OnOk result (IfSome (I.remaining input.old)
        (λ _. I.remaining input.new ≡ Some [])) }
    ensures quiet { OnOk result (S.failures sink.new ≡ S.failures sink.old) }
    ensures ends { (fault : ServeView) → result ≡ Err fault
        → IfSome (I.remaining input.old) (λ lines.
        EndsServing S.contents S.failures scenario.now lines (I.remaining input.new) fault
        sink.old sink.new) }
    ensures input_failed { result ≡ Err ServeFault.Input
        → I.failures input.new ≡ one_failure_more (I.failures input.old) }
    ensures input_quiet { result ≢ Err ServeFault.Input
        → I.failures input.new ≡ I.failures input.old }
    ensures run { (why : RunView) → result ≡ Err (ServeFault.Report (ReportFault.Run why))
        → why ≡ RunFault.NoMemory }
{
    let systems = systems_of(rt.alloc(), scenario)?;
    serve_scenario(rt, scenario, systems, workers, input, sink)
}

/// Runs the frames of a scenario file, and then a frame for each line of the input that is a list
/// of posts; each line is answered by a line of JSON, before the next is read.
///
/// # Errors
///
/// `Refused` if the bytes are no scenario file, and then the input and the sink are as they were;
/// `Input` if a read of the input failed; `Report` with the fault of the engine, of a frame or of
/// an answer. Of the lines that were taken from the input then all but the last are answered; that
/// one too if the input failed, unless it was in the midst of it.
pub fn serve_bytes<R: Threads + Sync + AllocGlobal, I: Source, S: Sink>(
    rt: &R,
    bytes: &[u8],
    workers: Workers,
    input: &mut I,
    sink: &mut S,
) -> Result<(), AnswerFault>

    // Whatever the workers: the answers are those of one thread, but for the sentence and the
    // column of a refusal.
    ensures ok { OnOk result (IsOfScenario bytes.now (λ scenario.
        IfSome (I.remaining input.old) (λ lines.
        IsAnswered scenario lines (S.contents sink.old) (S.contents sink.new)))) }
    ensures all_read { OnOk result (IfSome (I.remaining input.old)
        (λ _. I.remaining input.new ≡ Some [])) }
    ensures quiet { OnOk result (S.failures sink.new ≡ S.failures sink.old) }
    ensures report { (fault : FaultView) → result ≡ Err (AnswerFault.Report fault)
        → IsOfScenario bytes.now (λ scenario. IfSome (I.remaining input.old) (λ lines.
        EndsServing S.contents S.failures scenario lines (I.remaining input.new)
        (ServeFault.Report fault) sink.old sink.new)) }

    // A run fault is want of memory, in a frame or for the accounts.
    ensures run { (why : RunView) → result ≡ Err (AnswerFault.Report (ReportFault.Run why))
        → why ≡ RunFault.NoMemory }

    ensures input { result ≡ Err AnswerFault.Input
        → IsOfScenario bytes.now (λ scenario. IfSome (I.remaining input.old) (λ lines.
        EndsServing S.contents S.failures scenario lines (I.remaining input.new)
        ServeFault.Input sink.old sink.new)) }

    // `Input` means that a read failed.
    ensures input_failed { result ≡ Err AnswerFault.Input
        → I.failures input.new ≡ one_failure_more (I.failures input.old) }
    ensures input_quiet { result ≢ Err AnswerFault.Input
        → I.failures input.new ≡ I.failures input.old }

    ensures refused { (why : RefusalView) → result ≡ Err (AnswerFault.Refused why)
        → IsRefusedFile HasFault bytes.now why }
    ensures unread { (why : RefusalView) → result ≡ Err (AnswerFault.Refused why)
        → (input.new ≡ input.old) × (sink.new ≡ sink.old) }
    ensures no_engine { ¬ (result ≡ Err AnswerFault.NoMemory) }
{
    let scenario = read_scenario(rt.alloc(), bytes)?;
    let came = serve_systems(rt, &scenario, workers, input, sink);
    drop(scenario);
    Ok(came?)
}

/// Makes the systems of a scenario, and traces the scenario by them.
fn trace_systems<R: Threads + Sync + AllocGlobal, S: Sink>(
    rt: &R,
    scenario: &Scenario,
    workers: Workers,
    sink: &mut S,
) -> Result<(), ReportFault>
    requires runnable { IsRunnable scenario.now }
    ensures ok { OnOk result
        (IsTraced scenario.now (S.contents sink.old) (S.contents sink.new)) }
    ensures quiet { OnOk result (S.failures sink.new ≡ S.failures sink.old) }
    ensures ends { (fault : FaultView) → result ≡ Err fault
        → EndsTrace S.contents S.failures scenario.now fault sink.old sink.new }
    ensures run { (why : RunView) → result ≡ Err (ReportFault.Run why)
        → why ≡ RunFault.NoMemory }
{
    let systems = systems_of(rt.alloc(), scenario)?;
    trace_scenario(rt, scenario, systems, workers, sink)
}

/// Runs the scenario of a scenario file, and tells each frame by a line of JSON, and the readers.
///
/// # Errors
///
/// `Refused` if the bytes are no scenario file, and then the sink is as it was; `Report` with the
/// fault of the engine, of a frame or of a line.
pub fn trace_bytes<R: Threads + Sync + AllocGlobal, S: Sink>(
    rt: &R,
    bytes: &[u8],
    workers: Workers,
    sink: &mut S,
) -> Result<(), AnswerFault>

    // Whatever the workers: the lines are those of one thread.
    ensures ok { OnOk result (IsOfScenario bytes.now (λ scenario.
        IsTraced scenario (S.contents sink.old) (S.contents sink.new))) }
    ensures quiet { OnOk result (S.failures sink.new ≡ S.failures sink.old) }
    ensures report { (fault : FaultView) → result ≡ Err (AnswerFault.Report fault)
        → IsOfScenario bytes.now (λ scenario.
        EndsTrace S.contents S.failures scenario fault sink.old sink.new) }

    // A run fault is want of memory, in a frame or for the accounts.
    ensures run { (why : RunView) → result ≡ Err (AnswerFault.Report (ReportFault.Run why))
        → why ≡ RunFault.NoMemory }

    ensures refused { (why : RefusalView) → result ≡ Err (AnswerFault.Refused why)
        → IsRefusedFile HasFault bytes.now why }
    ensures unread { (why : RefusalView) → result ≡ Err (AnswerFault.Refused why)
        → sink.new ≡ sink.old }

    // There is one fault for want of memory, and no input.
    ensures no_engine { ¬ (result ≡ Err AnswerFault.NoMemory) }
    ensures no_input { ¬ (result ≡ Err AnswerFault.Input) }
{
    let scenario = read_scenario(rt.alloc(), bytes)?;
    let came = trace_systems(rt, &scenario, workers, sink);
    drop(scenario);
    Ok(came?)
}
