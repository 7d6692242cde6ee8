// Lines, each answered by a line.
ghost use Rattle.std.specs.Prelude.{◌≡◌, ◌≢◌, ◌<◌, ◌≤◌, [], ℕ, Err, IfErr, IfSome, List, Ok, OnOk, Some, false, length, true};
ghost use Rattle.std.specs.List.{AllZip};
ghost use Rattle.std.specs.Io.BufRead.{DropsThrough};
ghost use Rattle.serde_json.specs.View.{view};
ghost use Rattle.msg_world.specs.declared.run_fault.RunFault.{RunFault as RunView};
ghost use Rattle.msg_json.specs.Prelude.{one_failure_more};
ghost use Rattle.msg_json.specs.declared.report_fault.ReportFault.{ReportFault as ReportView};
ghost use Rattle.msg_exec.specs.Prelude.{EachIs, EngineStands};
ghost use Rattle.msg_serve.specs.declared.serve_fault.ServeFault.{ServeFault as FaultView};
ghost use Rattle.msg_scenario.specs.Prelude.{IsSystemAt};
ghost use Rattle.msg_reading.specs.Prelude.{IsRunnable, state_of};
ghost use Rattle.msg_serve.specs.{Lines.lines_of, Requests.AsksFor, Requests.Request as RequestView, Served.EndsServing, Served.IsAnswered, Served.TakesInLine, Served.after_own};
ghost use Rattle.msg_serve.specs.{inner.Answering.AnsweredSoFar, inner.Answering.Answers, inner.Answering.IsWantOfMemory, inner.Answering.Serves, inner.Answering.ValueAsksFor, inner.Input.IsRead, inner.Input.first_line};

use crate::ServeFault;
use crate::input::{Line, read_line};
use crate::limits::MAX_LINE;
use crate::request::{Request, read_request};
use crate::server::{
    Server, pass_frame, put_answer, run_frame, tell_not_json, tell_readers, tell_refused,
    tell_too_long,
};
use msg_exec::Workers;
use msg_json::json::parse;
use msg_json::{FileFault, ReportFault, Sink, Source};
use msg_reading::Scenario;
use msg_scenario::engine_of;
use msg_system::SystemOf;
use msg_world::RunFault;
use serde_json::Value;
use std::thread::Threads;

/// Makes the engine of a scenario of its systems, runs its frames, and then each line of the input
/// that is a frame; each line is answered by one line, which is put before the next is read. At the
/// end of the input the line of the readers is put.
///
/// # Errors
///
/// `Input` if a read of the input failed, `Report` with the fault of the engine, of a frame or of
/// an answer. Of the lines that were taken from the input then all but the last are answered; that
/// one too if the input failed, unless it was in the midst of it.
pub fn serve_scenario<
    R: Threads + Sync + AllocGlobal,
    X: SystemOf<Value = i64> + Send,
    I: Source,
    S: Sink,
>(
    rt: &R,
    scenario: &Scenario,
    systems: Vec<X>,
    workers: Workers,
    input: &mut I,
    sink: &mut S,
) -> Result<(), ServeFault>
    requires runnable { IsRunnable scenario.now }
    requires as_many { length systems.items ≡ length scenario.now.systems }
    requires each { EachIs (IsSystemAt X.meaning scenario.now.systems) systems.items }

    // Whatever the workers: the answers are those of one thread, but for the sentence and the
    // column of a refusal.
    ensures ok { OnOk result (IfSome (I.remaining input.old) (λ bytes.
        IsAnswered scenario.now bytes (S.contents sink.old) (S.contents sink.new))) }
    ensures all_read { OnOk result (IfSome (I.remaining input.old)
        (λ _. I.remaining input.new ≡ Some [])) }
    ensures quiet { OnOk result (S.failures sink.new ≡ S.failures sink.old) }
    ensures ends { (fault : FaultView) → result ≡ Err fault
        → IfSome (I.remaining input.old) (λ bytes.
        EndsServing S.contents S.failures scenario.now bytes (I.remaining input.new) fault
        sink.old sink.new) }

    // `Input` means that a read failed.
    ensures input_failed { result ≡ Err ServeFault.Input
        → I.failures input.new ≡ one_failure_more (I.failures input.old) }
    ensures input_quiet { result ≢ Err ServeFault.Input
        → I.failures input.new ≡ I.failures input.old }

    // A run fault is want of memory, in a frame or for the accounts.
    ensures run { (why : RunView) → result ≡ Err (ServeFault.Report (ReportFault.Run why))
        → why ≡ RunFault.NoMemory }
{
    let mut server = Server {
        scenario,
        engine: engine_of(rt.alloc(), scenario, systems)?,
        text: Vec::new(rt.alloc()),
    };
    let served = serve(rt, &mut server, workers, input, sink);
    drop(server);
    served
}

/// Runs the frames of the scenario, answers the lines of the input, and tells the readers.
fn serve<R: Threads + Sync + AllocGlobal, X: SystemOf<Value = i64> + Send, I: Source, S: Sink>(
    rt: &R,
    server: &mut Server<X>,
    workers: Workers,
    input: &mut I,
    sink: &mut S,
) -> Result<(), ServeFault>
    requires runnable { IsRunnable server.old.scenario.now }
    requires engine { EngineStands X.meaning server.old.engine
        (state_of server.old.scenario.now) }
    ensures ok { OnOk result (IfSome (I.remaining input.old) (λ bytes.
        IsAnswered server.old.scenario.now bytes (S.contents sink.old) (S.contents sink.new))) }
    ensures all_read { OnOk result (IfSome (I.remaining input.old)
        (λ _. I.remaining input.new ≡ Some [])) }
    ensures quiet { OnOk result (S.failures sink.new ≡ S.failures sink.old) }
    ensures ends { (fault : FaultView) → result ≡ Err fault
        → IfSome (I.remaining input.old) (λ bytes.
        EndsServing S.contents S.failures server.old.scenario.now bytes (I.remaining input.new)
        fault sink.old sink.new) }
    ensures input_failed { result ≡ Err ServeFault.Input
        → I.failures input.new ≡ one_failure_more (I.failures input.old) }
    ensures input_quiet { result ≢ Err ServeFault.Input
        → I.failures input.new ≡ I.failures input.old }
    ensures run { (why : RunView) → result ≡ Err (ServeFault.Report (ReportFault.Run why))
        → why ≡ RunFault.NoMemory }
{
    pass_frames(rt, server, workers)?;
    answer_lines(rt, server, workers, input, sink)?;
    tell_readers(server)?;
    Ok(put_answer(server, sink)?)
}

/// Runs the frames of the scenario.
fn pass_frames<R: Threads + Sync, X: SystemOf<Value = i64> + Send>(
    rt: &R,
    server: &mut Server<X>,
    workers: Workers,
) -> Result<(), ReportFault>
    requires runnable { IsRunnable server.old.scenario.now }
    requires engine { EngineStands X.meaning server.old.engine
        (state_of server.old.scenario.now) }
    ensures same { server.new.scenario ≡ server.old.scenario }
    ensures stands { OnOk result (EngineStands X.meaning server.new.engine
        (after_own server.old.scenario.now)) }
    ensures memory { IfErr result IsWantOfMemory }
{
    let scenario = server.scenario;
    for frame in scenario.frames.as_slice() {
        pass_frame(rt, server, frame, workers)?;
    }
    Ok(())
}

/// Answers each line of the input before it reads the next.
fn answer_lines<
    R: Threads + Sync + AllocGlobal,
    X: SystemOf<Value = i64> + Send,
    I: Source,
    S: Sink,
>(
    rt: &R,
    server: &mut Server<X>,
    workers: Workers,
    input: &mut I,
    sink: &mut S,
) -> Result<(), ServeFault>
    requires runnable { IsRunnable server.old.scenario.now }
    requires engine { EngineStands X.meaning server.old.engine
        (after_own server.old.scenario.now) }
    ensures same { server.new.scenario ≡ server.old.scenario }
    ensures ok { OnOk result ((requests : List RequestView)
        × AnsweredSoFar S.contents S.failures X.meaning server.old.scenario.now
        (after_own server.old.scenario.now) requests sink.old sink.new server.new.engine
        × IfSome (I.remaining input.old) (λ bytes.
        AllZip (AsksFor server.old.scenario.now) (lines_of bytes) requests)) }
    ensures all_read { OnOk result (IfSome (I.remaining input.old)
        (λ _. I.remaining input.new ≡ Some [])) }
    ensures ends { (fault : FaultView) → result ≡ Err fault
        → IfSome (I.remaining input.old) (λ bytes.
        EndsServing S.contents S.failures server.old.scenario.now bytes (I.remaining input.new)
        fault sink.old sink.new) }
    ensures input_failed { result ≡ Err ServeFault.Input
        → I.failures input.new ≡ one_failure_more (I.failures input.old) }
    ensures input_quiet { result ≢ Err ServeFault.Input
        → I.failures input.new ≡ I.failures input.old }
    ensures run { (why : RunView) → result ≡ Err (ServeFault.Report (ReportFault.Run why))
        → why ≡ RunFault.NoMemory }
{
    let mut line = Vec::new(rt.alloc());
    while answer_next(rt, server, workers, input, &mut line)? {
        put_answer(server, sink)?;
    }
    Ok(())
}

/// Makes the answer of the next line, which is read into `line`; false if there is none.
fn answer_next<R: Threads + Sync + AllocGlobal, X: SystemOf<Value = i64> + Send, I: Source>(
    rt: &R,
    server: &mut Server<X>,
    workers: Workers,
    input: &mut I,
    line: &mut Vec<u8>,
) -> Result<bool, ServeFault>
    requires serves { Serves X.meaning server.old }
    ensures same { server.new.scenario ≡ server.old.scenario }
    ensures end { result ≡ Ok false → (server.new.engine ≡ server.old.engine)
        × IfSome (I.remaining input.old) (λ bytes. bytes ≡ []) }
    ensures next { result ≡ Ok true → (request : RequestView)
        × IfSome (I.remaining input.old) (λ bytes.
        (bytes ≢ []) × AsksFor server.old.scenario.now (first_line bytes) request)
        × Answers X.meaning request server.old server.new }
    ensures rest { OnOk result (DropsThrough (I.remaining input.old) (I.remaining input.new) 10) }
    ensures begun { (fault : FaultView) → result ≡ Err fault
        → IfSome (I.remaining input.old) (λ bytes.
        TakesInLine bytes (I.remaining input.new) fault) }
    ensures input_failed { result ≡ Err ServeFault.Input
        → I.failures input.new ≡ one_failure_more (I.failures input.old) }
    ensures input_quiet { result ≢ Err ServeFault.Input
        → I.failures input.new ≡ I.failures input.old }
    ensures fewer { OnOk result (I.reads_left input.new < I.reads_left input.old) }
    ensures memory { (fault : ReportView) → result ≡ Err (ServeFault.Report fault)
        → IsWantOfMemory fault }
{
    let read = read_line(input, line)?;
    if read == Line::End {
        return Ok(false);
    }
    answer_read(rt, server, read, line.as_slice(), workers)?;
    Ok(true)
}

/// Makes the answer of a line that was read, or was too long for that.
fn answer_read<R: Threads + Sync + AllocGlobal, X: SystemOf<Value = i64> + Send>(
    rt: &R,
    server: &mut Server<X>,
    read: Line,
    line: &[u8],
    workers: Workers,
) -> Result<(), ReportFault>
    requires serves { Serves X.meaning server.old }
    requires some { read ≢ Line.End }
    requires short { length line.now ≤ MAX_LINE }
    ensures same { server.new.scenario ≡ server.old.scenario }
    ensures answers { OnOk result ((request : RequestView)
        × ((bytes : List ℕ) → IsRead read bytes line.now
        → AsksFor server.old.scenario.now (first_line bytes) request)
        × Answers X.meaning request server.old server.new) }
    ensures memory { IfErr result IsWantOfMemory }
{
    match read {
        Line::Whole => answer_line(rt, server, line, workers),
        Line::TooLong => tell_too_long(server),
        Line::End => unreachable!(),
    }
}

/// Makes the answer of a line.
fn answer_line<R: Threads + Sync + AllocGlobal, X: SystemOf<Value = i64> + Send>(
    rt: &R,
    server: &mut Server<X>,
    line: &[u8],
    workers: Workers,
) -> Result<(), ReportFault>
    requires serves { Serves X.meaning server.old }
    requires short { length line.now ≤ MAX_LINE }
    ensures same { server.new.scenario ≡ server.old.scenario }
    ensures answers { OnOk result ((request : RequestView)
        × AsksFor server.old.scenario.now line.now request
        × Answers X.meaning request server.old server.new) }
    ensures memory { IfErr result IsWantOfMemory }
{
    match parse(rt.alloc(), line) {
        Ok(value) => answer_value(rt, server, &value, workers),
        Err(FileFault::NotJson { column, .. }) => tell_not_json(server, column),
        Err(FileFault::At(_)) => Err(ReportFault::NoMemory),
    }
}

/// Makes the answer of the value of a line.
fn answer_value<R: Threads + Sync + AllocGlobal, X: SystemOf<Value = i64> + Send>(
    rt: &R,
    server: &mut Server<X>,
    value: &Value,
    workers: Workers,
) -> Result<(), ReportFault>
    requires serves { Serves X.meaning server.old }
    ensures same { server.new.scenario ≡ server.old.scenario }
    ensures answers { OnOk result ((request : RequestView)
        × ValueAsksFor server.old.scenario.now (view value.now) request
        × Answers X.meaning request server.old server.new) }
    ensures memory { IfErr result IsWantOfMemory }
{
    match read_request(rt.alloc(), server.scenario, value) {
        Ok(Request::Frame(frame)) => run_frame(rt, server, &frame, workers),
        Ok(Request::Readers) => tell_readers(server),
        Err(fault) => tell_refused(server, &fault, value),
    }
}
