// A scenario that is being served.
ghost use Rattle.std.specs.Prelude.{◌≡◌, ◌≢◌, IfErr, OnOk};
ghost use Rattle.msg_world.specs.Prelude.{i64_values};
ghost use Rattle.msg_exec.specs.Prelude.{EngineStands, PostsFit};
ghost use Rattle.msg_frames.specs.Prelude.{State};
ghost use Rattle.msg_log_json.specs.Prelude.{IsPlain, frame_line, not_json_line, refused_line, too_long_line};
ghost use Rattle.msg_json.specs.Prelude.{IsPut, Text};
ghost use Rattle.msg_serve.specs.{Served.after_request, Served.number_of, Requests.readers, Requests.run, inner.Answering.Answers, inner.Answering.IsWantOfMemory, inner.Answering.Serves};

use crate::limits::MAX_LINE;
use msg_exec::{EngineOf, Frame, Log, NoGate, Workers};
use msg_json::{Fault, Reason, ReportFault, Sink, put_text};
use msg_log_json::{
    add_frame_line, add_not_json_line, add_readers_line, add_refused_line, add_too_long_line,
};
use msg_reading::Scenario;
use msg_system::SystemOf;
use serde_json::Value;
use std::thread::Threads;

/// A scenario that is being served: its engine, and room in which each answer is made.
#[derive(Drop)]
pub struct Server<'a, X> {
    pub scenario: &'a Scenario,
    pub engine: EngineOf<X>,
    pub text: Vec<u8>,
}

/// Runs the next frame, and makes its line.
pub fn run_frame<R: Threads + Sync, X: SystemOf<Value = i64> + Send>(
    rt: &R,
    server: &mut Server<X>,
    frame: &Frame,
    workers: Workers,
) -> Result<(), ReportFault>
    requires serves { Serves X.meaning server.old }
    requires posts { PostsFit server.old.engine frame.now }
    ensures same { server.new.scenario ≡ server.old.scenario }
    ensures answers { OnOk result (Answers X.meaning (run frame.now) server.old server.new) }
    ensures memory { IfErr result IsWantOfMemory }
{
    let log = match server.engine.run_frame(rt, frame, workers, &NoGate) {
        Ok(log) => log,
        Err(fault) => return Err(ReportFault::Run(fault)),
    };
    tell_frame(server, frame, &log)?;
    server.engine.recycle(log);
    Ok(())
}

/// Makes the line of a frame that was run, and had this log.
fn tell_frame<X: SystemOf<Value = i64>>(
    server: &mut Server<X>,
    frame: &Frame,
    log: &Log,
) -> Result<(), ReportFault>
    requires serves { Serves X.meaning server.old }
    ensures same { server.new.scenario ≡ server.old.scenario }
    ensures engine { server.new.engine ≡ server.old.engine }
    ensures memory { IfErr result IsWantOfMemory }
    ensures line { OnOk result
        ((now : State i64_values) → EngineStands X.meaning server.old.engine now
        → server.new.text.items ≡ frame_line server.old.scenario.now (number_of now) frame.now
        log.now now.world) }
{
    server.text.clear();
    let number = server.engine.frames_run();
    let Some(world) = server.engine.world() else {
        unreachable!()
    };
    Ok(add_frame_line(
        &mut server.text,
        server.scenario,
        u64::from(number),
        frame,
        log,
        world,
    )?)
}

/// Runs the next frame, and says nothing of it.
pub fn pass_frame<R: Threads + Sync, X: SystemOf<Value = i64> + Send>(
    rt: &R,
    server: &mut Server<X>,
    frame: &Frame,
    workers: Workers,
) -> Result<(), ReportFault>
    requires serves { Serves X.meaning server.old }
    requires posts { PostsFit server.old.engine frame.now }
    ensures same { server.new.scenario ≡ server.old.scenario }
    ensures stands { OnOk result
        ((now : State i64_values) → EngineStands X.meaning server.old.engine now
        → EngineStands X.meaning server.new.engine (after_request (run frame.now) now)) }
    ensures memory { IfErr result IsWantOfMemory }
{
    match server.engine.run_frame(rt, frame, workers, &NoGate) {
        Ok(log) => {
            server.engine.recycle(log);
            Ok(())
        }
        Err(fault) => Err(ReportFault::Run(fault)),
    }
}

/// Makes the line of the readers.
pub fn tell_readers<X: SystemOf<Value = i64>>(server: &mut Server<X>) -> Result<(), ReportFault>
    requires serves { Serves X.meaning server.old }
    ensures same { server.new.scenario ≡ server.old.scenario }
    ensures answers { OnOk result (Answers X.meaning readers server.old server.new) }
    ensures memory { IfErr result IsWantOfMemory }
{
    server.text.clear();
    let accounts = match server.engine.accounts() {
        Ok(accounts) => accounts,
        Err(fault) => return Err(ReportFault::Run(fault)),
    };
    let writers = match server.engine.writer_accounts() {
        Ok(writers) => writers,
        Err(fault) => return Err(ReportFault::Run(fault)),
    };
    let Some(world) = server.engine.world() else {
        unreachable!()
    };
    Ok(add_readers_line(
        &mut server.text,
        server.scenario,
        accounts.as_slice(),
        writers.as_slice(),
        world,
    )?)
}

/// Makes the line of a text of too many bytes.
pub fn tell_too_long<X>(server: &mut Server<X>) -> Result<(), ReportFault>
    ensures same { server.new.scenario ≡ server.old.scenario }
    ensures engine { server.new.engine ≡ server.old.engine }
    ensures line { OnOk result (server.new.text.items ≡ too_long_line MAX_LINE) }
    ensures memory { IfErr result IsWantOfMemory }
{
    server.text.clear();
    Ok(add_too_long_line(&mut server.text, MAX_LINE)?)
}

/// Makes the line of a text that is no JSON, and can be read up to this column.
pub fn tell_not_json<X>(server: &mut Server<X>, column: usize) -> Result<(), ReportFault>
    ensures same { server.new.scenario ≡ server.old.scenario }
    ensures engine { server.new.engine ≡ server.old.engine }
    ensures line { OnOk result (server.new.text.items ≡ not_json_line column) }
    ensures memory { IfErr result IsWantOfMemory }
{
    server.text.clear();
    Ok(add_not_json_line(&mut server.text, column)?)
}

/// Makes the line of a value that is refused for a fault; that there is no memory is no refusal.
pub fn tell_refused<X>(
    server: &mut Server<X>,
    fault: &Fault,
    value: &Value,
) -> Result<(), ReportFault>
    ensures same { server.new.scenario ≡ server.old.scenario }
    ensures engine { server.new.engine ≡ server.old.engine }
    ensures line { OnOk result ((why : Text) × IsPlain why
        × (server.new.text.items ≡ refused_line fault.now why)) }
    ensures refused { OnOk result (fault.now.reason ≢ Reason.NoMemory) }
    ensures memory { IfErr result IsWantOfMemory }
{
    if matches!(fault.reason, Reason::NoMemory) {
        return Err(ReportFault::NoMemory);
    }
    server.text.clear();
    Ok(add_refused_line(&mut server.text, server.scenario, fault, value)?)
}

/// Puts the answer that was made.
pub fn put_answer<X, S: Sink>(server: &Server<X>, sink: &mut S) -> Result<(), ReportFault>
    ensures put { IsPut S.contents S.failures server.now.text.items result sink.old sink.new }
    ensures only_write { IfErr result (λ fault. fault ≡ ReportFault.Write) }
{
    put_text(server.text.as_slice(), sink)
}
