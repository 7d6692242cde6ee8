// The frames of a scenario, each told by a line.
ghost use Rattle.std.specs.Prelude.{◌≡◌, Err, OnOk, length};
ghost use Rattle.msg_exec.specs.Prelude.{EachIs, EngineStands, PostsFit};
ghost use Rattle.msg_frames.specs.Prelude.{State};
ghost use Rattle.msg_json.specs.Prelude.{IsPut};
ghost use Rattle.msg_json.specs.declared.report_fault.ReportFault.{ReportFault as FaultView};
ghost use Rattle.msg_world.specs.Prelude.{i64_values};
ghost use Rattle.msg_world.specs.declared.run_fault.RunFault.{RunFault as RunView};
ghost use Rattle.msg_scenario.specs.Prelude.{IsSystemAt};
ghost use Rattle.msg_reading.specs.Prelude.{IsRunnable, state_of};
ghost use Rattle.msg_serve.specs.{Requests.run, Served.EndsTrace, Served.IsTraced, Served.after_request, Served.answer_of, inner.Answering.Serves};

use crate::server::{Server, put_answer, run_frame, tell_readers};
use msg_exec::{Frame, Workers};
use msg_json::{ReportFault, Sink};
use msg_reading::Scenario;
use msg_scenario::engine_of;
use msg_system::SystemOf;
use msg_world::RunFault;
use std::thread::Threads;

/// Makes the engine of a scenario of its systems, and runs its frames: the line of each is put
/// before the next is run. Then the line of the readers is put.
///
/// # Errors
///
/// `NoMemory` if there was none for the engine or a line, `Run` if there was none for a frame or
/// the accounts, and `Write` if the sink failed.
pub fn trace_scenario<R: Threads + Sync + AllocGlobal, X: SystemOf<Value = i64> + Send, S: Sink>(
    rt: &R,
    scenario: &Scenario,
    systems: Vec<X>,
    workers: Workers,
    sink: &mut S,
) -> Result<(), ReportFault>
    requires runnable { IsRunnable scenario.now }
    requires as_many { length systems.items ≡ length scenario.now.systems }
    requires each { EachIs (IsSystemAt X.meaning scenario.now.systems) systems.items }

    // Whatever the workers: the lines are those of one thread.
    ensures ok { OnOk result
        (IsTraced scenario.now (S.contents sink.old) (S.contents sink.new)) }
    ensures quiet { OnOk result (S.failures sink.new ≡ S.failures sink.old) }
    ensures ends { (fault : FaultView) → result ≡ Err fault
        → EndsTrace S.contents S.failures scenario.now fault sink.old sink.new }

    // A run fault is want of memory, in a frame or for the accounts.
    ensures run { (why : RunView) → result ≡ Err (ReportFault.Run why)
        → why ≡ RunFault.NoMemory }
{
    let mut server = Server {
        scenario,
        engine: engine_of(rt.alloc(), scenario, systems)?,
        text: Vec::new(rt.alloc()),
    };
    let traced = trace(rt, &mut server, workers, sink);
    drop(server);
    traced
}

/// Runs the frames of the scenario, and tells each, and the readers.
fn trace<R: Threads + Sync, X: SystemOf<Value = i64> + Send, S: Sink>(
    rt: &R,
    server: &mut Server<X>,
    workers: Workers,
    sink: &mut S,
) -> Result<(), ReportFault>
    requires runnable { IsRunnable server.old.scenario.now }
    requires engine { EngineStands X.meaning server.old.engine
        (state_of server.old.scenario.now) }
    ensures ok { OnOk result (IsTraced server.old.scenario.now
        (S.contents sink.old) (S.contents sink.new)) }
    ensures quiet { OnOk result (S.failures sink.new ≡ S.failures sink.old) }
    ensures ends { (fault : FaultView) → result ≡ Err fault
        → EndsTrace S.contents S.failures server.old.scenario.now fault sink.old sink.new }
    ensures run { (why : RunView) → result ≡ Err (ReportFault.Run why)
        → why ≡ RunFault.NoMemory }
{
    let scenario = server.scenario;
    for frame in scenario.frames.as_slice() {
        trace_frame(rt, server, frame, workers, sink)?;
    }
    tell_readers(server)?;
    put_answer(server, sink)
}

/// Runs the next frame, and puts its line.
fn trace_frame<R: Threads + Sync, X: SystemOf<Value = i64> + Send, S: Sink>(
    rt: &R,
    server: &mut Server<X>,
    frame: &Frame,
    workers: Workers,
    sink: &mut S,
) -> Result<(), ReportFault>
    requires serves { Serves X.meaning server.old }
    requires posts { PostsFit server.old.engine frame.now }
    ensures same { server.new.scenario ≡ server.old.scenario }
    ensures stands { OnOk result
        ((now : State i64_values) → EngineStands X.meaning server.old.engine now
        → EngineStands X.meaning server.new.engine (after_request (run frame.now) now)) }
    ensures put { (now : State i64_values) → EngineStands X.meaning server.old.engine now
        → IsPut S.contents S.failures (answer_of server.old.scenario.now (run frame.now) now)
        result sink.old sink.new }
    ensures run { (why : RunView) → result ≡ Err (ReportFault.Run why)
        → why ≡ RunFault.NoMemory }
{
    run_frame(rt, server, frame, workers)?;
    put_answer(server, sink)
}
