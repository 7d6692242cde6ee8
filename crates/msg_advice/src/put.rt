// The text of a plan, made in memory and put into a sink.
ghost use Rattle.std.specs.Prelude.{◌≡◌, ◌<◌, ◌⊎◌, [], Err, IfErr, OnOk};
ghost use Rattle.msg_json.specs.Prelude.{AppendsAtLeast, one_failure_more};
ghost use Rattle.msg_frames.specs.Prelude.{IsOrderly};
ghost use Rattle.msg_reading.specs.Prelude.{IsRunnable};

use crate::batches::{add_batches, add_chain};
use crate::edges::add_edges;
use crate::planned::{Planned, plan_arrangement, plan_frame};
use crate::subject::{Subject, Told};
use crate::users::add_types;
use msg_frames::Arrangement;
use msg_json::{ReportFault, Sink, put_text};
use msg_names::Names;
use msg_reading::Scenario;
use msg_world::NoMemory;
use std::alloc::Global;

/// How a plan is told.
#[derive(Clone, Copy, Debug, PartialEq, Eq)]
pub enum Form {
    /// As lines.
    Lines,
    /// As a graph that Graphviz draws.
    Dot,
}

fn add_lines(text: &mut String, told: &Told, frame: u32) -> Result<(), NoMemory> {
    writeln!(text, "frame {frame}")?;
    add_batches(text, told, Form::Lines)?;
    add_edges(text, told, Form::Lines)?;
    add_types(text, told)?;
    add_chain(text, told)
}

fn add_dot(text: &mut String, told: &Told, frame: u32) -> Result<(), NoMemory> {
    write!(text, "digraph frame_{frame} {{\n  rankdir=LR;\n")?;
    add_batches(text, told, Form::Dot)?;
    add_edges(text, told, Form::Dot)?;
    text.push_str("}\n")
}

/// The text of the plan of a frame.
fn text_of(
    alloc: Global,
    planned: Planned,
    subject: Subject,
    frame: u32,
    form: Form,
) -> Result<String, NoMemory> {
    let told = Told {
        planned: &planned,
        subject,
    };
    let mut text = String::new(alloc);
    match form {
        Form::Lines => add_lines(&mut text, &told, frame)?,
        Form::Dot => add_dot(&mut text, &told, frame)?,
    }
    Ok(text)
}

/// Puts the plan of a frame into a sink: its batches, why each system is before the next, who
/// writes and reads each type, and the longest chain. Nothing is run. Frames are counted from 1;
/// one past the last of the file has the plan that it would have.
///
/// # Errors
///
/// `Write` if the sink failed, and `NoMemory` if there was no memory for the text.
pub fn put_plan<S: Sink>(
    alloc: Global,
    scenario: &Scenario,
    frame: u32,
    form: Form,
    sink: &mut S,
) -> Result<(), ReportFault>
    requires runnable { IsRunnable scenario.now }
    requires some { 0 < frame }
    ensures appends { AppendsAtLeast (S.contents sink.old) (S.contents sink.new) [] }
    ensures quiet { OnOk result (S.failures sink.new ≡ S.failures sink.old) }

    // The sink failed if the fault is `Write`, and was given nothing if it is `NoMemory`.
    ensures write { result ≡ Err ReportFault.Write
        → S.failures sink.new ≡ one_failure_more (S.failures sink.old) }
    ensures memory { result ≡ Err ReportFault.NoMemory → sink.new ≡ sink.old }
    ensures faults { IfErr result
        (λ fault. (fault ≡ ReportFault.Write) ⊎ (fault ≡ ReportFault.NoMemory)) }
{
    let planned = plan_frame(alloc, scenario, frame)?;
    let text = text_of(alloc, planned, Subject::Scenario(scenario), frame, form)?;
    put_text(text.as_bytes(), sink)
}

/// Puts the plan of a frame of an engine into a sink, as `put_plan` does that of a scenario. The
/// engine tells what it is arranged as (`EngineOf::arrangement`). A name stands as it is; with
/// `Form::Dot` it may have no `"` and no `\`. A drain counts as a write.
///
/// ```
/// put_engine_plan(alloc, &arrangement, &NAMES, 1, Form::Lines, &mut sink)?;
/// ```
///
/// # Errors
///
/// As those of `put_plan`.
pub fn put_engine_plan<S: Sink>(
    alloc: Global,
    arrangement: &Arrangement,
    names: &Names,
    frame: u32,
    form: Form,
    sink: &mut S,
) -> Result<(), ReportFault>
    requires orderly { IsOrderly arrangement.now }
    ensures appends { AppendsAtLeast (S.contents sink.old) (S.contents sink.new) [] }
    ensures quiet { OnOk result (S.failures sink.new ≡ S.failures sink.old) }
    ensures write { result ≡ Err ReportFault.Write
        → S.failures sink.new ≡ one_failure_more (S.failures sink.old) }
    ensures memory { result ≡ Err ReportFault.NoMemory → sink.new ≡ sink.old }
    ensures faults { IfErr result
        (λ fault. (fault ≡ ReportFault.Write) ⊎ (fault ≡ ReportFault.NoMemory)) }
{
    let planned = plan_arrangement(alloc, arrangement, frame)?;
    let text = text_of(
        alloc,
        planned,
        Subject::Engine(arrangement, names),
        frame,
        form,
    )?;
    put_text(text.as_bytes(), sink)
}
