// A file that is checked, and not run.
ghost use Rattle.std.specs.Prelude.{◌≡◌, ◌≢◌, [], IfErr, OnOk};
ghost use Rattle.serde_json.specs.View.{view};
ghost use Rattle.msg_reading.specs.Prelude.{IsRunnable};
ghost use Rattle.msg_json.specs.Prelude.{AppendsAtLeast, reason_refusal};
ghost use Rattle.msg_scenario.specs.Checked.{EndsCheck, FailsFor, IsEither, Passes};
ghost use Rattle.msg_scenario.specs.inner.Checking.{EndsIf, IsRefusalOfEither};

use crate::CheckFault;
use msg_advice::{not_json_line, remarks_of, repeated_line, value_lines};
use msg_calls::{Calls, read_file};
use msg_json::json::parse;
use msg_json::{Fault, FileFault, Reason, Refusal, ReportFault, Sink, is_calls_file, put_text};
use msg_reading::{Scenario, read_value};
use msg_world::NoMemory;
use serde_json::Value;
use std::alloc::Global;

/// Checks the scenario or the calls file that the bytes are, and runs nothing. The sink gets its
/// counts, and what is remarked of a scenario.
///
/// # Errors
///
/// `Refused` if the bytes are neither, with the lines that tell where and why, and then the sink is
/// as it was; `Report` if the sink failed, or if there was no memory, and then the sink is as it
/// was too.
pub fn check_bytes<S: Sink>(alloc: Global, bytes: &[u8], sink: &mut S) -> Result<(), CheckFault>
    ensures ok { OnOk result (Passes bytes.now) }
    ensures appends { OnOk result (AppendsAtLeast (S.contents sink.old) (S.contents sink.new) []) }
    ensures quiet { OnOk result (S.failures sink.new ≡ S.failures sink.old) }
    ensures fault { IfErr result
        (λ fault. EndsCheck S.contents S.failures bytes.now fault sink.old sink.new) }
{
    let text = check(alloc, bytes)?;
    Ok(put_text(text.as_slice(), sink)?)
}

/// What is told of the scenario or the calls file that the bytes are: its counts, and remarks of a
/// scenario; or the lines that tell where they are refused, and why.
fn check(alloc: Global, bytes: &[u8]) -> Result<Vec<u8>, CheckFault>
    ensures passed { OnOk result (Passes bytes.now) }
    ensures refused { IfErr result (EndsIf (FailsFor bytes.now)) }
{
    match parse(alloc, bytes) {
        Ok(value) => {
            let checked = check_value(alloc, bytes, &value);
            drop(value);
            checked
        }
        Err(FileFault::NotJson { line, column }) => {
            let lines = not_json_line(alloc, bytes, line, column)?;
            Err(CheckFault::Refused(Refusal::NotJson, lines))
        }
        Err(FileFault::At(_)) => Err(CheckFault::Report(ReportFault::NoMemory)),
    }
}

/// The same, of the value that the bytes are a text of.
fn check_value(alloc: Global, bytes: &[u8], value: &Value) -> Result<Vec<u8>, CheckFault>
    ensures passed { OnOk result (IsEither (view value.now)) }
    ensures refused { IfErr result (EndsIf (IsRefusalOfEither (view value.now))) }
{
    let repeated = repeated_line(alloc, bytes)?;
    let repeated = repeated.as_slice();
    if is_calls_file(value) {
        match read_file(alloc, value) {
            Ok(calls) => Ok(count_calls(alloc, &calls, repeated)?),
            Err(fault) => Err(tell(alloc, &fault, value, repeated)),
        }
    } else {
        match read_value(alloc, value) {
            Ok(scenario) => Ok(tell_scenario(alloc, &scenario, repeated)?),
            Err(fault) => Err(tell(alloc, &fault, value, repeated)),
        }
    }
}

/// What ends the check at a fault of a value: the lines that tell of it and of a repeated key, or want
/// of memory.
fn tell(alloc: Global, fault: &Fault, value: &Value, repeated: &[u8]) -> CheckFault
    ensures ends { EndsIf (λ why. (fault.now.reason ≢ Reason.NoMemory)
        × (why ≡ reason_refusal fault.now.reason)) result }
{
    if matches!(fault.reason, Reason::NoMemory) {
        return CheckFault::Report(ReportFault::NoMemory);
    }
    match value_lines(alloc, fault, value, repeated) {
        Ok(lines) => CheckFault::Refused(fault.reason.refusal(), lines),
        Err(_) => CheckFault::Report(ReportFault::NoMemory),
    }
}

/// The counts of a scenario that can be run, and what is remarked of it.
fn tell_scenario(alloc: Global, scenario: &Scenario, repeated: &[u8]) -> Result<Vec<u8>, NoMemory>
    requires runnable { IsRunnable scenario.now }
{
    let mut text = String::new(alloc);
    writeln!(
        text,
        "ok: {} systems, {} types, {} resources, {} rules, {} frames",
        scenario.systems.as_slice().len(),
        scenario.types.as_slice().len(),
        scenario.resources.as_slice().len(),
        scenario.rules.as_slice().len(),
        scenario.frames.as_slice().len(),
    )?;
    let mut text = text.into_bytes();
    text.extend_from_slice(&remarks_of(alloc, scenario)?)?;
    add_remark(&mut text, repeated)?;
    Ok(text)
}

/// The count of a calls file, and what is remarked of it.
fn count_calls(alloc: Global, calls: &Calls, repeated: &[u8]) -> Result<Vec<u8>, NoMemory> {
    let counts = format!(in alloc; "ok: {} calls\n", calls.calls().len())?;
    let mut text = counts.into_bytes();
    add_remark(&mut text, repeated)?;
    Ok(text)
}

/// Adds a line as a remark, if there is one.
fn add_remark(text: &mut Vec<u8>, line: &[u8]) -> Result<(), NoMemory> {
    if !line.is_empty() {
        text.extend_from_slice(b"remark: ")?;
        text.extend_from_slice(line)?;
    }
    Ok(())
}
