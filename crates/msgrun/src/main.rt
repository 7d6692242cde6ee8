//! Runs a scenario file, and reports what its systems were answered and what each reader got,
//! missed and cleared; or answers a calls file: the calls of one message buffer and its cursors, a
//! line for each; or checks a file, and tells where and why it is refused; or tells in which order
//! the systems of a scenario run, and why; or serves a scenario: each line of standard input, a
//! frame or a question, is answered by a line of JSON.
//!
//! `msgrun run FILE --workers N` runs a scenario, `msgrun serve FILE --workers N` serves one,
//! `msgrun buffer FILE` answers calls, and `msgrun` alone those of standard input; `msgrun check
//! FILE` and `msgrun plan FILE --frame K` run nothing.
#![tactic(auto)]

ghost use Rattle.std.specs.Prelude.{◌≡◌, ◌<◌, ◌≤◌};
ghost use Rattle.msg_command.specs.Prelude.{line_of, status_of};
ghost use Rattle.msgrun.specs.Prelude.{main_fault, main_fault_of_check, status_after};

use msg_advice::refused_lines;
use msg_command::{Action, InputFault, MainFault, WordFault, parse_words, print_fault, read_all};
use msg_exec::{MAX_WORKERS, Workers};
use msg_json::{Refusal, StdSink, StdSource, put_all};
use msg_scenario::{
    AnswerFault, CheckFault, Form, Readers, answer_bytes, check_bytes, check_calls, check_scenario,
    plan_bytes, report_bytes_with,
};
use msg_serve::{serve_bytes, trace_bytes};
use std::alloc::Global;
use std::env::Env;
use std::fs::Files;
use std::io::{BufReader, ErrorKind, Input, Print};
use std::process::ExitCode;
use std::thread::Threads;
use std::{env, fs, io};

/// How many bytes of standard input are read ahead.
const READ_AHEAD: usize = 65_536;

fn main(rt: HostRuntime) -> ExitCode {
    let ended = run(&rt);
    ExitCode::from(end(&rt.stdout(), &rt.stderr(), &ended))
}

/// Does what the command line asks for.
fn run<R: AllocGlobal + Env + Files + Input + Print + Sync + Threads>(
    rt: &R,
) -> Result<(), MainFault> {
    let words = words_given(rt)?;
    match parse_words(rt.alloc(), words.as_slice())? {
        Action::Buffer(file) => answer_calls(rt, file, false),
        Action::BufferExplained(file) => answer_calls(rt, Some(file), true),
        Action::Run { file, workers } => {
            report_scenario(rt, file, Readers::Plain, false, workers)
        }
        Action::RunExplained { file, workers } => {
            report_scenario(rt, file, Readers::Plain, true, workers)
        }
        Action::RunWithLosses { file, workers } => {
            report_scenario(rt, file, Readers::WithLosses, true, workers)
        }
        Action::RunAsJson { file, workers } => trace_scenario(rt, file, workers),
        Action::Check(file) => check_file(rt, file),
        Action::Plan { file, frame, dot } => plan_scenario(rt, file, frame, dot),
        Action::Serve { file, workers } => serve_lines(rt, file, workers),
    }
}

/// The words of the command line, without the program's own name.
fn words_given<R: AllocGlobal + Env>(rt: &R) -> Result<Vec<String>, WordFault> {
    match env::args(rt) {
        Ok(words) => words
            .skip(1)
            .collect(rt.alloc())
            .map_err(|_| WordFault::NoMemory),
        Err(error) if error.kind() == ErrorKind::OutOfMemory => Err(WordFault::NoMemory),
        Err(_) => Err(WordFault::Bad),
    }
}

/// Answers a calls file, or if none is named that of standard input, on standard output; tells why
/// it is refused, if `explains` says so.
fn answer_calls<R: AllocGlobal + Files + Input + Print>(
    rt: &R,
    file: Option<String>,
    explains: bool,
) -> Result<(), MainFault> {
    let bytes = bytes_of(rt, file)?;
    let mut output = StdSink::new(io::writer(rt));
    match answer_bytes(rt.alloc(), bytes.as_slice(), &mut output) {
        Err(fault) if explains => Err(explained(rt.alloc(), bytes.as_slice(), true, fault)),
        ended => ended.map_err(as_main_fault),
    }
}

/// Runs a scenario file on 1 to 64 workers, and reports on standard output; tells why it is
/// refused, if `explains` says so.
fn report_scenario<R: AllocGlobal + Files + Input + Print + Sync + Threads>(
    rt: &R,
    file: String,
    readers: Readers,
    explains: bool,
    workers: u32,
) -> Result<(), MainFault>
    requires some { 0 < workers }
    requires at_most { workers ≤ MAX_WORKERS }
{
    let Some(workers) = Workers::new(workers) else {
        unreachable!()
    };
    let bytes = bytes_of(rt, Some(file))?;
    let mut output = StdSink::new(io::writer(rt));
    match report_bytes_with(rt, bytes.as_slice(), readers, workers, &mut output) {
        Err(fault) if explains => Err(explained(rt.alloc(), bytes.as_slice(), false, fault)),
        ended => ended.map_err(as_main_fault),
    }
}

/// Runs a scenario file on 1 to 64 workers, and tells it as lines of JSON on standard output.
fn trace_scenario<R: AllocGlobal + Files + Input + Print + Sync + Threads>(
    rt: &R,
    file: String,
    workers: u32,
) -> Result<(), MainFault>
    requires some { 0 < workers }
    requires at_most { workers ≤ MAX_WORKERS }
{
    let Some(workers) = Workers::new(workers) else {
        unreachable!()
    };
    let bytes = bytes_of(rt, Some(file))?;
    let mut output = StdSink::new(io::writer(rt));
    match trace_bytes(rt, bytes.as_slice(), workers, &mut output) {
        Ok(()) => Ok(()),
        Err(fault) => Err(explained(rt.alloc(), bytes.as_slice(), false, fault)),
    }
}

/// Runs the frames of a scenario file on 1 to 64 workers, and then those that are lines of standard
/// input; each line is answered on standard output.
fn serve_lines<R: AllocGlobal + Files + Input + Print + Sync + Threads>(
    rt: &R,
    file: String,
    workers: u32,
) -> Result<(), MainFault>
    requires some { 0 < workers }
    requires at_most { workers ≤ MAX_WORKERS }
{
    let Some(workers) = Workers::new(workers) else {
        unreachable!()
    };
    let bytes = bytes_of(rt, Some(file))?;
    let Ok(input) = BufReader::with_capacity(rt.alloc(), READ_AHEAD, rt.reader()) else {
        return Err(MainFault::Built);
    };
    let mut input = StdSource::new(input);
    let mut output = StdSink::new(io::writer(rt));
    match serve_bytes(rt, bytes.as_slice(), workers, &mut input, &mut output) {
        Ok(()) => Ok(()),
        Err(fault) => Err(explained(rt.alloc(), bytes.as_slice(), false, fault)),
    }
}

/// Why a file wasn't answered to its end, as the fault that ends the program.
fn as_main_fault(fault: AnswerFault) -> MainFault
    ensures fault { result ≡ main_fault fault }
{
    match fault {
        AnswerFault::Refused(refusal) => MainFault::Refused(refusal),
        AnswerFault::NoMemory => MainFault::Built,
        AnswerFault::Report(fault) => MainFault::Report(fault),
        AnswerFault::Input => MainFault::Input(InputFault::Failed),
    }
}

/// The same, with the lines of a check, if the bytes are refused as a calls file or as a scenario.
fn explained(alloc: Global, bytes: &[u8], as_calls: bool, fault: AnswerFault) -> MainFault
    ensures line { line_of result ≡ line_of (main_fault fault) }
    ensures status { status_of result ≡ status_of (main_fault fault) }
{
    match fault {
        AnswerFault::Refused(Refusal::NoMemory) => MainFault::Refused(Refusal::NoMemory),
        AnswerFault::Refused(why) => {
            MainFault::CheckFailed(why, check_lines(alloc, bytes, as_calls))
        }
        fault => as_main_fault(fault),
    }
}

/// The lines of a check on bytes that are refused; none if there is no memory for them.
fn check_lines(alloc: Global, bytes: &[u8], as_calls: bool) -> Vec<u8> {
    let fault = if as_calls {
        check_calls(alloc, bytes).err()
    } else {
        check_scenario(alloc, bytes).err()
    };
    match fault {
        Some(fault) => refused_lines(alloc, bytes, fault).unwrap_or(Vec::new(alloc)),
        None => Vec::new(alloc),
    }
}

/// Why a file that was checked doesn't pass, as the fault that ends the program.
fn check_as_main_fault(fault: CheckFault) -> MainFault
    ensures fault { result ≡ main_fault_of_check fault }
{
    match fault {
        CheckFault::Refused(why, lines) => MainFault::CheckFailed(why, lines),
        CheckFault::Report(fault) => MainFault::Report(fault),
    }
}

/// Checks a file, and tells what it has on standard output.
fn check_file<R: AllocGlobal + Files + Input + Print>(
    rt: &R,
    file: String,
) -> Result<(), MainFault> {
    let bytes = bytes_of(rt, Some(file))?;
    let mut output = StdSink::new(io::writer(rt));
    check_bytes(rt.alloc(), bytes.as_slice(), &mut output).map_err(check_as_main_fault)
}

/// Tells the plan of a frame of a scenario file on standard output, as lines or for Graphviz.
fn plan_scenario<R: AllocGlobal + Files + Input + Print>(
    rt: &R,
    file: String,
    frame: u32,
    dot: bool,
) -> Result<(), MainFault>
    requires some { 0 < frame }
{
    let form = if dot { Form::Dot } else { Form::Lines };
    let bytes = bytes_of(rt, Some(file))?;
    let mut output = StdSink::new(io::writer(rt));
    match plan_bytes(rt.alloc(), bytes.as_slice(), frame, form, &mut output) {
        Ok(()) => Ok(()),
        Err(fault) => Err(explained(rt.alloc(), bytes.as_slice(), false, fault)),
    }
}

/// All bytes of a file, or of standard input.
fn bytes_of<R: AllocGlobal + Files + Input>(
    rt: &R,
    file: Option<String>,
) -> Result<Vec<u8>, InputFault> {
    match file {
        None => read_all(rt.alloc(), &mut rt.reader()),
        Some(path) => match fs::open(rt, path) {
            Ok(mut input) => read_all(rt.alloc(), &mut input),
            Err(error) if error.kind() == ErrorKind::OutOfMemory => Err(InputFault::NoMemory),
            Err(_) => Err(InputFault::Failed),
        },
    }
}

/// Prints the help that the words ask for to `output`, or the line of the fault that ended the
/// program to `errors`, and gives the status. Without a fault it prints nothing.
fn end<O: Print, E: Print>(output: &O, errors: &E, ended: &Result<(), MainFault>) -> u8
    ensures status { result ≡ status_after ended.now }
{
    let Err(fault) = ended else {
        return 0;
    };
    if let MainFault::Words(WordFault::Help(text)) = fault {
        let _ = put_all(&mut StdSink::new(io::writer(output)), text.as_bytes());
    }
    print_fault(fault, &mut StdSink::new(io::writer(errors)))
}
