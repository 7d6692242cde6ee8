// The command line, as `clap` is told of it.
ghost use Rattle.std.specs.Prelude.{◌≡◌, ◌⊎◌, [], IfOk, IfErr, OnOk, codes, false, true};
ghost use Rattle.clap.specs.{Words.App, Words.app_of, Words.with_subcommand, Words.rule_of, Words.fault_of, Words.takes, Words.subcommand_of, Words.subcommand_rows_of, Words.kind_of, declared.Command.out-Command as fields_of, declared.error.ErrorKind.TheVariants.OutOfMemory};
ghost use Rattle.msg_command.specs.CommandLine.{bare_app};
ghost use Rattle.msg_command.specs.Prelude.{IsShown, IsWordFaultOf, buffer_app, file_app, file_rule, flag_rule, msgrun_app, number_rule, plan_app, run_app, serve_app, texts_of};
ghost use Rattle.msg_command.specs.inner.Telling.{IsHelp};

use crate::words::{WordFault, help};
use clap::error::ErrorKind;
use clap::{Arg, ArgAction, ArgMatches, Command};
use std::alloc::{AllocError, Global};

/// The version of the program, of its files and of its texts.
const VERSION: &str = "1.0.0";

fn file_arg<'a>(alloc: Global, what: &'a str) -> Arg<'a>
    ensures rule { rule_of result ≡ file_rule }
    ensures local { result.global ≡ false }
{
    Arg::new(alloc, "FILE")
        .help(what)
        .required(true)
        .action(ArgAction::Set)
}

/// An option that is a number, 1 if it isn't given.
fn number_arg<'a>(alloc: Global, name: &'a str, unit: &'a str, what: &'a str) -> Arg<'a>
    ensures rule { rule_of result ≡ number_rule name.now }
    ensures local { result.global ≡ false }
{
    Arg::new(alloc, name)
        .long(name)
        .value_name(unit)
        .help(what)
        .action(ArgAction::Set)
        .default_value("1")
}

fn workers_arg<'a>(alloc: Global) -> Arg<'a>
    ensures rule { rule_of result ≡ number_rule (codes "workers") }
    ensures local { result.global ≡ false }
{
    let what = "How many workers run the systems, from 1 to 64";
    number_arg(alloc, "workers", "N", what)
}

/// An option without a value.
fn flag_arg<'a>(alloc: Global, name: &'a str, what: &'a str) -> Arg<'a>
    ensures rule { rule_of result ≡ flag_rule name.now }
    ensures local { result.global ≡ false }
{
    Arg::new(alloc, name)
        .long(name)
        .help(what)
        .action(ArgAction::SetTrue)
}

/// Adds the summary line, and the texts after short and after long help.
fn with_texts<'a>(
    command: Command<'a>,
    about: &'a str,
    short: &'a str,
    long: &'a str,
) -> Command<'a>
    ensures app { app_of result ≡ app_of command.entry }
    ensures local { (fields_of result).has_globals ≡ (fields_of command.entry).has_globals }
{
    command.about(about).after_help(short).after_long_help(long)
}

/// A subcommand of one file, with what it does and the texts after its help.
fn file_command<'a>(
    alloc: Global,
    name: &'a str,
    what: &'a str,
    about: &'a str,
    short: &'a str,
    long: &'a str,
) -> Result<Command<'a>, AllocError>
    ensures app { IfOk result (λ c. app_of c ≡ file_app name.now) }
    ensures local { IfOk result (λ c. (fields_of c).has_globals ≡ false) }
{
    let command = Command::new(alloc, name).arg(file_arg(alloc, what))?;
    Ok(with_texts(command, about, short, long))
}

fn explain_arg<'a>(alloc: Global) -> Arg<'a>
    ensures rule { rule_of result ≡ flag_rule (codes "explain") }
    ensures local { result.global ≡ false }
{
    flag_arg(alloc, "explain", "Tells of a refused file what check tells")
}

fn buffer_command<'a>(alloc: Global) -> Result<Command<'a>, AllocError>
    ensures app { IfOk result (λ c. app_of c ≡ buffer_app) }
    ensures local { IfOk result (λ c. (fields_of c).has_globals ≡ false) }
{
    let command = file_command(
        alloc,
        "buffer",
        "The calls file",
        "Answers the calls file FILE",
        help::BUFFER,
        help::BUFFER_IN_FULL,
    )?;
    command.arg(explain_arg(alloc))
}

fn run_command<'a>(alloc: Global) -> Result<Command<'a>, AllocError>
    ensures app { IfOk result (λ c. app_of c ≡ run_app) }
    ensures local { IfOk result (λ c. (fields_of c).has_globals ≡ false) }
{
    let command = file_command(
        alloc,
        "run",
        "The scenario file",
        "Runs the scenario file FILE, and reports",
        help::RUN,
        help::RUN_IN_FULL,
    )?;
    let json = flag_arg(alloc, "json", "Tells each frame as a line of JSON");
    let losses = flag_arg(
        alloc,
        "losses",
        "Tells what each reader lost and writer was refused, too",
    );
    let command = command.arg(json)?.arg(losses)?;
    command.arg(explain_arg(alloc))?.arg(workers_arg(alloc))
}

fn serve_command<'a>(alloc: Global) -> Result<Command<'a>, AllocError>
    ensures app { IfOk result (λ c. app_of c ≡ serve_app) }
    ensures local { IfOk result (λ c. (fields_of c).has_globals ≡ false) }
{
    let command = file_command(
        alloc,
        "serve",
        "The scenario file",
        "Runs the scenario file FILE, and then answers each line of standard input",
        help::SERVE,
        help::SERVE,
    )?;
    command.arg(workers_arg(alloc))
}

fn plan_command<'a>(alloc: Global) -> Result<Command<'a>, AllocError>
    ensures app { IfOk result (λ c. app_of c ≡ plan_app) }
    ensures local { IfOk result (λ c. (fields_of c).has_globals ≡ false) }
{
    let command = file_command(
        alloc,
        "plan",
        "The scenario file",
        "Tells in which order the systems of FILE run, and why",
        help::PLAN,
        help::PLAN,
    )?;
    let dot = flag_arg(alloc, "dot", "Tells it as a graph, for Graphviz");
    let frame = number_arg(alloc, "frame", "K", "Which frame, from 1 to 10000");
    command.arg(dot)?.arg(frame)
}

/// The command without its subcommands.
fn bare_command<'a>(alloc: Global) -> Result<Command<'a>, AllocError>
    ensures app { IfOk result (λ c. app_of c ≡ bare_app) }
    ensures local { IfOk result (λ c. (fields_of c).has_globals ≡ false) }
{
    let bare = Command::new(alloc, "msgrun").no_binary_name(true);
    let bare = bare.bin_name("msgrun")?.version(VERSION);
    Ok(with_texts(
        bare,
        "Runs scenarios of message systems, and answers calls of a message buffer",
        help::PROGRAM,
        help::PROGRAM_IN_FULL,
    ))
}

/// The first command with the second as its next subcommand.
fn with_subcommand<'a>(
    command: Result<Command<'a>, AllocError>,
    subcommand: Result<Command<'a>, AllocError>,
) -> Result<Command<'a>, AllocError>
    requires local { IfOk subcommand (λ s. (fields_of s).has_globals ≡ false) }
    ensures app { (a s : App) → IfOk command.entry (λ c. app_of c ≡ a)
        → IfOk subcommand.entry (λ c. app_of c ≡ s)
        → IfOk result (λ c. app_of c ≡ with_subcommand a s.top) }
    ensures local { IfOk command.entry (λ c. (fields_of c).has_globals ≡ false)
        → IfOk result (λ c. (fields_of c).has_globals ≡ false) }
{
    let subcommand = subcommand?;
    command?.subcommand(subcommand)
}

fn command<'a>(alloc: Global) -> Result<Command<'a>, AllocError>
    ensures app { IfOk result (λ c. app_of c ≡ msgrun_app) }
    ensures local { IfOk result (λ c. (fields_of c).has_globals ≡ false) }
{
    let check = file_command(
        alloc,
        "check",
        "The scenario file or calls file",
        "Checks the file FILE, and says where and why it is refused",
        help::CHECK,
        help::CHECK,
    );
    let command = with_subcommand(bare_command(alloc), buffer_command(alloc));
    let command = with_subcommand(command, run_command(alloc));
    let command = with_subcommand(command, check);
    let command = with_subcommand(command, plan_command(alloc));
    with_subcommand(command, serve_command(alloc))
}

fn fault(alloc: Global, error: clap::Error) -> WordFault
    ensures memory { kind_of error ≡ OutOfMemory → result ≡ WordFault.NoMemory }
    ensures help { IsHelp result → IsShown (kind_of error) }
    ensures bad { result ≡ WordFault.Bad → ¬ IsShown (kind_of error) }
    ensures no_memory { result ≡ WordFault.NoMemory
        → (kind_of error ≡ OutOfMemory) ⊎ IsShown (kind_of error) }
{
    match error.kind() {
        ErrorKind::OutOfMemory => WordFault::NoMemory,
        ErrorKind::DisplayHelp | ErrorKind::DisplayVersion => match format!(in alloc; "{error}") {
            Ok(text) => WordFault::Help(text),
            Err(_) => WordFault::NoMemory,
        },
        _ => WordFault::Bad,
    }
}

/// What `clap` reads of the words.
pub(crate) fn matches<'a>(alloc: Global, words: &'a [String]) -> Result<ArgMatches<'a>, WordFault>
    ensures rows { IfOk result (λ m.
        subcommand_rows_of m ≡ subcommand_of msgrun_app (texts_of words.entry.now)) }
    ensures accepted { OnOk result (fault_of msgrun_app (texts_of words.entry.now) ≡ []) }
    ensures refused { IfErr result (λ e. takes msgrun_app (texts_of words.entry.now) ≡ true
        → e ≡ WordFault.NoMemory) }
    ensures found { IfErr result (IsWordFaultOf (fault_of msgrun_app (texts_of words.entry.now))) }
{
    let Ok(command) = command(alloc) else {
        return Err(WordFault::NoMemory);
    };
    match command.try_get_matches_from(words) {
        Ok(matches) => Ok(matches),
        Err(error) => Err(fault(alloc, error)),
    }
}
