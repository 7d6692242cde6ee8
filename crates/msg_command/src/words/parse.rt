ghost use Rattle.std.specs.Prelude.{◌≡◌, ◌<◌, ◌≤◌, ◌⊎◌, [], IfSome, Some, None, true, IfOk, IfErr, OnOk, codes, string_bytes};
ghost use Rattle.clap.specs.Words.{fault_of, takes, first_of, rows_of, found_of, subcommand_rows_of};
ghost use Rattle.msg_command.specs.Prelude.{AsksForNone, IsInRange, IsWordFaultOf, asked, asked_by, is_asked, msgrun_app, number_asked, number_in, request_of, texts_of};

use crate::limits::{LAST_FRAME, MAX_WORKERS};
use crate::words::command::matches;
use crate::words::{Action, WordFault};
use clap::ArgMatches;
use std::alloc::Global;

/// The action that the words ask for. They don't include the program's own name.
pub fn parse_words(alloc: Global, words: &[String]) -> Result<Action, WordFault>
    ensures accepted { OnOk result (fault_of msgrun_app (texts_of words.now) ≡ []) }
    ensures action { IfOk result (λ a. asked (texts_of words.now) ≡ Some (request_of a)) }
    ensures in_range { IfOk result IsInRange }
    ensures refused { IfErr result (λ fault. takes msgrun_app (texts_of words.now) ≡ true
        → (fault ≡ WordFault.NoMemory)
        ⊎ ((fault ≡ WordFault.Bad) × AsksForNone (texts_of words.now))) }

    // If `clap` refuses the words, the fault is the one that it finds in them.
    ensures found { IfErr result (IsWordFaultOf (fault_of msgrun_app (texts_of words.now))) }
{
    let matches = matches(alloc, words)?;
    let action = action_of(alloc, &matches);
    drop(matches);
    action
}

fn action_of(alloc: Global, matches: &ArgMatches<'_>) -> Result<Action, WordFault>
    ensures action { IfOk result (λ action.
        asked_by (subcommand_rows_of matches.now) ≡ Some (request_of action)) }
    ensures in_range { IfOk result IsInRange }
    ensures refused { IfErr result (λ fault.
        (fault ≡ WordFault.NoMemory)
        ⊎ ((fault ≡ WordFault.Bad) × (asked_by (subcommand_rows_of matches.now) ≡ None))) }
{
    let Some((name, inner)) = matches.subcommand() else {
        return Ok(Action::Buffer(None));
    };
    if name == "buffer" {
        let file = file_of(alloc, inner)?;
        return Ok(if is_given(inner, "explain") {
            Action::BufferExplained(file)
        } else {
            Action::Buffer(Some(file))
        });
    }
    if name == "run" {
        let file = file_of(alloc, inner)?;
        let workers = number_of(inner, "workers", MAX_WORKERS)?;
        return Ok(if is_given(inner, "json") {
            Action::RunAsJson { file, workers }
        } else if is_given(inner, "losses") {
            Action::RunWithLosses { file, workers }
        } else if is_given(inner, "explain") {
            Action::RunExplained { file, workers }
        } else {
            Action::Run { file, workers }
        });
    }
    if name == "check" {
        let file = file_of(alloc, inner)?;
        return Ok(Action::Check(file));
    }
    if name == "plan" {
        let file = file_of(alloc, inner)?;
        let frame = number_of(inner, "frame", LAST_FRAME)?;
        let dot = is_given(inner, "dot");
        return Ok(Action::Plan { file, frame, dot });
    }
    if name == "serve" {
        let file = file_of(alloc, inner)?;
        let workers = number_of(inner, "workers", MAX_WORKERS)?;
        return Ok(Action::Serve { file, workers });
    }
    Err(WordFault::Bad)
}

#[tactic(auto, using(crate::proofs::RowValues::row_value))]
fn file_of(alloc: Global, inner: &ArgMatches<'_>) -> Result<String, WordFault>
    ensures text { IfOk result (λ file.
        first_of (codes "FILE") (rows_of (found_of inner.now)) ≡ Some (string_bytes file)) }
    ensures refused { IfErr result (λ e. (e ≡ WordFault.NoMemory)
        ⊎ ((e ≡ WordFault.Bad)
        × (first_of (codes "FILE") (rows_of (found_of inner.now)) ≡ None))) }
{
    let file = inner.get_str("FILE").ok_or(WordFault::Bad)?;
    String::from_str(alloc, file).map_err(|_| WordFault::NoMemory)
}

/// The number from 1 to `most` that an option has.
#[tactic(auto, using(crate::proofs::RowValues::row_value))]
fn number_of(inner: &ArgMatches<'_>, option: &str, most: u32) -> Result<u32, WordFault>
    ensures number { IfOk result (λ n.
        number_asked option.now most (rows_of (found_of inner.now)) ≡ Some n) }
    ensures some { IfOk result (λ n. 0 < n) }
    ensures at_most { IfOk result (λ n. n ≤ most) }
    ensures refused { IfErr result (λ e. (e ≡ WordFault.Bad)
        × (number_asked option.now most (rows_of (found_of inner.now)) ≡ None)) }
{
    let text = inner.get_str(option).ok_or(WordFault::Bad)?;
    number_in(text, most).ok_or(WordFault::Bad)
}

#[tactic(auto, using(crate::proofs::RowValues::row_value))]
fn is_given(inner: &ArgMatches<'_>, flag: &str) -> bool
    ensures given { result ≡ is_asked flag.now (rows_of (found_of inner.now)) }
{
    match inner.get_str(flag) {
        Some(text) => text == "true",
        None => false,
    }
}

/// The number from 1 to `most` that a text has.
fn number_in(text: &str, most: u32) -> Option<u32>
    ensures number { result ≡ number_in most text.now }
    ensures some { IfSome result (λ n. 0 < n) }
    ensures at_most { IfSome result (λ n. n ≤ most) }
{
    let Ok(number) = text.parse::<u32>() else {
        return None;
    };
    if 1 <= number && number <= most {
        Some(number)
    } else {
        None
    }
}
