// The lines of the readers and of the writers.
ghost use Rattle.std.specs.Prelude.{◌≡◌, ◌++◌, [], Err, IfOk, IsOk, OnOk};
ghost use Rattle.msg_frames.specs.Prelude.{State};
ghost use Rattle.msg_exec.specs.Prelude.{EngineStands, IsSpoiled};
ghost use Rattle.msg_world.specs.declared.run_fault.RunFault.TheVariants.{BadOrder, Spoiled};
ghost use Rattle.msg_scenario.specs.Prelude.{account_line, accounts_text, left_of, left_text, standing_text, told_writers, writer_line, writers_text};
ghost use Rattle.msg_world.specs.Prelude.{i64_values};

use msg_buffer::NoMemory;
use msg_exec::{Account, Backlog, EngineOf, RunFault, WriterAccount};
use msg_json::numerals::add_count;
use msg_reading::Scenario;
use msg_reading::names::{add_system_name, add_type};
use msg_system::SystemOf;
use std::alloc::Global;

/// How the readers are told at the end of a report.
#[derive(Clone, Copy, Debug, PartialEq, Eq)]
pub enum Readers {
    /// By what each got, missed and cleared since its start, and by its place.
    Plain,
    /// By that, and by what there is past its place: how many messages were dropped (`lost`), which
    /// no read has told it yet, and how many are kept (`unread`). And what each writer was refused.
    WithLosses,
}

/// A line for each of these readers.
pub fn add_accounts<X: SystemOf<Value = i64>>(
    text: &mut Vec<u8>,
    scenario: &Scenario,
    engine: &EngineOf<X>,
    readers: Readers,
    accounts: &[Account],
) -> Result<(), NoMemory>
    ensures appends { OnOk result
        ((state : State i64_values) → EngineStands X.meaning engine.now state
        → text.new.items ≡ text.old.items
        ++ accounts_text scenario.now readers state accounts.now) }
    ensures no_memory { accounts.now ≡ [] → IsOk result }
{
    for account in accounts {
        let left = left_of(engine, readers, account);
        add_account(text, scenario, *account, left)?;
    }
    Ok(())
}

/// What there is past the place of a reader, if it is told.
fn left_of<X: SystemOf<Value = i64>>(
    engine: &EngineOf<X>,
    readers: Readers,
    account: &Account,
) -> Option<Backlog>
    ensures left { (state : State i64_values) → EngineStands X.meaning engine.now state
        → result ≡ left_of readers state account.now }
{
    match readers {
        Readers::Plain => None,
        Readers::WithLosses => engine.backlog(account),
    }
}

/// What each writer was refused, if losses are told.
///
/// # Errors
///
/// Those of `EngineOf::writer_accounts`.
pub fn told_writers<X: SystemOf<Value = i64>>(
    alloc: Global,
    engine: &EngineOf<X>,
    readers: Readers,
) -> Result<Vec<WriterAccount>, RunFault>
    ensures writers { IfOk result
        (λ v. (state : State i64_values) → EngineStands X.meaning engine.now state
        → v.items ≡ told_writers readers state) }
    ensures spoiled { result ≡ Err Spoiled → IsSpoiled engine.now }
    ensures no_bad_order { ¬ (result ≡ Err BadOrder) }
{
    match readers {
        Readers::Plain => Ok(Vec::new(alloc)),
        Readers::WithLosses => engine.writer_accounts(),
    }
}

/// A line for each of these writers.
pub fn add_writers(
    text: &mut Vec<u8>,
    scenario: &Scenario,
    writers: &[WriterAccount],
) -> Result<(), NoMemory>
    ensures appends { OnOk result
        (text.new.items ≡ text.old.items ++ writers_text scenario.now writers.now) }
    ensures no_memory { writers.now ≡ [] → IsOk result }
{
    for writer in writers {
        add_writer(text, scenario, *writer)?;
    }
    Ok(())
}

fn add_writer(
    text: &mut Vec<u8>,
    scenario: &Scenario,
    writer: WriterAccount,
) -> Result<(), NoMemory>
    ensures { OnOk result (text.new.items ≡ text.old.items ++ writer_line scenario.now writer) }
{
    text.extend_from_slice(b"writer ")?;
    add_system_name(text, scenario, writer.system)?;
    text.extend_from_slice(b" ")?;
    add_type(text, scenario, writer.of_type)?;
    add_count(text, b" refused ", writer.refused)?;
    text.extend_from_slice(b"\n")
}

fn add_account(
    text: &mut Vec<u8>,
    scenario: &Scenario,
    account: Account,
    left: Option<Backlog>,
) -> Result<(), NoMemory>
    ensures { OnOk result
        (text.new.items ≡ text.old.items ++ account_line scenario.now account left) }
{
    text.extend_from_slice(b"reader ")?;
    add_system_name(text, scenario, account.system)?;
    text.extend_from_slice(b" ")?;
    add_type(text, scenario, account.of_type)?;
    add_standing(text, account)?;
    add_left(text, left)?;
    text.extend_from_slice(b"\n")
}

/// What there is past a reader's place.
fn add_left(text: &mut Vec<u8>, left: Option<Backlog>) -> Result<(), NoMemory>
    ensures { OnOk result (text.new.items ≡ text.old.items ++ left_text left) }
{
    match left {
        None => Ok(()),
        Some(left) => {
            add_count(text, b" lost ", left.lost)?;
            add_count(text, b" unread ", left.unread)
        }
    }
}

/// Where a reader stands, if it has joined.
fn add_standing(text: &mut Vec<u8>, account: Account) -> Result<(), NoMemory>
    ensures { OnOk result (text.new.items ≡ text.old.items ++ standing_text account account.start) }
{
    match account.start {
        None => text.extend_from_slice(b" waiting"),
        Some(start) => {
            add_count(text, b" start ", start)?;
            add_count(text, b" got ", account.got)?;
            add_count(text, b" missed ", account.missed)?;
            add_count(text, b" cleared ", account.cleared)?;
            add_count(text, b" place ", account.place)
        }
    }
}
