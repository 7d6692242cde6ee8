// The line of the readers and of the writers.
ghost use Rattle.std.specs.Prelude.{◌≡◌, ◌++◌, OnOk, codes, length};
ghost use Rattle.msg_frames.specs.Prelude.{State};
ghost use Rattle.msg_world.specs.Prelude.{IsWhole, PartsStand, i64_values, slot};
ghost use Rattle.msg_world.specs.declared.part.Part.TheVariants.{OfType};
ghost use Rattle.msg_log_json.specs.Prelude as Spec;
ghost use Rattle.msg_log_json.specs.Prelude.{listed};
ghost use Rattle.msg_log_json.specs.inner.KeptJson.{account_kept, accounts_kept, past_kept};

use crate::list::add_comma;
use msg_buffer::NoMemory;
use msg_frames::{Account, WriterAccount};
use msg_json::numerals::add_count;
use msg_reading::Scenario;
use msg_reading::names::{add_system_name, add_type};
use msg_world::{TypeNo, World};

/// The line of the readers, with what each type of the world has for them, and of the writers.
pub fn add_readers_line(
    text: &mut Vec<u8>,
    scenario: &Scenario,
    accounts: &[Account],
    writers: &[WriterAccount],
    world: &World,
) -> Result<(), NoMemory>
    requires whole { IsWhole world.now }
    requires types { length world.now.types ≡ length scenario.now.types }
    ensures appends { OnOk result
        ((now : State i64_values) → PartsStand world.now now.world
        → text.new.items ≡ text.old.items
        ++ Spec.readers_line scenario.now accounts.now writers.now now) }
{
    text.extend_from_slice(b"{\"readers\":[")?;
    add_accounts(text, scenario, accounts, world)?;
    text.extend_from_slice(b"],\"writers\":[")?;
    add_writers(text, scenario, writers)?;
    text.extend_from_slice(b"]}\n")
}

fn add_writers(
    text: &mut Vec<u8>,
    scenario: &Scenario,
    writers: &[WriterAccount],
) -> Result<(), NoMemory>
    ensures appends { OnOk result (text.new.items
        ≡ text.old.items ++ listed (Spec.writer_json scenario.now) writers.now) }
{
    for (k, writer) in writers.iter().enumerate() {
        add_comma(text, k)?;
        add_writer(text, scenario, writer)?;
    }
    Ok(())
}

/// What a writer was refused.
fn add_writer(
    text: &mut Vec<u8>,
    scenario: &Scenario,
    writer: &WriterAccount,
) -> Result<(), NoMemory>
    ensures appends { OnOk result
        (text.new.items ≡ text.old.items ++ Spec.writer_json scenario.now writer.now) }
{
    add_use(text, scenario, writer.system, writer.of_type)?;
    add_count(text, b",\"refused\":", writer.refused)?;
    text.extend_from_slice(b"}")
}

fn add_accounts(
    text: &mut Vec<u8>,
    scenario: &Scenario,
    accounts: &[Account],
    world: &World,
) -> Result<(), NoMemory>
    ensures appends { OnOk result (text.new.items
        ≡ text.old.items ++ accounts_kept scenario.now world.now accounts.now) }
{
    for (k, account) in accounts.iter().enumerate() {
        add_comma(text, k)?;
        add_account(text, scenario, account, world)?;
    }
    Ok(())
}

fn add_account(
    text: &mut Vec<u8>,
    scenario: &Scenario,
    account: &Account,
    world: &World,
) -> Result<(), NoMemory>
    ensures appends { OnOk result (text.new.items
        ≡ text.old.items ++ account_kept scenario.now world.now account.now) }
{
    add_use(text, scenario, account.system, account.of_type)?;
    add_standing(text, account)?;
    add_past(text, account.of_type, account.place, world)?;
    text.extend_from_slice(b"}")
}

/// A system, and a type that it reads or writes.
#[tactic(auto, unfolding(crate::specs::LogJson::use_json))]
fn add_use(
    text: &mut Vec<u8>,
    scenario: &Scenario,
    system: u32,
    of_type: TypeNo,
) -> Result<(), NoMemory>
    ensures appends { OnOk result
        (text.new.items ≡ text.old.items ++ Spec.use_json scenario.now system of_type) }
{
    text.extend_from_slice(b"{\"system\":\"")?;
    add_system_name(text, scenario, system)?;
    text.extend_from_slice(b"\",\"type\":\"")?;
    add_type(text, scenario, of_type)?;
    text.extend_from_slice(b"\"")
}

/// Where a reader stands, if it has joined.
#[tactic(auto, unfolding(crate::specs::LogJson::standing_json))]
fn add_standing(text: &mut Vec<u8>, account: &Account) -> Result<(), NoMemory>
    ensures { OnOk result (text.new.items
        ≡ text.old.items ++ Spec.standing_json account.now account.now.start) }
{
    let Some(start) = account.start else {
        return text.extend_from_slice(b",\"waiting\":true");
    };
    add_count(text, b",\"start\":", start)?;
    add_count(text, b",\"got\":", account.got)?;
    add_count(text, b",\"missed\":", account.missed)?;
    add_count(text, b",\"cleared\":", account.cleared)?;
    add_count(text, b",\"place\":", account.place)
}

/// What there is past a place: the messages that were dropped, and those that are kept.
#[tactic(auto, unfolding(crate::specs::inner::KeptJson::past_kept))]
fn add_past(text: &mut Vec<u8>, of_type: TypeNo, place: u64, world: &World) -> Result<(), NoMemory>
    ensures appends { OnOk result (text.new.items
        ≡ text.old.items ++ past_kept (slot (OfType of_type) world.now) place) }
{
    let Some(messages) = world.messages(of_type) else {
        return Ok(());
    };
    let (oldest, count) = (messages.oldest(), messages.count());
    add_count(text, b",\"lost\":", oldest.saturating_sub(place))?;
    add_count(
        text,
        b",\"unread\":",
        count.saturating_sub(place.max(oldest)),
    )?;
    add_count(text, b",\"written\":", count)
}
