// One system: its name, its kind and program, and its conditions, join and start.
ghost use Rattle.std.specs.Prelude.{◌≡◌, IfOk};
ghost use Rattle.serde_json.specs.View.{view};
ghost use Rattle.msg_json.specs.Prelude.{Reads, in_key};
ghost use Rattle.msg_reading.specs.ScenarioFormat as Spec;
ghost use Rattle.msg_reading.specs.inner.Elements.{ReadsWith};

use crate::read::list::{Element, read_list};
use crate::read::names::Declarations;
use crate::read::place::{read_conditions, read_join, read_start};
use crate::{Fault, Kind, Name, SystemSpec};
use msg_frames::Place;
use msg_json::fault::at_step;
use msg_json::json::{check_keys, needed, text};
use msg_json::{Key, PathStep, Reason, SYSTEM_KEYS};
use msg_system::{Items, MAX_OPS, Op, Program};
use serde_json::Value;
use std::alloc::Global;

impl Element for SystemSpec {
    ghost reads = { Spec.system_at };

    fn read(
        alloc: Global,
        names: &mut Declarations,
        n: usize,
        value: &Value,
    ) -> Result<SystemSpec, Fault> {
        at_step(PathStep::Element(n), read_system(alloc, names, value))
    }
}

fn read_system(alloc: Global, names: &mut Declarations, value: &Value) -> Result<SystemSpec, Fault>
    ensures reads { ReadsWith (Spec.system_of names.old (view value.now)) names.new result }
{
    check_keys(value, SYSTEM_KEYS)?;
    let name = needed(value, Key::Name)?;
    let ops = needed(value, Key::Ops)?;
    let name = read_name(alloc, names, name)?;
    read_program(alloc, names, name, ops, value)
}

#[tactic(auto, using(msg_json::proofs::WalksOverLists::Reads_inside))]
fn read_name(alloc: Global, names: &mut Declarations, name: &Value) -> Result<Name, Fault>
    ensures reads { Reads (in_key Key.Name (Spec.system_name names.old (view name.now))) result }
    ensures declares { IfOk result (λ text. names.new ≡ Spec.with_system names.old text) }
{
    at_step(PathStep::Key(Key::Name), name_in(alloc, names, name))
}

fn name_in(alloc: Global, names: &mut Declarations, name: &Value) -> Result<Name, Fault>
    ensures reads { Reads (Spec.system_name names.old (view name.now)) result }
    ensures declares { IfOk result (λ text. names.new ≡ Spec.with_system names.old text) }
{
    let name = text(name)?;
    names.declare_system(alloc, name)
}

/// All of a system but its name.
fn read_program(
    alloc: Global,
    names: &mut Declarations,
    name: Name,
    ops: &Value,
    system: &Value,
) -> Result<SystemSpec, Fault>
    ensures reads { ReadsWith (Spec.program_of names.old name (view ops.now) (view system.now))
        names.new result }
{
    let kind = at_step(PathStep::Key(Key::Kind), read_kind(system))?;
    let ops = read_ops(alloc, names, kind, ops)?;
    let conditions = read_conditions(alloc, names, system)?;
    let join = at_step(PathStep::Key(Key::Join), read_join(system))?;
    let start = at_step(PathStep::Key(Key::Start), read_start(system))?;
    Ok(SystemSpec {
        name,
        kind,
        program: Program { ops, start },
        place: Place { conditions, join },
    })
}

fn read_kind(system: &Value) -> Result<Kind, Fault>
    ensures reads { result ≡ Spec.kind_of (view system.now) }
{
    let Some(kind) = system.get(Key::Kind.text()) else {
        return Ok(Kind::Script);
    };
    match kind.as_str() {
        Some("script") => Ok(Kind::Script),
        Some("relay") => Ok(Kind::Relay),
        Some("tally") => Ok(Kind::Tally),
        _ => Err(Fault::here(Reason::Kind)),
    }
}

/// The ops of a system of this kind.
#[tactic(auto, using(crate::proofs::ListsInTurn::ReadsWith_at_step))]
fn read_ops(
    alloc: Global,
    names: &mut Declarations,
    kind: Kind,
    ops: &Value,
) -> Result<Items<Op>, Fault>
    ensures reads { ReadsWith (in_key Key.Ops (Spec.ops_of names.old kind (view ops.now)))
        names.new result }
{
    at_step(PathStep::Key(Key::Ops), ops_in(alloc, names, kind, ops))
}

fn ops_in(
    alloc: Global,
    names: &mut Declarations,
    kind: Kind,
    ops: &Value,
) -> Result<Items<Op>, Fault>
    ensures reads { ReadsWith (Spec.ops_of names.old kind (view ops.now)) names.new result }
{
    let ops: Items<Op> = read_list(alloc, names, ops, MAX_OPS)?;
    if !kind.allows(ops.as_slice()) {
        return Err(Fault::here(Reason::NotOfKind));
    }
    Ok(ops)
}
