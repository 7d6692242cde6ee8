// An op at the end of a text.
ghost use Rattle.std.specs.Prelude.{◌≡◌, ◌++◌, OnOk};
ghost use Rattle.msg_scenario.specs.Prelude.{op_text};
ghost use Rattle.msg_reading.specs.Prelude.{resource_name, type_name};

use msg_buffer::NoMemory;
use msg_reading::Scenario;
use msg_reading::names::{add_resource, add_type};
use msg_system::Op;
use msg_world::{ResNo, TypeNo};

/// An op by its head, and by what it works on.
pub fn add_op(text: &mut Vec<u8>, scenario: &Scenario, op: &Op) -> Result<(), NoMemory>
    ensures appends { OnOk result (text.new.items ≡ text.old.items ++ op_text scenario.now op.now) }
{
    match op {
        Op::Write(t, _) => on_type(text, scenario, b"write ", *t),
        Op::Batch(t, _) => on_type(text, scenario, b"batch ", *t),
        Op::Read(t, _) => on_type(text, scenario, b"read ", *t),
        Op::Len(t) => on_type(text, scenario, b"len ", *t),
        Op::Missed(t) => on_type(text, scenario, b"missed ", *t),
        Op::Clear(t) => on_type(text, scenario, b"clear ", *t),
        Op::Forward(t, u) => {
            on_type(text, scenario, b"forward ", *t)?;
            on_type(text, scenario, b" ", *u)
        }
        Op::Sum(t, r) => {
            on_type(text, scenario, b"sum ", *t)?;
            on_resource(text, scenario, b" ", *r)
        }
        Op::Get(r) => on_resource(text, scenario, b"get ", *r),
        Op::Set(r, _) => on_resource(text, scenario, b"set ", *r),
        Op::Add(r, _) => on_resource(text, scenario, b"add ", *r),
        Op::Drain(t) => on_type(text, scenario, b"drain ", *t),
        Op::Signal => text.extend_from_slice(b"signal"),
    }
}

fn on_type(text: &mut Vec<u8>, scenario: &Scenario, head: &[u8], t: TypeNo) -> Result<(), NoMemory>
    ensures { OnOk result
        (text.new.items ≡ text.old.items ++ (head.now ++ type_name scenario.now t)) }
{
    text.extend_from_slice(head)?;
    add_type(text, scenario, t)
}

fn on_resource(
    text: &mut Vec<u8>,
    scenario: &Scenario,
    head: &[u8],
    r: ResNo,
) -> Result<(), NoMemory>
    ensures { OnOk result
        (text.new.items ≡ text.old.items ++ (head.now ++ resource_name scenario.now r)) }
{
    text.extend_from_slice(head)?;
    add_resource(text, scenario, r)
}
