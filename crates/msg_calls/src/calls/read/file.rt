// A calls file: its limit, and each call after those before it.
ghost use Rattle.std.specs.Prelude.{◌≡◌, true, IfOk, map};
ghost use Rattle.serde_json.specs.View.{view};
ghost use Rattle.msg_calls.specs.{CallsFormat.calls_from, CallsFormat.calls_of, CallsFormat.file_of, Cursors.cursors_exist, Cursors.made_by};
ghost use Rattle.msg_json.specs.Faults.{Reads};

use crate::call::Call;
use crate::calls::Calls;
use crate::calls::read::call::read_call;
use crate::limits::MAX_CALLS;
use msg_json::fault::at_step;
use msg_json::json::{check_keys, list, needed};
use msg_json::{CALLS_KEYS, Fault, Key, PathStep, numbers};
use msg_world::Items;
use serde_json::Value;
use std::alloc::Global;

/// The calls file that a JSON value is, or its first fault.
pub fn read_file(alloc: Global, value: &Value) -> Result<Calls, Fault>
    ensures file { Reads (file_of (view value.now)) result }
{
    check_keys(value, CALLS_KEYS)?;
    let limit = needed(value, Key::Limit)?;
    let list = needed(value, Key::Calls)?;
    let limit = at_step(PathStep::Section(Key::Limit), numbers::limit(limit))?;
    let calls = at_step(PathStep::Section(Key::Calls), read_list(alloc, list))?;
    Ok(Calls::new(limit, calls.into_vec()))
}

fn read_list(alloc: Global, value: &Value) -> Result<Items<Call>, Fault>
    ensures calls { Reads (calls_of (view value.now)) result }
    ensures exist { IfOk result (λ v. cursors_exist 1 v ≡ true) }
{
    read_items(alloc, list(value, MAX_CALLS)?)
}

fn read_items(alloc: Global, items: &[Value]) -> Result<Items<Call>, Fault>
    ensures calls { Reads (calls_from 1 0 (map view items.now)) result }
    ensures exist { IfOk result (λ v. cursors_exist 1 v ≡ true) }
{
    let mut calls = Vec::new(alloc);
    let mut made = 1;
    for number in 0..items.len() {
        let call = read_call(alloc, made, number, &items[number])?;
        made += cursors_made(&call);
        calls.push(call)?;
    }
    Ok(Items::from_vec(calls))
}

/// How many cursors a call makes.
fn cursors_made(call: &Call) -> u32
    ensures { result ≡ made_by call.now }
{
    match call {
        Call::Cursor | Call::CursorCurrent => 1,
        _ => 0,
    }
}
