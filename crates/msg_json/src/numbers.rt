// Numbers in a JSON value.
ghost use Rattle.std.specs.Prelude.{◌≡◌, ◌<◌, [], IfOk, IsOk, map};
ghost use Rattle.std.specs.List.{list_all};
ghost use Rattle.serde_json.specs.View.{view, number_view};
ghost use Rattle.msg_json.specs.{Faults.Reads, Json.is_number, Seen.items_seen, Seen.number_seen, Values.batch_of, Values.below, Values.limit_of, Values.natural, Values.number_of, Values.numbers_of, Values.value_of, Values.values_from, Values.values_of, Values.whole};

use crate::fault::{Fault, at_step};
use crate::limits::{MAX_LIMIT, MAX_VALUES};
use crate::location::PathStep;
use crate::reason::Reason;
use msg_world::Items;
use serde_json::{Number, Value};
use std::alloc::Global;

/// The number that a value is.
pub fn number(value: &Value) -> Result<&Number, Fault>
    ensures number { number_seen result ≡ number_of (view value.now) }
{
    value.as_number().ok_or(Fault::here(Reason::Number))
}

/// The whole number of an `i64` that it is.
pub fn whole_number(n: &Number) -> Result<i64, Fault>
    ensures whole { result ≡ whole (number_view n.now) }
{
    n.as_i64().ok_or(Fault::here(Reason::Whole))
}

/// The whole number from 0 that it is.
pub fn natural_number(n: &Number) -> Result<u64, Fault>
    ensures natural { result ≡ natural (number_view n.now) }
{
    match n.as_i64() {
        Some(k) if k >= 0 => Ok(k as u64),
        _ => Err(Fault::here(Reason::Natural)),
    }
}

/// The whole number from 0 to below `end` that it is.
pub fn small_number(n: &Number, end: u32) -> Result<u32, Fault>
    ensures small { IfOk result (λ k. k < end) }
    ensures below { result ≡ below end (number_view n.now) }
{
    match n.as_i64() {
        Some(k) if 0 <= k && k < i64::from(end) => Ok(k as u32),
        _ => Err(Fault::here(Reason::Below(end))),
    }
}

/// A value of a message or of a resource.
pub fn value(value: &Value) -> Result<i64, Fault>
    ensures value { result ≡ value_of (view value.now) }
{
    whole_number(number(value)?)
}

/// A limit of a buffer, of a type or of a read.
pub fn limit(value: &Value) -> Result<u32, Fault>
    ensures limit { result ≡ limit_of (view value.now) }
{
    small_number(number(value)?, MAX_LIMIT + 1)
}

/// Whether all items are numbers, of any kind.
fn are_numbers(items: &[Value]) -> bool
    ensures { result ≡ list_all (λ v. is_number (view v)) items.now }
{
    items.iter().all(|item| item.as_number().is_some())
}

/// The items of a list of numbers.
#[tactic(auto, using(crate::proofs::WalksOverLists::list_steps))]
pub fn list_of_numbers(value: &Value) -> Result<&[Value], Fault>
    ensures items { items_seen result ≡ numbers_of (view value.now) }
{
    let Some(items) = value.as_array() else {
        return Err(Fault::here(Reason::Numbers));
    };
    let items = items.as_slice();
    if !are_numbers(items) {
        return Err(Fault::here(Reason::Numbers));
    }
    Ok(items)
}

/// The values of a batch, as a list of numbers.
pub fn values(alloc: Global, value: &Value) -> Result<Items<i64>, Fault>
    ensures values { Reads (values_of (view value.now)) result }
{
    batch_values(alloc, list_of_numbers(value)?)
}

/// The values of a batch.
#[tactic(auto, using(crate::proofs::WalksOverLists::list_steps))]
pub fn batch_values(alloc: Global, items: &[Value]) -> Result<Items<i64>, Fault>
    ensures values { Reads (batch_of (map view items.now)) result }
    ensures no_memory { items.now ≡ [] → IsOk result }
{
    if items.len() > MAX_VALUES {
        return Err(Fault::here(Reason::AtMost(MAX_VALUES)));
    }
    let mut values = Vec::new(alloc);
    for item in items {
        values.push(at_step(PathStep::Value(values.len()), value(item))?)?;
    }
    Ok(Items::from_vec(values))
}
