//! Looking into JSON.

ghost use Rattle.std.specs.Prelude.{◌≡◌, ok_or, option_map};
ghost use Rattle.serde_json.specs.View.{view, items_view};
ghost use Rattle.serde_json.specs.Find.{get};
ghost use Rattle.request_reader.specs.Json.{data_of, has_members, one_if};
ghost use Rattle.move_plan.specs.declared.error.Place.TheVariants.{Whole};
ghost use Rattle.move_plan.specs.Entries.{number_at, items_at};
ghost use Rattle.move_plan.specs.Reading.{PlanGives};

use crate::error::{Place, PlanError};
use serde_json::Value;
use std::alloc::Global;

/// The JSON that the bytes are.
#[tactic(auto, using(request_reader::proofs::Counted::data_some, request_reader::proofs::Counted::data_none))]
pub(crate) fn data_of(alloc: Global, bytes: &[u8]) -> Result<Value, PlanError>
    ensures { PlanGives view result (ok_or (data_of bytes.now) Whole) }
{
    match Value::from_slice(alloc, bytes) {
        Ok(value) => Ok(value),
        Err(error) => {
            if error.is_memory() {
                Err(PlanError::Memory)
            } else {
                Err(PlanError::BadPlan(Place::Whole))
            }
        }
    }
}

/// Whether it is an object of so many members.
#[tactic(auto, using(request_reader::proofs::Counted::count_members))]
pub(crate) fn has_members(value: &Value, count: usize) -> bool
    ensures { result ≡ has_members count (view value.now) }
{
    match value.as_object() {
        Some(members) => members.len() == count,
        None => false,
    }
}

/// 1 where there is a member under the key.
pub(crate) fn one_if_at(value: &Value, key: &str) -> usize
    ensures { result ≡ one_if (get key.now (view value.now)) }
{
    match value.get(key) {
        Some(_) => 1,
        None => 0,
    }
}

/// The integer under the key.
pub(crate) fn number_at(value: &Value, key: &str) -> Option<u64>
    ensures { result ≡ number_at key.now (view value.now) }
{
    match value.get(key) {
        Some(number) => number.as_u64(),
        None => None,
    }
}

/// The parts of the list under the key, none where there is no member.
pub(crate) fn items_at<'v>(value: &'v Value, key: &str) -> Option<&'v [Value]>
    ensures { option_map (λ items. items_view items.now) result
        ≡ items_at key.now (view value.now) }
{
    match value.get(key) {
        Some(list) => match list.as_array() {
            Some(items) => Some(items.as_slice()),
            None => None,
        },
        None => Some(&[]),
    }
}
