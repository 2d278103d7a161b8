//! Looking into JSON.

ghost use Rattle.std.specs.Prelude.{◌≡◌, option_map};
ghost use Rattle.serde_json.specs.View.{view};
ghost use Rattle.serde_json.specs.Find.{get};
ghost use Rattle.dura_value.specs.Views.{id_of};
ghost use Rattle.request_reader.specs.Json.{data_of, has_members, one_if, text_at, name_at, id_at};
ghost use Rattle.request_reader.specs.Reading.{LineGives};

use crate::error::ReadError;
use dura_value::{Id, Name, is_name};
use serde_json::Value;
use std::alloc::Global;

/// The JSON that the bytes are.
#[tactic(auto, using(crate::proofs::Counted::data_some, crate::proofs::Counted::data_none))]
pub(crate) fn data_of(alloc: Global, bytes: &[u8]) -> Result<Value, ReadError>
    ensures { LineGives view result (data_of bytes.now) }
{
    match Value::from_slice(alloc, bytes) {
        Ok(value) => Ok(value),
        Err(error) => {
            if error.is_memory() {
                Err(ReadError::Memory)
            } else {
                Err(ReadError::Refused)
            }
        }
    }
}

#[tactic(auto, using(crate::proofs::Counted::count_members))]
pub(crate) fn has_members(value: &Value, count: usize) -> bool
    ensures { result ≡ has_members count (view value.now) }
{
    match value.as_object() {
        Some(members) => members.len() == count,
        None => false,
    }
}

/// 1 where there is a member under the key.
pub(crate) fn one_if_at(value: &Value, key: &str) -> usize
    ensures { result ≡ one_if (get key.now (view value.now)) }
{
    match value.get(key) {
        Some(_) => 1,
        None => 0,
    }
}

pub(crate) fn text_at<'v>(value: &'v Value, key: &str) -> Option<&'v str>
    ensures { option_map (λ text. text.now) result ≡ text_at key.now (view value.now) }
{
    match value.get(key) {
        Some(text) => text.as_str(),
        None => None,
    }
}

pub(crate) fn name_at(alloc: Global, value: &Value, key: &str) -> Result<Name, ReadError>
    ensures { LineGives (λ name. name) result (name_at key.now (view value.now)) }
{
    match text_at(value, key) {
        Some(text) => {
            if is_name(text.as_bytes()) {
                Ok(Name::of(alloc, text.as_bytes())?)
            } else {
                Err(ReadError::Refused)
            }
        }
        None => Err(ReadError::Refused),
    }
}

pub(crate) fn id_at(alloc: Global, value: &Value, key: &str) -> Result<Id, ReadError>
    ensures { LineGives id_of result (id_at key.now (view value.now)) }
{
    match text_at(value, key) {
        Some(text) => match Id::read(alloc, text.as_bytes()) {
            Ok(id) => Ok(id),
            Err(dura_value::ReadError::Bad { .. }) => Err(ReadError::Refused),
            Err(dura_value::ReadError::Memory) => Err(ReadError::Memory),
        },
        None => Err(ReadError::Refused),
    }
}
