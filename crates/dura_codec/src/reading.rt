//! Readers that name a fault by its offset.

ghost use Rattle.std.specs.Prelude.{◌≡◌};
ghost use Rattle.dura_value.specs.Views.{id_of, reply_of, answer_of, message_of};
ghost use Rattle.dura_codec.specs.Fields.{ReadsAs, fault_in};
ghost use Rattle.dura_codec.specs.Grammar.{name_at, key_at, value_at, id_at, reply_at, answer_at, message_at};

use crate::fields::FieldError;
use crate::ids::{take_id, take_reply};
use crate::messages::{take_answer, take_message};
use crate::values::take_value;
use crate::words::{take_key, take_name};
use dura_value::{Answer, Id, Key, Message, Name, ReadError, Reply, Value};
use std::alloc::Global;

/// Where the fault is, from the start of these bytes.
fn at_offset(error: FieldError, bytes: &[u8]) -> ReadError
    ensures { result ≡ fault_in bytes.now error }
{
    match error {
        FieldError::Bad { left } => ReadError::Bad {
            offset: bytes.len().saturating_sub(left),
        },
        FieldError::Memory => ReadError::Memory,
    }
}

/// The name at the front, and the bytes behind it.
pub fn read_name(alloc: Global, bytes: &[u8]) -> Result<(Name, &[u8]), ReadError>
    ensures { ReadsAs (λ x. x) name_at bytes.now result }
{
    match take_name(alloc, bytes) {
        Ok(read) => Ok(read),
        Err(error) => Err(at_offset(error, bytes)),
    }
}

/// The key at the front, and the bytes behind it.
pub fn read_key(alloc: Global, bytes: &[u8]) -> Result<(Key, &[u8]), ReadError>
    ensures { ReadsAs (λ x. x) key_at bytes.now result }
{
    match take_key(alloc, bytes) {
        Ok(read) => Ok(read),
        Err(error) => Err(at_offset(error, bytes)),
    }
}

/// The value at the front, and the bytes behind it.
pub fn read_value(alloc: Global, bytes: &[u8]) -> Result<(Value, &[u8]), ReadError>
    ensures { ReadsAs (λ x. x) value_at bytes.now result }
{
    match take_value(alloc, bytes) {
        Ok(read) => Ok(read),
        Err(error) => Err(at_offset(error, bytes)),
    }
}

/// The id at the front, and the bytes behind it.
pub fn read_id(alloc: Global, bytes: &[u8]) -> Result<(Id, &[u8]), ReadError>
    ensures { ReadsAs id_of id_at bytes.now result }
{
    match take_id(alloc, bytes) {
        Ok(read) => Ok(read),
        Err(error) => Err(at_offset(error, bytes)),
    }
}

/// The reply at the front, and the bytes behind it.
pub fn read_reply(bytes: &[u8]) -> Result<(Reply, &[u8]), ReadError>
    ensures { ReadsAs reply_of reply_at bytes.now result }
{
    match take_reply(bytes) {
        Ok(read) => Ok(read),
        Err(error) => Err(at_offset(error, bytes)),
    }
}

/// The answer at the front, and the bytes behind it.
pub fn read_answer(alloc: Global, bytes: &[u8]) -> Result<(Answer, &[u8]), ReadError>
    ensures { ReadsAs answer_of answer_at bytes.now result }
{
    match take_answer(alloc, bytes) {
        Ok(read) => Ok(read),
        Err(error) => Err(at_offset(error, bytes)),
    }
}

/// The message at the front, and the bytes behind it.
pub fn read_message(alloc: Global, bytes: &[u8]) -> Result<(Message, &[u8]), ReadError>
    ensures { ReadsAs message_of message_at bytes.now result }
{
    match take_message(alloc, bytes) {
        Ok(read) => Ok(read),
        Err(error) => Err(at_offset(error, bytes)),
    }
}
