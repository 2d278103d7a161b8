//! Ids and replies from the front of bytes.

ghost use Rattle.dura_value.specs.Views.{id_of, reply_of};
ghost use Rattle.dura_codec.specs.Fields.{Takes};
ghost use Rattle.dura_codec.specs.Grammar.{id_at, reply_at};

use crate::fields::{FieldError, take_request_number, take_u8, take_u32};
use crate::tags::{CLIENT, ENTITY, FLOW, NOBODY, REQUEST, TASK};
use crate::words::{take_key, take_name};
use dura_value::{Id, Reply};
use std::alloc::Global;

/// Reads an id from the front of these bytes.
#[tactic(auto, unfolding(crate::specs::Grammar::id_at))]
pub fn take_id(alloc: Global, bytes: &[u8]) -> Result<(Id, &[u8]), FieldError>
    ensures { Takes id_of result (id_at bytes.now) }
{
    let (tag, rest) = take_u8(bytes)?;
    match tag {
        FLOW => {
            let (flow, rest) = take_name(alloc, rest)?;
            match take_key(alloc, rest) {
                Ok((key, rest)) => Ok((Id::Flow(flow, key), rest)),
                Err(error) => Err(error),
            }
        }
        ENTITY => {
            let (class, rest) = take_name(alloc, rest)?;
            match take_key(alloc, rest) {
                Ok((key, rest)) => Ok((Id::Entity(class, key), rest)),
                Err(error) => Err(error),
            }
        }
        CLIENT => match take_name(alloc, rest) {
            Ok((name, rest)) => Ok((Id::Client(name), rest)),
            Err(error) => Err(error),
        },
        _ => Err(FieldError::Bad { left: bytes.len() }),
    }
}

/// Who is answered.
#[tactic(auto, unfolding(crate::specs::Grammar::reply_at))]
pub fn take_reply(bytes: &[u8]) -> Result<(Reply, &[u8]), FieldError>
    ensures { Takes reply_of result (reply_at bytes.now) }
{
    let (tag, rest) = take_u8(bytes)?;
    match tag {
        NOBODY => Ok((Reply::None, rest)),
        TASK => match take_u32(rest) {
            Ok((number, rest)) => Ok((Reply::Task(number), rest)),
            Err(error) => Err(error),
        },
        REQUEST => match take_request_number(rest) {
            Ok((number, rest)) => Ok((Reply::Request(number), rest)),
            Err(error) => Err(error),
        },
        _ => Err(FieldError::Bad { left: bytes.len() }),
    }
}
