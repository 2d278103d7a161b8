//! Values, ids and messages to the end of bytes.

ghost use Rattle.std.specs.Prelude.{◌≡◌, ◌≤◌, ◌++◌, ◌∷◌, [], OnOk, length};
ghost use Rattle.std.specs.List.{flat_map};
ghost use Rattle.dura_value.specs.Views.{id_of, reply_of, answer_of, spot_of, spots_of, body_of, message_of};
ghost use Rattle.dura_value.specs.Limits.{most_spots};
ghost use Rattle.dura_value.specs.Messages.{lock};
ghost use Rattle.dura_codec.specs.Spelling.{spell_word, spell_text, spell_scalar, spell_value, spell_id, spell_reply, spell_answer, spell_outcome, spell_spot, spell_body, spell_message, CanSpell, CanSpellAnswer, CanSpellOutcome, CanSpellBody};

use crate::numbers::{write_u16, write_u32, write_u64};
use crate::tags::{
    CLIENT, DONE, ENDED, ENTITY, EXISTS, FAILED, FALSE, FLOW, GRANTED, INT, LIST, LOCK, MISSING,
    NOBODY, NULL, OPERATE, QUERY, RAISE, RAISED, RELEASE, REQUEST, RESULT, RUNNING, START, STARTED,
    TASK, TEXT, TRUE, UNKNOWN, VALUE, WAIT,
};
use dura_value::{Answer, Body, Id, Key, Message, Name, Outcome, Reply, Scalar, Spot, Text, Value};
use std::alloc::AllocError;

fn write_byte(out: &mut Vec<u8>, byte: u8) -> Result<(), AllocError>
    ensures { OnOk result (out.new.items ≡ out.old.items ++ byte ∷ []) }
{
    Ok(out.push(byte)?)
}

/// A name behind its length.
pub fn write_name(out: &mut Vec<u8>, name: &Name) -> Result<(), AllocError>
    ensures { OnOk result (out.new.items ≡ out.old.items ++ spell_word name.now) }
{
    let bytes = name.as_bytes();
    out.push(bytes.len() as u8)?;
    out.extend_from_slice(bytes)
}

/// A key behind its length.
pub fn write_key(out: &mut Vec<u8>, key: &Key) -> Result<(), AllocError>
    ensures { OnOk result (out.new.items ≡ out.old.items ++ spell_word key.now) }
{
    let bytes = key.as_bytes();
    out.push(bytes.len() as u8)?;
    out.extend_from_slice(bytes)
}

/// A text behind its length.
pub fn write_text(out: &mut Vec<u8>, text: &Text) -> Result<(), AllocError>
    ensures { OnOk result (out.new.items ≡ out.old.items ++ spell_text text.now) }
{
    let bytes = text.as_bytes();
    write_u16(out, bytes.len() as u16)?;
    out.extend_from_slice(bytes)
}

fn write_scalar(out: &mut Vec<u8>, scalar: &Scalar) -> Result<(), AllocError>
    ensures { OnOk result (out.new.items ≡ out.old.items ++ spell_scalar scalar.now) }
{
    match scalar {
        Scalar::Null => write_byte(out, NULL),
        Scalar::False => write_byte(out, FALSE),
        Scalar::True => write_byte(out, TRUE),
        Scalar::Int(n) => {
            out.push(INT)?;
            write_u64(out, n.cast_unsigned())
        }
        Scalar::Text(text) => {
            out.push(TEXT)?;
            write_text(out, text)
        }
    }
}

fn write_scalars(out: &mut Vec<u8>, scalars: &[Scalar]) -> Result<(), AllocError>
    ensures { OnOk result (out.new.items ≡ out.old.items ++ flat_map spell_scalar scalars.now) }
{
    for scalar in scalars {
        write_scalar(out, scalar)?;
    }
    Ok(())
}

/// A value, whose list has at most 1,024 scalars.
pub fn write_value(out: &mut Vec<u8>, value: &Value) -> Result<(), AllocError>
    requires { CanSpell value.now }
    ensures { OnOk result (out.new.items ≡ out.old.items ++ spell_value value.now) }
{
    match value {
        Value::Null => write_byte(out, NULL),
        Value::False => write_byte(out, FALSE),
        Value::True => write_byte(out, TRUE),
        Value::Int(n) => {
            out.push(INT)?;
            write_u64(out, n.cast_unsigned())
        }
        Value::Text(text) => {
            out.push(TEXT)?;
            write_text(out, text)
        }
        Value::List(scalars) => {
            let scalars = scalars.as_slice();
            out.push(LIST)?;
            write_u16(out, scalars.len() as u16)?;
            write_scalars(out, scalars)
        }
    }
}

/// Writes an id behind what is there.
pub fn write_id(out: &mut Vec<u8>, id: &Id) -> Result<(), AllocError>
    ensures { OnOk result (out.new.items ≡ out.old.items ++ spell_id (id_of id.now)) }
{
    match id {
        Id::Flow(flow, key) => {
            out.push(FLOW)?;
            write_name(out, flow)?;
            write_key(out, key)
        }
        Id::Entity(class, key) => {
            out.push(ENTITY)?;
            write_name(out, class)?;
            write_key(out, key)
        }
        Id::Client(name) => {
            out.push(CLIENT)?;
            write_name(out, name)
        }
    }
}

/// Who is answered.
pub fn write_reply(out: &mut Vec<u8>, reply: &Reply) -> Result<(), AllocError>
    ensures { OnOk result (out.new.items ≡ out.old.items ++ spell_reply (reply_of reply.now)) }
{
    match reply {
        Reply::None => write_byte(out, NOBODY),
        Reply::Task(number) => {
            out.push(TASK)?;
            write_u32(out, *number)
        }
        Reply::Request(number) => {
            out.push(REQUEST)?;
            write_u32(out, *number)
        }
    }
}

/// Writes an answer behind what is there.
pub fn write_answer(out: &mut Vec<u8>, answer: &Answer) -> Result<(), AllocError>
    requires { CanSpellAnswer (answer_of answer.now) }
    ensures { OnOk result (out.new.items ≡ out.old.items ++ spell_answer (answer_of answer.now)) }
{
    match answer {
        Answer::Done(value) => {
            out.push(DONE)?;
            write_value(out, value)
        }
        Answer::Failed(text) => {
            out.push(FAILED)?;
            write_text(out, text)
        }
        Answer::Started => write_byte(out, STARTED),
        Answer::Exists => write_byte(out, EXISTS),
        Answer::Unknown => write_byte(out, UNKNOWN),
        Answer::Raised => write_byte(out, RAISED),
        Answer::Ended => write_byte(out, ENDED),
        Answer::None => write_byte(out, MISSING),
        Answer::Running => write_byte(out, RUNNING),
        Answer::Value(value) => {
            out.push(VALUE)?;
            write_value(out, value)
        }
    }
}

/// What an activity came to.
pub fn write_outcome(out: &mut Vec<u8>, outcome: &Outcome) -> Result<(), AllocError>
    requires { CanSpellOutcome outcome.now }
    ensures { OnOk result (out.new.items ≡ out.old.items ++ spell_outcome outcome.now) }
{
    match outcome {
        Outcome::Done(value) => {
            out.push(DONE)?;
            write_value(out, value)
        }
        Outcome::Failed(text) => {
            out.push(FAILED)?;
            write_text(out, text)
        }
    }
}

fn write_spot(out: &mut Vec<u8>, spot: &Spot) -> Result<(), AllocError>
    ensures { OnOk result (out.new.items ≡ out.old.items ++ spell_spot (spot_of spot.now)) }
{
    write_name(out, &spot.class)?;
    write_key(out, &spot.key)
}

fn write_spots(out: &mut Vec<u8>, spots: &[Spot]) -> Result<(), AllocError>
    ensures { OnOk result (out.new.items
        ≡ out.old.items ++ flat_map spell_spot (spots_of spots.now)) }
{
    for spot in spots {
        write_spot(out, spot)?;
    }
    Ok(())
}

fn write_lock(
    out: &mut Vec<u8>,
    id: &Id,
    task: u32,
    spots: &[Spot],
    index: u8,
) -> Result<(), AllocError>
    requires { length spots.now ≤ most_spots }
    ensures { OnOk result (out.new.items
        ≡ out.old.items ++ spell_body (lock (id_of id.now) task (spots_of spots.now) index)) }
{
    out.push(LOCK)?;
    write_id(out, id)?;
    write_u32(out, task)?;
    out.push(spots.len() as u8)?;
    write_spots(out, spots)?;
    Ok(out.push(index)?)
}

/// What a message says.
pub fn write_body(out: &mut Vec<u8>, body: &Body) -> Result<(), AllocError>
    requires { CanSpellBody (body_of body.now) }
    ensures { OnOk result (out.new.items ≡ out.old.items ++ spell_body (body_of body.now)) }
{
    match body {
        Body::Start(argument, reply) => {
            out.push(START)?;
            write_value(out, argument)?;
            write_reply(out, reply)
        }
        Body::Raise(event, value, number) => {
            out.push(RAISE)?;
            write_name(out, event)?;
            write_value(out, value)?;
            write_u32(out, *number)
        }
        Body::Query(number) => {
            out.push(QUERY)?;
            write_u32(out, *number)
        }
        Body::Wait(number) => {
            out.push(WAIT)?;
            write_u32(out, *number)
        }
        Body::Result(reply, answer) => {
            out.push(RESULT)?;
            write_reply(out, reply)?;
            write_answer(out, answer)
        }
        Body::Op(operation, argument, reply) => {
            out.push(OPERATE)?;
            write_name(out, operation)?;
            write_value(out, argument)?;
            write_reply(out, reply)
        }
        Body::Lock(id, task, set, index) => write_lock(out, id, *task, set.as_slice(), *index),
        Body::Granted(task) => {
            out.push(GRANTED)?;
            write_u32(out, *task)
        }
        Body::Release => write_byte(out, RELEASE),
    }
}

/// Writes a message behind what is there.
pub fn write_message(out: &mut Vec<u8>, message: &Message) -> Result<(), AllocError>
    requires { CanSpellBody (body_of message.now.body) }
    ensures { OnOk result (out.new.items
        ≡ out.old.items ++ spell_message (message_of message.now)) }
{
    write_id(out, &message.from)?;
    write_id(out, &message.to)?;
    write_body(out, &message.body)
}
