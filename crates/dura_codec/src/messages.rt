//! Answers, bodies and messages from the front of bytes.

ghost use Rattle.dura_value.specs.Views.{answer_of, spot_of, spots_of, body_of, message_of};
ghost use Rattle.std.specs.Prelude.{◌≡◌, Option, map};
ghost use Rattle.std.specs.Option.{option_map};
ghost use Rattle.dura_codec.specs.Fields.{Takes, several_at};
ghost use Rattle.dura_codec.specs.Grammar.{answer_at, word_of, outcome_at, spot_at, spot_count_at, lock_at, start_at, raise_at, query_at, wait_at, result_at, operate_at, granted_at, body_at, message_at};

use crate::fields::{FieldError, take_request_number, take_u8, take_u32};
use crate::ids::{take_id, take_reply};
use crate::tags::{
    DONE, ENDED, EXISTS, FAILED, GRANTED, LOCK, MISSING, OPERATE, QUERY, RAISE, RAISED, RELEASE,
    RESULT, RUNNING, START, STARTED, UNKNOWN, VALUE, WAIT,
};
use crate::values::take_value;
use crate::words::{take_key, take_name, take_text};
use dura_value::{Answer, Body, Message, Outcome, SPOTS_LIMIT, Spot, Spots, with};
use std::alloc::Global;

/// An answer that is a word.
fn word_of(tag: u8) -> Option<Answer>
    ensures { option_map answer_of result ≡ word_of tag }
{
    match tag {
        STARTED => Some(Answer::Started),
        EXISTS => Some(Answer::Exists),
        UNKNOWN => Some(Answer::Unknown),
        RAISED => Some(Answer::Raised),
        ENDED => Some(Answer::Ended),
        MISSING => Some(Answer::None),
        RUNNING => Some(Answer::Running),
        _ => None,
    }
}

/// Reads an answer from the front of these bytes.
#[tactic(auto, unfolding(crate::specs::Grammar::answer_at))]
pub fn take_answer(alloc: Global, bytes: &[u8]) -> Result<(Answer, &[u8]), FieldError>
    ensures { Takes answer_of result (answer_at bytes.now) }
{
    let (tag, rest) = take_u8(bytes)?;
    match tag {
        DONE => match take_value(alloc, rest) {
            Ok((value, rest)) => Ok((Answer::Done(value), rest)),
            Err(error) => Err(error),
        },
        FAILED => match take_text(alloc, rest) {
            Ok((text, rest)) => Ok((Answer::Failed(text), rest)),
            Err(error) => Err(error),
        },
        VALUE => match take_value(alloc, rest) {
            Ok((value, rest)) => Ok((Answer::Value(value), rest)),
            Err(error) => Err(error),
        },
        _ => match word_of(tag) {
            Some(answer) => Ok((answer, rest)),
            None => Err(FieldError::Bad { left: bytes.len() }),
        },
    }
}

/// What an activity came to: an answer that is an end.
#[tactic(auto, unfolding(crate::specs::Grammar::outcome_at))]
pub fn take_outcome(alloc: Global, bytes: &[u8]) -> Result<(Outcome, &[u8]), FieldError>
    ensures { Takes (λ x. x) result (outcome_at bytes.now) }
{
    let (tag, rest) = take_u8(bytes)?;
    match tag {
        DONE => match take_value(alloc, rest) {
            Ok((value, rest)) => Ok((Outcome::Done(value), rest)),
            Err(error) => Err(error),
        },
        FAILED => match take_text(alloc, rest) {
            Ok((text, rest)) => Ok((Outcome::Failed(text), rest)),
            Err(error) => Err(error),
        },
        _ => Err(FieldError::Bad { left: bytes.len() }),
    }
}

/// An entity's class and key.
#[tactic(auto, unfolding(crate::specs::Grammar::spot_at))]
fn take_spot(alloc: Global, bytes: &[u8]) -> Result<(Spot, &[u8]), FieldError>
    ensures { Takes spot_of result (spot_at bytes.now) }
{
    let (class, rest) = take_name(alloc, bytes)?;
    match take_key(alloc, rest) {
        Ok((key, rest)) => Ok((Spot { class, key }, rest)),
        Err(error) => Err(error),
    }
}

/// So many entities, one behind the other.
fn take_spots(alloc: Global, count: u8, bytes: &[u8]) -> Result<(Vec<Spot>, &[u8]), FieldError>
    ensures { Takes (λ v. spots_of v.items) result (several_at spot_at count bytes.now) }
{
    let mut spots = Vec::new(alloc);
    let mut rest = bytes;
    for _ in 0..count {
        let (spot, after) = take_spot(alloc, rest)?;
        spots.push(spot)?;
        rest = after;
    }
    Ok((spots, rest))
}

/// How many entities a lock's set has.
#[tactic(auto, unfolding(crate::specs::Grammar::spot_count_at))]
fn take_spot_count(bytes: &[u8]) -> Result<(u8, &[u8]), FieldError>
    ensures { Takes (λ n. n) result (spot_count_at bytes.now) }
{
    let (count, rest) = take_u8(bytes)?;
    if count as usize > SPOTS_LIMIT {
        return Err(FieldError::Bad { left: bytes.len() });
    }
    Ok((count, rest))
}

#[tactic(auto, unfolding(crate::specs::Grammar::lock_at))]
fn take_lock(alloc: Global, bytes: &[u8]) -> Result<(Body, &[u8]), FieldError>
    ensures { Takes body_of result (lock_at bytes.now) }
{
    let (id, rest) = take_id(alloc, bytes)?;
    let ((task, rest), id) = with(take_u32(rest), id)?;
    let ((count, rest), id) = with(take_spot_count(rest), id)?;
    let ((spots, rest), id) = with(take_spots(alloc, count, rest), id)?;
    match with(take_u8(rest), id) {
        Ok(((index, rest), id)) => Ok((Body::Lock(id, task, Spots::of(spots), index), rest)),
        Err(error) => Err(error),
    }
}

#[tactic(auto, unfolding(crate::specs::Grammar::start_at))]
fn take_start(alloc: Global, bytes: &[u8]) -> Result<(Body, &[u8]), FieldError>
    ensures { Takes body_of result (start_at bytes.now) }
{
    let (argument, rest) = take_value(alloc, bytes)?;
    match with(take_reply(rest), argument) {
        Ok(((reply, rest), argument)) => Ok((Body::Start(argument, reply), rest)),
        Err(error) => Err(error),
    }
}

#[tactic(auto, unfolding(crate::specs::Grammar::raise_at))]
fn take_raise(alloc: Global, bytes: &[u8]) -> Result<(Body, &[u8]), FieldError>
    ensures { Takes body_of result (raise_at bytes.now) }
{
    let (event, rest) = take_name(alloc, bytes)?;
    let (value, rest) = take_value(alloc, rest)?;
    match with(take_request_number(rest), value) {
        Ok(((number, rest), value)) => Ok((Body::Raise(event, value, number), rest)),
        Err(error) => Err(error),
    }
}

#[tactic(auto, unfolding(crate::specs::Grammar::query_at))]
fn take_query(bytes: &[u8]) -> Result<(Body, &[u8]), FieldError>
    ensures { Takes body_of result (query_at bytes.now) }
{
    match take_request_number(bytes) {
        Ok((number, rest)) => Ok((Body::Query(number), rest)),
        Err(error) => Err(error),
    }
}

#[tactic(auto, unfolding(crate::specs::Grammar::wait_at))]
fn take_wait(bytes: &[u8]) -> Result<(Body, &[u8]), FieldError>
    ensures { Takes body_of result (wait_at bytes.now) }
{
    match take_request_number(bytes) {
        Ok((number, rest)) => Ok((Body::Wait(number), rest)),
        Err(error) => Err(error),
    }
}

#[tactic(auto, unfolding(crate::specs::Grammar::result_at))]
fn take_result(alloc: Global, bytes: &[u8]) -> Result<(Body, &[u8]), FieldError>
    ensures { Takes body_of result (result_at bytes.now) }
{
    let (reply, rest) = take_reply(bytes)?;
    match take_answer(alloc, rest) {
        Ok((answer, rest)) => Ok((Body::Result(reply, answer), rest)),
        Err(error) => Err(error),
    }
}

#[tactic(auto, unfolding(crate::specs::Grammar::operate_at))]
fn take_operate(alloc: Global, bytes: &[u8]) -> Result<(Body, &[u8]), FieldError>
    ensures { Takes body_of result (operate_at bytes.now) }
{
    let (operation, rest) = take_name(alloc, bytes)?;
    let (argument, rest) = take_value(alloc, rest)?;
    match with(take_reply(rest), argument) {
        Ok(((reply, rest), argument)) => Ok((Body::Op(operation, argument, reply), rest)),
        Err(error) => Err(error),
    }
}

#[tactic(auto, unfolding(crate::specs::Grammar::granted_at))]
fn take_granted(bytes: &[u8]) -> Result<(Body, &[u8]), FieldError>
    ensures { Takes body_of result (granted_at bytes.now) }
{
    match take_u32(bytes) {
        Ok((task, rest)) => Ok((Body::Granted(task), rest)),
        Err(error) => Err(error),
    }
}

/// What a message says.
#[tactic(auto, unfolding(crate::specs::Grammar::body_at))]
pub fn take_body(alloc: Global, bytes: &[u8]) -> Result<(Body, &[u8]), FieldError>
    ensures { Takes body_of result (body_at bytes.now) }
{
    let (tag, rest) = take_u8(bytes)?;
    match tag {
        START => take_start(alloc, rest),
        RAISE => take_raise(alloc, rest),
        QUERY => take_query(rest),
        WAIT => take_wait(rest),
        RESULT => take_result(alloc, rest),
        OPERATE => take_operate(alloc, rest),
        LOCK => take_lock(alloc, rest),
        GRANTED => take_granted(rest),
        RELEASE => Ok((Body::Release, rest)),
        _ => Err(FieldError::Bad { left: bytes.len() }),
    }
}

/// Reads a message from the front of these bytes.
#[tactic(auto, unfolding(crate::specs::Grammar::message_at))]
pub fn take_message(alloc: Global, bytes: &[u8]) -> Result<(Message, &[u8]), FieldError>
    ensures { Takes message_of result (message_at bytes.now) }
{
    let (from, rest) = take_id(alloc, bytes)?;
    let ((to, rest), from) = with(take_id(alloc, rest), from)?;
    match with(with(take_body(alloc, rest), from), to) {
        Ok((((body, rest), from), to)) => Ok((Message { from, to, body }, rest)),
        Err(error) => Err(error),
    }
}
