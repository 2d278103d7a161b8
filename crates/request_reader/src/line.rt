//! The request of a line.

ghost use Rattle.std.specs.Prelude.{◌≡◌, Some, IfOk};
ghost use Rattle.serde_json.specs.View.{view};
ghost use Rattle.dura_value.specs.Ids.{client as client_id};
ghost use Rattle.dura_value.specs.Views.{id_of, body_of, message_of};
ghost use Rattle.request_reader.specs.Json.{id_at};
ghost use Rattle.request_reader.specs.Reading.{LineGives};
ghost use Rattle.dura_value.specs.Optional.{where_it, ◌>>=◌ as bind};
ghost use Rattle.request_reader.specs.Line.{is_instance, has_state, number_in, start_in, wait_in, raise_in, query_in, sent_in, request_in, request_on, request_of};

use crate::error::ReadError;
use crate::json;
use crate::values::value_at;
use dura_value::{Body, Id, Message, Name, Reply, Request, with};
use serde_json::Value;
use std::alloc::{AllocError, Global};

fn is_instance(id: &Id) -> bool
    ensures { result ≡ is_instance (id_of id.now) }
{
    match id {
        Id::Flow(_, _) => true,
        Id::Entity(_, _) => false,
        Id::Client(_) => false,
    }
}

fn has_state(id: &Id) -> bool
    ensures { result ≡ has_state (id_of id.now) }
{
    match id {
        Id::Flow(_, _) => true,
        Id::Entity(_, _) => true,
        Id::Client(_) => false,
    }
}

fn instance_at(alloc: Global, value: &Value, key: &str) -> Result<Id, ReadError>
    ensures { LineGives id_of result
        (bind (id_at key.now (view value.now)) (where_it is_instance)) }
{
    let id = json::id_at(alloc, value, key)?;
    if is_instance(&id) {
        Ok(id)
    } else {
        Err(ReadError::Refused)
    }
}

/// The request's number.
fn number_in(value: &Value) -> Option<u32>
    ensures { result ≡ number_in (view value.now) }
{
    match value.get("n") {
        Some(number) => match number.as_u64() {
            Some(number) if number >= 1 && number <= u32::MAX as u64 => Some(number as u32),
            _ => None,
        },
        None => None,
    }
}

fn start_in(alloc: Global, number: u32, value: &Value) -> Result<(Id, Body), ReadError>
    ensures { LineGives (λ sent. (id_of sent.0, body_of sent.1)) result
        (start_in number (view value.now)) }
{
    if !json::has_members(value, 3 + json::one_if_at(value, "arg")) {
        return Err(ReadError::Refused);
    }
    let to = instance_at(alloc, value, "start")?;
    match with(value_at(alloc, value, "arg"), to) {
        Ok((argument, to)) => Ok((to, Body::Start(argument, Reply::Request(number)))),
        Err(error) => Err(error),
    }
}

fn wait_in(alloc: Global, number: u32, value: &Value) -> Result<(Id, Body), ReadError>
    ensures { LineGives (λ sent. (id_of sent.0, body_of sent.1)) result
        (wait_in number (view value.now)) }
{
    if !json::has_members(value, 3) {
        return Err(ReadError::Refused);
    }
    match instance_at(alloc, value, "wait") {
        Ok(to) => Ok((to, Body::Wait(number))),
        Err(error) => Err(error),
    }
}

fn raise_in(alloc: Global, number: u32, value: &Value) -> Result<(Id, Body), ReadError>
    ensures { LineGives (λ sent. (id_of sent.0, body_of sent.1)) result
        (raise_in number (view value.now)) }
{
    if !json::has_members(value, 4 + json::one_if_at(value, "value")) {
        return Err(ReadError::Refused);
    }
    let to = instance_at(alloc, value, "raise")?;
    let (event, to) = with(json::name_at(alloc, value, "event"), to)?;
    match with(with(value_at(alloc, value, "value"), to), event) {
        Ok(((value, to), event)) => Ok((to, Body::Raise(event, value, number))),
        Err(error) => Err(error),
    }
}

fn query_in(alloc: Global, number: u32, value: &Value) -> Result<(Id, Body), ReadError>
    ensures { LineGives (λ sent. (id_of sent.0, body_of sent.1)) result
        (query_in number (view value.now)) }
{
    if !json::has_members(value, 3) {
        return Err(ReadError::Refused);
    }
    let to = json::id_at(alloc, value, "query")?;
    if has_state(&to) {
        Ok((to, Body::Query(number)))
    } else {
        Err(ReadError::Refused)
    }
}

fn sent_in(alloc: Global, number: u32, value: &Value) -> Result<(Id, Body), ReadError>
    ensures { LineGives (λ sent. (id_of sent.0, body_of sent.1)) result
        (sent_in number (view value.now)) }
{
    if value.get("start").is_some() {
        start_in(alloc, number, value)
    } else if value.get("wait").is_some() {
        wait_in(alloc, number, value)
    } else if value.get("raise").is_some() {
        raise_in(alloc, number, value)
    } else {
        query_in(alloc, number, value)
    }
}

/// What a client's request sends.
fn message_by(client: &Name, sent: (Id, Body)) -> Result<Message, AllocError>
    ensures { IfOk result (λ m. message_of m
        ≡ record { from = client_id client.now; to = id_of sent.0; body = body_of sent.1 }) }
{
    let (client, (to, body)) = with(client.clone(), sent)?;
    let from = Id::Client(client);
    Ok(Message { from, to, body })
}

/// The request of this client with this number.
fn request_by(alloc: Global, client: Name, number: u32, value: &Value) -> Result<Request, ReadError>
    ensures { LineGives request_of result
        (bind (sent_in number (view value.now))
        (λ sent. Some (record {
          client = client;
          number = number;
          message = record
              { from = client_id client; to = sent.0; body = sent.1 };
        }))) }
{
    let (sent, client) = with(sent_in(alloc, number, value), client)?;
    match with(message_by(&client, sent), client) {
        Ok((message, client)) => Ok(Request {
            client,
            number,
            message,
        }),
        Err(_) => Err(ReadError::Memory),
    }
}

fn request_in(alloc: Global, value: &Value) -> Result<Request, ReadError>
    ensures { LineGives request_of result (request_in (view value.now)) }
{
    let client = json::name_at(alloc, value, "client")?;
    match number_in(value) {
        Some(number) => request_by(alloc, client, number, value),
        None => {
            drop(client);
            Err(ReadError::Refused)
        }
    }
}

/// The request of a line.
pub(crate) fn request_on(alloc: Global, line: &[u8]) -> Result<Request, ReadError>
    ensures { LineGives request_of result (request_on line.now) }
{
    let value = json::data_of(alloc, line)?;
    request_in(alloc, &value)
}
