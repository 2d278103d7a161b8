//! The requests of a file.

ghost use Rattle.std.specs.Prelude.{◌≡◌, ◌^◌, ◌<◌, [], ◌∷◌, length, map, None, IfOk, OnOk, MatchOption, option_map};
ghost use Rattle.std.specs.List.{find, position};
ghost use Rattle.dura_value.specs.Views.{id_of, body_of, message_of};
ghost use Rattle.dura_value.specs.Ids.{id_eq};
ghost use Rattle.request_reader.specs.Line.{request_of};
ghost use Rattle.request_reader.specs.Progress.{seen, RequestsStand};
ghost use Rattle.request_reader.specs.Requests.{RequestsGive, asks_same, body_eq, request_eq, is_by, with_new, with_request, is_blank, after_line, after_lines, is_line_feed, lines_of, requests_in};

use crate::error::{ReadError, RequestsError};
use crate::line::request_on;
use crate::progress::{Progress, copy_of};
use dura_value::{Body, Id, Message, Request};
use std::alloc::{AllocError, Global};

#[tactic(auto, using(dura_value::proofs::Ids::derived_id_eq))]
fn is_same_id(a: &Id, b: &Id) -> bool
    ensures { result ≡ id_eq (id_of a.now) (id_of b.now) }
{
    *a == *b
}

/// Whether two requests ask the same, their numbers aside.
fn is_same_body(a: &Body, b: &Body) -> bool
    ensures { result ≡ body_eq (body_of a.now) (body_of b.now) }
{
    match a {
        Body::Start(argument, _) => match b {
            Body::Start(other, _) => *argument == *other,
            _ => false,
        },
        Body::Raise(event, value, _) => match b {
            Body::Raise(other_event, other, _) => {
                event.as_bytes() == other_event.as_bytes() && *value == *other
            }
            _ => false,
        },
        Body::Query(_) => match b {
            Body::Query(_) => true,
            _ => false,
        },
        Body::Wait(_) => match b {
            Body::Wait(_) => true,
            _ => false,
        },
        _ => false,
    }
}

/// Whether two messages of one client with one number ask the same.
pub fn asks_same(a: &Message, b: &Message) -> bool
    ensures { result ≡ asks_same (message_of a.now) (message_of b.now) }
{
    is_same_id(&a.to, &b.to) && is_same_body(&a.body, &b.body)
}

fn is_same(a: &Request, b: &Request) -> bool
    ensures { result ≡ request_eq (request_of a.now) (request_of b.now) }
{
    asks_same(&a.message, &b.message)
}

/// The request of the line with this number, which no earlier line has, comes behind those of the lines before.
fn with_new(line: u64, progress: &mut Progress, request: Request) -> Result<(), RequestsError>
    requires stands { RequestsStand progress.old }
    requires unused { find (is_by request.client request.number) (seen progress.old) ≡ None }
    ensures read { RequestsGive (λ _. seen progress.new) result
        (with_new line (seen progress.old) (request_of request)) }
    ensures stands { OnOk result (RequestsStand progress.new) }
{
    if progress.latest_of(&request.client) < request.number {
        match progress.push(request) {
            Ok(()) => Ok(()),
            Err(_) => Err(RequestsError::Memory),
        }
    } else {
        drop(request);
        Err(RequestsError::BadLine { line })
    }
}

/// Whether the request was made by an earlier line, or is another one than that with its number.
fn is_made(progress: &Progress, request: &Request) -> Result<Option<bool>, AllocError>
    requires stands { RequestsStand progress.now }
    ensures { IfOk result (λ made. made
        ≡ option_map (λ r. request_eq r (request_of request.now))
        (find (is_by request.now.client request.now.number) (seen progress.now))) }
{
    let client = copy_of(&request.client)?;
    let pair = (client, request.number);
    let made = match progress.earlier(&pair) {
        Some(earlier) => Some(is_same(earlier, request)),
        None => None,
    };
    Ok(made)
}

/// The request of the line with this number comes behind those of the lines before.
#[tactic(auto, using(crate::proofs::Used::used_same, crate::proofs::Used::used_other, crate::proofs::Used::unused, crate::proofs::Used::unused_new))]
fn with_request(line: u64, progress: &mut Progress, request: Request) -> Result<(), RequestsError>
    requires { RequestsStand progress.old }
    ensures read { RequestsGive (λ _. seen progress.new) result
        (with_request line (seen progress.old) (request_of request)) }
    ensures stands { OnOk result (RequestsStand progress.new) }
{
    match is_made(progress, &request) {
        Ok(None) => with_new(line, progress, request),
        Ok(Some(true)) => {
            drop(request);
            Ok(())
        }
        Ok(Some(false)) => {
            drop(request.message);
            Err(RequestsError::Clash {
                client: request.client,
                number: request.number,
            })
        }
        Err(_) => {
            drop(request);
            Err(RequestsError::Memory)
        }
    }
}

fn is_blank(line: &[u8]) -> bool
    ensures { result ≡ is_blank line.now }
{
    line.iter()
        .all(|byte| *byte == b' ' || *byte == b'\t' || *byte == b'\r')
}

fn after_line(
    alloc: Global,
    number: u64,
    progress: &mut Progress,
    line: &[u8],
) -> Result<(), RequestsError>
    requires { RequestsStand progress.old }
    ensures read { RequestsGive (λ _. seen progress.new) result
        (after_line number (seen progress.old) line.now) }
    ensures stands { OnOk result (RequestsStand progress.new) }
{
    if is_blank(line) {
        return Ok(());
    }
    match request_on(alloc, line) {
        Ok(request) => with_request(number, progress, request),
        Err(ReadError::Refused) => Err(RequestsError::BadLine { line: number }),
        Err(ReadError::Memory) => Err(RequestsError::Memory),
    }
}

fn line_end(bytes: &[u8]) -> Option<usize>
    ensures { result ≡ position is_line_feed bytes.now }
{
    bytes.iter().position(|byte| *byte == b'\n')
}

/// The first line, and what stands behind its line feed.
#[tactic(auto, using(crate::proofs::Lines::lines_none, crate::proofs::Lines::position_below))]
fn first_line(bytes: &[u8]) -> (&[u8], Option<&[u8]>)
    ensures { MatchOption result.1 (lines_of bytes.now ≡ result.0.now ∷ [])
        (λ rest. (lines_of bytes.now ≡ result.0.now ∷ lines_of rest.now)
        × (length rest.now < length bytes.now)) }
{
    match line_end(bytes) {
        Some(at) => (&bytes[..at], Some(&bytes[at + 1..])),
        None => (bytes, None),
    }
}

fn after_lines(alloc: Global, bytes: &[u8]) -> Result<Progress, RequestsError>
    requires { length bytes.now < 2 ^ 63 }
    ensures { RequestsGive seen result (requests_in bytes.now) }
{
    let mut progress = Progress::new(alloc);
    let mut number = 1u64;
    let mut rest = bytes;
    loop {
        let (line, more) = first_line(rest);
        match after_line(alloc, number, &mut progress, line) {
            Ok(()) => (),
            Err(error) => return Err(error),
        }
        match more {
            Some(more) => rest = more,
            None => return Ok(progress),
        }
        number += 1;
    }
}

/// Reads the requests of a file, a line at a time. The first line that is wrong decides. The file is one that a run may read, so
/// that its lines can be counted.
pub fn read_requests(alloc: Global, bytes: &[u8]) -> Result<Vec<Request>, RequestsError>
    requires { length bytes.now < 2 ^ 63 }
    ensures { RequestsGive (λ requests. map request_of requests.items) result
        (requests_in bytes.now) }
{
    match after_lines(alloc, bytes) {
        Ok(progress) => Ok(progress.requests),
        Err(error) => Err(error),
    }
}
