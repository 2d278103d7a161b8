//! Whether what was taken before is what is asked for.

ghost use Rattle.std.specs.Prelude.{◌≡◌, ◌≤◌, ◌<◌, map, length, true, IfOk, IfSome, IfNone, IsSomeAnd, ◌⊎◌};
ghost use Rattle.client_order.specs.Clashes.{clashes, taken_in, IsClash, NoClash};
ghost use Rattle.client_order.specs.Order.{no_later};
ghost use Rattle.part_steps.specs.States.{parts_in};
ghost use Rattle.request_reader.specs.Line.{request_of};

use crate::order::comes_no_later;
use dura_value::{Id, Request, home};
use part_steps::PartState;
use request_reader::asks_same;
use std::alloc::AllocError;

/// Whether another request was taken under the client's name and number, as the state of the client's home has it.
fn clashes(states: &[PartState], request: &Request) -> Result<bool, AllocError>
    requires some { 0 < length states.now }
    requires few { length states.now ≤ 32 }
    ensures { IfOk result (λ yes.
        yes ≡ clashes (taken_in (length states.now) (parts_in states.now)) (request_of request.now)) }
{
    let client = Id::Client(request.client.clone()?);
    let state = &states[home(&client, states.len() as u32) as usize];
    match state.taken(&client, request.number) {
        Some(message) => Ok(!asks_same(message, &request.message)),
        None => Ok(false),
    }
}

/// Of what was found first and a request the one that comes first, by its client's name and its number.
fn earlier<'a>(first: Option<&'a Request>, request: &'a Request) -> &'a Request
    ensures one { (result.now ≡ request.now) ⊎ IsSomeAnd first.entry (λ one. result.now ≡ one.now) }
    ensures new { no_later (result.now.client, result.now.number)
        (request.now.client, request.now.number) ≡ true }
    ensures old { IfSome first.entry (λ one.
        no_later (result.now.client, result.now.number) (one.now.client, one.now.number) ≡ true) }
{
    match first {
        Some(other)
            if comes_no_later(&other.client, other.number, &request.client, request.number) => {
            other
        }
        _ => request,
    }
}

/// The first request, by its client's name and its number, under whose name and number another was taken in these states of all partitions.
pub fn first_clash<'a>(
    states: &[PartState],
    requests: &'a [Request],
) -> Result<Option<&'a Request>, AllocError>
    requires some { 0 < length states.now }
    requires few { length states.now ≤ 32 }
    ensures none { IfOk result (λ found. IfNone found
        (NoClash (taken_in (length states.now) (parts_in states.now)) (map request_of requests.now))) }
    ensures some { IfOk result (λ found. IfSome found (λ r.
        IsClash (taken_in (length states.now) (parts_in states.now)) (map request_of requests.now)
        r.now.client r.now.number)) }
{
    let mut first: Option<&Request> = None;
    for request in requests {
        if clashes(states, request)? {
            first = Some(earlier(first, request));
        }
    }
    Ok(first)
}
