//! Which answer waits to be said.

ghost use Rattle.std.specs.Prelude.{◌≡◌, ◌⊎◌, true, IfSome, IfNone, IsSomeAnd};
ghost use Rattle.client_order.specs.Order.{no_later};
ghost use Rattle.client_order.specs.Unsaid.{AreAllSaid, IsFirstUnsaid};

use crate::order::comes_no_later;
use client_port::Port;
use dura_value::Name;

/// Of what was found first and a client's request the one that comes first.
fn earlier<'a>(first: Option<(&'a Name, u32)>, client: &'a Name, number: u32) -> (&'a Name, u32)
    ensures one { ((result.0.now ≡ client.now) × (result.1 ≡ number))
        ⊎ IsSomeAnd first.entry (λ one. (result.0.now ≡ one.0.now) × (result.1 ≡ one.1)) }
    ensures new { no_later (result.0.now, result.1) (client.now, number) ≡ true }
    ensures old { IfSome first.entry (λ one. no_later (result.0.now, result.1) (one.0.now, one.1)
        ≡ true) }
{
    match first {
        Some((other, least)) if comes_no_later(other, least, client, number) => (other, least),
        _ => (client, number),
    }
}

/// The first request whose answer wasn't said, by its client's name: the client, and its number.
pub fn first_unsaid<'a>(port: &Port, clients: &'a [Name]) -> Option<(&'a Name, u32)>
    ensures none { IfNone result (AreAllSaid port.now clients.now) }
    ensures some { IfSome result (λ one. IsFirstUnsaid port.now clients.now one.0.now one.1) }
{
    let mut first: Option<(&Name, u32)> = None;
    for client in clients {
        if let Some(request) = port.next_of(client) {
            first = Some(earlier(first, client, request.number));
        }
    }
    first
}
