//! Which request comes first.

ghost use Rattle.std.specs.Prelude.{◌≡◌};
ghost use Rattle.client_order.specs.Order.{no_later};

use dura_value::Name;

/// Whether a request comes before another or is the same, by its client's name and then by its number.
pub fn comes_no_later(client: &Name, number: u32, other: &Name, least: u32) -> bool
    ensures { result ≡ no_later (client.now, number) (other.now, least) }
{
    client.cmp(other).then(number.cmp(&least)).is_le()
}
