//! The orders of the calls.

use std::alloc::Global;
use std::process::Abort;

/// For each of eight calls the partition on whose frame it is.
pub(crate) type Order = [u32; 8];

/// The order by the bits of a number.
fn order_by(bits: u32) -> Order {
    [
        bits & 1,
        bits >> 1 & 1,
        bits >> 2 & 1,
        bits >> 3 & 1,
        bits >> 4 & 1,
        bits >> 5 & 1,
        bits >> 6 & 1,
        bits >> 7 & 1,
    ]
}

/// Whether four calls are partition 1's.
fn is_even(order: &Order) -> bool {
    let mut ones = 0u32;
    for part in order {
        ones = ones.saturating_add(*part);
    }
    ones == 4
}

/// Each order of four calls of partition 0 and four of partition 1.
pub(crate) fn orders(rt: &impl Abort, alloc: Global) -> Vec<Order> {
    let mut orders = Vec::new(alloc);
    for bits in 0..256 {
        let order = order_by(bits);
        if is_even(&order) {
            orders.push(order).expect(rt, "memory");
        }
    }
    orders
}
