//! Runs in each order, with each device call failing.

use crate::frames::message;
use crate::images::{Messages, check_images, is_its};
use crate::orders::{Order, orders};
use crate::play::play;
use crate::rules::{Behind, Plan, Run, check, run_by};
use hub_store::{Ended, Settled};
use site_model::Site;
use std::alloc::Global;
use std::process::Abort;

/// How many runs there were, and images of crashes in them.
#[derive(Clone, Copy, PartialEq, Eq)]
struct Tried {
    runs: u64,
    images: u64,
}

const NOTHING: Tried = Tried { runs: 0, images: 0 };

fn sum(one: Tried, more: Tried) -> Tried {
    Tried {
        runs: one.runs.saturating_add(more.runs),
        images: one.images.saturating_add(more.images),
    }
}

/// Whether a row of the trail is the partition's frame, settled then.
fn is_row(row: &Settled, part: u32, at: Option<u64>, messages: &Messages) -> bool {
    let items = row.items.as_slice();
    row.partition == part
        && Some(row.at) == at
        && is_its(
            row.position,
            row.incarnation,
            items,
            part,
            messages.of(part),
        )
}

/// What was settled is what is to be: nothing, partition 0's frame alone, or both, that first.
fn is_trail(trail: &[Settled], run: &Run, messages: &Messages) -> bool {
    let first_at = run.first.settled;
    let second_at = run.second.settled;
    match trail {
        [] => first_at.is_none() && second_at.is_none(),
        [first] => is_row(first, 0, first_at, messages) && second_at.is_none(),
        [first, second] => {
            is_row(first, 0, first_at, messages) && is_row(second, 1, second_at, messages)
        }
        _ => false,
    }
}

/// Makes a run, and checks what it settles, and what crashes leave of it.
fn try_run(rt: &impl Abort, alloc: Global, plan: Plan) -> Tried {
    let run = run_by(rt, alloc, plan);
    let Ended { site, trail } = play(rt, alloc, plan, run.made.as_slice());
    let messages = Messages {
        first: message(alloc, 1).expect(rt, "memory"),
        second: message(alloc, plan.number).expect(rt, "memory"),
    };
    check(rt, plan, is_trail(trail.as_slice(), &run, &messages));
    check(rt, plan, site.moment() == run.moment);
    let images = check_images(rt, alloc, &site, &run, &messages);
    Tried { runs: 1, images }
}

/// Makes the runs in an order: one for each device call that fails, and one where none does.
fn try_order(
    rt: &impl Abort,
    alloc: Global,
    order: Order,
    number: u32,
    calls: u64,
    behind: Behind,
    together: bool,
) -> Tried {
    let mut tried = NOTHING;
    for fails in 0..=calls {
        let plan = Plan {
            order,
            number,
            fails,
            behind,
            together,
        };
        tried = sum(tried, try_run(rt, alloc, plan));
    }
    tried
}

/// Makes the runs in each order.
fn try_all(
    rt: &impl Abort,
    alloc: Global,
    number: u32,
    calls: u64,
    behind: Behind,
    together: bool,
) -> Tried {
    let orders = orders(rt, alloc);
    assert!(rt; orders.len() == 70);
    let mut tried = NOTHING;
    for order in &orders {
        tried = sum(
            tried,
            try_order(rt, alloc, *order, number, calls, behind, together),
        );
    }
    tried
}

/// So many runs of each order have so many moments in all orders, with four images each.
fn check_all(
    rt: &impl Abort,
    alloc: Global,
    number: u32,
    calls: u64,
    behind: Behind,
    moments: u64,
) {
    let tried = try_all(rt, alloc, number, calls, behind, false);
    let runs = calls.saturating_add(1).saturating_mul(70);
    let images = moments.saturating_mul(4);
    assert!(rt; tried == Tried { runs, images });
}

/// Where a frame is dropped because the other's call failed, it was written for nothing, and is dropped by a sync: two moments, in 96 runs
/// (56 where a call of partition 0 failed, 40 where one of partition 1). Where it was made safe too, these are three, in 196 (168 and 28).
const DROPPED_TOO: u64 = 2 * 96 + 3 * 196;

/// Of an order's eight device calls each is a moment, behind that of the beginning. A run that ends with a failing call has those before
/// it, and a moment more for one of the four writes. Else a failing write or sync of a frame costs two moments: what stood of it, and
/// the sync that drops it; and one of its gate costs none, since a sync settles the frame all the same.
#[test]
fn what_was_sent(rt: HostRuntime) {
    let alloc = rt.alloc();
    check_all(&rt, alloc, 1, 8, Behind::Nothing, 70 * (9 + 36 + 4));
    check_all(&rt, alloc, 1, 8, Behind::Own, 70 * (9 + 4 * 11 + 4 * 9));
    let both = 70 * (9 + 4 * 11 + 4 * 9) + DROPPED_TOO;
    check_all(&rt, alloc, 1, 8, Behind::Both, both);
    check_all(&rt, alloc, 1, 8, Behind::OtherFirst, both);
}

/// Partition 1's frame takes in another message than was sent, and comes to its gate by two device calls and no further.
#[test]
fn another_message(rt: HostRuntime) {
    let alloc = rt.alloc();
    check_all(&rt, alloc, 2, 6, Behind::Nothing, 70 * (7 + 21 + 3));
    check_all(&rt, alloc, 2, 6, Behind::Own, 70 * (7 + 4 * 9 + 2 * 7));
    let both = 70 * (7 + 4 * 9 + 2 * 7) + DROPPED_TOO;
    check_all(&rt, alloc, 2, 6, Behind::Both, both);
    check_all(&rt, alloc, 2, 6, Behind::OtherFirst, both);
}

/// All runs of which each sync is one of all files that wait for it. Where nothing is done behind a fault there are as many moments as
/// with one file after the other: a frame's body and its gate are each synced once.
fn check_together(rt: &impl Abort, alloc: Global, number: u32, calls: u64, moments: u64) {
    let runs = calls.saturating_add(1).saturating_mul(70);
    let tried = try_all(rt, alloc, number, calls, Behind::Nothing, true);
    let images = moments.saturating_mul(4);
    assert!(rt; tried == Tried { runs, images });
    for behind in [Behind::Both, Behind::OtherFirst] {
        let tried = try_all(rt, alloc, number, calls, behind, true);
        assert!(rt; tried.runs == runs && tried.images > images);
    }
}

#[test]
fn made_safe_together(rt: HostRuntime) {
    let alloc = rt.alloc();
    check_together(&rt, alloc, 1, 8, 70 * (9 + 36 + 4));
    check_together(&rt, alloc, 2, 6, 70 * (7 + 21 + 3));
}
