//! Whether an event can happen.

ghost use Rattle.std.specs.Prelude.{◌≡◌, ◌≤◌, true, length, IfOk, OnErr, slice_get};
ghost use Rattle.world_core.specs.Unmet.{is_not_to, names_nothing, is_outcome};
ghost use Rattle.world_core.specs.World.{world};

use crate::event::Event;
use crate::life::Life;
use crate::outcomes::may_give;
use gated_store::GatedStore;
use log_items::Packet;
use many_rules::{ByRules, Picked};
use site_model::Site;
use std::alloc::{AllocError, Global};

/// Whether there is no such packet, or it goes to another partition.
fn is_not_to(packets: &Vec<Packet>, place: usize, part: u32) -> bool
    ensures { result ≡ is_not_to part (slice_get packets.now.items place) }
{
    match packets.get(place) {
        Some(packet) => packet.dst != part,
        None => true,
    }
}

/// Whether an event names what isn't there.
pub(crate) fn names_nothing<V: Site, M: Picked>(
    alloc: Global,
    store: &GatedStore<V, ByRules<M>>,
    life: &Life<M>,
    event: &Event,
) -> Result<bool, AllocError>
    requires many { length life.now.cells.items ≡ M.rules.count }
    requires few { M.rules.count ≤ 32 }
    ensures nothing { IfOk result (λ nothing. nothing ≡ names_nothing M.rules.count life.now.nodes
        (world store.now life.now.cells.items life.now.packets.items
        life.now.marks.items life.now.ended) event.now) }
    ensures only { OnErr result (is_outcome event.now ≡ true) }
{
    let count = life.cells.len() as u32;
    let known = life.marks.len();
    match event {
        Event::Submit { request: _ } => Ok(false),
        Event::Arrive { partition, packet } => {
            Ok(count <= *partition || is_not_to(&life.packets, *packet, *partition))
        }
        Event::Turn { partition, limit } => {
            Ok(count <= *partition || *limit == 0 || 64 < *limit)
        }
        Event::Body { partition, ago } => Ok(count <= *partition || known <= *ago),
        Event::SyncBody { partition } => Ok(count <= *partition),
        Event::Gate { partition } => Ok(count <= *partition),
        Event::Settle { partition } => Ok(count <= *partition),
        Event::Judge { partition, ago } => Ok(count <= *partition || known <= *ago),
        Event::Outcome { partition, ended } => {
            if count <= *partition {
                return Ok(true);
            }
            Ok(!may_give(alloc, &ended.activity, &ended.outcome)?)
        }
        Event::Fire { partition, now } => Ok(count <= *partition || 1 << 63 <= *now),
        Event::Trim { partition, ago } => Ok(count <= *partition || known <= *ago),
        Event::Stop { node } => Ok(life.nodes <= *node),
        Event::Own { partition, node } => Ok(count <= *partition || life.nodes <= *node),
        Event::Say {
            client: _,
            number: _,
        } => Ok(false),
        Event::Image => Ok(false),
    }
}
