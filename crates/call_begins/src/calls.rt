//! A call over all partitions begins.

ghost use Rattle.std.specs.Prelude.{◌≡◌, ◌≤◌, ◌<◌, ◌^◌, length, IfOk, IfErr};
ghost use Rattle.call_begins.specs.Begins.{AllBegun, AllJoined, BeginsWith, IsUntouched, call_rules};
ghost use Rattle.cell_frames.specs.Begun.{HasBegun};
ghost use Rattle.cell_frames.specs.Joined.{view_of};
ghost use Rattle.gated_store.specs.Kept.{IsKept};
ghost use Rattle.hub_store.specs.Opened.{IsOrigin, HasBegun as StoreBegun};
ghost use Rattle.many_rules.specs.Ledgers.{ledgers, readers};
ghost use Rattle.many_rules.specs.Makes.{Makes};
ghost use Rattle.open_logs.specs.Begun.{CanBegin, MadeBy};

use crate::beginning::{cells_of, ledgers_of};
use crate::named::{Named, Of};
use cell_frames::Seat;
use gated_store::{Gated, GatedStore};
use hub_store::{Ended, Start};
use many_rules::{ByRules, end_call};
use open_logs::Begun;
use part_steps::PartState;
use site_model::Site;
use spec_cell::Cell;
use std::alloc::Global;

/// A call over all partitions.
pub struct Call<V: Site, N: Named>
where
    Gated<ByRules<Of<N>>>: Start,
{
    /// The store over their logs.
    pub store: GatedStore<V, ByRules<Of<N>>>,
    /// A cell for each, in their order.
    pub cells: Vec<Cell<Seat<Of<N>>>>,
}

/// A call over a new store. Where memory runs out the store ends.
fn call_over<V: Site, N: Named>(
    alloc: Global,
    store: GatedStore<V, ByRules<Of<N>>>,
    states: Vec<PartState>,
    incarnations: &[u64],
    since: u64,
    nodes: u32,
) -> Result<Call<V, N>, V>
    requires kept { IsKept N.origin.count (ledgers N.rules) (readers N.rules) (Makes N.rules)
        store }
    requires untouched { IsUntouched N.rules.count store }
    requires begins { BeginsWith N.rules states.items incarnations.now }
    requires since { N.rules.since ≡ since }
    requires latest { store.logs.latest ≡ since }
    ensures same { IfOk result (λ call. call.store ≡ store) }
    ensures untouched { IfOk result (λ call. IsUntouched N.rules.count call.store) }
    ensures many { IfOk result (λ call. length call.cells.items ≡ N.rules.count) }
    ensures begun { IfOk result (λ call. AllBegun incarnations.now since call.cells.items) }
    ensures joined { IfOk result (λ call.
        AllJoined N.rules (view_of call.store) call.cells.items) }
    ensures back { IfErr result (λ site. site ≡ store.logs.site) }
{
    let Ok(cells) = cells_of(alloc, states, incarnations, since, store.settled(), nodes) else {
        let Ended { site, trail: _ } = end_call(store);
        return Err(site);
    };
    Ok(Call { store, cells })
}

/// A call over all partitions begins at this moment, which the clock gave: a store over their logs, and a cell for each. Where memory runs
/// out the site comes back. Who begins it picks by which rules, from what was recovered on.
pub fn begin_call<V: Site, N: Named>(
    alloc: Global,
    site: V,
    begun: Begun,
    since: u64,
    nodes: u32,
    count: u32,
    segment: u64,
) -> Result<Call<V, N>, V>
    requires some { 0 < count }
    requires few { count ≤ 32 }
    requires short { segment ≤ 2 ^ 31 }
    requires can { CanBegin count begun }
    requires made { MadeBy N.rules.flows count begun N.rules.recovered }
    requires rules { N.rules ≡ call_rules N.rules.flows count begun N.rules.recovered
        since N.rules.most N.rules.requests N.rules.serves }
    requires origin { IsOrigin N.origin }
    requires goes { HasBegun N.origin N.rules }
    requires begun { V.tells site → StoreBegun N.origin (V.history site) begun.logs.items }
    ensures kept { IfOk result (λ call. IsKept N.origin.count (ledgers N.rules) (readers N.rules)
        (Makes N.rules) call.store) }
    ensures untouched { IfOk result (λ call. IsUntouched N.rules.count call.store) }
    ensures many { IfOk result (λ call. length call.cells.items ≡ count) }
    ensures begun { IfOk result (λ call. AllBegun begun.incarnations.items since
        call.cells.items) }
    ensures joined { IfOk result (λ call.
        AllJoined N.rules (view_of call.store) call.cells.items) }
    ensures segment { IfOk result (λ call. call.store.logs.segment ≡ segment) }
    ensures latest { IfOk result (λ call. call.store.logs.latest ≡ since) }
    ensures turns { IfOk result (λ call. call.store.turns ≡ 0) }
    ensures site { IfOk result (λ call. call.store.logs.site ≡ site) }
    ensures back { IfErr result (λ back. back ≡ site) }
{
    let Begun {
        states,
        logs,
        pasts,
        incarnations,
    } = begun;
    let Ok(ledgers) = ledgers_of(alloc, &states, pasts, count) else {
        return Err(site);
    };
    match GatedStore::<V, ByRules<Of<N>>>::begin(alloc, site, logs, ledgers, segment) {
        Ok(store) => {
            let mut store = store;
            store.raise(since);
            call_over(alloc, store, states, &incarnations, since, nodes)
        }
        Err(site) => Err(site),
    }
}
