//! The beginning of a call.

ghost use Rattle.std.specs.Prelude.{◌≡◌, ◌≤◌, ◌<◌, ◌^◌, ℕ, [], false, length, Some, None, IfOk, IfErr};
ghost use Rattle.std.specs.List.{slice_get};
ghost use Rattle.commit_gate.specs.Views.{floors_of};
ghost use Rattle.commit_gate.specs.declared.ledger.Ledger as declared;
ghost use Rattle.gated_store.specs.Kept.{IsKept, AreRecovered, LedgerFits};
ghost use Rattle.hub_store.specs.Changes.{stage_at, trail_in, told_in};
ghost use Rattle.hub_store.specs.Opened.{IsOrigin, HasBegun};

use crate::local::Local;
use crate::store::GatedStore;
use commit_gate::Ledger;
use commit_log::Resting;
use hub_store::{Stage, Store};
use site_model::Site;
use std::alloc::Global;

impl<V: Site, L: Local> GatedStore<V, L> {
    /// A store over this site, the logs of its partitions and what others see of each. No log may come to the segment's length. Where
    /// memory runs out the site comes back.
    pub fn begin(
        alloc: Global,
        site: V,
        logs: Vec<Resting>,
        ledgers: Vec<Ledger>,
        segment: u64,
    ) -> Result<GatedStore<V, L>, V>
        requires short { segment ≤ 2 ^ 31 }
        requires count { length logs.items ≡ L.origin.count }
        requires many { length ledgers.items ≡ L.origin.count }
        requires origin { IsOrigin L.origin }
        requires begun { V.tells site → HasBegun L.origin (V.history site) logs.items }
        requires fits { (partition : ℕ) (ledger : declared.Ledger)
            → slice_get ledgers.items partition ≡ Some ledger
            → LedgerFits L.ledgers L.readers L.origin.count partition [] None ledger }
        requires first { AreRecovered L.ledgers }
        ensures kept { IfOk result (IsKept L.origin.count L.ledgers L.readers L.may_make) }
        ensures site { IfOk result (λ store. store.logs.site ≡ site) }
        ensures back { IfErr result (λ back. back ≡ site) }
        ensures trail { IfOk result (λ store. trail_in store.logs ≡ []) }
        ensures told { IfOk result (λ store. told_in store.logs ≡ []) }
        ensures rest { IfOk result (λ store. (part : ℕ) → part < L.origin.count
            → stage_at store.logs part ≡ Stage.Resting) }
        ensures going { IfOk result (λ store. store.logs.halted ≡ false) }
        ensures whole { IfOk result (λ store. store.logs.cut ≡ false) }
        ensures segment { IfOk result (λ store. store.logs.segment ≡ segment) }
        ensures latest { IfOk result (λ store. store.logs.latest ≡ 0) }
        ensures turns { IfOk result (λ store. store.turns ≡ 0) }
        ensures floors { IfOk result (λ store.
            floors_of store.ledgers.items ≡ floors_of ledgers.items) }
    {
        match Store::begin(alloc, site, logs, segment) {
            Ok(logs) => Ok(GatedStore {
                logs,
                ledgers,
                turns: 0,
            }),
            Err(site) => Err(site),
        }
    }
}
