//! The beginning of a call.

ghost use Rattle.std.specs.Prelude.{◌≡◌, ◌≤◌, ◌<◌, ◌^◌, ℕ, [], false, length, map, IfOk, IfErr};
ghost use Rattle.hub_store.specs.Changes.{stage_at, trail_in, told_in};
ghost use Rattle.hub_store.specs.Opened.{IsOrigin, HasBegun};
ghost use Rattle.hub_store.specs.Sound.{IsSound};

use crate::start::Start;
use crate::store::Store;
use crate::way::{Stage, Way};
use commit_log::Resting;
use site_model::Site;
use std::alloc::{AllocError, Global};
use std::marker::PhantomData;

/// No frame is under way in any of these logs.
fn resting_ways(alloc: Global, logs: Vec<Resting>) -> Result<Vec<Way>, AllocError>
    ensures { IfOk result (λ v. v.items ≡ map Way.Resting logs.items) }
{
    let mut ways = Vec::new(alloc);
    for log in logs {
        ways.push(Way::Resting(log))?;
    }
    Ok(ways)
}

impl<V: Site, N: Start> Store<V, N> {
    /// A store over this site and the logs of its partitions. No log may come to the segment's length. Where memory runs out
    /// the site comes back.
    pub fn begin(alloc: Global, site: V, logs: Vec<Resting>, segment: u64) -> Result<Store<V, N>, V>
        requires short { segment ≤ 2 ^ 31 }
        requires count { length logs.items ≡ N.origin.count }
        requires origin { IsOrigin N.origin }
        requires begun { V.tells site → HasBegun N.origin (V.history site) logs.items }
        ensures sound { IfOk result IsSound }
        ensures site { IfOk result (λ store. store.site ≡ site) }
        ensures back { IfErr result (λ back. back ≡ site) }
        ensures trail { IfOk result (λ store. trail_in store ≡ []) }
        ensures told { IfOk result (λ store. told_in store ≡ []) }
        ensures rest { IfOk result (λ store. (part : ℕ) → part < N.origin.count
            → stage_at store part ≡ Stage.Resting) }
        ensures going { IfOk result (λ store. store.halted ≡ false) }
        ensures whole { IfOk result (λ store. store.cut ≡ false) }
        ensures segment { IfOk result (λ store. store.segment ≡ segment) }
        ensures latest { IfOk result (λ store. store.latest ≡ 0) }
    {
        match resting_ways(alloc, logs) {
            Ok(ways) => {
                let trail = Vec::new(alloc);
                let told = Vec::new(alloc);
                Ok(Store {
                    site,
                    ways,
                    trail,
                    due: 0,
                    told,
                    segment,
                    latest: 0,
                    halted: false,
                    cut: false,
                    start: PhantomData,
                })
            }
            Err(_) => Err(site),
        }
    }
}
