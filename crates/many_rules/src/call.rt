//! A call of many partitions over a store whose gate compares.

ghost use Rattle.std.specs.Prelude.{◌≡◌, ◌≤◌, ◌<◌, ℕ, List, [], length};
ghost use Rattle.commit_gate.specs.Ledgers.{log_length};
ghost use Rattle.dura_model.specs.Partition.{fresh};
ghost use Rattle.gated_store.specs.Causal.{Causal};
ghost use Rattle.gated_store.specs.Follows.{ledgers_at};
ghost use Rattle.gated_store.specs.Kept.{IsKept};
ghost use Rattle.hub_store.specs.Changes.{trail_in};
ghost use Rattle.hub_store.specs.Moments.{AtEveryMoment};
ghost use Rattle.hub_store.specs.Origin.{Origin};
ghost use Rattle.hub_store.specs.Short.{IsShort};
ghost use Rattle.hub_store.specs.Trail.{of_part, settled_at};
ghost use Rattle.many_logs.specs.Labels.{AreNumbered};
ghost use Rattle.many_rules.specs.Leaves.{Begins, StandsOn};
ghost use Rattle.many_rules.specs.Ledgers.{ledgers, readers};
ghost use Rattle.many_rules.specs.Makes.{Makes};
ghost use Rattle.many_rules.specs.Rules.{Rules, Follows, Answers};
ghost use Rattle.site_model.specs.History.{IsImage, back_to, content_of};

use gated_store::{GatedStore, Local};
use hub_store::Ended;
use site_model::Site;
use std::marker::PhantomData;

/// What a call of many partitions picks when it begins.
pub trait Picked: Drop {
    /// Where it begins.
    ghost origin: { Origin };

    /// By which rules it goes on.
    ghost rules: { Rules };

    /// It has as many partitions as its rules.
    ghost counts: { rules.count ≡ origin.count };
}

/// What a partition may commit by its own state, by the rules of a call.
#[derive(Drop)]
pub struct ByRules<M: Picked> {
    of: PhantomData<M>,
}

impl<M: Picked> Local for ByRules<M> {
    ghost use Rattle.many_rules.specs.Answering.{answer};
    ghost use Rattle.many_rules.specs.Local.{says, still_makes, later_makes, outside_of, goes_on};

    ghost origin = { M.origin };

    ghost ledgers = { ledgers M.rules };

    ghost readers = { readers M.rules };

    ghost may_make = { Makes M.rules };

    ghost may_say = { Answers M.rules };

    ghost answer = { answer M.rules };

    ghost says = { says M.rules };

    ghost still_makes = { still_makes M.rules };

    ghost later_makes = { later_makes M.rules };

    ghost outside = { outside_of M.rules M.origin.count M.counts };

    ghost goes = { goes_on M.rules };
}

/// Ends a call: gives the site back, and what was settled. Each entry that was settled stands behind all that it depends on, whatever the
/// site tells, and at each moment of the call a crash left files that stand for a run.
pub fn end_call<V: Site, M: Picked>(store: GatedStore<V, ByRules<M>>) -> Ended<V>
    requires kept { IsKept M.origin.count (ledgers M.rules) (readers M.rules) (Makes M.rules) store }
    ensures site { result.site ≡ store.logs.site }
    ensures trail { result.trail ≡ trail_in store.logs }
    ensures short { V.tells store.logs.site → (partition : ℕ) → partition < M.origin.count
        → IsShort store.logs.segment (of_part partition (trail_in store.logs))
        (content_of (M.origin.logs partition).file (V.history store.logs.site)) }
    ensures causal { Causal (λ partition. ledgers M.rules partition [])
        (λ trail partition. log_length (ledgers_at (ledgers M.rules) trail partition))
        (trail_in store.logs) }
    ensures every { (digest : ℕ) → V.tells store.logs.site → Begins M.origin M.rules digest
        → AreNumbered fresh M.rules.recovered
        → AtEveryMoment (Follows M.rules store.logs.latest) (Answers M.rules) M.origin
        (V.history store.logs.site) (trail_in store.logs) }
    ensures crash { (digest : ℕ) → V.tells store.logs.site → Begins M.origin M.rules digest
        → AreNumbered fresh M.rules.recovered → (moment : ℕ) → length M.origin.steps ≤ moment
        → moment ≤ length (V.history store.logs.site) → (files : ℕ → List ℕ)
        → IsImage (back_to moment (V.history store.logs.site)) files
        → StandsOn M.rules store.logs.latest digest M.origin
        (back_to moment (V.history store.logs.site))
        (settled_at moment (trail_in store.logs)) files }
{
    store.end()
}
