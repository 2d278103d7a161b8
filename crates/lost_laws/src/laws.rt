//! What is lost is never committed, and nothing that depends on it. The function does nothing.

ghost use Rattle.std.specs.Prelude.{◌≡◌, ◌++◌, ℕ, true, List, [], Some};
ghost use Rattle.std.specs.List.{Contains};
ghost use Rattle.commit_gate.specs.Views.{floors_of};
ghost use Rattle.dura_value.specs.Items.{Entry};
ghost use Rattle.gated_store.specs.Causal.{identity_of};
ghost use Rattle.gated_store.specs.Kept.{IsKept};
ghost use Rattle.hub_store.specs.Changes.{stage_at, going_at, trail_in};
ghost use Rattle.hub_store.specs.Trail.{Settled, settling};
ghost use Rattle.hub_store.specs.Ways.{is_tried};
ghost use Rattle.log_items.specs.Entries.{identity_at};
ghost use Rattle.lost_laws.specs.DependsOn.{NoneLost};

use gated_store::{GatedStore, Local};
use site_model::Site;

/// Whatever the site tells: no incarnation gave up an entry that is settled, nor one that it depends on, through any number of entries
/// between; and so it is with the entries of a frame whose gate was tried, over what is settled and the frame behind it.
pub fn nothing_lost_is_committed<V: Site, L: Local>(store: &GatedStore<V, L>)
    requires { IsKept L.origin.count L.ledgers L.readers L.may_make store.now }
    ensures settled { (one : Settled) → Contains (trail_in store.now.logs) one
        → NoneLost (λ partition. L.ledgers partition []) (trail_in store.now.logs)
        (floors_of store.now.ledgers.items) (identity_of one) }
    ensures gated { (partition at : ℕ) (going : List Entry) (entry : Entry)
        → is_tried (stage_at store.now.logs partition) ≡ true
        → going_at store.now.logs partition ≡ Some going → Contains going entry
        → NoneLost (λ partition. L.ledgers partition [])
        (trail_in store.now.logs ++ settling partition at going)
        (floors_of store.now.ledgers.items) (identity_at partition entry) }
{}
