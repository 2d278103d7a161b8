//! What holds of a store between its calls. The functions do nothing.

ghost use Rattle.std.specs.Prelude.{◌≡◌, ◌<◌, ◌≤◌, ◌+◌, ℕ, List, [], Some};
ghost use Rattle.std.specs.List.{Contains, slice_get};
ghost use Rattle.commit_gate.specs.Ledgers.{log_length, IsKnown};
ghost use Rattle.commit_gate.specs.Unlost.{IsFrameUnlost};
ghost use Rattle.commit_gate.specs.Views.{floors_of};
ghost use Rattle.dura_value.specs.Dependencies.{Lost};
ghost use Rattle.dura_value.specs.Items.{Entry, Identity};
ghost use Rattle.gated_store.specs.Causal.{Causal};
ghost use Rattle.gated_store.specs.Follows.{ledgers_at};
ghost use Rattle.gated_store.specs.Kept.{IsKept};
ghost use Rattle.hub_store.specs.Changes.{going_at, trail_in};

use crate::local::Local;
use crate::store::GatedStore;
use site_model::Site;

impl<V: Site, L: Local> GatedStore<V, L> {
    /// Whatever the site tells: nothing that was recovered or settled is lost; no incarnation gave up an entry of a frame under way; and
    /// each entry that was settled stands behind all that it depends on.
    pub fn holds(&self)
        requires { IsKept L.origin.count L.ledgers L.readers L.may_make self.now }
        ensures unlost { (e : Identity) → e.partition < L.origin.count
            → IsKnown (ledgers_at L.ledgers (trail_in self.now.logs) e.partition) e
            → Lost (floors_of self.now.ledgers.items e.partition) e → ⊥ }
        ensures uncut { (partition : ℕ) (going : List Entry) → partition < L.origin.count
            → going_at self.now.logs partition ≡ Some going
            → IsFrameUnlost (log_length (ledgers_at L.ledgers (trail_in self.now.logs) partition))
            (floors_of self.now.ledgers.items partition) going }
        ensures causal { Causal (λ partition. L.ledgers partition [])
            (λ trail partition. log_length (ledgers_at L.ledgers trail partition))
            (trail_in self.now.logs) }
    {}
}
