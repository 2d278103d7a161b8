//! The end of a call.

ghost use Rattle.std.specs.Prelude.{◌≡◌, ◌<◌, ℕ, [], false};
ghost use Rattle.commit_gate.specs.Ledgers.{log_length};
ghost use Rattle.gated_store.specs.Causal.{Causal};
ghost use Rattle.gated_store.specs.Follows.{Follows, ledgers_at};
ghost use Rattle.gated_store.specs.Kept.{IsKept};
ghost use Rattle.hub_store.specs.Changes.{trail_in, told_in};
ghost use Rattle.hub_store.specs.Moments.{StandsWith, AtEveryMoment};
ghost use Rattle.hub_store.specs.Short.{IsShort};
ghost use Rattle.hub_store.specs.Trail.{of_part};
ghost use Rattle.site_model.specs.History.{content_of};

use crate::local::Local;
use crate::store::GatedStore;
use hub_store::Ended;
use site_model::Site;

impl<V: Site, L: Local> GatedStore<V, L> {
    /// Gives the site back, and what was settled.
    pub fn end(self) -> Ended<V>
        requires kept { IsKept L.origin.count L.ledgers L.readers L.may_make self }
        ensures site { result.site ≡ self.logs.site }
        ensures trail { result.trail ≡ trail_in self.logs }
        ensures whole { V.tells self.logs.site → self.logs.cut ≡ false
            → StandsWith (Follows L.ledgers L.may_make self.logs.latest) L.may_say L.origin
            (V.history self.logs.site) (trail_in self.logs) (told_in self.logs) [] }
        ensures short { V.tells self.logs.site → (partition : ℕ) → partition < L.origin.count
            → IsShort self.logs.segment (of_part partition (trail_in self.logs))
            (content_of (L.origin.logs partition).file (V.history self.logs.site)) }
        ensures every { V.tells self.logs.site
            → AtEveryMoment (Follows L.ledgers L.may_make self.logs.latest) L.may_say L.origin
            (V.history self.logs.site) (trail_in self.logs) }
        ensures causal { Causal (λ partition. L.ledgers partition [])
            (λ trail partition. log_length (ledgers_at L.ledgers trail partition))
            (trail_in self.logs) }
    {
        self.holds();
        let GatedStore {
            logs,
            ledgers: _ledgers,
            turns: _,
        } = self;
        logs.end()
    }
}
