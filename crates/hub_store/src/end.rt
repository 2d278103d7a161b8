//! The end of a call.

ghost use Rattle.std.specs.Prelude.{◌≡◌, ◌<◌, ℕ, [], false};
ghost use Rattle.hub_store.specs.Changes.{trail_in, told_in};
ghost use Rattle.hub_store.specs.Moments.{StandsWith, AtEveryMoment};
ghost use Rattle.hub_store.specs.Short.{IsShort};
ghost use Rattle.hub_store.specs.Sound.{IsSound};
ghost use Rattle.hub_store.specs.Trail.{of_part};
ghost use Rattle.site_model.specs.History.{content_of};

use crate::start::Start;
use crate::store::Store;
use crate::trail::Trail;
use site_model::Site;

/// What a call leaves.
pub struct Ended<V> {
    /// The files and the tape.
    pub site: V,
    /// What was settled.
    pub trail: Trail,
}

impl<V: Site, N: Start> Store<V, N> {
    /// Gives the site back, and what was settled.
    pub fn end(self) -> Ended<V>
        requires { IsSound self }
        ensures site { result.site ≡ self.site }
        ensures trail { result.trail ≡ trail_in self }
        ensures whole { V.tells self.site → self.cut ≡ false
            → StandsWith (N.may_follow self.latest) N.may_say N.origin (V.history self.site)
            (trail_in self) (told_in self) [] }
        ensures short { V.tells self.site → (partition : ℕ) → partition < N.origin.count
            → IsShort self.segment (of_part partition (trail_in self))
            (content_of (N.origin.logs partition).file (V.history self.site)) }
        ensures every { V.tells self.site → AtEveryMoment (N.may_follow self.latest) N.may_say
            N.origin (V.history self.site) (trail_in self) }
    {
        let Store {
            site,
            ways: _ways,
            trail,
            due: _,
            told: _told,
            segment: _,
            latest: _,
            halted: _,
            cut: _,
            start: _start,
        } = self;
        Ended {
            site,
            trail: Trail::of(trail),
        }
    }
}
