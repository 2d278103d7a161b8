//! The moments of entries.

ghost use Rattle.std.specs.Prelude.{◌≡◌, max};
ghost use Rattle.hub_store.specs.Changes.{trail_in, told_in};
ghost use Rattle.hub_store.specs.Sound.{IsSound};

use crate::start::Start;
use crate::store::Store;
use site_model::Site;

impl<V: Site, N: Start> Store<V, N> {
    /// From now on what is committed may be of this moment, or of an earlier one.
    pub fn raise(&mut self, moment: u64)
        requires { IsSound self.old }
        ensures sound { IsSound self.new }
        ensures latest { self.new.latest ≡ max self.old.latest moment }
        ensures site { self.new.site ≡ self.old.site }
        ensures ways { self.new.ways ≡ self.old.ways }
        ensures trail { trail_in self.new ≡ trail_in self.old }
        ensures told { told_in self.new ≡ told_in self.old }
        ensures segment { self.new.segment ≡ self.old.segment }
        ensures halted { self.new.halted ≡ self.old.halted }
        ensures whole { self.new.cut ≡ self.old.cut }
    {
        self.latest = self.latest.max(moment);
    }
}
