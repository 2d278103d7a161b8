//! What can be looked at.

ghost use Rattle.std.specs.Prelude.{◌≡◌};
ghost use Rattle.hub_store.specs.Changes.{trail_in};
ghost use Rattle.hub_store.specs.Plain.{trail_of};

use crate::local::Local;
use crate::store::GatedStore;
use hub_store::Settled;
use site_model::Site;

impl<V: Site, L: Local> GatedStore<V, L> {
    /// How many device calls and lines there were.
    pub fn turns(&self) -> u64
        ensures { result ≡ self.now.turns }
    {
        self.turns
    }

    /// What was settled, where it lies.
    pub fn settled(&self) -> &[Settled]
        ensures { trail_of result.now ≡ trail_in self.now.logs }
    {
        self.logs.settled_from(0)
    }

    /// Whether a device call failed.
    pub fn is_halted(&self) -> bool
        ensures { result ≡ self.now.logs.halted }
    {
        self.logs.is_halted()
    }

    /// Whether saying a line failed.
    pub fn is_cut(&self) -> bool
        ensures { result ≡ self.now.logs.cut }
    {
        self.logs.is_cut()
    }
}
