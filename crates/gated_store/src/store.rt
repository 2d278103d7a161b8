//! The store.

ghost use Rattle.std.specs.Prelude.{◌≡◌};
ghost use Rattle.gated_store.specs.Keeps.{turned};

use crate::local::{Gated, Local};
use commit_gate::Ledger;
use hub_store::{Start, Store};
use site_model::Site;

/// The logs of all partitions, and what others see of each.
pub struct GatedStore<V: Site, L: Local>
where
    Gated<L>: Start,
{
    /// The logs, with the site, the trail and what was said.
    pub(crate) logs: Store<V, Gated<L>>,
    /// What others see of each partition.
    pub(crate) ledgers: Vec<Ledger>,
    /// How many device calls and lines there were: plans count by it.
    pub(crate) turns: u64,
}

/// A turn further.
pub(crate) fn next_turn(turns: u64) -> u64
    ensures { result ≡ turned turns }
{
    turns.saturating_add(1)
}
