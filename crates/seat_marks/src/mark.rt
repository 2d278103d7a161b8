//! The entries that a partition has settled, as a mark that only clauses read.
ghost use Rattle.std.specs.Prelude.{◌≡◌, List};
ghost use Rattle.std.specs.Borrow.{ftrue};
ghost use Rattle.dura_value.specs.Items.{Entry};
ghost use Rattle.hub_store.specs.Plain.{trail_of};
ghost use Rattle.hub_store.specs.Trail.{of_part};

use hub_store::Settled;
use std::marker::{Model, PhantomData};

/// The entries that a partition has settled in a call, as they stood when this was made. No memory holds them.
#[derive(Drop)]
pub struct SettledMark {
    marker: PhantomData<u8>,
    pub ghost mine: { List Entry },
}

impl Model for SettledMark {
    ghost also_owns = { λ _. ftrue };
}

// It owns nothing.
unsafe impl Send for SettledMark {}

impl SettledMark {
    /// What a partition has settled of this trail. It does nothing when it runs.
    pub fn of(_part: u32, _trail: &[Settled]) -> SettledMark
        ensures { result.mine ≡ of_part _part (trail_of _trail.now) }
    {
        SettledMark {
            marker: PhantomData,
        }
    }
}
