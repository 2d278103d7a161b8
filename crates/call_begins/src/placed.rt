//! An order in which entries were accepted, as a mark that only clauses read.

ghost use Rattle.std.specs.Prelude.{List};
ghost use Rattle.std.specs.Borrow.{ftrue};
ghost use Rattle.many_logs.specs.Placing.{Commit};

use open_logs::Begun;
use part_rows::Reactions;
use site_model::Site;
use std::marker::{Brand, Model, PhantomData};

/// What is said of entries in their order. Who makes a mark picks it.
pub trait Told {
    /// It holds of these.
    ghost holds: { List Commit → Type 0 };
}

/// Without a pick nothing is said.
impl Told for Brand {
    ghost holds = { λ run. Unit {0} };
}

/// The entries that were recovered, in an order in which they were accepted. No memory holds them.
#[derive(Drop)]
pub struct PlacedMark {
    marker: PhantomData<u8>,
    pub ghost run: { List Commit },
}

impl Model for PlacedMark {
    ghost also_owns = { λ _. ftrue };
}

impl PlacedMark {
    /// Entries of which this holds, where there are some. It does nothing when it runs.
    pub fn of<T: Told>() -> PlacedMark
        requires { (run : List Commit) × T.holds run }
        ensures { T.holds result.run }
    {
        PlacedMark {
            marker: PhantomData,
        }
    }
}

/// The same, where what is said speaks of what a call begins with.
pub fn placed_by<T: Told, V: Site, R: Reactions>(
    _site: &V,
    _reactions: &R,
    _digest: u64,
    _count: u32,
    _begun: &Begun,
) -> PlacedMark
    requires { (run : List Commit) × T.holds run }
    ensures { T.holds result.run }
{
    PlacedMark::of::<T>()
}
