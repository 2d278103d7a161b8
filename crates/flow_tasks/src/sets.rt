//! The set of entities that a lock goes through.

ghost use Rattle.std.specs.Prelude.{◌≡◌, ◌≤◌, length, IfOk, OnOk, IfSome, IfNone};
ghost use Rattle.std.specs.List.{insert};
ghost use Rattle.dura_value.specs.Messages.{spot_eq, spot_before, is_among, inserted, set_of};
ghost use Rattle.dura_value.specs.Views.{spot_of, spots_of};

use dura_value::{Spot, Spots};
use std::alloc::{AllocError, Global};

/// Whether two entities are the same.
pub fn are_same(a: &Spot, b: &Spot) -> bool
    ensures { result ≡ spot_eq (spot_of a.now) (spot_of b.now) }
{
    a.class == b.class && a.key == b.key
}

/// Whether one comes before the other: by class, then by key.
#[tactic(auto, using(dura_value::proofs::Bytes::less_bytes))]
fn is_before(a: &Spot, b: &Spot) -> bool
    ensures { result ≡ spot_before (spot_of a.now) (spot_of b.now) }
{
    a.class < b.class || (a.class == b.class && a.key < b.key)
}

/// Whether an entity is among these.
pub fn is_among(spot: &Spot, set: &[Spot]) -> bool
    ensures { result ≡ is_among (spot_of spot.now) (spots_of set.now) }
{
    for other in set {
        if are_same(spot, other) {
            return true;
        }
    }
    false
}

/// The place where an entity goes in a set, unless it is there.
#[tactic(auto, using(crate::proofs::Inserts::goes_here, crate::proofs::Inserts::stands_here))]
fn place_in(set: &[Spot], spot: &Spot) -> Option<usize>
    ensures within { IfSome result (λ place. place ≤ length set.now) }
    ensures place { IfSome result (λ place. inserted (spot_of spot.now) (spots_of set.now)
        ≡ insert (spots_of set.now) place (spot_of spot.now)) }
    ensures there { IfNone result (inserted (spot_of spot.now) (spots_of set.now)
        ≡ spots_of set.now) }
{
    for (place, other) in set.iter().enumerate() {
        if is_before(spot, other) {
            return Some(place);
        }
        if are_same(spot, other) {
            return None;
        }
    }
    Some(set.len())
}

/// Puts an entity into a set in order, unless it is there.
#[tactic(auto, using(crate::proofs::Inserts::put_in))]
fn insert(set: &mut Vec<Spot>, spot: Spot) -> Result<(), AllocError>
    ensures { OnOk result (spots_of set.new.items
        ≡ inserted (spot_of spot) (spots_of set.old.items)) }
{
    if let Some(place) = place_in(set, &spot) {
        set.insert(place, spot)?;
    }
    Ok(())
}

/// The set of these entities: each once, in order of class and key.
#[tactic(auto, using(crate::proofs::Inserts::all_inserted_into_none, crate::proofs::Inserts::last_inserted))]
pub fn set_of(alloc: Global, spots: Vec<Spot>) -> Result<Spots, AllocError>
    ensures { IfOk result (λ set. spots_of set ≡ set_of (spots_of spots.items)) }
{
    let mut set = Vec::with_capacity(alloc, spots.len())?;
    let mut spots = spots;
    while let Some(spot) = spots.pop() {
        insert(&mut set, spot)?;
    }
    Ok(Spots::of(set))
}
