//! Entities by their places, and the set that a lock goes through.

ghost use Rattle.std.specs.Prelude.{◌≡◌};

use crate::names::{Key, Name};
use std::marker::Model;

/// An entity by its class and key.
#[derive(Clone, Drop, PartialEq, Eq, PartialOrd, Ord)]
pub struct Spot {
    /// Its class.
    pub class: Name,
    /// Its key.
    pub key: Key,
}

/// The set of a lock, which a contract sees as the list of its entities.
#[derive(Clone, Drop)]
pub struct Spots {
    spots: Vec<Spot>,
}

impl Model for Spots {
    ghost use Rattle.std.specs.Prelude.{List};
    ghost use Rattle.dura_value.specs.declared.spots.Spot.{Spot};

    ghost Value = { List Spot };

    ghost view = { λ s. s.spots.items };
}

impl Spots {
    /// The set of these, in this order.
    pub fn of(spots: Vec<Spot>) -> Spots
        ensures { result ≡ spots.items }
    {
        Spots { spots }
    }

    /// The entities, where they lie.
    pub fn as_slice(&self) -> &[Spot]
        ensures { result.now ≡ self.now }
    {
        &self.spots
    }
}
