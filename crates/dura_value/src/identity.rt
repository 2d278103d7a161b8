//! Entries by who they are, and what others keep of them.

ghost use Rattle.std.specs.Prelude.{◌≡◌};
ghost use Rattle.dura_value.specs.Same.{identity_eq};
ghost use Rattle.dura_value.specs.Views.{identity_of};

use crate::messages::Message;

/// An entry by its partition, the incarnation of the partition that made it, and its position there.
#[derive(Clone, Copy, PartialEq, Eq)]
pub struct Identity {
    /// The partition.
    pub partition: u32,
    /// Its incarnation.
    pub incarnation: u64,
    /// The entry's position.
    pub position: u64,
}

/// A message to another partition, and the entry that sends it.
#[derive(Drop)]
pub struct Posted {
    /// The entry.
    pub entry: Identity,
    /// The message.
    pub message: Message,
}

/// Where an incarnation of a partition began: all entries of earlier ones from this position on are given up.
#[derive(Clone, Copy)]
pub struct Floor {
    /// The partition.
    pub partition: u32,
    /// The incarnation.
    pub incarnation: u64,
    /// The position that it began at.
    pub from: u64,
}

/// Whether two entries are the same.
pub fn is_same_entry(one: Identity, other: Identity) -> bool
    ensures { result ≡ identity_eq (identity_of one) (identity_of other) }
{
    one == other
}
