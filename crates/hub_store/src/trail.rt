//! What a call settled and said.

ghost use Rattle.std.specs.Prelude.{◌≡◌, ◌+◌, ◌≤◌, ◌++◌, [], length};
ghost use Rattle.std.specs.Vec.{vec_len, vec_capacity};
ghost use Rattle.log_items.specs.Plain.{entries_of};
ghost use Rattle.hub_store.specs.Plain.{trail_of};
ghost use Rattle.hub_store.specs.Trail.{settling};

use dura_value::Name;
use log_items::{Frame, Items};
use std::alloc::Global;
use std::marker::Model;

/// An entry that was settled.
#[derive(Drop)]
pub struct Settled {
    /// The partition that it is of.
    pub partition: u32,
    /// Its position in the partition's log.
    pub position: u64,
    /// The incarnation of the partition that made it.
    pub incarnation: u64,
    /// What it keeps.
    pub items: Items,
    /// The moment at which it was settled.
    pub at: u64,
}

/// A request whose answer was said.
#[derive(Drop)]
pub struct Said {
    /// The client that made it.
    pub client: Name,
    /// Its number.
    pub number: u32,
}

/// What was settled, the first first. A contract sees it as a list.
#[derive(Drop)]
pub struct Trail {
    entries: Vec<Settled>,
}

impl Model for Trail {
    ghost use Rattle.std.specs.Prelude.{List};
    ghost use Rattle.hub_store.specs.Trail as plain;
    ghost use Rattle.hub_store.specs.Plain.{trail_of};

    ghost Value = { List plain.Settled };

    ghost view = { λ t. trail_of t.entries.items };
}

impl Trail {
    /// Nothing was settled.
    pub fn none(alloc: Global) -> Trail
        ensures { result ≡ [] }
    {
        Trail {
            entries: Vec::new(alloc),
        }
    }

    /// A trail of these.
    pub(crate) fn of(entries: Vec<Settled>) -> Trail
        ensures { result ≡ trail_of entries.items }
    {
        Trail { entries }
    }

    /// The entries, where they lie.
    pub fn as_slice(&self) -> &[Settled]
        ensures { trail_of result.now ≡ self.now }
    {
        &self.entries
    }
}

/// Puts the entries of a frame behind a trail that has room for them.
pub(crate) fn settle_entries(trail: &mut Vec<Settled>, partition: u32, at: u64, frame: Frame)
    requires { vec_len trail.old + length frame ≤ vec_capacity trail.old }
    ensures trail { trail_of trail.new.items
        ≡ trail_of trail.old.items ++ settling partition at (entries_of frame) }
    ensures len { vec_len trail.new ≡ vec_len trail.old + length frame }
    ensures capacity { vec_capacity trail.new ≡ vec_capacity trail.old }
{
    let mut entries = frame.into_entries();
    while !entries.is_empty() {
        let entry = entries.remove(0);
        trail.push_reserved(Settled {
            partition,
            position: entry.position,
            incarnation: entry.incarnation,
            items: entry.items,
            at,
        });
    }
}
