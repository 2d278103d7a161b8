//! Entries, and frames of them.

ghost use Rattle.std.specs.Prelude.{◌≡◌};

use crate::items::Item;
use std::marker::Model;

/// The items of an entry, which a contract sees as a list.
#[derive(Drop)]
pub struct Items {
    items: Vec<Item>,
}

impl Model for Items {
    ghost use Rattle.std.specs.Prelude.{List};
    ghost use Rattle.log_items.specs.declared.items.Item.{Item};

    ghost Value = { List Item };

    ghost view = { λ s. s.items.items };
}

impl Items {
    /// A list of these.
    pub fn of(items: Vec<Item>) -> Items
        ensures { result ≡ items.items }
    {
        Items { items }
    }

    /// The items, where they lie.
    pub fn as_slice(&self) -> &[Item]
        ensures { result.now ≡ self.now }
    {
        &self.items
    }
}

/// An entry: its position in the log, the incarnation of the partition that made it, and its items.
#[derive(Drop)]
pub struct Entry {
    /// Its position in the log.
    pub position: u64,
    /// The incarnation of the partition that made it.
    pub incarnation: u64,
    /// What it keeps.
    pub items: Items,
}

impl Entry {
    /// Lets go of it. Where another crate drops it, the drop of each of its parts is proved there once more.
    pub fn let_go(self) {
        drop(self);
    }
}

/// What is written at once: a contract sees it as the list of its entries.
#[derive(Drop)]
pub struct Frame {
    entries: Vec<Entry>,
}

impl Model for Frame {
    ghost use Rattle.std.specs.Prelude.{List};
    ghost use Rattle.log_items.specs.declared.frames.Entry.{Entry};

    ghost Value = { List Entry };

    ghost view = { λ f. f.entries.items };
}

impl Frame {
    /// A frame of these.
    pub fn of(entries: Vec<Entry>) -> Frame
        ensures { result ≡ entries.items }
    {
        Frame { entries }
    }

    /// Lets go of them, as [`Entry::let_go`] does.
    pub fn let_go(self) {
        drop(self);
    }

    /// The entries, where they lie.
    pub fn entries(&self) -> &[Entry]
        ensures { result.now ≡ self.now }
    {
        &self.entries
    }

    /// The entries.
    pub fn into_entries(self) -> Vec<Entry>
        ensures { result.items ≡ self }
    {
        self.entries
    }
}
