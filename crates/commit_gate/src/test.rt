//! The test of a frame.

ghost use Rattle.std.specs.Prelude.{◌≡◌, ◌≤◌, ◌<◌, IfSome, IfNone, OnOk, IfErr};
ghost use Rattle.std.specs.Bool.{Decides};
ghost use Rattle.dura_value.specs.Dependencies.{Lost};
ghost use Rattle.dura_value.specs.Views.{message_of, identity_of, posted_of};
ghost use Rattle.log_items.specs.Plain.{item_of, items_of, entries_of};
ghost use Rattle.commit_gate.specs.Met.{HasPosted};
ghost use Rattle.commit_gate.specs.Refused.{GaveUp, IsReady, IsNotReady, Refuses, Passes, Tests};
ghost use Rattle.commit_gate.specs.Ledgers.{log_length, IsKnown};
ghost use Rattle.commit_gate.specs.Unlost.{AreUnlost};
ghost use Rattle.commit_gate.specs.Views.{floors_in, box_of, ledger_of, ledgers_of, floors_of};
ghost use Rattle.log_items.specs.Entries.{items_in};

use crate::ledger::{Ledger, Stream};
use crate::past::{incarnation_at, length_of};
use crate::unmet::Unmet;
use dura_value::{Floor, Identity, Message, Posted, is_same_entry};
use log_items::{Frame, Item};

/// Whether it is this message of this entry.
fn is_posted(posted: &Posted, entry: Identity, message: &Message) -> bool
    ensures { Decides result (posted_of posted.now
        ≡ record { entry = identity_of entry; message = message_of message.now }) }
{
    is_same_entry(posted.entry, entry) && posted.message == *message
}

/// Whether the incarnation that began there gave an entry up.
fn gave_up(floor: Floor, e: Identity) -> bool
    ensures { Decides result ((floor.partition ≡ e.partition)
        × (e.incarnation < floor.incarnation) × (floor.from ≤ e.position)) }
{
    floor.partition == e.partition && e.incarnation < floor.incarnation && floor.from <= e.position
}

impl Stream {
    /// Whether this message of this entry is settled under this number.
    fn has(&self, number: u64, entry: Identity, message: &Message) -> bool
        ensures { Decides result (HasPosted (box_of self.now) number
            (record { entry = identity_of entry; message = message_of message.now })) }
    {
        if number < self.first {
            return false;
        }
        let behind = number - self.first;
        if self.settled as u64 <= behind {
            return false;
        }
        is_posted(&self.messages[behind as usize], entry, message)
    }
}

impl Ledger {
    /// How many of the partition's entries are settled, the recovered ones too.
    pub fn log_length(&self) -> u64
        ensures { result ≡ log_length (ledger_of self.now) }
    {
        length_of(&self.past)
    }

    /// Whether an entry is one of those that were recovered or settled.
    fn knows(&self, e: Identity) -> bool
        ensures { Decides result (IsKnown (ledger_of self.now) (identity_of e)) }
    {
        match incarnation_at(&self.past, e.position) {
            Some(incarnation) => incarnation == e.incarnation,
            None => false,
        }
    }

    /// Where a later incarnation began that gave an entry up, if one did.
    fn floor_under(&self, e: Identity) -> Option<u64>
        ensures some { IfSome result (GaveUp (floors_in self.now) (identity_of e)) }
        ensures none { IfNone result (Lost (floors_in self.now) (identity_of e) → ⊥) }
    {
        for floor in &self.floors {
            if gave_up(*floor, e) {
                return Some(floor.from);
            }
        }
        None
    }

    /// How far the stream from a partition was taken in.
    fn next(&self, source: u32) -> u64
        ensures { result ≡ (ledger_of self.now).nexts source }
    {
        match self.nexts.get(source as usize) {
            Some(next) => *next,
            None => 0,
        }
    }

    /// Whether the stream to a partition has this message of this entry under this number.
    fn has(&self, target: u32, number: u64, entry: Identity, message: &Message) -> bool
        ensures { Decides result (HasPosted ((ledger_of self.now).boxes target) number
            (record { entry = identity_of entry; message = message_of message.now })) }
    {
        match self.boxes.get(target as usize) {
            Some(stream) => stream.has(number, entry, message),
            None => false,
        }
    }
}

/// Whether a named entry is settled and wasn't given up. One that is known wasn't, so its floors are looked at only where the frame is
/// refused.
fn test_name(ledgers: &[Ledger], dep: Identity) -> Result<(), Unmet>
    requires unlost { AreUnlost ledgers.now }
    ensures ok { OnOk result (IsReady (ledgers_of ledgers.now) (floors_of ledgers.now)
        (identity_of dep)) }
    ensures err { IfErr result (IsNotReady (ledgers_of ledgers.now) (floors_of ledgers.now)
        (identity_of dep)) }
{
    let Some(ledger) = ledgers.get(dep.partition as usize) else {
        return Err(Unmet::NotReady { dep, have: 0 });
    };
    if ledger.knows(dep) {
        return Ok(());
    }
    if let Some(floor) = ledger.floor_under(dep) {
        return Err(Unmet::Lost { dep, floor });
    }
    let have = ledger.log_length();
    if have <= dep.position {
        return Err(Unmet::NotReady { dep, have });
    }
    Ok(())
}

/// Whether the stream from a partition has this message of this entry under this number.
fn is_streamed(
    ledgers: &[Ledger],
    partition: u32,
    source: Identity,
    number: u64,
    message: &Message,
) -> bool
    ensures { Decides result (HasPosted ((ledgers_of ledgers.now source.partition).boxes partition)
        number (record { entry = identity_of source; message = message_of message.now })) }
{
    match ledgers.get(source.partition as usize) {
        Some(ledger) => ledger.has(partition, number, source, message),
        None => false,
    }
}

/// Whether a partition has read so far, and the entry is known there.
fn is_read(ledgers: &[Ledger], partition: u32, reader: Identity, number: u64) -> bool
    ensures { Decides result
        ((number ≤ (ledgers_of ledgers.now reader.partition).nexts partition)
        × IsKnown (ledgers_of ledgers.now reader.partition) (identity_of reader)) }
{
    match ledgers.get(reader.partition as usize) {
        Some(ledger) => number <= ledger.next(partition) && ledger.knows(reader),
        None => false,
    }
}

/// Whether an item is what it claims.
fn test_item(ledgers: &[Ledger], partition: u32, item: &Item) -> Result<(), Unmet>
    requires unlost { AreUnlost ledgers.now }
    ensures ok { OnOk result (Passes (ledgers_of ledgers.now) (floors_of ledgers.now) partition
        (item_of item.now)) }
    ensures err { IfErr result (Refuses (ledgers_of ledgers.now) (floors_of ledgers.now) partition
        (item_of item.now)) }
{
    match item {
        Item::Got(source, incarnation, position, number, message) => {
            let dep = Identity {
                partition: *source,
                incarnation: *incarnation,
                position: *position,
            };
            if let Err(unmet) = test_name(ledgers, dep) {
                return Err(unmet);
            }
            if is_streamed(ledgers, partition, dep, *number, message) {
                Ok(())
            } else {
                Err(Unmet::Differs { dep })
            }
        }
        Item::Trim(reader, number, incarnation, position) => {
            let dep = Identity {
                partition: *reader,
                incarnation: *incarnation,
                position: *position,
            };
            if let Err(unmet) = test_name(ledgers, dep) {
                return Err(unmet);
            }
            if is_read(ledgers, partition, dep, *number) {
                Ok(())
            } else {
                Err(Unmet::Differs { dep })
            }
        }
        _ => Ok(()),
    }
}

/// The same of all items of an entry.
fn test_items(ledgers: &[Ledger], partition: u32, items: &[Item]) -> Result<(), Unmet>
    requires unlost { AreUnlost ledgers.now }
    ensures { Tests (ledgers_of ledgers.now) (floors_of ledgers.now) partition (items_of items.now)
        result }
{
    for item in items {
        if let Err(unmet) = test_item(ledgers, partition, item) {
            return Err(unmet);
        }
    }
    Ok(())
}

/// Whether each item of a frame of a partition is what it claims, by what is settled; else why the first that isn't is not. Where the
/// entries of a partition are of n stretches it takes O(log n) steps for each item, and where one is refused one for each floor of its
/// partition.
pub fn test_frame(ledgers: &[Ledger], partition: u32, frame: &Frame) -> Result<(), Unmet>
    requires unlost { AreUnlost ledgers.now }
    ensures { Tests (ledgers_of ledgers.now) (floors_of ledgers.now) partition
        (items_in (entries_of frame.now)) result }
{
    for entry in frame.entries() {
        if let Err(unmet) = test_items(ledgers, partition, entry.items.as_slice()) {
            return Err(unmet);
        }
    }
    Ok(())
}
