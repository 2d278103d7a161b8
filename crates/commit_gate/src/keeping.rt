//! How a ledger goes on with a frame.

ghost use Rattle.std.specs.Prelude.{◌≡◌, ◌<◌, ◌≤◌, ◌+◌, ◌^◌, ◌++◌, ◌∷◌, [], length, map, OnOk, OnErr};
ghost use Rattle.std.specs.List.{All};
ghost use Rattle.std.specs.Vec.{vec_len, vec_capacity};
ghost use Rattle.dura_value.specs.Views.{identity_of, floor_of};
ghost use Rattle.log_items.specs.Plain.{item_of, items_of, entries_of};
ghost use Rattle.log_items.specs.Streams.{with_posted, with_sent};
ghost use Rattle.commit_gate.specs.Keeping.{GoesInside, IsOfOne, AreOfOne, KeepsPlaces};
ghost use Rattle.commit_gate.specs.Ledgers.{log_length, with_frame, after_items};
ghost use Rattle.commit_gate.specs.Room.{HaveRoom, HasRoom};
ghost use Rattle.commit_gate.specs.Views.{all_sent, box_of, whole_box, boxes_by, floors_in, readers_in, ledger_of, whole_of};
ghost use Rattle.log_items.specs.Readings.{readers_after};
ghost use Rattle.log_items.specs.Entries.{incarnations_in};

use crate::ledger::{Ledger, Sending, Stream};
use crate::past::push_all_reserved;
use crate::streams::{drop_all, settle_all};
use dura_value::{Floor, Identity};
use log_items::{Entry, Frame, Item};
use std::alloc::AllocError;

/// These messages are under way.
fn send_all(boxes: &mut Vec<Stream>, sending: Vec<Sending>)
    requires inside { All (GoesInside (length boxes.old.items)) (all_sent sending.items) }
    requires room { HaveRoom boxes.old.items (all_sent sending.items) }
    ensures settled { boxes_by box_of boxes.new.items ≡ boxes_by box_of boxes.old.items }
    ensures whole { boxes_by whole_box boxes.new.items
        ≡ with_sent (boxes_by whole_box boxes.old.items) (all_sent sending.items) }
    ensures count { length boxes.new.items ≡ length boxes.old.items }
{
    for one in sending {
        boxes[one.to as usize].push(one.posted);
    }
}

/// The incarnations of these entries, behind those that there are.
fn push_incarnations(incarnations: &mut Vec<u64>, entries: &[Entry])
    requires room { vec_len incarnations.old + length entries.now ≤ vec_capacity incarnations.old }
    ensures { incarnations.new.items
        ≡ incarnations.old.items ++ incarnations_in (entries_of entries.now) }
{
    for entry in entries {
        incarnations.push_reserved(entry.incarnation);
    }
}

impl Ledger {
    /// A frame is under way, with what it sends. There is room for it.
    pub fn begin_frame(&mut self, frame: &Frame, sending: Vec<Sending>)
        requires rests { whole_of self.old ≡ ledger_of self.old }
        requires short { log_length (ledger_of self.old) + length frame.now < 2 ^ 64 }
        requires inside { All (GoesInside (length self.old.boxes.items)) (all_sent sending.items) }
        requires room { HasRoom self.old (length frame.now) (all_sent sending.items) }
        ensures settled { ledger_of self.new ≡ ledger_of self.old }
        ensures whole { whole_of self.new ≡ with_frame (ledger_of self.old) (entries_of frame.now)
            (all_sent sending.items) }
        ensures readers { self.new.readers ≡ self.old.readers }
        ensures places { KeepsPlaces self.old self.new }
    {
        push_incarnations(&mut self.incarnations, frame.entries());
        send_all(&mut self.boxes, sending);
    }

    /// What is under way is gone.
    pub fn drop_frame(&mut self)
        ensures settled { ledger_of self.new ≡ ledger_of self.old }
        ensures whole { whole_of self.new ≡ ledger_of self.old }
        ensures readers { self.new.readers ≡ self.old.readers }
        ensures places { KeepsPlaces self.old self.new }
    {
        self.incarnations.clear();
        drop_all(&mut self.boxes);
    }

    /// The entries and messages under way are settled. It takes no memory.
    pub fn settle_frame(&mut self)
        ensures settled { ledger_of self.new ≡ whole_of self.old }
        ensures whole { whole_of self.new ≡ whole_of self.old }
        ensures readers { self.new.readers ≡ self.old.readers }
        ensures places { KeepsPlaces self.old self.new }
    {
        push_all_reserved(&mut self.past, &self.incarnations);
        self.incarnations.clear();
        settle_all(&mut self.boxes);
    }

    /// An item of this entry takes in or lets go. Nothing is under way.
    fn take_item(&mut self, reader: Identity, item: &Item)
        requires rests { whole_of self.old ≡ ledger_of self.old }
        requires nexts { length self.old.nexts.items ≡ length self.old.boxes.items }
        requires readers { length self.old.readers.items ≡ length self.old.boxes.items }
        requires fits { IsOfOne (length self.old.boxes.items) (item_of item.now) }
        ensures settled { ledger_of self.new
            ≡ after_items (item_of item.now ∷ []) (ledger_of self.old) }
        ensures readers { readers_in self.new
            ≡ readers_after (identity_of reader) (readers_in self.old) (item_of item.now ∷ []) }
        ensures whole { whole_of self.new ≡ ledger_of self.new }
        ensures places { KeepsPlaces self.old self.new }
    {
        match item {
            Item::Got(source, _, _, number, _) => {
                self.nexts[*source as usize] = *number + 1;
                self.readers[*source as usize] = reader;
            }
            Item::Trim(target, number, _, _) => {
                self.boxes[*target as usize].begin_at(*number);
            }
            _ => {}
        }
    }

    /// The items of this entry, which is settled, take in and let go. Nothing is under way.
    pub fn take_items(&mut self, reader: Identity, items: &[Item])
        requires rests { whole_of self.old ≡ ledger_of self.old }
        requires nexts { length self.old.nexts.items ≡ length self.old.boxes.items }
        requires readers { length self.old.readers.items ≡ length self.old.boxes.items }
        requires fits { AreOfOne (length self.old.boxes.items) (items_of items.now) }
        ensures settled { ledger_of self.new
            ≡ after_items (items_of items.now) (ledger_of self.old) }
        ensures readers { readers_in self.new
            ≡ readers_after (identity_of reader) (readers_in self.old) (items_of items.now) }
        ensures whole { whole_of self.new ≡ ledger_of self.new }
        ensures places { KeepsPlaces self.old self.new }
    {
        for item in items {
            self.take_item(reader, item);
        }
    }

    /// An incarnation of the partition begins, which gives up what earlier ones made from its position on.
    pub fn restart(&mut self, floor: Floor) -> Result<(), AllocError>
        ensures settled { ledger_of self.new ≡ ledger_of self.old }
        ensures whole { whole_of self.new ≡ whole_of self.old }
        ensures boxes { length self.new.boxes.items ≡ length self.old.boxes.items }
        ensures nexts { length self.new.nexts.items ≡ length self.old.nexts.items }
        ensures readers { self.new.readers ≡ self.old.readers }
        ensures floors { OnOk result (floors_in self.new
            ≡ floors_in self.old ++ floor_of floor ∷ []) }
        ensures same { OnErr result (floors_in self.new ≡ floors_in self.old) }
    {
        self.floors.push(floor)?;
        Ok(())
    }
}
