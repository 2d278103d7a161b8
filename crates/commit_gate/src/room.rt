//! Room for what a frame adds, made before it is written.

ghost use Rattle.std.specs.Prelude.{◌≡◌, ◌≤◌, ◌+◌, length, OnOk};
ghost use Rattle.std.specs.VecDeque.{deque_len, deque_capacity};
ghost use Rattle.commit_gate.specs.Keeping.{KeepsPlaces};
ghost use Rattle.commit_gate.specs.Room.{count_to, HaveRoom, HasRoom};
ghost use Rattle.commit_gate.specs.Views.{all_sent, box_of, whole_box, boxes_by, ledger_of, whole_of};

use crate::ledger::{Ledger, Sending, Stream};
use std::alloc::AllocError;

/// How many of these go to a partition.
fn count_to(sending: &[Sending], target: usize) -> usize
    ensures { result ≡ count_to target (all_sent sending.now) }
{
    let mut count = 0;
    for one in sending {
        if one.to as usize == target {
            count += 1;
        }
    }
    count
}

impl Stream {
    /// Makes room for so many messages.
    fn make_room(&mut self, count: usize) -> Result<(), AllocError>
        ensures settled { box_of self.new ≡ box_of self.old }
        ensures whole { whole_box self.new ≡ whole_box self.old }
        ensures room { OnOk result (deque_len self.new.messages + count
            ≤ deque_capacity self.new.messages) }
    {
        self.messages.reserve(count)
    }
}

/// Makes room in each stream for those of these that go there.
fn make_room_in(boxes: &mut Vec<Stream>, sending: &[Sending]) -> Result<(), AllocError>
    ensures settled { boxes_by box_of boxes.new.items ≡ boxes_by box_of boxes.old.items }
    ensures whole { boxes_by whole_box boxes.new.items ≡ boxes_by whole_box boxes.old.items }
    ensures count { length boxes.new.items ≡ length boxes.old.items }
    ensures room { OnOk result (HaveRoom boxes.new.items (all_sent sending.now)) }
{
    for target in 0..boxes.len() {
        let count = count_to(sending, target);
        if boxes[target].make_room(count).is_err() {
            return Err(AllocError);
        }
    }
    Ok(())
}

impl Ledger {
    /// Makes room for a frame of so many entries, which send these. Nothing else changes.
    pub fn make_room(&mut self, entries: usize, sending: &[Sending]) -> Result<(), AllocError>
        ensures settled { ledger_of self.new ≡ ledger_of self.old }
        ensures whole { whole_of self.new ≡ whole_of self.old }
        ensures readers { self.new.readers ≡ self.old.readers }
        ensures places { KeepsPlaces self.old self.new }
        ensures room { OnOk result (HasRoom self.new entries (all_sent sending.now)) }
    {
        if self.incarnations.reserve(entries).is_err() {
            return Err(AllocError);
        }
        if self.past.reserve(entries).is_err() {
            return Err(AllocError);
        }
        make_room_in(&mut self.boxes, sending)
    }
}
