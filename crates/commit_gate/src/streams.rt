//! How streams go on.

ghost use Rattle.std.specs.Prelude.{◌≡◌, ◌+◌, ◌<◌, ◌++◌, ◌∷◌, [], length};
ghost use Rattle.std.specs.VecDeque.{deque_len, deque_capacity};
ghost use Rattle.dura_value.specs.Views.{posted_of};
ghost use Rattle.log_items.specs.Streams.{begins_at};
ghost use Rattle.commit_gate.specs.Views.{box_of, whole_box, boxes_by};

use crate::ledger::Stream;
use dura_value::Posted;

impl Stream {
    /// One more message is under way.
    pub(crate) fn push(&mut self, posted: Posted)
        requires room { deque_len self.old.messages < deque_capacity self.old.messages }
        ensures settled { box_of self.new ≡ box_of self.old }
        ensures whole { whole_box self.new ≡ record (whole_box self.old) {
          messages = (whole_box self.old).messages ++ posted_of posted ∷ [];
        } }
        ensures len { deque_len self.new.messages ≡ deque_len self.old.messages + 1 }
        ensures capacity { deque_capacity self.new.messages ≡ deque_capacity self.old.messages }
    {
        self.messages.push_back_reserved(posted);
    }

    /// What is under way is gone.
    fn drop_frame(&mut self)
        ensures settled { box_of self.new ≡ box_of self.old }
        ensures whole { whole_box self.new ≡ box_of self.old }
    {
        self.messages.truncate(self.settled);
    }

    /// What is under way is settled.
    fn settle(&mut self)
        ensures settled { box_of self.new ≡ whole_box self.old }
        ensures whole { whole_box self.new ≡ whole_box self.old }
    {
        self.settled = self.messages.len();
    }

    /// It begins at a later number; one that it has begun at stays. Nothing is under way.
    pub(crate) fn begin_at(&mut self, number: u64)
        requires rests { whole_box self.old ≡ box_of self.old }
        ensures settled { box_of self.new ≡ begins_at number (box_of self.old) }
        ensures whole { whole_box self.new ≡ box_of self.new }
    {
        if number <= self.first {
            return;
        }
        self.settled = 0;
        while self.first < number {
            drop(self.messages.pop_front());
            self.first += 1;
        }
        self.settled = self.messages.len();
    }
}

/// What is under way in these is gone.
pub(crate) fn drop_all(boxes: &mut Vec<Stream>)
    ensures settled { boxes_by box_of boxes.new.items ≡ boxes_by box_of boxes.old.items }
    ensures whole { boxes_by whole_box boxes.new.items ≡ boxes_by box_of boxes.old.items }
    ensures count { length boxes.new.items ≡ length boxes.old.items }
{
    for index in 0..boxes.len() {
        boxes[index].drop_frame();
    }
}

/// What is under way in these is settled.
pub(crate) fn settle_all(boxes: &mut Vec<Stream>)
    ensures settled { boxes_by box_of boxes.new.items ≡ boxes_by whole_box boxes.old.items }
    ensures whole { boxes_by whole_box boxes.new.items ≡ boxes_by whole_box boxes.old.items }
    ensures count { length boxes.new.items ≡ length boxes.old.items }
{
    for index in 0..boxes.len() {
        boxes[index].settle();
    }
}
