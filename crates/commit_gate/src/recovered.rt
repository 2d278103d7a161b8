//! What others see of a partition at the beginning.

ghost use Rattle.std.specs.Prelude.{◌≡◌, length, map};
ghost use Rattle.dura_value.specs.Views.{posted_of, floor_of};
ghost use Rattle.commit_gate.specs.Views.{box_of, whole_box, boxes_by, nexts_by, floors_in, ledger_of, whole_of};

use crate::ledger::{Ledger, Stream};
use crate::past::Past;
use dura_value::{Floor, Identity, Posted};
use std::alloc::Global;
use std::collections::VecDeque;

impl Stream {
    /// What is left of a stream at the beginning: these messages, of which the first has this number.
    pub fn of(first: u64, messages: VecDeque<Posted>) -> Stream
        ensures settled { box_of result
            ≡ record { first = first; messages = map posted_of messages.items } }
        ensures whole { whole_box result ≡ box_of result }
    {
        Stream {
            first,
            settled: messages.len(),
            messages,
        }
    }
}

impl Ledger {
    /// What others see of a partition at the beginning: entries of these incarnations were recovered, these floors were set, the streams
    /// from each partition were taken in up to these numbers, the last message of each by this entry, and these to each are left.
    pub fn recovered(
        alloc: Global,
        past: Past,
        floors: Vec<Floor>,
        nexts: Vec<u64>,
        readers: Vec<Identity>,
        boxes: Vec<Stream>,
    ) -> Ledger
        requires rests { boxes_by whole_box boxes.items ≡ boxes_by box_of boxes.items }
        ensures settled { ledger_of result ≡ record {
          incarnations = past;
          nexts = nexts_by nexts.items;
          boxes = boxes_by box_of boxes.items;
        } }
        ensures whole { whole_of result ≡ ledger_of result }
        ensures floors { floors_in result ≡ map floor_of floors.items }
        ensures boxes { length result.boxes.items ≡ length boxes.items }
        ensures nexts { length result.nexts.items ≡ length nexts.items }
        ensures readers { result.readers.items ≡ readers.items }
    {
        Ledger {
            past: past.stretches,
            incarnations: Vec::new(alloc),
            floors,
            nexts,
            readers,
            boxes,
        }
    }
}
