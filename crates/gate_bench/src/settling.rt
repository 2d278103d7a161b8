//! Settling frames one after another.

ghost use Rattle.std.specs.Prelude.{◌≡◌, ◌<◌, ◌+◌, ◌^◌, length, map, OnOk, IfOk};
ghost use Rattle.commit_gate.specs.Keeping.{AreOfOne};
ghost use Rattle.commit_gate.specs.Ledgers.{log_length};
ghost use Rattle.commit_gate.specs.Views.{floors_in, ledger_of};
ghost use Rattle.dura_value.specs.Views.{floor_of};
ghost use Rattle.gate_bench.specs.Rests.{Rests};
ghost use Rattle.log_items.specs.Plain.{items_of};

use commit_gate::{Ledger, Past, Stream};
use dura_value::{Floor, Identity};
use log_items::{Entry, Frame, Item, Items};
use std::alloc::{AllocError, Global};
use std::collections::VecDeque;

/// Who takes in what streams bring.
const READER: Identity = Identity {
    partition: 0,
    incarnation: 0,
    position: 0,
};

/// What others see of one partition, which these entries made.
pub(crate) fn ledger_with(
    alloc: Global,
    past: Past,
    floors: Vec<Floor>,
) -> Result<Ledger, AllocError>
    ensures rests { IfOk result Rests }
    ensures past { IfOk result (λ ledger. (ledger_of ledger).incarnations ≡ past) }
    ensures floors { IfOk result (λ ledger. floors_in ledger ≡ map floor_of floors.items) }
{
    let nexts = vec![in alloc; 1]?;
    let readers = vec![in alloc; READER]?;
    let boxes = vec![in alloc; Stream::of(0, VecDeque::new(alloc))]?;
    Ok(Ledger::recovered(alloc, past, floors, nexts, readers, boxes))
}

/// A frame of one entry without items.
fn frame_of_one(alloc: Global) -> Result<Frame, AllocError>
    ensures { IfOk result (λ frame. length frame ≡ 1) }
{
    let entry = Entry {
        position: 0,
        incarnation: 0,
        items: Items::of(Vec::new(alloc)),
    };
    Ok(Frame::of(vec![in alloc; entry]?))
}

/// So many items, each of which lets go of nothing.
pub(crate) fn trims(alloc: Global, count: u32) -> Result<Vec<Item>, AllocError>
    ensures { IfOk result (λ items. AreOfOne 1 (items_of items.items)) }
{
    let mut items = Vec::new(alloc);
    for _ in 0..count {
        items.push(Item::Trim(0, 0, 0, 0))?;
    }
    Ok(items)
}

/// Settles a frame of one entry, which takes in and lets go by these items.
fn settle_one(alloc: Global, ledger: &mut Ledger, items: &[Item]) -> Result<(), AllocError>
    requires rests { Rests ledger.old }
    requires short { log_length (ledger_of ledger.old) + 1 < 2 ^ 64 }
    requires fits { AreOfOne 1 (items_of items.now) }
    ensures rests { OnOk result (Rests ledger.new) }
    ensures length { OnOk result (log_length (ledger_of ledger.new)
        ≡ log_length (ledger_of ledger.old) + 1) }
{
    let frame = frame_of_one(alloc)?;
    ledger.make_room(1, &[])?;
    ledger.begin_frame(&frame, Vec::new(alloc));
    ledger.settle_frame();
    ledger.take_items(READER, items);
    Ok(())
}

/// Settles so many frames of one entry with so many items.
pub(crate) fn settle_frames(alloc: Global, frames: u32, items: u32) -> Result<(), AllocError> {
    let items = trims(alloc, items)?;
    let mut ledger = ledger_with(alloc, Past::none(alloc), Vec::new(alloc))?;
    for _ in 0..frames {
        settle_one(alloc, &mut ledger, &items)?;
    }
    Ok(())
}
