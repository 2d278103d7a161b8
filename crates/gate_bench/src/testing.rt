//! Testing a frame before its gate.

ghost use Rattle.std.specs.Prelude.{◌≡◌, [], ◌∷◌, IfOk};
ghost use Rattle.std.specs.List.{All};
ghost use Rattle.commit_gate.specs.Unlost.{AreUnlost};

use crate::settling::{ledger_with, trims};
use commit_gate::{Ledger, Past, test_frame};
use dura_value::Floor;
use log_items::{Entry, Frame, Items};
use std::alloc::{AllocError, Global};

/// So many floors of the first incarnation, which gave nothing up.
fn floors_of(alloc: Global, count: u32) -> Result<Vec<Floor>, AllocError>
    ensures { IfOk result (λ floors. All (λ floor. floor.incarnation ≡ 0) floors.items) }
{
    let mut floors = Vec::new(alloc);
    for _ in 0..count {
        floors.push(Floor {
            partition: 0,
            incarnation: 0,
            from: 0,
        })?;
    }
    Ok(floors)
}

/// One partition with one entry, and so many floors.
fn ledgers_with(alloc: Global, floors: u32) -> Result<Vec<Ledger>, AllocError>
    ensures { IfOk result (λ ledgers. AreUnlost ledgers.items) }
{
    let mut past = Past::none(alloc);
    past.push(0)?;
    let ledger = ledger_with(alloc, past, floors_of(alloc, floors)?)?;
    Ok(vec![in alloc; ledger]?)
}

/// A frame of so many items, each of which names that entry.
fn frame_with(alloc: Global, count: u32) -> Result<Frame, AllocError> {
    let entry = Entry {
        position: 0,
        incarnation: 0,
        items: Items::of(trims(alloc, count)?),
    };
    Ok(Frame::of(vec![in alloc; entry]?))
}

/// Tests a frame of so many items beside so many floors, so many times.
pub(crate) fn test_often(
    alloc: Global,
    items: u32,
    floors: u32,
    times: u32,
) -> Result<(), AllocError> {
    let ledgers = ledgers_with(alloc, floors)?;
    let frame = frame_with(alloc, items)?;
    for _ in 0..times {
        if test_frame(&ledgers, 0, &frame).is_err() {
            return Err(AllocError);
        }
    }
    Ok(())
}
