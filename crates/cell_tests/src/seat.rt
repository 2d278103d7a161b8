//! The seat of a cell of a test, and how such a cell begins and ends.

ghost use Rattle.std.specs.Prelude.{◌≡◌, ◌<◌, ℕ, []};
ghost use Rattle.flow_syntax.specs.Syntax.{Flows};

use log_items::Entry;
use part_steps::PartState;
use spec_cell::{Cell, Mine};
use std::alloc::Global;
use std::marker::{Brand, PhantomData};

/// What is fixed when a test begins, which it picks.
pub(crate) trait Named {
    /// The flows.
    ghost flows: { Flows };

    /// How many partitions there are.
    ghost count: { ℕ };
}

impl Named for Brand {
    ghost use Rattle.std.specs.Prelude.{[]};

    ghost flows = { record { flows = []; classes = [] } };

    ghost count = { 1 };
}

/// A partition of which nothing was recovered, with the entries that are settled.
pub(crate) struct TestSeat<N: Named> {
    number: u32,
    token: u32,
    mine: Vec<Entry>,
    of: PhantomData<N>,
}

impl<N: Named> Mine for TestSeat<N> {
    ghost use Rattle.std.specs.Prelude.{None};
    ghost use Rattle.dura_model.specs.Partition.{fresh};
    ghost use Rattle.log_items.specs.Plain.{entries_of};
    ghost use Rattle.hub_store.specs.declared.way.Stage.TheVariants as stages;

    ghost flows = { N.flows };

    ghost count = { N.count };

    ghost begin = { fresh };

    ghost number = { λ s. s.number };

    ghost slot = { λ s. record {
      token = s.token;
      mine = entries_of s.mine.items;
      under_way = None;
      stage = stages.Resting;
      floors = [];
    } };
}

/// A new cell of this partition of so many.
pub(crate) fn new_cell<N: Named>(alloc: Global, partitions: u32, number: u32) -> Cell<TestSeat<N>>
    requires count { partitions ≡ N.count }
    requires among { number < partitions }
    ensures number { result.number ≡ number }
    ensures none { result.slot.mine ≡ [] }
{
    let base = PartState::new(alloc, partitions, number);
    let seat = seat_of(number, Vec::new(alloc));
    Cell::new(alloc, base, seat, 0, 0)
}

/// The seat of this partition, where these entries are settled.
pub(crate) fn seat_of<N: Named>(number: u32, mine: Vec<Entry>) -> TestSeat<N>
    ensures number { result.number ≡ number }
    ensures mine { result.mine ≡ mine }
{
    TestSeat {
        number,
        token: 0,
        mine,
        of: PhantomData,
    }
}

/// The test is over.
pub(crate) fn leave<N: Named>(cell: Cell<TestSeat<N>>) {
    leave_seat(cell.end());
}

/// The seat is let go of.
pub(crate) fn leave_seat<N: Named>(seat: TestSeat<N>) {
    let TestSeat {
        number: _,
        token: _,
        mine,
        of: _,
    } = seat;
    drop(mine);
}
