//! What stands in a cell for its place in the store.

ghost use Rattle.std.specs.Prelude.{◌≡◌};
ghost use Rattle.hub_store.specs.Plain.{trail_of};
ghost use Rattle.hub_store.specs.Trail.{of_part};

use hub_store::Settled;
use many_rules::Picked;
use seat_marks::SettledMark;
use spec_cell::Mine;
use std::marker::PhantomData;

/// A partition's place in a store by the rules of a call: which partition it is, and what it has settled.
pub struct Seat<M: Picked> {
    number: u32,
    mark: SettledMark,
    of: PhantomData<M>,
}

impl<M: Picked> Mine for Seat<M> {
    ghost use Rattle.std.specs.Prelude.{None, []};
    ghost use Rattle.hub_store.specs.declared.way.Stage.TheVariants as stages;

    ghost flows = { M.rules.flows };

    ghost count = { M.rules.count };

    ghost begin = { M.rules.begin };

    ghost number = { λ s. s.number };

    ghost slot = { λ s. record {
      token = 0;
      mine = s.mark.mine;
      under_way = None;
      stage = stages.Resting;
      floors = [];
    } };
}

impl<M: Picked> Seat<M> {
    /// The seat of a partition that has settled what this trail has of it. It holds no memory.
    pub fn of(part: u32, trail: &[Settled]) -> Seat<M>
        ensures number { ⟦<Seat<M> as Mine>⟧.number result ≡ part }
        ensures mine { (⟦<Seat<M> as Mine>⟧.slot result).mine ≡ of_part part (trail_of trail.now) }
    {
        Seat {
            number: part,
            mark: SettledMark::of(part, trail),
            of: PhantomData,
        }
    }

    /// Lets go of it.
    pub fn let_go(self) {
        let Seat {
            number: _,
            mark,
            of: _,
        } = self;
        drop(mark);
    }
}
