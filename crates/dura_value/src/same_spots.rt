//! When sets of a lock are the same: where they have the same entities in the same order.

ghost use Rattle.std.specs.Cmp.Lexicographic.{pointwise, lists_per, lists_equiv};
ghost use Rattle.dura_value.specs.contracts.spots.SpotPartialEq.TheImpl.Laws.{laws-law as spot_laws};
ghost use Rattle.dura_value.specs.contracts.spots.SpotEq.TheImpl.Laws.{laws-law as spot_equiv};

use crate::spots::{Spot, Spots};

impl PartialEq for Spots {
    ghost eq = { pointwise ⟦<Spot as PartialEq>⟧.eq };

    ghost laws = { lists_per spot_laws };

    fn eq(&self, other: &Spots) -> bool {
        self.as_slice() == other.as_slice()
    }
}

impl Eq for Spots {
    ghost laws = { lists_equiv spot_equiv };
}
