//! When lists of scalars are the same: where they have the same scalars in the same order.

ghost use Rattle.std.specs.Cmp.Lexicographic.{pointwise, lists_per, lists_equiv};
ghost use Rattle.dura_value.specs.contracts.data.ScalarPartialEq.TheImpl.Laws.{laws-law as scalar_laws};
ghost use Rattle.dura_value.specs.contracts.data.ScalarEq.TheImpl.Laws.{laws-law as scalar_equiv};

use crate::data::{Scalar, Scalars};

impl PartialEq for Scalars {
    ghost eq = { pointwise ⟦<Scalar as PartialEq>⟧.eq };

    ghost laws = { lists_per scalar_laws };

    fn eq(&self, other: &Scalars) -> bool {
        self.as_slice() == other.as_slice()
    }
}

impl Eq for Scalars {
    ghost laws = { lists_equiv scalar_equiv };
}
