//! What is fixed when a call of the two partitions begins.

ghost use Rattle.std.specs.Prelude.{List};
ghost use Rattle.site_model.specs.History.{Step};

use gated_store::Local;
use std::marker::{Brand, PhantomData};

/// What happened before a call begins, which the call picks.
pub(crate) trait Named: Drop {
    /// What happened.
    ghost steps: { List Step };
}

impl Named for Brand {
    ghost use Rattle.std.specs.Prelude.{[]};

    ghost steps = { [] };
}

/// Both logs are empty, and each partition may commit what goes on where it stands. Nothing may be said.
#[derive(Drop)]
pub(crate) struct Case<M: Named> {
    of: PhantomData<M>,
}

impl<M: Named> Local for Case<M> {
    ghost use Rattle.std.specs.Prelude.{None};
    ghost use Rattle.crossing_tests.specs.Crossing.{origin_with, ledgers, no_other};
    ghost use Rattle.crossing_tests.specs.Standing.{readers, may_make};

    ghost origin = { origin_with M.steps };

    ghost ledgers = { ledgers };

    ghost readers = { readers };

    ghost may_make = { may_make };

    ghost may_say = { λ trail told one line. ⊥ };

    ghost answer = { λ trail one. None };

    ghost says = { λ trail told one line may. absurd may };

    ghost still_makes = { λ latest mine told also partition going may. may };

    ghost later_makes = { λ latest later mine told partition going above may. may };

    ghost outside = { no_other };

    ghost goes = { λ latest mine told partition going may. may };
}
