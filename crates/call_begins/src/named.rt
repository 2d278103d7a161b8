//! The name of where a call begins.

ghost use Rattle.std.specs.Prelude.{◌≡◌, List};
ghost use Rattle.hub_store.specs.Origin.{Origin};
ghost use Rattle.many_rules.specs.Rules.{Rules};
ghost use Rattle.site_model.specs.History.{Step};

use many_rules::Picked;
use std::marker::{Brand, PhantomData};

/// Where a call begins, and by which rules it goes on. Who begins it picks them.
pub trait Named: Drop {
    /// Where it begins.
    ghost origin: { Origin };

    /// The rules.
    ghost rules: { Rules };

    /// They are of as many partitions.
    ghost counts: { rules.count ≡ origin.count };
}

/// The name that is picked: without a pick there is one partition, of which nothing was recovered.
impl Named for Brand {
    ghost use Rattle.std.specs.Prelude.{[], false, refl};
    ghost use Rattle.dura_model.specs.Partition.{fresh};
    ghost use Rattle.hub_store.specs.Origin.{no_entry};

    ghost origin = { record { count = 1; logs = λ partition. no_entry 16; steps = [] } };

    ghost rules = { record {
      flows = record { flows = []; classes = [] };
      count = 1;
      recovered = [];
      begin = fresh;
      incarnations = λ partition. 0;
      since = 0;
      most = 64;
      requests = [];
      serves = false;
    } };

    ghost counts = { refl };
}

/// What the store of a call goes by.
#[derive(Drop)]
pub struct Of<N: Named> {
    of: PhantomData<N>,
}

impl<N: Named> Picked for Of<N> {
    ghost origin = { N.origin };

    ghost rules = { N.rules };

    ghost counts = { N.counts };
}

/// What happened before a call. Who begins it picks it.
pub trait Since {
    /// What happened.
    ghost steps: { List Step };
}

/// Without a pick nothing did.
impl Since for Brand {
    ghost use Rattle.std.specs.Prelude.{[]};

    ghost steps = { [] };
}
