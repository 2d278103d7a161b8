//! Laws. The functions do nothing.

ghost use Rattle.std.specs.Prelude.{◌≡◌, ◌<◌, ℕ, List, Some};
ghost use Rattle.dura_model.specs.Partition.{Partition, fresh};
ghost use Rattle.hub_store.specs.Origin.{Origin};
ghost use Rattle.hub_store.specs.Trail.{Settled};
ghost use Rattle.many_logs.specs.Placing.{Commit, states_after, of_partition, AllBelow};
ghost use Rattle.many_rules.specs.Leaves.{StandsOn};
ghost use Rattle.many_rules.specs.Rules.{Rules};
ghost use Rattle.site_model.specs.History.{Step};

/// What files stand for does not hang on the order in which the recovered entries were accepted: where the same entries of each partition
/// are accepted in another order too, the files that stand for the run behind the one stand for it behind the other.
#[tactic(auto, using(crate::proofs::Stands::order_stands))]
pub fn order_does_not_matter()
    ensures { (rules : Rules) (kept : List Commit) (states : ℕ → Partition) (latest digest : ℕ)
        (o : Origin) (steps : List Step) (trail : List Settled) (files : ℕ → List ℕ)
        → AllBelow rules.count kept
        → ((partition : ℕ) → partition < rules.count
        → of_partition partition kept ≡ of_partition partition rules.recovered)
        → states_after rules.flows rules.count fresh kept ≡ Some states
        → StandsOn rules latest digest o steps trail files
        → StandsOn (record rules { recovered = kept }) latest digest o steps trail files }
{}
