//! Laws of what was settled. The functions do nothing.

ghost use Rattle.std.specs.Prelude.{◌≡◌, ◌<◌, ◌≤◌, ◌+◌, ℕ, List, length, Some};
ghost use Rattle.dura_model.specs.Partition.{fresh};
ghost use Rattle.gated_store.specs.Kept.{Grown};
ghost use Rattle.hub_store.specs.Trail.{Settled, of_part};
ghost use Rattle.many_logs.specs.Labels.{AreNumbered};
ghost use Rattle.many_logs.specs.Placing.{states_after, AllBelow};
ghost use Rattle.many_rules.specs.Ledgers.{ledgers};
ghost use Rattle.many_rules.specs.Makes.{Makes};
ghost use Rattle.many_rules.specs.Rules.{Rules};
ghost use Rattle.trail_states.specs.HaveMade.{HaveMade};

/// What was settled frame by frame, each as a store whose gate compares lets it pass, makes states of what was recovered: they show a world,
/// each partition's entries stand one position after another, and each state is made of its partition's own entries.
pub fn trails_make_states()
    ensures { (rules : Rules) (trail : List Settled)
        → states_after rules.flows rules.count fresh rules.recovered ≡ Some rules.begin
        → AllBelow rules.count rules.recovered → AreNumbered fresh rules.recovered
        → Grown (ledgers rules) (Makes rules) trail → HaveMade rules trail }
{}

/// By what was settled so, no partition has taken in more of a stream than was sent: where it is in the stream lies no further than the
/// stream's end, as others see both.
pub fn reads_stay_inside()
    ensures { (rules : Rules) (trail : List Settled) (reader source : ℕ)
        → states_after rules.flows rules.count fresh rules.recovered ≡ Some rules.begin
        → AllBelow rules.count rules.recovered → AreNumbered fresh rules.recovered
        → Grown (ledgers rules) (Makes rules) trail
        → reader < rules.count → source < rules.count
        → (ledgers rules reader (of_part reader trail)).nexts source
        ≤ ((ledgers rules source (of_part source trail)).boxes reader).first
        + length ((ledgers rules source (of_part source trail)).boxes reader).messages }
{}
