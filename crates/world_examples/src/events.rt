//! Which events can't happen. The functions do nothing.

ghost use Rattle.std.specs.Prelude.{◌≡◌, ℕ, ◌^◌, ◌-◌, true, false, List};
ghost use Rattle.activity_table.specs.Table.{may};
ghost use Rattle.cell_waits.specs.declared.wait.Ended.{Ended};
ghost use Rattle.hub_store.specs.declared.way.Stage.TheVariants as stages;
ghost use Rattle.log_items.specs.declared.items.Packet.{Packet};
ghost use Rattle.spec_tracker.specs.declared.marks.Marks.{Marks};
ghost use Rattle.world_core.specs.Unmet.{is_unmet};
ghost use Rattle.world_core.specs.declared.event.Event.{Event};
ghost use Rattle.world_core.specs.declared.event.Event.TheVariants as events;
ghost use Rattle.world_examples.specs.Worlds.{empty, over, sent, known, staged};

/// Once the life is over no event can happen.
pub fn nothing_happens_behind_the_end()
    ensures { (event : Event) → is_unmet 2 1 over event ≡ true }
{}

/// A turn is of a partition that there is, and makes an entry of 1 to 64 items.
pub fn turns_are_of_partitions()
    ensures first { is_unmet 2 1 empty (events.Turn 0 1) ≡ false }
    ensures last { is_unmet 2 1 empty (events.Turn 1 64) ≡ false }
    ensures third { is_unmet 2 1 empty (events.Turn 2 1) ≡ true }
    ensures none { is_unmet 2 1 empty (events.Turn 0 0) ≡ true }
    ensures more { is_unmet 2 1 empty (events.Turn 0 65) ≡ true }
{}

/// A packet comes if it was sent, and where it was sent to.
pub fn packets_come_where_they_were_sent()
    ensures there { (packet : Packet) → packet.dst ≡ 1
        → is_unmet 2 1 (sent packet) (events.Arrive 1 0) ≡ false }
    ensures elsewhere { (packet : Packet) → packet.dst ≡ 1
        → is_unmet 2 1 (sent packet) (events.Arrive 0 0) ≡ true }
    ensures unsent { (packet : Packet) → is_unmet 2 1 (sent packet) (events.Arrive 1 1) ≡ true }
{}

/// What was known so many changes ago is known where there were so many.
pub fn marks_are_those_there_were()
    ensures now { (marks : Marks) → is_unmet 2 1 (known marks) (events.Body 0 0) ≡ false }
    ensures before { (marks : Marks) → is_unmet 2 1 (known marks) (events.Body 0 1) ≡ true }
    ensures judged { (marks : Marks) → is_unmet 2 1 (known marks) (events.Judge 1 0) ≡ false }
    ensures unjudged { is_unmet 2 1 empty (events.Judge 1 0) ≡ true }
    ensures trimmed { (marks : Marks) → is_unmet 2 1 (known marks) (events.Trim 1 0) ≡ false }
    ensures untrimmed { (marks : Marks) → is_unmet 2 1 (known marks) (events.Trim 1 1) ≡ true }
{}

/// A frame comes from its body to its gate and on, one call after another.
pub fn frames_come_so_far()
    ensures synced { is_unmet 2 1 (staged stages.Bodied) (events.SyncBody 0) ≡ false }
    ensures twice { is_unmet 2 1 (staged stages.Synced) (events.SyncBody 0) ≡ true }
    ensures opened { is_unmet 2 1 (staged stages.Synced) (events.Gate 1) ≡ false }
    ensures unsafe_body { is_unmet 2 1 (staged stages.Bodied) (events.Gate 1) ≡ true }
    ensures settled { is_unmet 2 1 (staged stages.Gated) (events.Settle 0) ≡ false }
    ensures closed { is_unmet 2 1 (staged stages.Synced) (events.Settle 0) ≡ true }
    ensures none { is_unmet 2 1 empty (events.Settle 0) ≡ true }
{}

/// Moments end below 2^63, and nodes are those that there are.
pub fn moments_and_nodes_are_in_range()
    ensures last { is_unmet 2 1 empty (events.Fire 0 (2 ^ 63 - 1)) ≡ false }
    ensures past { is_unmet 2 1 empty (events.Fire 0 (2 ^ 63)) ≡ true }
    ensures stopped { is_unmet 2 1 empty (events.Stop 0) ≡ false }
    ensures no_node { is_unmet 2 1 empty (events.Stop 1) ≡ true }
    ensures owned { is_unmet 2 1 empty (events.Own 1 0) ≡ false }
    ensures by_none { is_unmet 2 1 empty (events.Own 1 1) ≡ true }
{}

/// An outcome is one that its activity may give. A look, and a line that is asked for, can always be.
pub fn outcomes_are_what_activities_give()
    ensures given { (ended : Ended) → may ended.activity.name ended.activity.argument ended.outcome
        ≡ true → is_unmet 2 1 empty (events.Outcome 0 ended) ≡ false }
    ensures not_given { (ended : Ended) → may ended.activity.name ended.activity.argument
        ended.outcome ≡ false → is_unmet 2 1 empty (events.Outcome 0 ended) ≡ true }
    ensures looked { is_unmet 2 1 empty events.Image ≡ false }
    ensures asked { (name : List ℕ) (number : ℕ) → is_unmet 2 1 empty (events.Say name number)
        ≡ false }
{}
