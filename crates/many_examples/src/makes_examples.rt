//! Examples of what one of two partitions may commit by its own state, of what the ledger of the other meets, and of where a call begins. They
//! are said of the definitions alone: the functions do nothing.

ghost use Rattle.std.specs.Prelude.{[], ◌∷◌};
ghost use Rattle.dura_model.specs.Partition.{fresh};
ghost use Rattle.dura_value.specs.Items.{trim};
ghost use Rattle.flow_syntax.specs.Syntax.{Flows};
ghost use Rattle.gated_store.specs.Follows.{Follows as GateFollows};
ghost use Rattle.many_examples.specs.Pairs.{taking, coming_in, commit_at, first_entry};
ghost use Rattle.many_examples.specs.RulesBy.{rules_with, later_rules, aged_rules, silent_rules, recovering, taken_once};
ghost use Rattle.many_logs.specs.Labels.{AreNumbered};
ghost use Rattle.many_logs.specs.Placing.{Commit};
ghost use Rattle.many_rules.specs.Ledgers.{ledgers};
ghost use Rattle.many_rules.specs.Makes.{Makes};

/// By its own state a partition may take in a message, be it sent or not, and may take a request, in the call's incarnation or a later one;
/// not where its log doesn't go on, in an earlier incarnation than the call's or than that of its state, what nobody asks, nor the same
/// message again. A partition that isn't there may nothing.
pub fn frames_made()
    ensures coming { (flows : Flows) → Makes (rules_with flows) 0 [] [] 0
        ((coming_in 0).entry ∷ []) }
    ensures first { (flows : Flows) → Makes (rules_with flows) 0 [] [] 1 (taking.entry ∷ []) }
    ensures later { (flows : Flows) → Makes (rules_with flows) 0 [] [] 0
        (record (coming_in 0).entry { incarnation = 1 } ∷ []) }
    ensures positions { (flows : Flows) → Makes (rules_with flows) 0 [] [] 0
        ((coming_in 1).entry ∷ []) → ⊥ }
    ensures incarnation { (flows : Flows) → Makes (later_rules flows) 0 [] [] 0
        ((coming_in 0).entry ∷ []) → ⊥ }
    ensures earlier { (flows : Flows) → Makes (aged_rules flows) 0 [] [] 0
        ((coming_in 0).entry ∷ []) → ⊥ }
    ensures asked { (flows : Flows) → Makes (silent_rules flows) 0 [] [] 1 (taking.entry ∷ [])
        → ⊥ }
    ensures accepted { (flows : Flows) → Makes (rules_with flows) 0 ((coming_in 0).entry ∷ []) []
        0 ((coming_in 1).entry ∷ []) → ⊥ }
    ensures below { (flows : Flows) → Makes (rules_with flows) 0 [] [] 2 [] → ⊥ }
{}

/// What it takes in is met once the entry that sent it is settled, and not before.
pub fn frames_met()
    ensures met { (flows : Flows) → GateFollows (ledgers (rules_with flows))
        (Makes (rules_with flows)) 0 taken_once [] 0 ((coming_in 0).entry ∷ []) }
    ensures unsent { (flows : Flows) → GateFollows (ledgers (rules_with flows))
        (Makes (rules_with flows)) 0 [] [] 0 ((coming_in 0).entry ∷ []) → ⊥ }
    ensures makes { (flows : Flows) → GateFollows (ledgers (rules_with flows))
        (Makes (rules_with flows)) 0 taken_once [] 0 ((coming_in 1).entry ∷ []) → ⊥ }
{}

/// A call begins behind nothing, and behind an entry; not behind one whose log has a gap before it, nor where a later entry is of an earlier
/// incarnation.
pub fn calls_behind()
    ensures first { (flows : Flows) → AreNumbered fresh (rules_with flows).recovered }
    ensures behind { (flows : Flows) → AreNumbered fresh (recovering flows taking).recovered }
    ensures incarnations { AreNumbered fresh (record taking {
      entry = record taking.entry { incarnation = 1 };
    } ∷ commit_at 1 1 (trim (first_entry 0) 1) ∷ []) → ⊥ }
    ensures numbered { (flows : Flows) → AreNumbered fresh (recovering flows (coming_in 1)).recovered → ⊥ }
{}
