//! Examples of where a call begins, and of what a crash leaves of it. They are said of the definitions alone: the functions do
//! nothing.

ghost use Rattle.std.specs.Prelude.{◌≡◌, ℕ, List, [], ◌∷◌, codes, slice_set};
ghost use Rattle.client_port.specs.Lines.{line_of};
ghost use Rattle.dura_value.specs.Messages.{is_unknown};
ghost use Rattle.dura_value.specs.declared.outcome.Outcome.{Outcome};
ghost use Rattle.flow_syntax.specs.Syntax.{Flows};
ghost use Rattle.hub_store.specs.Trail.{Said};
ghost use Rattle.part_items.specs.Examples.{digest, two_files, empty_log as empty_bytes, taking_log};
ghost use Rattle.run_laws.specs.Begins.{BeginsAlone};
ghost use Rattle.run_laws.specs.Examples.{empty_origin, odd_origin, taken_once, taken_twice, twice_log, rules, answering, first_said};
ghost use Rattle.run_laws.specs.Leaves.{IsAnswered, AllAnswered, IsHalfSaid, AllRan, StandsOn};
ghost use Rattle.run_rules.specs.Examples.{rules_with, later_rules, answering_rules, ending};
ghost use Rattle.site_model.specs.History.{said};

/// A call over a log without entries begins where nothing happened: not under another digest, and not where something was answered.
pub fn calls_begin()
    ensures empty { (flows : Flows) → BeginsAlone empty_origin (rules_with flows) digest }
    ensures other_digest { (flows : Flows) → BeginsAlone empty_origin (rules_with flows) 0 → ⊥ }
    ensures other_state { (flows : Flows) → BeginsAlone empty_origin (answering_rules flows) digest
        → ⊥ }
{}

/// The answer to a start of a flow that isn't there is the run's once it was settled, and not before; and it is the first that is
/// said.
pub fn answers_of_a_run()
    ensures settled { IsAnswered rules empty_origin (answering ∷ []) [] first_said
        (line_of (codes "a") 1 is_unknown) }
    ensures early { (one : Said) (line : List ℕ) → IsAnswered rules empty_origin [] [] one line
        → ⊥ }
    ensures again { (line : List ℕ) → IsAnswered rules empty_origin (answering ∷ [])
        (first_said ∷ []) first_said line → ⊥ }
    ensures all { AllAnswered rules empty_origin (answering ∷ []) (first_said ∷ [])
        (line_of (codes "a") 1 is_unknown) }
    ensures none { (line : List ℕ) → AllAnswered rules empty_origin (answering ∷ []) [] line
        → line ≡ [] }
    ensures half { IsHalfSaid rules empty_origin (answering ∷ []) [] (said 97 ∷ []) (97 ∷ []) }
    ensures silent { (part : List ℕ) → IsHalfSaid rules empty_origin (answering ∷ []) [] [] part
        → ⊥ }
{}

/// The entry by which a request is taken may come first; one in which an activity ends that no entry before it asked for may not.
pub fn activities_ran()
    ensures taken { AllRan rules (answering ∷ []) }
    ensures early { (outcome : Outcome) → AllRan rules (ending 0 outcome ∷ []) → ⊥ }
{}

/// A crash of a call that did nothing leaves the log as it was: no damaged one, and no shorter tape.
pub fn crashes_leave()
    ensures empty { (flows : Flows) → StandsOn (rules_with flows) 0 digest empty_origin [] []
        (two_files empty_bytes []) }
    ensures damaged { (flows : Flows) → StandsOn (rules_with flows) 0 digest empty_origin [] []
        (two_files (slice_set empty_bytes 3 0) []) → ⊥ }
    ensures unsaid { (flows : Flows) → StandsOn (rules_with flows) 0 digest
        (record empty_origin { steps = said 97 ∷ [] }) [] [] (two_files empty_bytes []) → ⊥ }
{}

/// A crash leaves the entry that was settled. Without it, or with no other entries than the log had, which no file keeps, it leaves
/// something else; so it does with an entry that isn't accepted, with one of another incarnation, and with one whose gate wasn't written. And
/// what stands on the tape answers somebody.
pub fn crashes_leave_entries()
    ensures taken { (flows : Flows) → StandsOn (rules_with flows) 0 digest empty_origin []
        taken_once (two_files taking_log []) }
    ensures lost { (flows : Flows) → StandsOn (rules_with flows) 0 digest empty_origin [] taken_once
        (two_files empty_bytes []) → ⊥ }
    ensures kept { (flows : Flows) → StandsOn (rules_with flows) 0 digest odd_origin [] []
        (two_files empty_bytes []) → ⊥ }
    ensures accepted { (flows : Flows) → StandsOn (rules_with flows) 0 digest empty_origin []
        taken_twice (two_files twice_log []) → ⊥ }
    ensures of_call { (flows : Flows) → StandsOn (later_rules flows) 0 digest empty_origin []
        taken_once (two_files taking_log []) → ⊥ }
    ensures unwritten { (flows : Flows) → StandsOn (rules_with flows) 0 digest empty_origin [] []
        (two_files taking_log []) → ⊥ }
    ensures answering { (flows : Flows) → StandsOn (rules_with flows) 0 digest empty_origin
        (said 97 ∷ []) [] (two_files empty_bytes []) → ⊥ }
{}
