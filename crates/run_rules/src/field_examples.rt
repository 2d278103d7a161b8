//! Examples of the facts about what a call may commit and say: in each all hold, or all but one. They are said of the definitions
//! alone: the functions do nothing.

ghost use Rattle.std.specs.Prelude.{ℕ, List, [], ◌∷◌, codes};
ghost use Rattle.dura_value.specs.declared.data.Value.TheVariants as values;
ghost use Rattle.dura_value.specs.declared.outcome.Outcome.TheVariants as outcomes;
ghost use Rattle.flow_syntax.specs.Syntax.{Flows};
ghost use Rattle.part_items.specs.Examples.{request, taking};
ghost use Rattle.run_rules.specs.Examples.{rules_with, later_rules, silent_rules, answering_rules, ending};
ghost use Rattle.run_rules.specs.FieldExamples.{other_start, firing, asking_rules, no_sum, sum_flows, starting, ending_first, answered_rules};
ghost use Rattle.run_rules.specs.Rules.{IsDue, IsOurs, Follows, Answers};

/// A request that is due is what its client asks, and nothing else.
pub fn requests_sent()
    ensures asked { (flows : Flows) → IsDue (rules_with flows) [] request }
    ensures other { (flows : Flows) → IsDue (rules_with flows) [] other_start → ⊥ }
{}

/// An entry is of this call's incarnation, takes what was asked for, and is of no later stamp than the clock's.
pub fn entries_ours()
    ensures ours { (flows : Flows) → IsOurs (rules_with flows) 5 [] (firing 5) }
    ensures incarnation { (flows : Flows) → IsOurs (later_rules flows) 5 [] (firing 5) → ⊥ }
    ensures asked { (flows : Flows) → IsOurs (silent_rules flows) 0 [] (taking 0) → ⊥ }
    ensures timely { (flows : Flows) → IsOurs (rules_with flows) 4 [] (firing 5) → ⊥ }
{}

/// Entries follow behind some that make a state, in which they are accepted.
pub fn entries_accepted()
    ensures first { (flows : Flows) → Follows (rules_with flows) 0 [] [] (taking 0 ∷ []) }
    ensures unmade { (flows : Flows) → Follows (rules_with flows) 0 (taking 0 ∷ taking 1 ∷ []) []
        (taking 0 ∷ []) → ⊥ }
    ensures refused { (flows : Flows) → Follows (rules_with flows) 0 (taking 0 ∷ []) []
        (taking 1 ∷ []) → ⊥ }
{}

/// An outcome is one that its activity may give.
pub fn outcomes_given()
    ensures failed { (flows : Flows) → Follows (asking_rules flows) 0 [] [] (ending 0 no_sum ∷ []) }
    ensures done { (flows : Flows) → Follows (asking_rules flows) 0 [] []
        (ending 0 (outcomes.Done values.Null) ∷ []) → ⊥ }
{}

/// The activity ran once the entry was settled that asks for it, and not in one frame with it.
pub fn outcomes_settled()
    ensures behind { Follows (rules_with sum_flows) 5 (starting ∷ []) [] (ending_first ∷ []) }
    ensures early { Follows (rules_with sum_flows) 5 [] [] (starting ∷ ending_first ∷ []) → ⊥ }
{}

/// A line answers the next request, by its number, once entries are settled that make a state.
pub fn lines_next()
    ensures unmade { (flows : Flows) (line : List ℕ)
        → Answers (answering_rules flows) (taking 0 ∷ taking 1 ∷ []) [] (codes "a") 1 line → ⊥ }
    ensures number { (flows : Flows) (line : List ℕ)
        → Answers (answered_rules flows) [] [] (codes "a") 2 line → ⊥ }
{}
