//! Examples of what a call may commit and say. They are said of the definitions alone: the functions do nothing.

ghost use Rattle.std.specs.Prelude.{◌≡◌, ℕ, List, [], ◌∷◌, codes};
ghost use Rattle.client_port.specs.Lines.{line_of};
ghost use Rattle.dura_value.specs.Ids.{Id};
ghost use Rattle.dura_value.specs.Items.{took, ran, ended, fired};
ghost use Rattle.dura_value.specs.Messages.{was_started};
ghost use Rattle.dura_value.specs.declared.outcome.Outcome.{Outcome};
ghost use Rattle.dura_model.specs.Partition.{fresh};
ghost use Rattle.flow_syntax.specs.Syntax.{Flows};
ghost use Rattle.part_items.specs.Examples.{request, taking};
ghost use Rattle.run_rules.specs.Examples.{waiting, rules_with, later_rules, silent_rules, told_once, answering_rules, summing, adding, ending};
ghost use Rattle.run_rules.specs.Rules.{Told, IsDue, IsBy, EndsPending, EndPending, Follows, Answers};

/// A client's first request is due, and its second once the first was answered.
pub fn requests_due()
    ensures first { (flows : Flows) → IsDue (rules_with flows) [] request }
    ensures second { (flows : Flows) → IsDue (rules_with flows) told_once waiting }
    ensures early { (flows : Flows) → IsDue (rules_with flows) [] waiting → ⊥ }
    ensures unasked { (flows : Flows) (told : Told) → IsDue (silent_rules flows) told request → ⊥ }
{}

/// The entry by which the first request is taken may follow where nothing is settled; not behind itself, not in another incarnation, and not
/// where nobody asks.
pub fn entries_following()
    ensures first { (flows : Flows) → Follows (rules_with flows) 0 [] [] (taking 0 ∷ []) }
    ensures twice { (flows : Flows) (latest : ℕ) (told : Told)
        → Follows (rules_with flows) latest (taking 0 ∷ []) told (taking 1 ∷ []) → ⊥ }
    ensures later { (flows : Flows) (latest : ℕ) (told : Told)
        → Follows (later_rules flows) latest [] told (taking 0 ∷ []) → ⊥ }
    ensures unasked { (flows : Flows) (latest : ℕ) (told : Told)
        → Follows (silent_rules flows) latest [] told (taking 0 ∷ []) → ⊥ }
{}

/// A timer that fires at a stamp is of no later one than that, and of a later one than any before.
pub fn stamps_of_items()
    ensures then { (id : Id) (task : ℕ) → IsBy 5 (fired id task 5) }
    ensures earlier { (id : Id) (task : ℕ) → IsBy 4 (fired id task 5) → ⊥ }
    ensures delivered { (from to : Id) → IsBy 4 (ran from to 5) → ⊥ }
    ensures taken { IsBy 0 (took request) }
{}

/// An outcome of an activity that is pending ends what is pending; one of an activity that isn't asked for yet doesn't, nor does a
/// frame whose second entry has it. What has no outcome ends nothing.
pub fn outcomes_of_pending()
    ensures there { (outcome : Outcome) → EndPending adding (ending 0 outcome ∷ []) }
    ensures other { (outcome : Outcome) → EndsPending adding (ended summing 4 outcome) → ⊥ }
    ensures early { (outcome : Outcome) → EndPending (fresh 0) (taking 0 ∷ ending 1 outcome ∷ [])
        → ⊥ }
    ensures taken { EndPending (fresh 0) (taking 0 ∷ []) }
{}

/// The line of the answer that is there may be said, once, and no other line, nor where there is no answer.
pub fn lines_answering()
    ensures there { (flows : Flows) → Answers (answering_rules flows) [] [] (codes "a") 1
        (line_of (codes "a") 1 was_started) }
    ensures only { (flows : Flows) (line : List ℕ)
        → Answers (answering_rules flows) [] [] (codes "a") 1 line
        → line ≡ line_of (codes "a") 1 was_started }
    ensures again { (flows : Flows) (line : List ℕ)
        → Answers (answering_rules flows) [] told_once (codes "a") 1 line → ⊥ }
    ensures nowhere { (flows : Flows) (line : List ℕ)
        → Answers (rules_with flows) [] [] (codes "a") 1 line → ⊥ }
{}
