//! What is known of entries, by example: of partition 0 six entries are settled, and its incarnation 2 began at position 5.

ghost use Rattle.std.specs.Prelude.{ℕ, [], ◌∷◌};
ghost use Rattle.spec_tracker.specs.Examples.{begun, entry};
ghost use Rattle.spec_tracker.specs.Marks.{IsVerdict};

use crate::marks::Verdict;

/// An entry of an earlier incarnation is lost from there on, though it is settled; before it is ready, and so is one of the incarnation
/// that began. What isn't settled, and wasn't given up, is undecided.
pub fn verdicts()
    ensures lost { IsVerdict (begun ∷ []) (λ partition. 6) (entry 1 5) Verdict.Lost }
    ensures before { IsVerdict (begun ∷ []) (λ partition. 6) (entry 1 4) Verdict.Ready }
    ensures own { IsVerdict (begun ∷ []) (λ partition. 6) (entry 2 5) Verdict.Ready }
    ensures undecided { IsVerdict (begun ∷ []) (λ partition. 6) (entry 2 6) Verdict.Undecided }
    ensures not_ready { IsVerdict (begun ∷ []) (λ partition. 6) (entry 1 5) Verdict.Ready → ⊥ }
    ensures not_lost { IsVerdict (begun ∷ []) (λ partition. 6) (entry 1 4) Verdict.Lost → ⊥ }
    ensures not_undecided { IsVerdict [] (λ partition. 6) (entry 2 5) Verdict.Undecided → ⊥ }
{}
