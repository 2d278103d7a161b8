// Definitions from both sides: for each an example that has it, and one that hasn't.
ghost use Rattle.std.specs.Prelude.{◌≡◌, ℕ, List, [], ◌∷◌};
ghost use Rattle.dura_value.specs.Items.{got, trim};
ghost use Rattle.flow_syntax.specs.Machine.{inside, outside};
ghost use Rattle.dura_model.specs.World.{empty};
ghost use Rattle.dura_model.specs.Legal.{Overlap, Waits, Holds, Blocks};
ghost use Rattle.dura_value.specs.Dependencies.{Founded, Lost, Ready};
ghost use Rattle.worked_rows.specs.ByHand.{one, other, k, m, two_in, overlapping, waiting_world, entry, message, committed};

/// Two instances inside sections that share an entity overlap. Two that share none don't, nor does one alone.
pub fn overlaps()
    ensures shared { Overlap overlapping }
    ensures apart { Overlap (two_in (inside (k ∷ [])) (inside (m ∷ []))) → ⊥ }
    ensures alone { Overlap (two_in (inside (k ∷ [])) outside) → ⊥ }
    ensures nobody { Overlap empty → ⊥ }
{}

/// Whose lock is under way to an entity waits for it, and whom the entity names holds it.
pub fn waits()
    ensures waits { Waits waiting_world one k }
    ensures holds { Holds waiting_world other k }
    ensures blocked { Blocks waiting_world one other }
    ensures another { Waits waiting_world one m → ⊥ }
    ensures free { Holds waiting_world one k → ⊥ }
{}

/// An entry is founded on the one right before it, and on those whose messages came in. A gap isn't, nor an entry of an
/// earlier incarnation, nor one that takes in what nobody sent.
pub fn founded()
    ensures first { Founded [] (committed (entry 0 0 0) [] ∷ []) }
    ensures behind { Founded (entry 0 1 4 ∷ []) (committed (entry 0 1 5) [] ∷ []) }
    ensures takes_in { Founded (entry 1 0 0 ∷ [])
        (committed (entry 0 0 0) (got (entry 1 0 0) 0 message ∷ trim (entry 1 0 0) 1 ∷ []) ∷ []) }
    ensures gap { Founded (entry 0 1 3 ∷ []) (committed (entry 0 1 5) [] ∷ []) → ⊥ }
    ensures nothing_before { Founded [] (committed (entry 0 0 1) [] ∷ []) → ⊥ }
    ensures earlier_incarnation { Founded (entry 0 9 4 ∷ []) (committed (entry 0 1 5) [] ∷ []) → ⊥ }
    ensures from_nobody { Founded (entry 1 0 0 ∷ [])
        (committed (entry 0 0 0) (got (entry 1 1 0) 0 message ∷ []) ∷ []) → ⊥ }
    ensures let_go_for_nobody { Founded [] (committed (entry 0 0 0) (trim (entry 1 0 0) 1 ∷ [])
        ∷ []) → ⊥ }
{}

/// A later incarnation of the partition gave up what stands at its floor or above.
pub fn lost()
    ensures at_the_floor { Lost (record { partition = 0; incarnation = 2; from = 5 } ∷ [])
        (entry 0 1 5) }
    ensures below_it { Lost (record { partition = 0; incarnation = 2; from = 5 } ∷ []) (entry 0 1 4)
        → ⊥ }
    ensures of_that_incarnation { Lost (record { partition = 0; incarnation = 2; from = 5 } ∷ [])
        (entry 0 2 5) → ⊥ }
    ensures of_another { Lost (record { partition = 1; incarnation = 2; from = 5 } ∷ [])
        (entry 0 1 5) → ⊥ }
    ensures ready { Ready (λ p. 5) (record { partition = 0; incarnation = 2; from = 5 } ∷ [])
        (entry 0 1 4) }
    ensures not_settled { Ready (λ p. 4) [] (entry 0 1 4) → ⊥ }
{}
