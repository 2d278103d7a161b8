//! Worlds made by hand in which the laws fail. No legal run comes to one of them.

ghost use Rattle.std.specs.Prelude.{List};
ghost use Rattle.flow_syntax.specs.Syntax.{Flows};
ghost use Rattle.dura_model.specs.Steps.{Label};
ghost use Rattle.dura_model.specs.Legal.{Legal, Overlap, Blocks};
ghost use Rattle.run_laws.specs.ByHand.{one, overlapping, disordered, circling, left_behind};

/// The laws fail there, and so the worlds are of no legal run.
pub fn made_worlds_are_not_legal()
    ensures overlaps { Overlap overlapping }
    ensures circles { Blocks circling one one }
    ensures overlapping { (flows : Flows) (run : List Label) → Legal flows run overlapping → ⊥ }
    ensures disordered { (flows : Flows) (run : List Label) → Legal flows run disordered → ⊥ }
    ensures circling { (flows : Flows) (run : List Label) → Legal flows run circling → ⊥ }
    ensures left_behind { (flows : Flows) (run : List Label) → Legal flows run left_behind → ⊥ }
{}
