//! Laws. The functions do nothing.

ghost use Rattle.std.specs.Prelude.{◌≡◌, ℕ, List, false, Ok};
ghost use Rattle.cell_steps.specs.declared.mode.Mode.{Mode};
ghost use Rattle.many_rules.specs.Rules.{Rules};
ghost use Rattle.world_core.specs.World.{WorldView};
ghost use Rattle.world_judges.specs.Judging.{JudgesAll};
ghost use Rattle.world_laws.specs.Depends.{HoldsNothingLost};
ghost use Rattle.world_laws.specs.Lives.{IsCurrent, IsWell};
ghost use Rattle.world_laws.specs.Made.{MadeEntry, AreMade};

/// Once all cells were judged, no entry that one holds depends on an entry that was given up, through any number of entries between.
pub fn judged_all_settles()
    ensures { (rules : Rules) (mode : Mode) (nodes : ℕ) (made : List MadeEntry)
        (old new : WorldView) → IsWell rules old → IsCurrent rules old
        → JudgesAll rules mode nodes old (Ok tt) new → new.ended ≡ false → AreMade rules made new
        → HoldsNothingLost rules made new }
{}
