//! Laws. The functions do nothing.

ghost use Rattle.std.specs.Prelude.{◌≡◌, ◌≤◌, ℕ, false, List, length, Ok};
ghost use Rattle.cell_steps.specs.declared.mode.Mode.{Mode};
ghost use Rattle.flow_syntax.specs.Syntax.{Flows};
ghost use Rattle.hub_store.specs.Trail.{Settled};
ghost use Rattle.join_laws.specs.Joined.{IsOneLife, life_at};
ghost use Rattle.life_laws.specs.Composed.{ShowsRun};
ghost use Rattle.many_rules.specs.Rules.{Rules};
ghost use Rattle.site_model.specs.History.{Step};
ghost use Rattle.world_core.specs.World.{WorldView};
ghost use Rattle.world_core.specs.declared.answer.Answer.{Answer};
ghost use Rattle.world_judges.specs.Judging.{JudgesAll};
ghost use Rattle.world_laws.specs.Depends.{HoldsNothingLost};
ghost use Rattle.world_laws.specs.Lives.{IsWell, IsCurrent};
ghost use Rattle.world_laws.specs.Made.{MadeEntry, AreMade};
ghost use Rattle.world_lives.specs.Lives.{Lives, IsLife};
ghost use Rattle.world_lives.specs.declared.deed.Deed.{Deed};

use site_model::Site;

/// As long as a life goes on, the settled states of its cells are what the run makes which it comes to: what was recovered, then what was
/// settled, in its order.
#[tactic(auto, using(crate::proofs::Composed::shows_run))]
pub fn settled_states_show_the_run()
    ensures { (rules : Rules) (w : WorldView) → IsWell rules w → w.ended ≡ false
        → ShowsRun rules w.store.trail w.cells }
{}

/// Once all cells were judged in a life, no entry that one holds depends on an entry that was given up, through any number of entries
/// between.
pub fn judged_lives_hold_nothing_lost()
    ensures { (rules : Rules) (mode : Mode) (nodes : ℕ) (made : List MadeEntry)
        (first old new : WorldView) (done : List Deed) (came : List Answer) → IsWell rules first
        → IsCurrent rules first → Lives rules mode nodes first done came old
        → JudgesAll rules mode nodes old (Ok tt) new → new.ended ≡ false → AreMade rules made new
        → HoldsNothingLost rules made new }
{}

/// A life over a site that tells is one life, at each moment of it.
pub fn told_lives_are_lives<V: Site>()
    ensures { (flows : Flows) (count digest : ℕ) (mode : Mode) (nodes : ℕ) (old new : List Step)
        (done : List Deed) (came : List Answer) (trail : List Settled) (moment : ℕ) (site : V)
        → V.tells site
        → IsLife flows count digest mode nodes (V.tells site) old new done came trail
        → length old ≤ moment → moment ≤ length new
        → IsOneLife flows count digest (life_at old new trail moment) }
{}
