//! Laws of the sections of legal runs. They are said of the definitions alone: the functions do nothing.

ghost use Rattle.std.specs.Prelude.{◌≡◌, List, [], Some, true};
ghost use Rattle.dura_value.specs.Ids.{Id};
ghost use Rattle.dura_value.specs.Messages.{Spot, at_spot, spot_before};
ghost use Rattle.flow_syntax.specs.Syntax.{Flows};
ghost use Rattle.dura_model.specs.World.{World};
ghost use Rattle.dura_model.specs.Steps.{Label};
ghost use Rattle.dura_model.specs.Legal.{Legal, Overlap, Waits, Holds, Blocks, holder_of};
ghost use Rattle.run_laws.specs.Causes.{Because, RunsInside};

/// No two sections of a legal run overlap.
pub fn no_overlap()
    ensures { (flows : Flows) (run : List Label) (w : World) → Legal flows run w → Overlap w → ⊥ }
{}

/// Who waits for an entity holds only smaller ones.
pub fn waits_in_order()
    ensures { (flows : Flows) (run : List Label) (w : World) → Legal flows run w
        → (id : Id) (shared smaller : Spot) → Waits w id shared → Holds w id smaller
        → spot_before smaller shared ≡ true }
{}

/// Nobody waits in a circle.
pub fn no_circle()
    ensures { (flows : Flows) (run : List Label) (w : World) → Legal flows run w → (id : Id)
        → Blocks w id id → ⊥ }
{}

/// An entity with a holder has a cause, so no lock is left behind.
pub fn no_lock_left()
    ensures { (flows : Flows) (run : List Label) (w : World) → Legal flows run w
        → (id : Id) (spot : Spot) → holder_of (w.entities (at_spot spot)) ≡ Some id
        → Because w id spot }
{}

/// Once no message is under way, an entity with a holder is held by an instance that runs inside a section with it.
pub fn held_inside()
    ensures { (flows : Flows) (run : List Label) (w : World) → Legal flows run w
        → ((from to : Id) → w.links from to ≡ []) → (id : Id) (spot : Spot)
        → holder_of (w.entities (at_spot spot)) ≡ Some id → RunsInside w id spot }
{}
