//! Examples of calls one after another.

ghost use Rattle.std.specs.Prelude.{[], ◌∷◌};
ghost use Rattle.join_laws.specs.Joined.{BeginsOn};
ghost use Rattle.hub_store.specs.Examples.{log_written};
ghost use Rattle.part_items.specs.Examples.{empty_log};
ghost use Rattle.site_model.specs.History.{on, wrote};

/// A call begins on what a crash left: not on files that no crash left, and not where a crash may leave more than before.
pub fn calls_begin_on()
    ensures nothing { BeginsOn [] [] }
    ensures lost { BeginsOn log_written [] → ⊥ }
    ensures loose { BeginsOn log_written (on 16 (wrote 0 34 empty_log) ∷ []) → ⊥ }
{}
