//! A law of what recovery answers. It is said of the definitions alone: the function does nothing.

ghost use Rattle.std.specs.Prelude.{ℕ, List, Result};
ghost use Rattle.flow_syntax.specs.Syntax.{Flows};
ghost use Rattle.dura_model.specs.Steps.{Label};
ghost use Rattle.many_logs.specs.Stands.{FilesStand};
ghost use Rattle.recover_core.specs.declared.error.RecoverError.{RecoverError};
ghost use Rattle.recover_core.specs.declared.recovery.Opened.{Opened};
ghost use Rattle.recover_core.specs.Recovering.{Opens, IsNotRefused, ShowsRun};

/// Files that stand for a run are never refused, and what is recovered of them shows the world after that run.
pub fn what_stands_is_recovered()
    ensures never_refused { (flows : Flows) (count digest : ℕ) (files : ℕ → List ℕ)
        (run : List Label) (result : Result Opened RecoverError)
        → FilesStand flows count digest files run → Opens flows count digest files result
        → IsNotRefused result }
    ensures shows_run { (flows : Flows) (count digest : ℕ) (files : ℕ → List ℕ) (run : List Label)
        (result : Result Opened RecoverError) → FilesStand flows count digest files run
        → Opens flows count digest files result → ShowsRun flows count run result }
{}
