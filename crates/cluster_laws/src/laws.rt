//! Laws. The functions do nothing.

ghost use Rattle.std.specs.Prelude.{◌≤◌, ℕ, List, length};
ghost use Rattle.cluster_laws.specs.Runs.{AsksUnder};
ghost use Rattle.cluster_run.specs.Comes.{ComesTo};
ghost use Rattle.command_words.specs.declared.words.RunOptions.{RunOptions};
ghost use Rattle.engine_rounds.specs.Heard.{Heard};
ghost use Rattle.flow_syntax.specs.Syntax.{Flows};
ghost use Rattle.hub_store.specs.Trail.{Settled};
ghost use Rattle.join_laws.specs.Joined.{IsOneLife, life_at};
ghost use Rattle.run_causes.specs.declared.cause.Cause.{Cause};
ghost use Rattle.site_model.specs.History.{Step, content_of};

use site_model::Site;

/// What a run with these options comes to, where the site tells, is one life at each of its moments: of the flows that its file has, and of as
/// many partitions.
pub fn runs_are_lives<V: Site>()
    ensures { (options : RunOptions) (flows : Flows) (digest : ℕ) (heard : Heard) (old new : List Step)
        (trail : List Settled) (cause : Cause) (moment : ℕ) (site : V) → V.tells site
        → ComesTo options (λ file. content_of file old) heard (V.tells site) old new trail cause
        → AsksUnder options (λ file. content_of file old) flows digest → length old ≤ moment
        → moment ≤ length new
        → IsOneLife flows options.partitions digest (life_at old new trail moment) }
{}
