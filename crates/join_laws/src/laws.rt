//! Laws. The functions do nothing.

ghost use Rattle.std.specs.Prelude.{ℕ, List, []};
ghost use Rattle.flow_syntax.specs.Syntax.{Flows};
ghost use Rattle.join_laws.specs.Joined.{KeepsOn, AllKeep, Life, LivesOn, AreJoined};
ghost use Rattle.many_logs.specs.Placing.{Commit};
ghost use Rattle.many_logs.specs.Stands.{AreKept};
ghost use Rattle.site_model.specs.History.{Step, IsImage};

/// Lives may begin on files that keep just a run, and where nothing has happened yet, by which no entry is kept.
pub fn lives_may_begin()
    ensures kept { (flows : Flows) (count digest : ℕ) (run : List Commit) (files : ℕ → List ℕ)
        → AreKept flows count digest files run → KeepsOn flows count digest run files }
    ensures new { (flows : Flows) (count digest : ℕ) → AllKeep flows count digest [] [] }
{}

/// Whatever number of lives there were, each begun on what a crash at any moment left of the one before: what a crash leaves of the
/// last stands for one run of all partitions, which extends the one at the start; and what any of them settled or said is that run's.
#[tactic(auto, using(crate::proofs::Joined::lives_joined))]
pub fn lives_are_joined()
    ensures { (flows : Flows) (count digest : ℕ) (first last : List Step) (run : List Commit)
        (lives : List Life) → AllKeep flows count digest run first
        → LivesOn flows count digest first lives last → (image : ℕ → List ℕ) → IsImage last image
        → AreJoined flows count digest run lives image }
{}
