//! Laws. The functions do nothing.

ghost use Rattle.std.specs.Prelude.{ℕ, List};
ghost use Rattle.client_order.specs.Clashes.{taken_in, NoClash};
ghost use Rattle.flow_syntax.specs.Syntax.{Flows};
ghost use Rattle.many_logs.specs.Placing.{Commit};
ghost use Rattle.many_logs.specs.Stands.{AreKept};
ghost use Rattle.open_laws.specs.Standing.{MayMeet, StandFor};
ghost use Rattle.open_logs.specs.Spent.{WhyUnopened};
ghost use Rattle.open_logs.specs.declared.error.OpenError.{OpenError};
ghost use Rattle.request_reader.specs.Line.{Request};

/// Log files that stand for a run in which nothing clashes with the requests aren't refused: where they aren't opened, the disk failed,
/// memory ran out, or a partition's incarnations are used up.
#[tactic(auto, using(crate::proofs::Opens::may_meet))]
pub fn standing_files_are_opened()
    ensures { (flows : Flows) (count digest : ℕ) (files : ℕ → List ℕ) (requests : List Request)
        → StandFor flows count digest files requests → (error : OpenError)
        → WhyUnopened flows count digest files requests error → MayMeet error }
{}

/// Files that keep entries which were accepted in some order stand for a run; nothing clashes in it where nothing clashes with what the
/// states have taken that these entries make.
pub fn kept_files_stand()
    ensures { (flows : Flows) (count digest : ℕ) (files : ℕ → List ℕ) (requests : List Request)
        (commits : List Commit) (kept : AreKept flows count digest files commits)
        → NoClash (taken_in count kept.states) requests
        → StandFor flows count digest files requests }
{}
