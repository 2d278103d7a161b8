//! The law of moments, and what becomes of requests. It is said of the definitions alone: the functions do nothing.

ghost use Rattle.std.specs.Prelude.{◌≡◌, ℕ, ◌≤◌, List, length, Ok};
ghost use Rattle.dura_model.specs.Partition.{Partition, fresh};
ghost use Rattle.dura_value.specs.Items.{Entry};
ghost use Rattle.flow_syntax.specs.Syntax.{Flows};
ghost use Rattle.hub_store.specs.Moments.{AtEveryMoment};
ghost use Rattle.hub_store.specs.Origin.{Origin};
ghost use Rattle.hub_store.specs.Trail.{Settled, settled_at};
ghost use Rattle.run_laws.specs.Begins.{BeginsAlone, may_follow, may_say};
ghost use Rattle.dura_model.specs.Entries.{placed};
ghost use Rattle.run_laws.specs.Leaves.{StandsOn};
ghost use Rattle.run_laws.specs.Requests.{KeepsRequests, AnswersTaken};
ghost use Rattle.run_rules.specs.Rules.{Rules};
ghost use Rattle.site_model.specs.History.{Step, IsImage, back_to};

/// At each moment of a call that commits and says only what it may, a crash leaves files that stand for the run at the start, then
/// what was settled by then, then no more than the one frame whose gate was being written.
pub fn each_crash_leaves_a_run()
    ensures { (o : Origin) (rules : Rules) (latest digest : ℕ) (now : List Step)
        (trail : List Settled) → BeginsAlone o rules digest
        → AtEveryMoment (may_follow rules latest) (may_say rules) o now trail → (moment : ℕ)
        → length o.steps ≤ moment → moment ≤ length now → (files : ℕ → List ℕ)
        → IsImage (back_to moment now) files
        → StandsOn rules latest digest o (back_to moment now) (settled_at moment trail) files }
{}

/// A request that was taken stays taken, one that was answered stays answered, and only what was taken is answered.
#[tactic(auto, using(crate::proofs::Requests::requests_stay, crate::proofs::Requests::answers_taken))]
pub fn requests_stay()
    ensures stay { (flows : Flows) (count : ℕ) (p q : Partition) (entries : List Entry)
        → placed flows count p entries ≡ Ok q → KeepsRequests p q }
    ensures taken { (flows : Flows) (count number : ℕ) (q : Partition) (entries : List Entry)
        → placed flows count (fresh number) entries ≡ Ok q → AnswersTaken q }
{}
