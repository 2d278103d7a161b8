//! Laws of the failure-free machine's quiet worlds, as the states of partitions show them. The functions do nothing.

ghost use Rattle.std.specs.Prelude.{◌≡◌, ◌<◌, ℕ, List, [], ◌∷◌, ◌++◌, map, false};
ghost use Rattle.std.specs.List.{All};
ghost use Rattle.dura_model.specs.Legal.{Legal, Quiet, is_due};
ghost use Rattle.dura_model.specs.Partition.{Partition, shown};
ghost use Rattle.dura_model.specs.Placed.{AreShown};
ghost use Rattle.dura_model.specs.Steps.{Label};
ghost use Rattle.dura_model.specs.World.{World};
ghost use Rattle.dura_value.specs.Messages.{Message};
ghost use Rattle.flow_syntax.specs.Syntax.{Flows};
ghost use Rattle.part_steps.specs.Quiet.{IsQuiet};
ghost use Rattle.request_reader.specs.Line.{Request};
ghost use Rattle.rest_laws.specs.Requests.{IsRequest, AnswersTaken, AreTakenUp};
ghost use Rattle.rest_laws.specs.Rest.{HasRead, AreAtRest};

/// Partitions at rest show a quiet world.
#[tactic(auto, using(crate::proofs::Quieted::rest_quiet))]
pub fn rest_is_quiet()
    ensures { (flows : Flows) (count : ℕ) (parts : ℕ → Partition) → 0 < count
        → AreShown count parts → AreAtRest count parts → Quiet flows [] (shown flows count parts) }
{}

/// A quiet world leaves nothing to do in any partition by itself, whatever is still on its way between them. Once that was taken in too,
/// which shows nothing, they are at rest.
#[tactic(auto, using(crate::proofs::Stirred::all_at_rest))]
pub fn quiet_is_rest()
    ensures quiet { (flows : Flows) (requests : List Message) (count : ℕ) (parts : ℕ → Partition)
        → AreShown count parts → Quiet flows requests (shown flows count parts) → (place : ℕ)
        → place < count → IsQuiet (parts place) }
    ensures rest { (flows : Flows) (requests : List Message) (count : ℕ) (parts : ℕ → Partition)
        → AreShown count parts → Quiet flows requests (shown flows count parts)
        → ((source reader : ℕ) → source < count → reader < count → HasRead parts source reader)
        → AreAtRest count parts }
{}

/// Requests that a world took up are not due. So where it is quiet without them, it is quiet for them; and where it is quiet for them, it took
/// them up.
#[tactic(auto, using(crate::proofs::Asking::undue, crate::proofs::Asking::served, crate::proofs::Asking::taken_up))]
pub fn requests_are_served()
    ensures undue { (w : World) (requests : List Request) → All IsRequest requests → AnswersTaken w
        → AreTakenUp w requests → (before : List Message) (request : Message)
        (behind : List Message) → map (λ r. r.message) requests ≡ before ++ request ∷ behind
        → is_due w before request ≡ false }
    ensures quiet { (flows : Flows) (w : World) (requests : List Request)
        → All IsRequest requests → AnswersTaken w → AreTakenUp w requests → Quiet flows [] w
        → Quiet flows (map (λ r. r.message) requests) w }
    ensures taken_up { (flows : Flows) (w : World) (requests : List Request)
        → All IsRequest requests → AnswersTaken w → Quiet flows (map (λ r. r.message) requests) w
        → AreTakenUp w requests }
{}

/// In a legal run only what was taken is answered.
#[tactic(auto, using(crate::proofs::Answered::answers_taken))]
pub fn only_taken_is_answered()
    ensures { (flows : Flows) (run : List Label) (w : World) → Legal flows run w → AnswersTaken w }
{}
