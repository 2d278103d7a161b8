//! Laws of what a call over many partitions has done. The functions do nothing.

ghost use Rattle.std.specs.Prelude.{◌≡◌, ◌<◌, ℕ, true, List, ◌++◌, length, map};
ghost use Rattle.std.specs.List.{All};
ghost use Rattle.client_order.specs.Unsaid.{AreAllSaid, IsFirstUnsaid};
ghost use Rattle.client_port.specs.Clients.{clients_of};
ghost use Rattle.client_port.specs.Ports.{Queue};
ghost use Rattle.dura_model.specs.Legal.{Quiet};
ghost use Rattle.dura_model.specs.Partition.{shown};
ghost use Rattle.dura_model.specs.World.{World};
ghost use Rattle.end_laws.specs.Rested.{AnyFollows, AreAccepted, IsRested};
ghost use Rattle.end_laws.specs.Served.{AllServed, Awaits, IsWorldAfter};
ghost use Rattle.hub_store.specs.Moments.{SaidSoFar};
ghost use Rattle.hub_store.specs.Trail.{Settled, Said};
ghost use Rattle.many_logs.specs.Labels.{labels_of_commits};
ghost use Rattle.many_rules.specs.Rules.{Rules, Answers, Follows, commits_of};
ghost use Rattle.rest_laws.specs.Requests.{IsRequest};
ghost use Rattle.trail_states.specs.HaveMade.{HaveMade};

/// What was recovered and then settled is a legal run, and it comes to the world that all partitions show.
pub fn partitions_show_a_run()
    ensures { (rules : Rules) (trail : List Settled) (made : HaveMade rules trail)
        → AreAccepted rules trail
        → IsWorldAfter rules trail (shown rules.flows rules.count made.states) }
{}

/// Once partitions are at rest nothing is left to do for any request. Where each answer was said, each request has its answer; and where one
/// was not, the first of those is the first request without an answer.
pub fn rest_serves_all()
    ensures done { (rules : Rules) (trail : List Settled) (told : List Said) (lines : List ℕ)
        (queues : List Queue) (made : HaveMade rules trail) → AreAccepted rules trail
        → IsRested AnyFollows rules trail told lines queues made.states
        → AreAllSaid queues (clients_of rules.requests)
        → AllServed rules.flows rules.requests (shown rules.flows rules.count made.states) }
    ensures waiting { (rules : Rules) (trail : List Settled) (told : List Said) (lines : List ℕ)
        (queues : List Queue) (made : HaveMade rules trail) → AreAccepted rules trail
        → IsRested AnyFollows rules trail told lines queues made.states
        → (name : List ℕ) (number : ℕ)
        → IsFirstUnsaid queues (clients_of rules.requests) name number
        → Awaits rules.flows rules.requests (shown rules.flows rules.count made.states) name number }
{}

/// Of what was settled by the rules, frame by frame, as what was said by then let it: where labels came behind a front of it, something was
/// left to do in the world behind that front.
pub fn labels_come_where_something_is_left()
    ensures { (rules : Rules) (latest : ℕ) → rules.serves ≡ true → All IsRequest rules.requests
        → (trail : List Settled) → HaveMade rules trail → AreAccepted rules trail
        → (told : List Said) (lines : List ℕ)
        → SaidSoFar (Follows rules latest) (Answers rules) trail told lines
        → (before more : List Settled) → trail ≡ before ++ more → (w : World)
        → IsWorldAfter rules before w → 0 < length (labels_of_commits (commits_of more))
        → Quiet rules.flows (map (λ r. r.message) rules.requests) w → ⊥ }
{}
