//! Examples of what a call's clauses say.

ghost use Rattle.std.specs.Prelude.{ℕ, List, [], ◌∷◌, codes};
ghost use Rattle.client_order.specs.Clashes.{IsClash, NoClash};
ghost use Rattle.cluster_run.specs.Asked.{Asks};
ghost use Rattle.cluster_run.specs.Comes.{ComesTo, KeepsFiles};
ghost use Rattle.cluster_run.specs.Served.{HasServed};
ghost use Rattle.command_words.specs.declared.words.RunOptions.{RunOptions};
ghost use Rattle.dura_model.specs.Entries.{shown_by};
ghost use Rattle.dura_model.specs.Partition.{fresh};
ghost use Rattle.dura_model.specs.World.{empty};
ghost use Rattle.end_laws.specs.Served.{AllServed, IsFirstOpen, Awaits};
ghost use Rattle.engine_run.specs.Showing.{ShowsAs, WritesNothing};
ghost use Rattle.rest_laws.specs.Requests.{IsRequest};
ghost use Rattle.run_causes.specs.declared.cause.Cause.TheVariants as causes;
ghost use Rattle.run_causes.specs.declared.cause.FlowsFault.TheVariants as faults;
ghost use Rattle.run_causes.specs.declared.cause.PlanPlace.TheVariants as places;
ghost use Rattle.run_examples.specs.Calls.{by_steps, unheard, one_asked, no_flows, starting, waiting, second, third, settled_once, rules_for, taken_of, asking_too, held_back, out_of_turn, answered};
ghost use Rattle.run_inputs.specs.Examples.{three_files, good_files};
ghost use Rattle.run_laws.specs.Requests.{KeepsRequests, AnswersTaken};
ghost use Rattle.run_rules.specs.Examples.{request_taken, adding};
ghost use Rattle.site_model.specs.History.{on, said, synced, wrote};

/// Files ask for what they hold, and for nothing else.
pub fn files_ask()
    ensures held { Asks 1 1 good_files one_asked }
    ensures no_request { Asks 1 1 good_files (record one_asked { requests = [] }) → ⊥ }
    ensures other_digest { Asks 1 1 good_files (record one_asked { digest = 0 }) → ⊥ }
{}

/// A request clashes where another was taken under its client's name and its number: not where none was, nor where it was itself.
pub fn requests_clash()
    ensures other { IsClash (taken_of request_taken) (waiting ∷ []) (codes "a") 1 }
    ensures not_taken { NoClash (taken_of (fresh 0)) (waiting ∷ []) }
    ensures same { NoClash (taken_of request_taken) (starting ∷ []) }
    ensures others_clash { NoClash (taken_of request_taken) (waiting ∷ []) → ⊥ }
    ensures none_clashes { (name : List ℕ) (number : ℕ)
        → IsClash (taken_of (fresh 0)) (waiting ∷ []) name number → ⊥ }
{}

/// A refusal of an input leaves all as it was. One of the logs may have synced them, and wrote nothing.
pub fn refusals_touch_nothing()
    ensures input { KeepsFiles 1 [] [] (causes.BadPlan places.Whole) }
    ensures synced { KeepsFiles 1 [] (on 16 synced ∷ []) (causes.BadPlan places.Whole) → ⊥ }
    ensures log { KeepsFiles 1 [] (on 16 synced ∷ []) (causes.Damaged 16 3) }
    ensures written { KeepsFiles 1 [] (on 16 (wrote 0 1 (0 ∷ [])) ∷ []) (causes.Damaged 16 3) → ⊥ }
{}

/// A run isn't ended by words that were wrong, nor by another fault of its files than theirs. Where an input file is refused nothing
/// happened, and nothing is waited for; nor does anything happen, or is anything settled, where one couldn't be read for want of memory.
pub fn runs_come_to()
    ensures theirs { ComesTo (by_steps 1) (three_files (codes "{}") [] (codes "[]")) unheard
        (Unit {0}) [] [] [] (causes.BadPlan places.Whole) }
    ensures other { ComesTo (by_steps 1) (three_files (codes "{}") [] (codes "[]")) unheard
        (Unit {0}) [] [] [] (causes.BadFlows faults.NotJson) → ⊥ }
    ensures usage { (options : RunOptions) (files : ℕ → List ℕ)
        → ComesTo options files unheard (Unit {0}) [] [] [] causes.Usage → ⊥ }
    ensures waiting { ComesTo (by_steps 1) (three_files (codes "{}") [] (codes "[]")) unheard
        (Unit {0}) [] [] [] (causes.Waiting (codes "a") 1) → ⊥ }
    ensures memory { (options : RunOptions) (files : ℕ → List ℕ)
        → ComesTo options files unheard (Unit {0}) [] [] [] causes.Memory }
    ensures spoken { ComesTo (by_steps 1) (three_files (codes "{}") [] (codes "[]")) unheard
        (Unit {0}) [] (said 97 ∷ []) [] causes.Memory → ⊥ }
    ensures settled { ComesTo (by_steps 1) (three_files (codes "{}") [] (codes "[]")) unheard
        (Unit {0}) [] [] settled_once causes.Memory → ⊥ }
{}

/// To show what is there writes nothing. With a fault of the disk nothing was shown, and no request is waited for.
pub fn shows()
    ensures nothing { WritesNothing 2 [] [] }
    ensures synced { WritesNothing 2 [] (on 16 synced ∷ []) }
    ensures written { WritesNothing 2 [] (on 16 (wrote 0 1 (0 ∷ [])) ∷ []) → ⊥ }
    ensures fault { (files : ℕ → List ℕ) → ShowsAs files 2 [] [] causes.SiteFault }
    ensures shown { (files : ℕ → List ℕ) → ShowsAs files 2 [] (97 ∷ []) causes.SiteFault → ⊥ }
    ensures waiting { (files : ℕ → List ℕ) (number : ℕ)
        → ShowsAs files 2 [] [] (causes.Waiting (codes "a") number) → ⊥ }
{}

/// A request is its client's under its number, and under no other.
pub fn requests_taken()
    ensures request { IsRequest starting }
    ensures other_number { IsRequest (record starting { number = 2 }) → ⊥ }
    ensures other_client { IsRequest (record starting { client = codes "b" }) → ⊥ }
{}

/// Where nobody asks all is served, and where who asked was answered, unless an activity is pending; else the first request without an
/// answer is waited for, under its number, unless another one comes before it.
pub fn requests_served()
    ensures nobody { AllServed no_flows [] empty }
    ensures answered { AllServed no_flows (starting ∷ []) answered }
    ensures not_answered { AllServed no_flows (starting ∷ []) empty → ⊥ }
    ensures pending { AllServed no_flows [] (shown_by no_flows adding) → ⊥ }
    ensures waits { IsFirstOpen (starting ∷ []) empty (codes "a") 1 }
    ensures other_number { IsFirstOpen (starting ∷ []) empty (codes "a") 2 → ⊥ }
    ensures another_before { IsFirstOpen (starting ∷ asking_too ∷ []) empty (codes "b")
        1 → ⊥ }
    ensures none_open { (number : ℕ) → IsFirstOpen (starting ∷ []) answered (codes "a")
        number → ⊥ }
    ensures done { HasServed (rules_for []) [] causes.Done }
    ensures not_done { HasServed (rules_for (starting ∷ [])) [] causes.Done → ⊥ }
{}

/// A run waits for an answer only where nothing is left to do: where the client's next request is due it doesn't wait. That one is due
/// once each in front of it was answered, and not yet once the last of them was.
pub fn runs_wait()
    ensures unanswered { Awaits no_flows (starting ∷ []) (shown_by no_flows held_back)
        (codes "a") 1 }
    ensures due { (number : ℕ) → Awaits no_flows (starting ∷ []) empty (codes "a") number → ⊥ }
    ensures out_of_turn { Awaits no_flows (starting ∷ second ∷ third ∷ []) out_of_turn
        (codes "a") 1 }
    ensures in_turn { (number : ℕ) → Awaits no_flows (starting ∷ third ∷ []) answered (codes "a")
        number → ⊥ }
    ensures not_waiting { HasServed (rules_for []) [] (causes.Waiting (codes "a") 1) → ⊥ }
    ensures still_due { HasServed (rules_for (starting ∷ [])) [] (causes.Waiting (codes "a") 1)
        → ⊥ }
{}

/// A request that was taken stays so, and one that was answered; and only what was taken is answered.
pub fn requests_stay()
    ensures same { KeepsRequests request_taken request_taken }
    ensures lost { KeepsRequests request_taken (fresh 0) → ⊥ }
    ensures taken { AnswersTaken request_taken }
    ensures not_taken { AnswersTaken (record (fresh 0) { answers = answered.answers }) → ⊥ }
{}
