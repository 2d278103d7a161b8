//! Examples of input files. They are said of the definitions alone: the functions do nothing.

ghost use Rattle.std.specs.Prelude.{◌≡◌, ℕ, List, [], ◌∷◌, codes, length, false, Option, Some, None, Err};
ghost use Rattle.dura_value.specs.Digest.{fnv1a_64};
ghost use Rattle.flow_syntax.specs.Syntax.{Flows};
ghost use Rattle.move_plan.specs.declared.error.Place.TheVariants as own;
ghost use Rattle.move_plan.specs.Rows.{going, stopping, plan_with};
ghost use Rattle.request_reader.specs.Line.{Request};
ghost use Rattle.run_causes.specs.declared.cause.Cause.{Cause as AnyCause};
ghost use Rattle.run_causes.specs.declared.cause.Cause.TheVariants as causes;
ghost use Rattle.run_causes.specs.declared.cause.FlowsFault.TheVariants as faults;
ghost use Rattle.run_causes.specs.declared.cause.PlanPlace.TheVariants as places;
ghost use Rattle.run_inputs.specs.Examples.{three_files, flows_bytes, one_flow, one_request, clashing_bytes, good_files, move_bytes, stop_bytes};
ghost use Rattle.run_inputs.specs.Input.{HasFlows, HasInput, RefusesInput};
ghost use Rattle.run_inputs.specs.Refusal.{is_too_long, plan_in_file, refusal_of};

/// A flow and a request, and no plan: the files hold these, and nothing else. A plan that fits the run is accepted too.
#[tactic(auto, using(crate::proofs::Computed::flows_of_one, crate::proofs::Computed::requests_of_one, crate::proofs::Computed::refusal_good, crate::proofs::Computed::flows_refusal_one, crate::proofs::Computed::refusal_empty, crate::proofs::Computed::refusal_empty_plan, crate::proofs::Computed::refusal_move, crate::proofs::Computed::refusal_stop))]
pub fn accepted_files()
    ensures accepted { HasInput 1 1 good_files one_flow (fnv1a_64 flows_bytes) (one_request ∷ []) }
    ensures other_flows { (flows : Flows) (requests : List Request)
        → HasInput 1 1 good_files flows 0 requests → ⊥ }
    ensures no_requests { (flows : Flows) (digest : ℕ)
        → HasInput 1 1 good_files flows digest [] → ⊥ }
    ensures flows_alone { HasFlows (three_files flows_bytes (codes "0") (codes "0")) one_flow
        (fnv1a_64 flows_bytes) }
    ensures empty { refusal_of 1 1 (three_files (codes "{}") [] []) ≡ None }
    ensures empty_plan { refusal_of 1 1 (three_files (codes "{}") [] (codes "{}")) ≡ None }
    ensures moves { refusal_of 5 1 (three_files (codes "{}") [] move_bytes) ≡ None }
    ensures stops { refusal_of 1 2 (three_files (codes "{}") [] stop_bytes) ≡ None }
{}

/// The first file that is wrong decides, and in it the first line.
#[tactic(auto, using(crate::proofs::Computed::refusal_flows, crate::proofs::Computed::refusal_requests, crate::proofs::Computed::refusal_clash, crate::proofs::Computed::refusal_plan, crate::proofs::Computed::refusal_past, crate::proofs::Computed::refusal_all_stopped))]
pub fn refused_files()
    ensures flows { refusal_of 1 1 (three_files [] (codes "0") (codes "0"))
        ≡ Some (causes.BadFlows faults.NotJson) }
    ensures requests { refusal_of 1 1 (three_files (codes "{}") (codes " \n0") (codes "0"))
        ≡ Some (causes.BadRequests 2) }
    ensures clash { refusal_of 1 1 (three_files (codes "{}") clashing_bytes [])
        ≡ Some (causes.Clash (codes "a") 1) }
    ensures plan { refusal_of 1 1 (three_files (codes "{}") [] (codes "[]"))
        ≡ Some (causes.BadPlan places.Whole) }
    ensures moves { refusal_of 4 1 (three_files (codes "{}") [] move_bytes)
        ≡ Some (causes.BadPlan (places.Move 0)) }
    ensures stops { refusal_of 1 1 (three_files (codes "{}") [] stop_bytes)
        ≡ Some (causes.BadPlan (places.Stop 0)) }
    ensures others { (flows : Flows) (digest : ℕ) (requests : List Request)
        → HasInput 1 1 (three_files (codes "{}") [] (codes "[]")) flows digest requests → ⊥ }
{}

/// What file 2 gives: no bytes give the empty plan, as `{}` does, and partitions and nodes are those of the run.
#[tactic(auto, using(crate::proofs::Computed::plan_empty, crate::proofs::Computed::plan_moves, crate::proofs::Computed::plan_stops, crate::proofs::Computed::plan_past))]
pub fn plans()
    ensures no_bytes { plan_in_file 1 1 [] ≡ plan_with [] [] }
    ensures empty { plan_in_file 1 1 (codes "{}") ≡ plan_with [] [] }
    ensures moves { plan_in_file 5 1 move_bytes ≡ plan_with (going 1 4 0 ∷ []) [] }
    ensures stops { plan_in_file 1 2 stop_bytes ≡ plan_with [] (stopping 1 0 ∷ []) }
    ensures past { plan_in_file 4 1 move_bytes ≡ Err (own.Move 0) }
{}

/// A file may have 16,777,216 bytes, and no more.
#[tactic(auto, using(crate::proofs::Computed::refusal_long_requests, crate::proofs::Computed::refusal_long_plan))]
pub fn long_files()
    ensures longest { (bytes : List ℕ) → length bytes ≡ 16777216 → is_too_long bytes ≡ false }
    ensures flows { (files : ℕ → List ℕ) → length (files 0) ≡ 16777217
        → refusal_of 1 1 files ≡ Some (causes.TooLong 0) }
    ensures requests { (requests plan : List ℕ) → length requests ≡ 16777217
        → refusal_of 1 1 (three_files (codes "{}") requests plan) ≡ Some (causes.TooLong 1) }
    ensures plan { (plan : List ℕ) → length plan ≡ 16777217
        → refusal_of 1 1 (three_files (codes "{}") [] plan) ≡ Some (causes.TooLong 2) }
{}

/// A call may end with the reason why the files are refused, a fault of the site or want of memory, and with nothing else.
pub fn causes_of_a_call()
    ensures reason { RefusesInput (Some (causes.TooLong 1)) (causes.TooLong 1) }
    ensures fault { (refusal : Option AnyCause) → RefusesInput refusal causes.SiteFault }
    ensures other_reason { RefusesInput (Some (causes.TooLong 1)) (causes.TooLong 0) → ⊥ }
    ensures no_reason { RefusesInput None (causes.BadPlan places.Whole) → ⊥ }
    ensures say_fault { (refusal : Option AnyCause) → RefusesInput refusal causes.SayFault → ⊥ }
{}
