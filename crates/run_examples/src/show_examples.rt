//! Examples of what a call that shows what is there answers, and says.

ghost use Rattle.std.specs.Prelude.{ℕ, List, [], ◌∷◌, codes};
ghost use Rattle.dura_model.specs.Partition.{fresh, with_part};
ghost use Rattle.engine_run.specs.Showing.{AreThere, RefusesThere, ShowsAs};
ghost use Rattle.part_items.specs.Examples.{digest, empty_log};
ghost use Rattle.run_rules.specs.Examples.{request_taken};
ghost use Rattle.recover_core.specs.declared.error.RecoverError.TheVariants as errors;
ghost use Rattle.run_causes.specs.declared.cause.Cause.TheVariants as causes;
ghost use Rattle.run_causes.specs.declared.cause.FlowsFault.TheVariants as faults;
ghost use Rattle.run_examples.specs.Calls.{one_asked, no_flows};
ghost use Rattle.run_examples.specs.Directories.{directory, earlier_log};
ghost use Rattle.run_inputs.specs.Examples.{three_files, good_files, one_flow, requests_bytes};

/// What is there is what the flows file and the logs say: no other flows, and no other state.
pub fn states_there()
    ensures there { AreThere good_files 1 one_flow fresh }
    ensures other_flows { AreThere good_files 1 no_flows fresh → ⊥ }
    ensures other_state { AreThere good_files 1 one_flow (λ partition. request_taken) → ⊥ }
    ensures earlier { AreThere (directory requests_bytes earlier_log) 1 one_flow
        (with_part fresh 0 request_taken) }
    ensures earlier_undone { AreThere (directory requests_bytes earlier_log) 1 one_flow fresh → ⊥ }
    ensures refused { RefusesThere (directory requests_bytes empty_log) 1
        (errors.OtherFlows digest one_asked.digest) }
    ensures other_digest { RefusesThere (directory requests_bytes empty_log) 1
        (errors.OtherFlows 1 one_asked.digest) → ⊥ }
    ensures accepted { RefusesThere good_files 1 (errors.OtherFlows digest one_asked.digest) → ⊥ }
{}

/// The table of what is there is said, no more and no less, and where all is said nothing was refused.
pub fn tables_shown()
    ensures done { ShowsAs good_files 1 [] [] causes.Done }
    ensures more { ShowsAs good_files 1 [] (97 ∷ []) causes.Done → ⊥ }
    ensures not_there { ShowsAs (three_files [] [] []) 1 [] [] causes.Done → ⊥ }
    ensures say_fault { ShowsAs (three_files [] [] []) 1 [] [] causes.SayFault → ⊥ }
    ensures memory { ShowsAs (three_files [] [] []) 1 [] [] causes.Memory }
    ensures memory_said { ShowsAs (three_files [] [] []) 1 [] (97 ∷ []) causes.Memory → ⊥ }
{}

/// What is refused is refused for what the files hold, and nothing is said.
pub fn refusals_shown()
    ensures flows { ShowsAs (three_files [] (codes "0") (codes "0")) 1 [] []
        (causes.BadFlows faults.NotJson) }
    ensures flows_said { ShowsAs (three_files [] (codes "0") (codes "0")) 1 [] (97 ∷ [])
        (causes.BadFlows faults.NotJson) → ⊥ }
    ensures good_flows { ShowsAs good_files 1 [] [] (causes.BadFlows faults.NotJson) → ⊥ }
    ensures long { ShowsAs good_files 1 [] [] (causes.TooLong 0) → ⊥ }
    ensures long_said { (files : ℕ → List ℕ) → ShowsAs files 1 [] (97 ∷ []) (causes.TooLong 0) → ⊥ }
    ensures other_flows { ShowsAs (directory requests_bytes empty_log) 1 [] []
        (causes.OtherFlows digest one_asked.digest) }
    ensures other_flows_said { ShowsAs (directory requests_bytes empty_log) 1 [] (97 ∷ [])
        (causes.OtherFlows digest one_asked.digest) → ⊥ }
    ensures good_log { ShowsAs good_files 1 [] [] (causes.OtherFlows digest one_asked.digest) → ⊥ }
    ensures damaged { ShowsAs good_files 1 [] [] (causes.Damaged 16 0) → ⊥ }
    ensures damaged_said { (files : ℕ → List ℕ) → ShowsAs files 1 [] (97 ∷ []) (causes.Damaged 16 0)
        → ⊥ }
    ensures shape { ShowsAs good_files 1 [] [] (causes.OtherShape 2 1) → ⊥ }
    ensures shape_said { (files : ℕ → List ℕ) → ShowsAs files 1 [] (97 ∷ []) (causes.OtherShape 2 1)
        → ⊥ }
    ensures illegal { ShowsAs good_files 1 [] [] (causes.Illegal 0 0) → ⊥ }
    ensures illegal_said { (files : ℕ → List ℕ) → ShowsAs files 1 [] (97 ∷ []) (causes.Illegal 0 0)
        → ⊥ }
    ensures unclosed { ShowsAs good_files 1 [] [] (causes.Unclosed 0 0 0 0) → ⊥ }
    ensures unclosed_said { (files : ℕ → List ℕ)
        → ShowsAs files 1 [] (97 ∷ []) (causes.Unclosed 0 0 0 0) → ⊥ }
    ensures spent { (files : ℕ → List ℕ) → ShowsAs files 1 [] [] (causes.Spent 0 0) → ⊥ }
    ensures clash { (files : ℕ → List ℕ) → ShowsAs files 1 [] [] (causes.Clash (codes "a") 1) → ⊥ }
{}
