//! Examples of what a call's files held, and of why they are refused: in each all facts hold, or all but one.

ghost use Rattle.std.specs.Prelude.{◌≡◌, ℕ, List, [], ◌∷◌, codes, None, Some};
ghost use Rattle.client_order.specs.Clashes.{IsClash};
ghost use Rattle.cluster_run.specs.Asked.{Asks};
ghost use Rattle.cluster_run.specs.Causes.{IsRefusal};
ghost use Rattle.cluster_run.specs.Comes.{AreUnfit, ComesTo, KeepsFiles, LeavesLogs};
ghost use Rattle.cluster_run.specs.Complete.{AreFit};
ghost use Rattle.command_words.specs.declared.words.Call.TheVariants as calls;
ghost use Rattle.command_words.specs.declared.words.RunOptions.{RunOptions};
ghost use Rattle.engine_run.specs.Promises.{SettlesNothing};
ghost use Rattle.hub_store.specs.Trail.{Settled};
ghost use Rattle.many_logs.specs.Stands.{AreKept};
ghost use Rattle.open_logs.specs.Spent.{IsOwn};
ghost use Rattle.open_logs.specs.declared.error.OpenError.TheVariants as refusals;
ghost use Rattle.part_items.specs.Examples.{empty_log, taking};
ghost use Rattle.recover_core.specs.declared.error.RecoverError.TheVariants as errors;
ghost use Rattle.run_causes.specs.declared.cause.Cause.TheVariants as causes;
ghost use Rattle.run_causes.specs.declared.cause.FlowsFault.TheVariants as faults;
ghost use Rattle.run_causes.specs.declared.cause.PlanPlace.TheVariants as places;
ghost use Rattle.run_examples.specs.Calls.{by_steps, unheard, one_asked, waiting, waiting_too, both_taken, taken_of, settled_once};
ghost use Rattle.run_examples.specs.Directories.{directory, earlier_log, torn_log};
ghost use Rattle.run_inputs.specs.Examples.{three_files, good_files, requests_bytes};
ghost use Rattle.site_model.specs.History.{Step, content_of, on, said, synced, wrote};

/// What a call is promised for is there: a fresh directory keeps no entry, one of an earlier run keeps that run's, and one that a crash
/// left keeps what was behind open gates. All outcomes in them may be given.
pub fn calls_begin()
    ensures fresh { AreKept one_asked.flows 1 one_asked.digest good_files [] }
    ensures earlier_asks { Asks 1 1 (directory requests_bytes earlier_log) one_asked }
    ensures earlier { AreKept one_asked.flows 1 one_asked.digest
        (directory requests_bytes earlier_log)
        (record { partition = 0; entry = taking 0 } ∷ []) }
    ensures torn { AreKept one_asked.flows 1 one_asked.digest (directory requests_bytes torn_log)
        [] }
    ensures one_more { AreKept one_asked.flows 1 one_asked.digest good_files
        (record { partition = 0; entry = taking 0 } ∷ []) → ⊥ }
{}

/// Which files are fit, and which are to be refused: for their input, for a log of other flows, or for a request that clashes.
pub fn files_refused()
    ensures fit { AreFit (by_steps 1) good_files }
    ensures not_refused { AreUnfit (by_steps 1) good_files → ⊥ }
    ensures input { AreUnfit (by_steps 1) (three_files (codes "{}") [] (codes "[]")) }
    ensures input_not_fit { AreFit (by_steps 1) (three_files (codes "{}") [] (codes "[]")) → ⊥ }
    ensures logs { AreUnfit (by_steps 1) (directory requests_bytes empty_log) }
    ensures logs_not_fit { AreFit (by_steps 1) (directory requests_bytes empty_log) → ⊥ }
    ensures clash { AreUnfit (by_steps 1) (directory requests_bytes earlier_log) }
    ensures clash_not_fit { AreFit (by_steps 1) (directory requests_bytes earlier_log) → ⊥ }
    ensures fault { IsOwn (refusals.Refused errors.SiteFault) → ⊥ }
    ensures memory { IsOwn (refusals.Refused errors.Memory) → ⊥ }
{}

/// Of two requests that clash the first is told, by its client's name and its number.
pub fn first_clashes()
    ensures first { IsClash (taken_of both_taken) (waiting_too ∷ waiting ∷ []) (codes "a") 1 }
    ensures second { IsClash (taken_of both_taken) (waiting_too ∷ waiting ∷ []) (codes "b") 1 → ⊥ }
    ensures there { IsClash (taken_of both_taken) (waiting_too ∷ waiting ∷ []) (codes "a") 2 → ⊥ }
{}

/// Where files are to be refused, each log may have been synced: nothing else happened, and nothing was settled.
pub fn refusals_leave_all()
    ensures nothing { LeavesLogs 1 [] [] [] }
    ensures synced { LeavesLogs 1 [] (on 17 synced ∷ on 16 synced ∷ []) [] }
    ensures written { LeavesLogs 1 [] (on 16 (wrote 0 1 (0 ∷ [])) ∷ []) [] → ⊥ }
    ensures spoken { LeavesLogs 1 [] (said 97 ∷ []) [] → ⊥ }
    ensures settled { LeavesLogs 1 [] [] settled_once → ⊥ }
    ensures usage { SettlesNothing None causes.Usage }
    ensures show { (partitions : ℕ) → SettlesNothing (Some (calls.Show partitions)) causes.Done }
    ensures refusal { (options : RunOptions)
        → SettlesNothing (Some (calls.Run options)) (causes.BadRequests 1) }
    ensures done { (options : RunOptions) → SettlesNothing (Some (calls.Run options)) causes.Done
        → ⊥ }
    ensures fault { IsRefusal causes.SiteFault → ⊥ }
    ensures memory { IsRefusal causes.Memory → ⊥ }
{}

/// Each refusal of the input leaves all as it was, and each of the logs, or of a request that clashes, no more than syncs them.
pub fn refusals_touch_nothing()
    ensures flows { KeepsFiles 1 [] (on 16 synced ∷ []) (causes.BadFlows faults.NotJson) → ⊥ }
    ensures requests { KeepsFiles 1 [] (on 16 synced ∷ []) (causes.BadRequests 1) → ⊥ }
    ensures plan { KeepsFiles 1 [] (on 16 synced ∷ []) (causes.BadPlan places.Whole) → ⊥ }
    ensures long { KeepsFiles 1 [] (on 16 synced ∷ []) (causes.TooLong 0) → ⊥ }
    ensures clash { KeepsFiles 1 [] (on 16 (wrote 0 1 (0 ∷ [])) ∷ []) (causes.Clash (codes "a") 1)
        → ⊥ }
    ensures damaged { KeepsFiles 1 [] (on 16 (wrote 0 1 (0 ∷ [])) ∷ []) (causes.Damaged 16 0)
        → ⊥ }
    ensures shape { KeepsFiles 1 [] (on 16 (wrote 0 1 (0 ∷ [])) ∷ []) (causes.OtherShape 2 1) → ⊥ }
    ensures other_flows { KeepsFiles 1 [] (on 16 (wrote 0 1 (0 ∷ [])) ∷ []) (causes.OtherFlows 1 2)
        → ⊥ }
    ensures illegal { KeepsFiles 1 [] (on 16 (wrote 0 1 (0 ∷ [])) ∷ []) (causes.Illegal 0 1) → ⊥ }
    ensures unclosed { KeepsFiles 1 [] (on 16 (wrote 0 1 (0 ∷ [])) ∷ []) (causes.Unclosed 0 1 0 0)
        → ⊥ }
{}

/// A run over files that are fit comes to no refusal, whatever it did; and one over files whose log is of other flows isn't done.
pub fn causes_of_files()
    ensures flows { (old new : List Step) (trail : List Settled) → ComesTo (by_steps 1) good_files
        unheard (Unit {0}) old new trail (causes.BadFlows faults.NotJson) → ⊥ }
    ensures requests { (old new : List Step) (trail : List Settled) → ComesTo (by_steps 1)
        good_files unheard (Unit {0}) old new trail (causes.BadRequests 1) → ⊥ }
    ensures plan { (old new : List Step) (trail : List Settled) → ComesTo (by_steps 1) good_files
        unheard (Unit {0}) old new trail (causes.BadPlan places.Whole) → ⊥ }
    ensures long { (old new : List Step) (trail : List Settled) → ComesTo (by_steps 1) good_files
        unheard (Unit {0}) old new trail (causes.TooLong 0) → ⊥ }
    ensures clash { (old new : List Step) (trail : List Settled) → ComesTo (by_steps 1) good_files
        unheard (Unit {0}) old new trail (causes.Clash (codes "a") 1) → ⊥ }
    ensures damaged { (old new : List Step) (trail : List Settled) → ComesTo (by_steps 1) good_files
        unheard (Unit {0}) old new trail (causes.Damaged 16 0) → ⊥ }
    ensures shape { (old new : List Step) (trail : List Settled) → ComesTo (by_steps 1) good_files
        unheard (Unit {0}) old new trail (causes.OtherShape 2 1) → ⊥ }
    ensures other_flows { (old new : List Step) (trail : List Settled) → ComesTo (by_steps 1)
        good_files unheard (Unit {0}) old new trail (causes.OtherFlows 1 2) → ⊥ }
    ensures illegal { (old new : List Step) (trail : List Settled) → ComesTo (by_steps 1) good_files
        unheard (Unit {0}) old new trail (causes.Illegal 0 0) → ⊥ }
    ensures unclosed { (old new : List Step) (trail : List Settled) → ComesTo (by_steps 1)
        good_files unheard (Unit {0}) old new trail (causes.Unclosed 0 0 0 0) → ⊥ }
    ensures done { (old new : List Step) (trail : List Settled)
        → (λ (file : ℕ). content_of file old) ≡ directory requests_bytes empty_log
        → ComesTo (by_steps 1) (λ file. content_of file old) unheard (Unit {0}) old new trail
        causes.Done → ⊥ }
{}
