//! Examples of what a call promises: in each all facts hold, or all but one.

ghost use Rattle.std.specs.Prelude.{◌≡◌, ℕ, ◌-◌, ◌^◌, List, [], ◌∷◌, codes, None, Some};
ghost use Rattle.cluster_run.specs.Asked.{Asks};
ghost use Rattle.cluster_run.specs.Comes.{AreUnfit};
ghost use Rattle.cluster_run.specs.Complete.{AreFit, NoneRose};
ghost use Rattle.cluster_run.specs.Faults.{faults_of, FaultsRise};
ghost use Rattle.command_words.specs.Command.{call_in};
ghost use Rattle.command_words.specs.declared.words.Call.TheVariants as calls;
ghost use Rattle.command_words.specs.declared.words.RunOptions.{RunOptions};
ghost use Rattle.engine_run.specs.Complete.{EndsSoundly};
ghost use Rattle.part_items.specs.Examples.{empty_log};
ghost use Rattle.run_causes.specs.declared.cause.Cause.TheVariants as causes;
ghost use Rattle.run_causes.specs.declared.cause.PlanPlace.TheVariants as places;
ghost use Rattle.run_examples.specs.Calls.{by_steps, one_asked, settled_once};
ghost use Rattle.run_examples.specs.Directories.{directory};
ghost use Rattle.run_examples.specs.Promised.{Keeps, KeepsUntold};
ghost use Rattle.run_inputs.specs.Examples.{three_files, good_files, requests_bytes};
ghost use Rattle.site_model.specs.History.{Step, on, said, synced, wrote, content_of};

/// A call whose words ask for nothing, and that does nothing, keeps all. One doesn't that does something then, or settles something; a run
/// that ends with a fault of the words, that syncs where the plan is refused, or that says a byte, or settles something, where its files are
/// refused; and a `show` that waits for an answer, or that writes.
pub fn promises_kept()
    ensures nothing { (words : List (List ℕ)) → call_in words ≡ None
        → Keeps words [] [] [] causes.Usage }
    ensures busy { (words : List (List ℕ)) → call_in words ≡ None
        → Keeps words [] (on 16 synced ∷ []) [] causes.Usage → ⊥ }
    ensures settled { (words : List (List ℕ)) → call_in words ≡ None
        → Keeps words [] [] settled_once causes.Usage → ⊥ }
    ensures usage { (words : List (List ℕ)) (options : RunOptions)
        → call_in words ≡ Some (calls.Run options) → Keeps words [] [] [] causes.Usage → ⊥ }
    ensures touched { (words : List (List ℕ)) (options : RunOptions)
        → call_in words ≡ Some (calls.Run options)
        → KeepsUntold words [] (on 16 synced ∷ []) [] (causes.BadPlan places.Whole) → ⊥ }
    ensures spoken { (words : List (List ℕ)) (options : RunOptions) (old : List Step)
        → call_in words ≡ Some (calls.Run options) → AreUnfit options (λ file. content_of file old)
        → Keeps words old (said 97 ∷ old) [] causes.Memory → ⊥ }
    ensures unfit { (words : List (List ℕ)) (options : RunOptions) (old : List Step)
        → call_in words ≡ Some (calls.Run options) → AreUnfit options (λ file. content_of file old)
        → Keeps words old old settled_once causes.Memory → ⊥ }
    ensures waiting { (words : List (List ℕ)) (partitions : ℕ)
        → call_in words ≡ Some (calls.Show partitions)
        → Keeps words [] [] [] (causes.Waiting (codes "a") 1) → ⊥ }
    ensures written { (words : List (List ℕ)) (partitions : ℕ)
        → call_in words ≡ Some (calls.Show partitions)
        → KeepsUntold words [] (on 16 (wrote 0 1 (0 ∷ [])) ∷ []) [] causes.Memory → ⊥ }
{}

/// A fault comes where its count rose, and no count falls.
pub fn faults_risen()
    ensures risen { FaultsRise causes.SiteFault (faults_of 0 0 0) (faults_of 1 0 0) }
    ensures disk { FaultsRise causes.SiteFault (faults_of 0 0 0) (faults_of 0 0 0) → ⊥ }
    ensures tape { FaultsRise causes.SayFault (faults_of 0 0 0) (faults_of 0 0 0) → ⊥ }
    ensures clock { FaultsRise causes.ClockFault (faults_of 0 0 0) (faults_of 0 0 0) → ⊥ }
    ensures disk_fell { FaultsRise causes.Done (faults_of 1 0 0) (faults_of 0 0 0) → ⊥ }
    ensures tape_fell { FaultsRise causes.Done (faults_of 0 1 0) (faults_of 0 0 0) → ⊥ }
    ensures clock_fell { FaultsRise causes.Done (faults_of 0 0 1) (faults_of 0 0 0) → ⊥ }
{}

/// Files are fit that are by their grammars, and whose log, if there is one, stands for a run. A run over such files, where nothing failed,
/// doesn't end by refusing one.
pub fn files_fit()
    ensures fit { AreFit (by_steps 1) good_files }
    ensures asks { AreFit (by_steps 1) (three_files (codes "{}") [] (codes "[]")) → ⊥ }
    ensures stand { Asks 1 1 (directory requests_bytes empty_log) one_asked
        × (AreFit (by_steps 1) (directory requests_bytes empty_log) → ⊥) }
    ensures sound { (words : List (List ℕ)) → call_in words ≡ Some (calls.Run (by_steps 1))
        → EndsSoundly words (Unit {0}) good_files (faults_of 0 0 0) (faults_of 0 0 0)
        (causes.BadRequests 1) → ⊥ }
{}

/// Nothing failed where no count rose, and each could have.
pub fn none_failed()
    ensures none { NoneRose (faults_of 0 0 0) (faults_of 0 0 0) }
    ensures same { NoneRose (faults_of 0 0 0) (faults_of 0 0 1) → ⊥ }
    ensures disk { NoneRose (faults_of (2 ^ 64 - 1) 0 0) (faults_of (2 ^ 64 - 1) 0 0) → ⊥ }
    ensures tape { NoneRose (faults_of 0 (2 ^ 64 - 1) 0) (faults_of 0 (2 ^ 64 - 1) 0) → ⊥ }
    ensures clock { NoneRose (faults_of 0 0 (2 ^ 64 - 1)) (faults_of 0 0 (2 ^ 64 - 1)) → ⊥ }
{}
