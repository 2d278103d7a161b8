// Laws of the definitions. Each is the contract of a function that does nothing.
ghost use Rattle.std.specs.Prelude.{◌≡◌, ℕ, ◌<◌, ◌≤◌, List, [], ◌∷◌, ◌++◌, length, take, drop, true, false, Ok, Err};
ghost use Rattle.site_model.specs.History.{Step, content_of, syncing};
ghost use Rattle.site_calls.specs.Events.{Event, Unseen, found, failed, made, flushed, flushing, named, start_of, file_numbers, replay, IsHonest, Tells};
ghost use Rattle.site_calls.specs.Failures.{FailsByCall, is_disk_failure, disk_failures, say_failures};
ghost use Rattle.site_calls.specs.Laws.{failed_events, answered_events, HasHonestAnswers, HoldsTwoBytes, honest_events, NoneIsHonest, SyncCounts, left_by, LeavesUnseen};

/// Before the first call each file reads as it was held at the start, and behind the last number there is none.
pub fn a_file_reads_as_it_was_held()
    ensures held { (files : ℕ → List ℕ) (file : ℕ) → file < file_numbers
        → content_of file (start_of files) ≡ files file }
    ensures none { (files : ℕ → List ℕ) (file : ℕ) → file_numbers ≤ file
        → content_of file (start_of files) ≡ [] }
{}

/// No history shuts out that the next answer agrees with it.
pub fn an_honest_answer_exists()
    ensures { (steps : List Step) → HasHonestAnswers steps }
{}

/// An example of answers that agree, call by call.
pub fn honest_answers_tell()
    ensures { (unseen : Unseen) → HoldsTwoBytes unseen → Tells unseen honest_events }
{}

/// Examples of answers that don't.
pub fn a_wrong_answer_is_seen()
    ensures { (unseen : Unseen) → HoldsTwoBytes unseen → NoneIsHonest unseen }
{}

/// Answers that agreed do so whatever follows, and those that didn't never will.
pub fn the_past_stays()
    ensures { (unseen : Unseen) (later events : List Event) → IsHonest unseen (later ++ events)
        → IsHonest unseen events }
{}

/// Each call that failed counts once, and no other counts.
pub fn just_failed_calls_count()
    ensures failed { (disk_failures failed_events ≡ 4) × (say_failures failed_events ≡ 1) }
    ensures answered { (disk_failures answered_events ≡ 0) × (say_failures answered_events ≡ 0) }
{}

/// An error comes with a call more that failed, and not with another one, nor may a call be taken back.
pub fn an_error_has_its_call()
    ensures has { (error : ℕ) → FailsByCall {T = ℕ} is_disk_failure [] (failed 0 ∷ []) (Err error) }
    ensures has_not { (error : ℕ) → FailsByCall {T = ℕ} is_disk_failure (failed 0 ∷ [])
        (found 0 true ∷ failed 0 ∷ []) (Err error) → ⊥ }
    ensures taken_back { (value : ℕ) → FailsByCall {E = ℕ} is_disk_failure (failed 0 ∷ []) []
        (Ok value) → ⊥ }
{}

/// A sync counts only where every name is safe and no sync has failed. There several count one by one.
pub fn a_sync_counts_where_names_are_safe()
    ensures counts { (unseen : Unseen) (events : List Event) (file : ℕ)
        → SyncCounts file unseen events }
    ensures several { (unseen : Unseen) (events : List Event) (files : List ℕ)
        → (replay unseen events).loose ≡ false → (replay unseen events).broken ≡ false
        → (replay unseen (flushing files events)).steps ≡ syncing files (replay unseen events).steps }
    ensures made { (unseen : Unseen) (events : List Event) (file : ℕ)
        → (replay unseen (made file ∷ events)).loose ≡ true }
    ensures named { (unseen : Unseen) (events : List Event)
        → (replay unseen (named true ∷ events)).loose ≡ false }
{}

/// After a sync that failed, of a file or of the names, no later one counts.
pub fn a_failed_sync_stays()
    ensures file { (unseen : Unseen) (later events : List Event) (file : ℕ)
        → (replay unseen (later ++ flushed file false ∷ events)).broken ≡ true }
    ensures names { (unseen : Unseen) (later events : List Event)
        → (replay unseen (later ++ named false ∷ events)).broken ≡ true }
{}

/// What a write that failed leaves is not told by any answer. It stays within what was asked for, and the bytes that
/// were written before are its front.
pub fn a_lost_write_leaves_what_was_unseen()
    ensures content { (unseen : Unseen) (events : List Event) → LeavesUnseen unseen events }
    ensures within { (bytes left : List ℕ) (size : ℕ) → length (left_by bytes size left) ≤ size }
    ensures front { (bytes left : List ℕ) (size : ℕ) → length bytes ≤ size
        → take (length bytes) (left_by bytes size left) ≡ bytes }
    ensures behind { (bytes left : List ℕ) (size : ℕ) → length bytes ≤ size
        → drop (length bytes) (left_by bytes size left) ≡ drop (length bytes) (take size left) }
{}
