//! Examples of what entries of two partitions make of their states, and of what their files stand for. They are said of the
//! definitions alone: the functions do nothing.

ghost use Rattle.std.specs.Prelude.{◌≡◌, ℕ, List, [], ◌∷◌, true, false, is_some, slice_set, Some, None, codes};
ghost use Rattle.dura_model.specs.Partition.{Partition, fresh};
ghost use Rattle.dura_model.specs.Steps.{Label, take};
ghost use Rattle.dura_value.specs.Ids.{client};
ghost use Rattle.dura_value.specs.Items.{Entry, got, took, trim};
ghost use Rattle.dura_value.specs.declared.data.Value.TheVariants as values;
ghost use Rattle.dura_value.specs.declared.outcome.Outcome.TheVariants as outcomes;
ghost use Rattle.flow_syntax.specs.Syntax.{Flows};
ghost use Rattle.many_examples.specs.Pairs.{asks, request, entry_at, first_entry, logs_with, taking, coming_in, letting_go};
ghost use Rattle.many_examples.specs.Placings.{states_of, first_posted, first_from, taking_second, letting_first_go, second_posted, other_coming, two_coming, asking_states, ending_sum, log_of, one_file, none_of, taken_of, taking_x, beyond};
ghost use Rattle.many_logs.specs.Gates.{frame_passes, FrameLetsGo};
ghost use Rattle.many_logs.specs.Labels.{AllGiven, AreNumbered};
ghost use Rattle.many_logs.specs.Names.{AreOf, AreNamed, TrimsNamed};
ghost use Rattle.many_logs.specs.Placing.{Commit, message_at, is_ready, commit_accepted, AllBelow, HasPlaced, IsStuck, GoesThrough, AllReady, placed};
ghost use Rattle.many_logs.specs.Stands.{FilesStand, AreKept};
ghost use Rattle.part_items.specs.Examples.{digest, request as request_x};
ghost use Rattle.run_rules.specs.FieldExamples.{no_sum};

/// A stream has the message that was sent under its number, none past its end, and none that was let go, though those behind it
/// are there.
pub fn messages_of_streams()
    ensures there { (flows : Flows)
        → message_at ((states_of flows (taking ∷ []) 1).outboxes 0) 0 ≡ Some first_posted }
    ensures past { (flows : Flows)
        → message_at ((states_of flows (taking ∷ []) 1).outboxes 0) 1 ≡ None }
    ensures gone { (flows : Flows)
        → message_at ((states_of flows (taking ∷ coming_in 0 ∷ letting_go ∷ []) 1).outboxes 0) 0
        ≡ None }
    ensures elsewhere { (flows : Flows)
        → message_at ((states_of flows (taking ∷ []) 0).outboxes 1) 0 ≡ None }
    ensures before { (flows : Flows) → message_at ((states_of flows
        (taking ∷ taking_second ∷ coming_in 0 ∷ letting_first_go ∷ []) 1).outboxes 0) 0 ≡ None }
    ensures behind { (flows : Flows) → message_at ((states_of flows
        (taking ∷ taking_second ∷ coming_in 0 ∷ letting_first_go ∷ []) 1).outboxes 0) 1
        ≡ Some second_posted }
{}

/// What was sent may come in, and no other message, nor before it was sent, nor as that of an entry of another incarnation or position; what
/// was read may be let go, and not before. A request waits for no other partition.
pub fn items_ready()
    ensures sent { (flows : Flows)
        → is_ready (states_of flows (taking ∷ [])) 0 (got (first_entry 1) 0 (request 1)) ≡ true }
    ensures unsent { is_ready fresh 0 (got (first_entry 1) 0 (request 1)) ≡ false }
    ensures other { (flows : Flows)
        → is_ready (states_of flows (taking ∷ [])) 0 (got (first_entry 1) 0 (request 2)) ≡ false }
    ensures own { (flows : Flows)
        → is_ready (states_of flows (taking ∷ [])) 0 (first_from 0 0) ≡ true }
    ensures incarnation { (flows : Flows)
        → is_ready (states_of flows (taking ∷ [])) 0 (first_from 1 0) ≡ false }
    ensures position { (flows : Flows)
        → is_ready (states_of flows (taking ∷ [])) 0 (first_from 0 1) ≡ false }
    ensures read { (flows : Flows)
        → is_ready (states_of flows (taking ∷ coming_in 0 ∷ [])) 1 (trim (first_entry 0) 1) ≡ true }
    ensures unread { (flows : Flows)
        → is_ready (states_of flows (taking ∷ [])) 1 (trim (first_entry 0) 1) ≡ false }
    ensures alone { is_ready fresh 1 (took (request 1)) ≡ true }
{}

/// An entry is accepted where the others are as far as all its items need: what was sent comes in, and nothing else, nor earlier, be it
/// behind another item. And it keeps the rules of its own partition: no request is taken of a client who lives elsewhere.
pub fn commits_accepted()
    ensures coming { (flows : Flows)
        → is_some (commit_accepted flows 2 (states_of flows (taking ∷ [])) 0 (coming_in 0).entry)
        ≡ true }
    ensures other { (flows : Flows)
        → commit_accepted flows 2 (states_of flows (taking ∷ [])) 0 other_coming ≡ None }
    ensures early { (flows : Flows) → commit_accepted flows 2 fresh 0 (coming_in 0).entry ≡ None }
    ensures second { (flows : Flows) → commit_accepted flows 2 fresh 0 two_coming ≡ None }
    ensures astray { (flows : Flows)
        → commit_accepted flows 2 fresh 0 (entry_at 0 (took (request 1))) ≡ None }
{}

/// Entries of partitions 0 and 1 are of two partitions, and not of one.
pub fn commits_below()
    ensures two { AllBelow 2 (taking ∷ coming_in 0 ∷ []) }
    ensures one { AllBelow 1 (coming_in 0 ∷ taking ∷ []) → ⊥ }
{}

/// Two logs that need each other come to the states of their entries in order, and nothing is left. They don't come to the states
/// before, and it isn't so that an entry is left.
pub fn logs_placed()
    ensures all { (flows : Flows) → HasPlaced 2 (placed flows 2 (logs_with (request 1)))
        (states_of flows (taking ∷ coming_in 0 ∷ letting_go ∷ [])) (λ partition. []) }
    ensures states { (flows : Flows) (rest : ℕ → List Entry)
        → HasPlaced 2 (placed flows 2 (logs_with (request 1))) fresh rest → ⊥ }
    ensures left { (flows : Flows) (final : ℕ → Partition)
        → HasPlaced 2 (placed flows 2 (logs_with (request 1))) final (log_of letting_go) → ⊥ }
{}

/// What another partition hasn't sent is stuck; a request isn't.
pub fn entries_stuck()
    ensures unsent { (flows : Flows) → IsStuck flows 2 fresh (log_of (coming_in 0)) }
    ensures taken { (flows : Flows) → IsStuck flows 2 fresh (log_of taking) → ⊥ }
{}

/// A frame goes through where its entries are accepted one after another, here behind the entry that sends what comes in, and not
/// before it.
pub fn frames_through()
    ensures behind { (flows : Flows) → GoesThrough flows 2 (states_of flows (taking ∷ [])) 0
        ((coming_in 0).entry ∷ entry_at 1 (took (asks (codes "b") (codes "y") 1)) ∷ []) }
    ensures early { (flows : Flows) → GoesThrough flows 2 fresh 0
        (entry_at 0 (took (asks (codes "b") (codes "y") 1)) ∷ (coming_in 1).entry ∷ []) → ⊥ }
{}

/// The others are as far as a frame needs once what comes in was sent, and not before.
pub fn frames_ready()
    ensures sent { (flows : Flows)
        → AllReady (states_of flows (taking ∷ [])) 0 ((coming_in 0).entry ∷ []) }
    ensures unsent { AllReady fresh 0 ((coming_in 0).entry ∷ []) → ⊥ }
{}

/// What has no sum fails, and isn't done.
pub fn outcomes_of_commits()
    ensures failed { (flows : Flows) → AllGiven flows 2 asking_states (ending_sum no_sum ∷ []) }
    ensures done { (flows : Flows)
        → AllGiven flows 2 asking_states (ending_sum (outcomes.Done values.Null) ∷ []) → ⊥ }
{}

/// Entries are numbered by partition, each from where its log goes on; a log doesn't begin behind its first position, nor
/// stand still.
pub fn commits_numbered()
    ensures each { AreNumbered fresh (taking ∷ coming_in 0 ∷ letting_go ∷ []) }
    ensures late { AreNumbered fresh (letting_go ∷ []) → ⊥ }
    ensures again { AreNumbered fresh (taking ∷ coming_in 0 ∷ coming_in 0 ∷ []) → ⊥ }
{}

/// Files that aren't there stand for the run in which nothing happened, and a log of partition 1 with a request of its client for the one
/// in which that is taken. None stand for a label that no log has, nor damaged ones for anything, nor such from which an entry is left: a
/// request of a client who lives elsewhere.
pub fn files_standing()
    ensures none { (flows : Flows) → FilesStand flows 2 digest (λ file. []) [] }
    ensures taken { (flows : Flows) → FilesStand flows 2 digest (one_file 20 (taken_of 1))
        (take (client (codes "a")) 1 request_x ∷ []) }
    ensures unkept { (flows : Flows) → FilesStand flows 2 digest (λ file. [])
        (take (client (codes "a")) 1 request_x ∷ []) → ⊥ }
    ensures damaged { (flows : Flows) (run : List Label)
        → FilesStand flows 2 digest (one_file 20 (slice_set (none_of 1) 3 0)) run → ⊥ }
    ensures left { (flows : Flows) (run : List Label)
        → FilesStand flows 2 digest (one_file 16 (taken_of 0)) run → ⊥ }
{}

/// Files keep the entries of their logs, and no others: not those of a partition that isn't there, nor such as weren't accepted, and none where
/// they are damaged.
pub fn commits_kept()
    ensures none { (flows : Flows) → AreKept flows 2 digest (λ file. []) [] }
    ensures taken { (flows : Flows) → AreKept flows 2 digest (one_file 20 (taken_of 1))
        (taking_x ∷ []) }
    ensures unkept { (flows : Flows) → AreKept flows 2 digest (λ file. []) (taking_x ∷ []) → ⊥ }
    ensures above { (flows : Flows) → AreKept flows 2 digest (λ file. [])
        (beyond ∷ []) → ⊥ }
    ensures refused { (flows : Flows) → AreKept flows 2 digest (one_file 16 (taken_of 0))
        (record taking_x { partition = 0 } ∷ []) → ⊥ }
    ensures damaged { (flows : Flows) (commits : List Commit)
        → AreKept flows 2 digest (one_file 20 (slice_set (none_of 1) 3 0)) commits → ⊥ }
{}

/// A message passes the gate where it stands in the stream in memory, and the entry that sent it is settled; what is let go passes once
/// what is settled has read it.
pub fn frames_passing()
    ensures settled { (flows : Flows) → frame_passes (states_of flows (taking ∷ []))
        (λ p. (states_of flows (taking ∷ []) p).position) (λ p source. 0) 0
        ((coming_in 0).entry ∷ []) ≡ true }
    ensures unsettled { (flows : Flows) → frame_passes (states_of flows (taking ∷ []))
        (λ p. (fresh p).position) (λ p source. 0) 0 ((coming_in 0).entry ∷ []) ≡ false }
    ensures unsent { frame_passes fresh (λ p. 1) (λ p source. 0) 0 ((coming_in 0).entry ∷ [])
        ≡ false }
    ensures read { frame_passes fresh (λ p. 0) (λ p source. 1) 1 (letting_go.entry ∷ []) ≡ true }
    ensures unread { frame_passes fresh (λ p. 0) (λ p source. 0) 1 (letting_go.entry ∷ [])
        ≡ false }
{}

/// A frame that lets go of one message of the stream to partition 0 lets go no more than one of it, and none of the others; it does
/// let go of one.
pub fn frames_letting_go()
    ensures one { FrameLetsGo 0 1 (letting_go.entry ∷ []) }
    ensures others { FrameLetsGo 2 0 (letting_go.entry ∷ []) }
    ensures none { FrameLetsGo 0 0 (letting_go.entry ∷ []) → ⊥ }
{}

/// The streams are those of the entries that sent and read them, and of no fewer.
pub fn streams_of_entries()
    ensures both { (flows : Flows) → AreOf (first_entry 1 ∷ first_entry 0 ∷ [])
        (states_of flows (taking ∷ coming_in 0 ∷ [])) }
    ensures unsent { (flows : Flows) → AreOf (first_entry 0 ∷ [])
        (states_of flows (taking ∷ coming_in 0 ∷ [])) → ⊥ }
    ensures unread { (flows : Flows) → AreOf (first_entry 1 ∷ [])
        (states_of flows (taking ∷ coming_in 0 ∷ [])) → ⊥ }
{}

/// What comes in names the entry that sent it, which may be known or not.
pub fn entries_named()
    ensures known { AreNamed (first_entry 1 ∷ []) ((coming_in 0).entry ∷ []) }
    ensures unknown { AreNamed (first_entry 0 ∷ []) ((coming_in 0).entry ∷ []) → ⊥ }
{}

/// What is let go names the entry that read it; what comes in counts for nothing here.
pub fn trims_named()
    ensures known { TrimsNamed (first_entry 0 ∷ []) (letting_go.entry ∷ []) }
    ensures unknown { TrimsNamed (first_entry 1 ∷ []) (letting_go.entry ∷ []) → ⊥ }
    ensures coming { TrimsNamed [] ((coming_in 0).entry ∷ []) }
{}
