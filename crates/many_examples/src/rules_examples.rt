//! Examples of what a call of two partitions may commit and say, of where it begins, and of what a crash leaves of it: in each all facts
//! hold, or all but one. They are said of the definitions alone: the functions do nothing.

ghost use Rattle.std.specs.Prelude.{◌≡◌, ℕ, List, [], ◌∷◌, codes, slice_set, Some};
ghost use Rattle.client_port.specs.Lines.{line_of};
ghost use Rattle.dura_model.specs.Partition.{fresh};
ghost use Rattle.dura_value.specs.Items.{took};
ghost use Rattle.dura_value.specs.Messages.{was_started, is_unknown};
ghost use Rattle.dura_value.specs.declared.data.Value.TheVariants as values;
ghost use Rattle.dura_value.specs.declared.outcome.Outcome.{Outcome};
ghost use Rattle.dura_value.specs.declared.outcome.Outcome.TheVariants as outcomes;
ghost use Rattle.flow_syntax.specs.Syntax.{Flows};
ghost use Rattle.hub_store.specs.Trail.{Said};
ghost use Rattle.many_examples.specs.Pairs.{first_entry, taking, coming_in};
ghost use Rattle.many_examples.specs.Placings.{states_of, asking_states, ending_sum, one_file, none_of, taken_of, taking_x, beyond};
ghost use Rattle.many_examples.specs.RulesBy.{rules_with, taking_rules, later_rules, silent_rules, asking_rules, answering_rules, taken_once, settled, firing, first_said, second_said, second_rules, empty_origin, empty_log, unknown_rules, answering, answering_at, gate_written, starting_sum, at_once, letting_unknown, sum_done, sum_done_origin, sum_done_rules, free_rules, unserved_rules};
ghost use Rattle.many_logs.specs.Placing.{GoesThrough};
ghost use Rattle.many_logs.specs.Stands.{asked_at, AreKept};
ghost use Rattle.many_rules.specs.Leaves.{Begins, IsAnswered, AllAnswered, IsHalfSaid, AllRan, StandsOn};
ghost use Rattle.many_rules.specs.Rules.{known_of, IsOurs, GoesFrom, Follows, Answers, Passes};
ghost use Rattle.part_items.specs.Examples.{digest};
ghost use Rattle.part_items.specs.Logs.{logs_in, entries_in};
ghost use Rattle.run_rules.specs.FieldExamples.{no_sum, sum_flows, starting, ending_first};
ghost use Rattle.site_model.specs.History.{on, wrote, said};

/// What comes in goes on from where it was sent, by an entry that is known; not from where it wasn't, nor where that entry isn't known. An
/// outcome goes on where its activity is pending, and is one that it may give; not in one frame with the entry that asks for it.
pub fn frames_going()
    ensures coming { (flows : Flows) → GoesFrom (rules_with flows) (first_entry 1 ∷ [])
        (states_of flows (taking ∷ [])) 0 ((coming_in 0).entry ∷ []) }
    ensures failed { (flows : Flows) → GoesFrom (rules_with flows) [] asking_states 1
        ((ending_sum no_sum).entry ∷ []) }
    ensures settled { GoesFrom (rules_with sum_flows) []
        (states_of sum_flows (starting_sum ∷ [])) 1 (ending_first ∷ []) }
    ensures accepted { (flows : Flows) → GoesFrom (rules_with flows) (first_entry 1 ∷ [])
        fresh 0 ((coming_in 0).entry ∷ []) → ⊥ }
    ensures given { (flows : Flows) → GoesFrom (rules_with flows) [] asking_states 1
        ((ending_sum (outcomes.Done values.Null)).entry ∷ []) → ⊥ }
    ensures pending { GoesFrom (rules_with sum_flows) [] fresh 1 (starting ∷ ending_first ∷ [])
        → ⊥ }
    ensures named { (flows : Flows) → GoesFrom (rules_with flows) []
        (states_of flows (taking ∷ [])) 0 ((coming_in 0).entry ∷ []) → ⊥ }
{}

/// What is settled of one partition comes in at another. No frame is of a partition that isn't there, even an empty one; none goes on where
/// what it takes in wasn't sent.
pub fn entries_following()
    ensures coming { (flows : Flows) → Follows (rules_with flows) 0 taken_once [] 0
        ((coming_in 0).entry ∷ []) }
    ensures first { (flows : Flows) → Follows (rules_with flows) 0 [] [] 1 (taking.entry ∷ []) }
    ensures empty { (flows : Flows) → Follows (rules_with flows) 0 [] [] 1 [] }
    ensures below { (flows : Flows) → Follows (rules_with flows) 0 [] [] 2 [] → ⊥ }
    ensures goes { (flows : Flows) → Follows (rules_with flows) 0 [] [] 0
        ((coming_in 0).entry ∷ []) → ⊥ }
{}

/// An entry is of its own partition's incarnation or a later one, takes what was asked for, unless nobody is served, and is of no later
/// stamp than the clock's.
pub fn entries_ours()
    ensures incarnation { (flows : Flows) → Follows (later_rules flows) 0 taken_once [] 0
        ((coming_in 0).entry ∷ []) → ⊥ }
    ensures other { (flows : Flows) → Follows (later_rules flows) 0 [] [] 1 (taking.entry ∷ []) }
    ensures asked { (flows : Flows) → Follows (silent_rules flows) 0 [] [] 1 (taking.entry ∷ [])
        → ⊥ }
    ensures unserved { (flows : Flows) → Follows (free_rules flows) 0 [] [] 1
        (taking.entry ∷ []) }
    ensures by_then { Follows unknown_rules 5 [] [] 1 ((answering_at 5).entry ∷ []) }
    ensures timely { Follows unknown_rules 4 [] [] 1 ((answering_at 5).entry ∷ []) → ⊥ }
{}

/// The line of the answer that the client's home has may be said, once, and no other line; not that of another partition, nor where the
/// settled entries make no states, nor, unless nobody is served, one that is there of another number than the client's next.
pub fn lines_answering()
    ensures there { (flows : Flows) → Answers (answering_rules flows 1) [] [] first_said
        (line_of (codes "a") 1 was_started) }
    ensures only { (flows : Flows) (line : List ℕ)
        → Answers (answering_rules flows 1) [] [] first_said line
        → line ≡ line_of (codes "a") 1 was_started }
    ensures elsewhere { (flows : Flows) (line : List ℕ)
        → Answers (answering_rules flows 0) [] [] first_said line → ⊥ }
    ensures again { (flows : Flows) (line : List ℕ)
        → Answers (answering_rules flows 1) [] (first_said ∷ []) first_said line → ⊥ }
    ensures unmade { (flows : Flows) (line : List ℕ)
        → Answers (answering_rules flows 1) (settled (coming_in 0) ∷ []) [] first_said line → ⊥ }
    ensures unserved { (flows : Flows) → Answers (unserved_rules flows) [] [] second_said
        (line_of (codes "a") 2 was_started) }
    ensures number { (flows : Flows) (line : List ℕ)
        → Answers (second_rules flows) [] [] second_said line → ⊥ }
{}

/// A call over two logs without entries begins where nothing happened: not over one log, not under another digest, nor with entries that no
/// log has, nor of a partition that isn't there, nor in other states, nor in other files. No recovered outcome is one that its activity
/// may not give, and none of the logs' other files keeps anything.
pub fn calls_begin()
    ensures empty { (flows : Flows) → Begins empty_origin (rules_with flows) digest }
    ensures count { (flows : Flows)
        → Begins (record empty_origin { count = 1 }) (rules_with flows) digest → ⊥ }
    ensures headers { (flows : Flows) → Begins empty_origin (rules_with flows) 0 → ⊥ }
    ensures below { (flows : Flows) → Begins empty_origin
        (record (rules_with flows) {
          recovered = beyond ∷ [];
          begin = states_of flows (beyond ∷ []);
        }) digest → ⊥ }
    ensures theirs { (flows : Flows) → Begins empty_origin
        (record (rules_with flows) {
          recovered = taking ∷ [];
          begin = states_of flows (taking ∷ []);
        }) digest → ⊥ }
    ensures made { (flows : Flows) → Begins empty_origin (answering_rules flows 1) digest → ⊥ }
    ensures files { (flows : Flows) → Begins
        (record empty_origin { logs = λ partition. record (empty_log partition) { file = 16 } })
        (rules_with flows) digest → ⊥ }
    ensures given { Begins sum_done_origin sum_done_rules digest → ⊥ }
    ensures other { (flows : Flows) → Begins
        (record empty_origin { steps = on 17 (wrote 0 34 (none_of 0)) ∷ [] }) (rules_with flows)
        digest → ⊥ }
{}

/// An entry of this call is of its partition's incarnation or a later one; it has an item or more, and no more than may be; and it is of no
/// stamp before the call began, and of none later than the clock's.
pub fn entries_of_call()
    ensures coming { (flows : Flows)
        → IsOurs (rules_with flows) 0 [] 0 (coming_in 0).entry }
    ensures fired { (flows : Flows) → IsOurs (rules_with flows) 5 [] 1 (firing 5) }
    ensures incarnation { (flows : Flows)
        → IsOurs (later_rules flows) 0 [] 0 (coming_in 0).entry → ⊥ }
    ensures some { (flows : Flows)
        → IsOurs (rules_with flows) 0 [] 0 (record (firing 5) { items = [] }) → ⊥ }
    ensures few { (flows : Flows)
        → IsOurs (record (rules_with flows) { most = 0 }) 5 [] 1 (firing 5) → ⊥ }
    ensures since { (flows : Flows)
        → IsOurs (record (rules_with flows) { since = 6 }) 5 [] 1 (firing 5) → ⊥ }
    ensures from_then { (flows : Flows)
        → IsOurs (record (rules_with flows) { since = 5 }) 5 [] 1 (firing 5) }
    ensures timely { (flows : Flows) → IsOurs (rules_with flows) 4 [] 1 (firing 5) → ⊥ }
{}

/// What is sent by one partition and comes in at another may come frame by frame; an activity that no settled entry asked for didn't
/// run, nor one that is asked for and ends in one frame, though its entry is accepted; where nobody is served it may have.
pub fn activities_ran()
    ensures coming { (flows : Flows) → AllRan (rules_with flows) (taking ∷ coming_in 0 ∷ []) }
    ensures pending { (flows : Flows) → AllRan (asking_rules flows) (ending_sum no_sum ∷ []) }
    ensures unserved { (flows : Flows) (outcome : Outcome)
        → AllRan (free_rules flows) (ending_sum outcome ∷ []) }
    ensures early { (flows : Flows) (outcome : Outcome)
        → AllRan (rules_with flows) (ending_sum outcome ∷ []) → ⊥ }
    ensures accepted { GoesThrough sum_flows 2 fresh 1 (at_once.entry ∷ []) }
    ensures at_once { AllRan (rules_with sum_flows) (at_once ∷ []) → ⊥ }
{}

/// The answer to a start of a flow that isn't there is the run's once it was settled, and not before; and it is the first that is
/// said. What is half said begins a line that answers somebody.
pub fn answers_of_a_run()
    ensures settled { IsAnswered unknown_rules (answering ∷ []) [] first_said
        (line_of (codes "a") 1 is_unknown) }
    ensures early { (one : Said) (line : List ℕ) → IsAnswered unknown_rules [] [] one line → ⊥ }
    ensures only { (line : List ℕ) → IsAnswered unknown_rules (answering ∷ []) [] first_said line
        → line ≡ line_of (codes "a") 1 is_unknown }
    ensures again { (line : List ℕ) → IsAnswered unknown_rules (answering ∷ []) (first_said ∷ [])
        first_said line → ⊥ }
    ensures all { AllAnswered unknown_rules (answering ∷ []) (first_said ∷ [])
        (line_of (codes "a") 1 is_unknown) }
    ensures none { (line : List ℕ) → AllAnswered unknown_rules (answering ∷ []) [] line
        → line ≡ [] }
    ensures half { IsHalfSaid unknown_rules (answering ∷ []) [] (said 97 ∷ []) (97 ∷ []) }
    ensures silent { (part : List ℕ) → IsHalfSaid unknown_rules (answering ∷ []) [] [] part → ⊥ }
    ensures part { IsHalfSaid unknown_rules (answering ∷ []) [] (said 98 ∷ []) (98 ∷ []) → ⊥ }
{}

/// Whatever is in the files, they don't keep an outcome that its activity may not give. No crash leaves an outcome that came in the frame
/// that asks for it, nor an entry that names one which never was, though each of these entries is accepted.
pub fn crashes_leave_no_such_entry()
    ensures given { (files : ℕ → List ℕ) → AreKept sum_flows 2 digest files sum_done → ⊥ }
    ensures ran { (files : ℕ → List ℕ) → StandsOn (rules_with sum_flows) 5 digest empty_origin []
        (settled at_once ∷ []) files → ⊥ }
    ensures unfounded { (flows : Flows) → GoesThrough flows 2 fresh 1
        (letting_unknown.entry ∷ []) }
    ensures founded { (flows : Flows) (files : ℕ → List ℕ) → StandsOn (rules_with flows) 0 digest
        empty_origin [] (settled letting_unknown ∷ []) files → ⊥ }
{}

/// A crash of a call that did nothing leaves no files, and one of a call that took a request a log with it. It doesn't leave files without
/// what was settled, be it an entry that changes nothing, nor with an entry whose gate wasn't written, nor damaged ones, nor an entry of
/// another incarnation or that takes what nobody asked; the tape isn't shorter than it was, and what stands on it answers somebody.
pub fn crashes_leave()
    ensures empty { (flows : Flows) → StandsOn (rules_with flows) 0 digest empty_origin [] []
        (λ file. []) }
    ensures taken { (flows : Flows) → StandsOn (taking_rules flows) 0 digest empty_origin []
        (settled taking_x ∷ []) (one_file 20 (taken_of 1)) }
    ensures lost { (flows : Flows) → StandsOn (rules_with flows) 0 digest empty_origin []
        (settled taking_x ∷ []) (λ file. []) → ⊥ }
    ensures nothing { (flows : Flows) → StandsOn (rules_with flows) 0 digest empty_origin []
        (settled (record beyond { partition = 1 }) ∷ []) (λ file. []) → ⊥ }
    ensures damaged { (flows : Flows) → StandsOn (rules_with flows) 0 digest empty_origin [] []
        (one_file 20 (slice_set (none_of 1) 3 0)) → ⊥ }
    ensures of_call { (flows : Flows)
        → StandsOn (record (rules_with flows) { incarnations = λ partition. 1 }) 0 digest
        empty_origin [] (settled taking_x ∷ []) (one_file 20 (taken_of 1)) → ⊥ }
    ensures foreign { (flows : Flows) → StandsOn (silent_rules flows) 0 digest empty_origin []
        (settled taking_x ∷ []) (one_file 20 (taken_of 1)) → ⊥ }
    ensures unwritten { (flows : Flows) → StandsOn (rules_with flows) 0 digest empty_origin [] []
        (one_file 20 (taken_of 1)) → ⊥ }
    ensures unsaid { (flows : Flows) → StandsOn (rules_with flows) 0 digest
        (record empty_origin { steps = said 97 ∷ [] }) [] [] (λ file. []) → ⊥ }
    ensures answering { (flows : Flows) → StandsOn (rules_with flows) 0 digest empty_origin
        (said 97 ∷ []) [] (λ file. []) → ⊥ }
{}

/// A crash while a gate is being written leaves the frame behind it, or nothing; but no frame of another incarnation, nor, whatever the
/// files are that keep it, one with an outcome of what it asks for itself, or that names an entry which never was.
pub fn crashes_leave_frames()
    ensures open { (flows : Flows) → StandsOn (taking_rules flows) 0 digest empty_origin
        gate_written [] (one_file 20 (taken_of 1)) }
    ensures closed { (flows : Flows) → StandsOn (rules_with flows) 0 digest empty_origin
        gate_written [] (λ file. []) }
    ensures of_call { (flows : Flows)
        → StandsOn (record (rules_with flows) { incarnations = λ partition. 1 }) 0 digest
        empty_origin gate_written [] (one_file 20 (taken_of 1)) → ⊥ }
    ensures ran { (files : ℕ → List ℕ)
        → entries_in (logs_in (asked_at 2 digest 1) files) ≡ Some (at_once.entry ∷ [])
        → StandsOn (rules_with sum_flows) 5 digest empty_origin gate_written [] files → ⊥ }
    ensures founded { (flows : Flows) (files : ℕ → List ℕ)
        → entries_in (logs_in (asked_at 2 digest 1) files) ≡ Some (letting_unknown.entry ∷ [])
        → StandsOn (rules_with flows) 0 digest empty_origin gate_written [] files → ⊥ }
{}

/// What comes in passes where it stands in the stream in memory, and the entry that sent it is settled; so it goes on. It doesn't pass while
/// that entry is under way.
pub fn gates_passed()
    ensures settled { (flows : Flows) → Passes (rules_with flows) taken_once 0
        ((coming_in 0).entry ∷ []) }
    ensures under_way { (flows : Flows) → Passes (rules_with flows) [] 0
        ((coming_in 0).entry ∷ []) → ⊥ }
    ensures goes { (flows : Flows) → GoesFrom (rules_with flows)
        (known_of (rules_with flows) taken_once) (states_of flows (taking ∷ [])) 0
        ((coming_in 0).entry ∷ []) }
{}
