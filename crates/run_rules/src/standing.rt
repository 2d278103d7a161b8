//! Laws and examples of what entries lead to and what files stand for. They are said of the definitions alone: the functions do nothing.

ghost use Rattle.std.specs.Prelude.{◌≡◌, ℕ, slice_set, List, [], ◌∷◌, Some, Ok, Err};
ghost use Rattle.dura_model.specs.Entries.{placed, labels_in, AllGiven, shown_by};
ghost use Rattle.dura_model.specs.Legal.{after_from};
ghost use Rattle.dura_model.specs.Partition.{Partition, fresh};
ghost use Rattle.dura_model.specs.Placed.{AreShown};
ghost use Rattle.dura_model.specs.Steps.{Label, take};
ghost use Rattle.dura_value.specs.Items.{Entry};
ghost use Rattle.flow_syntax.specs.Syntax.{Flows};
ghost use Rattle.part_items.specs.Examples.{digest, empty_log, two_files, request, taking, taking_log};
ghost use Rattle.part_items.specs.Logs.{alone_with, logs_in, entries_in};
ghost use Rattle.part_items.specs.Numbered.{behind_all, IsNumbered};
ghost use Rattle.run_rules.specs.Examples.{request_taken};
ghost use Rattle.many_logs.specs.Labels.{state_next};
ghost use Rattle.many_logs.specs.Stands.{FilesStand};

/// Entries that are accepted one after another make of the world that the one partition shows what their labels do, where each
/// outcome is one that its activity may give; and the log goes on behind them.
pub fn entries_are_labels()
    ensures { (flows : Flows) (p q : Partition) (entries : List Entry) → AreShown 1 (λ place. p)
        → IsNumbered (state_next p) entries → AllGiven flows 1 p entries
        → placed flows 1 p entries ≡ Ok q
        → (after_from flows (shown_by flows p) (labels_in entries) ≡ Some (shown_by flows q))
        × AreShown 1 (λ place. q) × (state_next q ≡ behind_all (state_next p) entries) }
{}

/// Files whose entries are accepted one after another stand for the labels of these, where each outcome is one that its activity
/// may give.
pub fn labels_stand()
    ensures { (flows : Flows) (digest : ℕ) (files : ℕ → List ℕ) (entries : List Entry)
        (q : Partition) → entries_in (logs_in (alone_with digest) files) ≡ Some entries
        → placed flows 1 (fresh 0) entries ≡ Ok q → AllGiven flows 1 (fresh 0) entries
        → FilesStand flows 1 digest files (labels_in entries) }
{}

/// A request is taken once.
pub fn requests_taken()
    ensures once { (flows : Flows) → placed flows 1 (fresh 0) (taking 0 ∷ []) ≡ Ok request_taken }
    ensures twice { (flows : Flows) → placed flows 1 (fresh 0) (taking 0 ∷ taking 1 ∷ []) ≡ Err 1 }
{}

/// A log without entries stands for the run of no label, and one where a request was taken for the run of its label. Files that
/// are refused stand for none.
pub fn files_stand()
    ensures empty { (flows : Flows) → FilesStand flows 1 digest (two_files empty_log []) [] }
    ensures taken { (flows : Flows) → FilesStand flows 1 digest (two_files taking_log [])
        (take request.from 1 request ∷ []) }
    ensures refused { (flows : Flows) (run : List Label)
        → FilesStand flows 1 digest (two_files (slice_set empty_log 3 0) []) run → ⊥ }
{}
