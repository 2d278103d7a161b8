//! Examples of what stands on files that a run of one partition leaves.

ghost use Rattle.std.specs.Prelude.{◌≡◌, ◌++◌, ℕ, slice_set, IsSome, Some, List, [], ◌∷◌};
ghost use Rattle.dura_value.specs.Dependencies.{Founded, names_of};
ghost use Rattle.dura_model.specs.Entries.{placed, AllGiven};
ghost use Rattle.dura_model.specs.Partition.{fresh};
ghost use Rattle.dura_model.specs.Steps.{Label};
ghost use Rattle.dura_value.specs.Items.{Entry};
ghost use Rattle.flow_syntax.specs.Syntax.{Flows};
ghost use Rattle.many_logs.specs.Stands.{FilesStand};
ghost use Rattle.part_items.specs.Examples.{digest, two_files, empty_log};
ghost use Rattle.part_items.specs.Logs.{logs_in, entries_in, alone_with};
ghost use Rattle.run_examples.specs.Going.{at_once, at_once_log, settled_at_once, ok_of};
ghost use Rattle.run_laws.specs.Examples.{empty_origin};
ghost use Rattle.run_laws.specs.Leaves.{StandsOn, committed_in};
ghost use Rattle.run_rules.specs.Examples.{rules_with};
ghost use Rattle.run_rules.specs.FieldExamples.{sum_flows};

/// That all that came is founded follows from the rest of what stands on an image: it keeps the entries, which make a state, each outcome
/// in them one that its activity may give. So no image lacks just that.
pub fn what_stands_is_founded()
    ensures { (flows : Flows) (digest : ℕ) (recovered more : List Entry) (files : ℕ → List ℕ)
        (run : List Label) → entries_in (logs_in (alone_with digest) files)
        ≡ Some (recovered ++ more) → FilesStand flows 1 digest files run
        → AllGiven flows 1 (fresh 0) (recovered ++ more)
        → Founded (names_of (committed_in recovered)) (committed_in more) }
{}

/// An activity that was asked for in the entry in which it ends didn't run once its schedule was settled, so such an entry doesn't stand,
/// though each of its items is accepted. Nor does a damaged log.
pub fn crashes_stand()
    ensures early { StandsOn (rules_with sum_flows) 5 digest empty_origin [] settled_at_once
        (two_files at_once_log []) → ⊥ }
    ensures accepted { IsSome (ok_of (placed sum_flows 1 (fresh 0) (at_once ∷ []))) }
    ensures damaged { (flows : Flows) → StandsOn (rules_with flows) 0 digest empty_origin [] []
        (two_files (slice_set empty_log 3 0) []) → ⊥ }
{}
