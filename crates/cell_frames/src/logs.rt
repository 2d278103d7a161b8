//! Laws of where frames go. The functions do nothing.

ghost use Rattle.std.specs.Prelude.{ℕ, List, []};
ghost use Rattle.std.specs.List.{All};
ghost use Rattle.cell_frames.specs.Begun.{GoesOnAt};
ghost use Rattle.commit_gate.specs.Keeping.{GoesInside, AreOfOne};
ghost use Rattle.commit_gate.specs.Views.{all_sent};
ghost use Rattle.commit_gate.specs.declared.ledger.Sending.{Sending};
ghost use Rattle.dura_model.specs.Partition.{Partition};
ghost use Rattle.dura_value.specs.Items.{Entry};
ghost use Rattle.flow_syntax.specs.Syntax.{Flows};
ghost use Rattle.hub_store.specs.Frames.{goes_on, GoesBehind};
ghost use Rattle.hub_store.specs.Origin.{Origin};
ghost use Rattle.hub_store.specs.Trail.{Said};
ghost use Rattle.log_items.specs.Entries.{items_in};
ghost use Rattle.many_logs.specs.Labels.{state_next};
ghost use Rattle.many_rules.specs.Makes.{Makes};
ghost use Rattle.many_rules.specs.Rules.{Rules};
ghost use Rattle.part_items.specs.ItemFits.{FitsFrame};
ghost use Rattle.part_items.specs.Numbered.{IsNumbered};
ghost use Rattle.spec_cell.specs.Picks.{HasPicked};
ghost use Rattle.spec_cell.specs.Views.{CellView};
ghost use Rattle.spec_tracker.specs.declared.marks.Marks.{Marks};

/// A frame that its partition may make is written and read again where its log goes on, where it can be written at all, the log goes on where
/// the state began, and what was settled behind that is numbered.
pub fn frames_go_behind_their_logs()
    ensures { (o : Origin) (rules : Rules) (latest : ℕ) (mine : List Entry) (told : List Said)
        (partition : ℕ) (going : List Entry)
        → GoesOnAt (goes_on (o.logs partition) []) (state_next (rules.begin partition))
        → IsNumbered (state_next (rules.begin partition)) mine
        → Makes rules latest mine told partition going → FitsFrame going
        → GoesBehind (goes_on (o.logs partition) mine) going }
{}

/// What comes in by it, and what it lets go, is of partitions that there are, with room for the numbers behind.
pub fn frames_are_of_others()
    ensures { (rules : Rules) (latest : ℕ) (mine : List Entry) (told : List Said) (partition : ℕ)
        (going : List Entry) → Makes rules latest mine told partition going → FitsFrame going
        → AreOfOne rules.count (items_in going) }
{}

/// What a picked frame sends goes to partitions that there are.
pub fn picked_frames_send_inside()
    ensures { (flows : Flows) (count : ℕ) (begin : Partition) (marks : Marks) (old new : CellView)
        (frame : List Entry) (sending : List Sending)
        → HasPicked flows count begin marks old frame sending new
        → All (GoesInside count) (all_sent sending) }
{}
