//! Laws of the frames that cells pick. The functions do nothing.

ghost use Rattle.std.specs.Prelude.{◌≡◌, ◌<◌, ◌≤◌, ℕ, List, ◌++◌, Some};
ghost use Rattle.cell_frames.specs.LetGo.{LetGoBefore};
ghost use Rattle.cell_frames.specs.Ours.{AreOurs, WaitOurs};
ghost use Rattle.cell_steps.specs.declared.mode.Mode.{Mode};
ghost use Rattle.cell_packets.specs.Packets.{ends_of};
ghost use Rattle.commit_gate.specs.Ledgers.{after_frame};
ghost use Rattle.commit_gate.specs.Views.{all_sent};
ghost use Rattle.commit_gate.specs.declared.ledger.Sending.{Sending};
ghost use Rattle.dura_model.specs.Partition.{Partition, fresh};
ghost use Rattle.dura_value.specs.Items.{Entry};
ghost use Rattle.hub_store.specs.Trail.{Said};
ghost use Rattle.log_items.specs.Entries.{items_in};
ghost use Rattle.log_items.specs.declared.items.Packet.{Packet};
ghost use Rattle.many_logs.specs.Placing.{states_after};
ghost use Rattle.many_rules.specs.Ledgers.{ledgers};
ghost use Rattle.many_rules.specs.Makes.{Makes};
ghost use Rattle.many_rules.specs.Rules.{Rules};
ghost use Rattle.spec_cell.specs.Picks.{HasPicked};
ghost use Rattle.spec_cell.specs.Turns.{MakesEntry};
ghost use Rattle.spec_cell.specs.Views.{CellView, HasFacts, IsBase};
ghost use Rattle.spec_tracker.specs.declared.marks.Marks.{Marks};

/// The frame that a cell picks may be made by its own partition behind what its seat has settled, where the cell goes on from what was
/// recovered and what it holds is the call's.
pub fn picked_frames_may_be_made()
    ensures { (rules : Rules) (latest : ℕ) (told : List Said) (marks : Marks) (old new : CellView)
        (frame : List Entry) (sending : List Sending)
        → states_after rules.flows rules.count fresh rules.recovered ≡ Some rules.begin
        → old.number < rules.count
        → HasFacts rules.flows rules.count (rules.begin old.number) old
        → AreOurs rules latest told old
        → HasPicked rules.flows rules.count (rules.begin old.number) marks old frame sending new
        → Makes rules latest old.slot.mine told old.number frame }
{}

/// What a cell says that its frame sends makes of what others see of the partition just what the frame's entries do, where they let go of
/// nothing that they send themselves.
pub fn picked_frames_send_what_they_say()
    ensures { (rules : Rules) (latest : ℕ) (told : List Said) (marks : Marks) (old new : CellView)
        (frame : List Entry) (sending : List Sending)
        → Makes rules latest old.slot.mine told old.number frame
        → HasPicked rules.flows rules.count (rules.begin old.number) marks old frame sending new
        → ((base : Partition) → IsBase rules.flows rules.count (rules.begin old.number) old base
        → LetGoBefore (ends_of (Some base.outboxes)) (items_in frame))
        → ledgers rules old.number (old.slot.mine ++ frame)
        ≡ after_frame (ledgers rules old.number old.slot.mine) frame (all_sent sending) }
{}

/// An entry that a turn makes is the call's, where what the cell holds and what waits there is, it makes entries in an incarnation of the
/// call and of no more items than it may have, and no moment was handed to it from before the call began, or later than the clock gave; and
/// what waits then is the call's still.
pub fn turns_make_what_is_ours()
    ensures { (rules : Rules) (latest : ℕ) (told : List Said) (mode : Mode) (limit : ℕ)
        (old new : CellView) (position : ℕ) (packets : List Packet)
        → HasFacts rules.flows rules.count (rules.begin old.number) old
        → rules.incarnations old.number ≤ old.incarnation → limit ≤ rules.most
        → rules.since ≤ old.now → old.now ≤ latest
        → AreOurs rules latest told old → WaitOurs rules told old
        → MakesEntry rules.flows rules.count (rules.begin old.number) mode limit old new position packets
        → AreOurs rules latest told new × WaitOurs rules told new }
{}
