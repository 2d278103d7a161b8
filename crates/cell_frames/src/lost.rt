//! Laws of what no incarnation gave up. The functions do nothing.

ghost use Rattle.std.specs.Prelude.{◌≡◌, ◌+◌, ℕ, List, [], ◌∷◌, ◌++◌};
ghost use Rattle.cell_frames.specs.Unlost.{HoldsUnlost, floor_of};
ghost use Rattle.cell_steps.specs.declared.mode.Mode.{Mode};
ghost use Rattle.commit_gate.specs.Unlost.{IsFrameUnlost};
ghost use Rattle.commit_gate.specs.declared.ledger.Sending.{Sending};
ghost use Rattle.dura_model.specs.Partition.{Partition};
ghost use Rattle.dura_value.specs.Items.{Entry, Floor, Identity};
ghost use Rattle.flow_syntax.specs.Syntax.{Flows};
ghost use Rattle.log_items.specs.declared.items.Packet.{Packet};
ghost use Rattle.spec_cell.specs.Moves.{IsRewound, IsReset};
ghost use Rattle.spec_cell.specs.Picks.{HasPicked};
ghost use Rattle.spec_cell.specs.Seats.{Slot};
ghost use Rattle.spec_cell.specs.Turns.{MakesEntry};
ghost use Rattle.spec_cell.specs.Views.{CellView, HasFacts, HasSettled};
ghost use Rattle.spec_tracker.specs.declared.marks.Marks.{Marks};

/// No incarnation gave up an entry of the frame that a cell picks, as a store whose gate compares asks of a frame, where none gave up what the
/// cell holds.
pub fn picked_frames_are_unlost()
    ensures { (position : ℕ) (floors : List Floor) (flows : Flows) (count : ℕ) (begin : Partition)
        (marks : Marks) (old new : CellView) (frame : List Entry) (sending : List Sending)
        → HoldsUnlost position floors old
        → HasPicked flows count begin marks old frame sending new
        → IsFrameUnlost position floors frame }
{}

/// So it stays: where an entry more is made, where the settled state moves on, and where entries are given up, once the store has the new
/// incarnation with the position from which on they were.
pub fn what_cells_hold_stays_unlost()
    ensures turns { (position : ℕ) (floors : List Floor) (flows : Flows) (count : ℕ)
        (begin : Partition) (mode : Mode) (limit : ℕ) (old new : CellView) (at : ℕ)
        (packets : List Packet) → HoldsUnlost position floors old
        → MakesEntry flows count begin mode limit old new at packets
        → HoldsUnlost position floors new }
    ensures settled { (position : ℕ) (floors : List Floor) (old new : CellView) (n : ℕ) (slot : Slot)
        → HoldsUnlost position floors old → HasSettled n slot old new
        → HoldsUnlost (position + n) floors new }
    ensures rewound { (position : ℕ) (floors : List Floor) (flows : Flows) (count : ℕ)
        (begin : Partition) (marks : Marks) (old new : CellView) (from : ℕ) (lost : Identity)
        → HoldsUnlost position floors old → (facts : HasFacts flows count begin old)
        → facts.base.position ≡ position → IsRewound flows count begin marks old new from lost
        → HoldsUnlost position (floors ++ floor_of new from ∷ []) new }
    ensures reset { (position : ℕ) (floors : List Floor) (flows : Flows) (count : ℕ)
        (begin : Partition) (old new : CellView) (from : ℕ) → HoldsUnlost position floors old
        → (facts : HasFacts flows count begin old) → facts.base.position ≡ position
        → IsReset from old new → HoldsUnlost position (floors ++ floor_of new from ∷ []) new }
{}
