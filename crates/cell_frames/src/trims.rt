//! Laws of what cells let go of once it was read. The functions do nothing.

ghost use Rattle.std.specs.Prelude.{◌≡◌, ◌≤◌, ℕ, List};
ghost use Rattle.std.specs.List.{Contains};
ghost use Rattle.cell_frames.specs.LetGo.{LetGoBefore};
ghost use Rattle.cell_steps.specs.declared.mode.Mode.{Mode};
ghost use Rattle.commit_gate.specs.declared.ledger.Sending.{Sending};
ghost use Rattle.dura_model.specs.Partition.{Partition};
ghost use Rattle.dura_model.specs.World.{Activity};
ghost use Rattle.dura_value.specs.Ids.{Id};
ghost use Rattle.dura_value.specs.Items.{Identity, Entry};
ghost use Rattle.dura_value.specs.Messages.{Message};
ghost use Rattle.dura_value.specs.declared.outcome.Outcome.{Outcome};
ghost use Rattle.flow_syntax.specs.Syntax.{Flows};
ghost use Rattle.log_items.specs.Entries.{items_in};
ghost use Rattle.log_items.specs.declared.items.Packet.{Packet};
ghost use Rattle.spec_cell.specs.Comes.{Arrives, Records, Offers};
ghost use Rattle.spec_cell.specs.Moves.{IsRewound, IsReset, IsKept};
ghost use Rattle.spec_cell.specs.Picks.{HasPicked, CantPick};
ghost use Rattle.spec_cell.specs.Seats.{Slot};
ghost use Rattle.spec_cell.specs.Trims.{Trims};
ghost use Rattle.spec_cell.specs.Turns.{MakesEntry, IsIdle, IsSpent};
ghost use Rattle.spec_cell.specs.Views.{CellView, IsNew, HasSettled};
ghost use Rattle.spec_cell.specs.declared.coming.Arrived.{Arrived};
ghost use Rattle.spec_cell.specs.declared.coming.Offered.{Offered};
ghost use Rattle.spec_cell.specs.declared.coming.Recorded.{Recorded};
ghost use Rattle.spec_tracker.specs.declared.marks.Marks.{Marks};
ghost use Rattle.spec_tracker.specs.declared.marks.Read.{Read};
ghost use Rattle.cell_frames.specs.TrimsRead.{TrimsRead};

/// What a cell lets go of was read still once it picked a frame or could not, made an entry more or could not, its settled state moved on, or
/// more was read; and a new cell lets go of nothing.
pub fn trims_stay_read()
    ensures begins { (nexts : ℕ → ℕ) (number : ℕ) (slot : Slot) (owner incarnation : ℕ)
        (c : CellView) → IsNew number slot owner incarnation c → TrimsRead nexts c }
    ensures further { (nexts more : ℕ → ℕ) (c : CellView)
        → ((reader : ℕ) → nexts reader ≤ more reader) → TrimsRead nexts c → TrimsRead more c }
    ensures picked { (nexts : ℕ → ℕ) (flows : Flows) (count : ℕ) (begin : Partition)
        (marks : Marks) (old new : CellView) (frame : List Entry) (sending : List Sending)
        → TrimsRead nexts old → HasPicked flows count begin marks old frame sending new
        → TrimsRead nexts new }
    ensures unpicked { (nexts : ℕ → ℕ) (flows : Flows) (count : ℕ) (begin : Partition)
        (marks : Marks) (old new : CellView) → TrimsRead nexts old
        → CantPick flows count begin marks old new → TrimsRead nexts new }
    ensures turned { (nexts : ℕ → ℕ) (flows : Flows) (count : ℕ) (begin : Partition) (mode : Mode)
        (limit : ℕ) (old new : CellView) (position : ℕ) (packets : List Packet)
        → TrimsRead nexts old → MakesEntry flows count begin mode limit old new position packets
        → TrimsRead nexts new }
    ensures idle { (nexts : ℕ → ℕ) (flows : Flows) (count : ℕ) (begin : Partition)
        (old new : CellView) → TrimsRead nexts old → IsIdle flows count begin old new
        → TrimsRead nexts new }
    ensures spent { (nexts : ℕ → ℕ) (flows : Flows) (count : ℕ) (begin : Partition)
        (old new : CellView) (number : ℕ) → TrimsRead nexts old
        → IsSpent flows count begin old new number → TrimsRead nexts new }
    ensures settled { (nexts : ℕ → ℕ) (n : ℕ) (slot : Slot) (old new : CellView)
        → TrimsRead nexts old → HasSettled n slot old new → TrimsRead nexts new }
{}

/// So it is once something came to the cell: a packet, a request or an outcome, whatever it brings.
pub fn what_comes_leaves_trims_read()
    ensures arrives { (nexts : ℕ → ℕ) (old new : CellView) (ahead : Partition) (source : Identity)
        (number : ℕ) (message : Message) (arrived : Arrived) → TrimsRead nexts old
        → Arrives ahead source number message old arrived new → TrimsRead nexts new }
    ensures offers { (nexts : ℕ → ℕ) (old new : CellView) (base ahead : Partition)
        (message : Message) (offered : Offered) → TrimsRead nexts old
        → Offers base ahead message old offered new → TrimsRead nexts new }
    ensures records { (nexts : ℕ → ℕ) (old new : CellView) (ahead : Partition) (id : Id) (task : ℕ)
        (activity : Activity) (outcome : Outcome) (recorded : Recorded) → TrimsRead nexts old
        → Records ahead id task activity outcome old recorded new → TrimsRead nexts new }
{}

/// So it is once entries were given up, or packets were let go of that were sent by what was.
pub fn what_is_given_up_leaves_trims_read()
    ensures rewound { (nexts : ℕ → ℕ) (flows : Flows) (count : ℕ) (begin : Partition)
        (marks : Marks) (old new : CellView) (from : ℕ) (lost : Identity) → TrimsRead nexts old
        → IsRewound flows count begin marks old new from lost → TrimsRead nexts new }
    ensures reset { (nexts : ℕ → ℕ) (old new : CellView) (from : ℕ) → TrimsRead nexts old
        → IsReset from old new → TrimsRead nexts new }
    ensures kept { (nexts : ℕ → ℕ) (flows : Flows) (count : ℕ) (begin : Partition) (marks : Marks)
        (old new : CellView) → TrimsRead nexts old → IsKept flows count begin marks old new
        → TrimsRead nexts new }
{}

/// So it is once trims came to wait, where what they say of the partition's streams was read.
pub fn trims_that_come_are_read()
    ensures { (nexts : ℕ → ℕ) (marks : Marks) (ahead : Partition) (old new : CellView) (count : ℕ)
        → ((read : Read) → Contains marks.reads.items read → read.source ≡ ahead.number
        → read.next ≤ nexts read.reader) → TrimsRead nexts old → Trims marks ahead old count new
        → TrimsRead nexts new }
{}

/// A frame that a cell picks lets go of nothing past these ends of its partition's streams, where what the cell lets go of was read and none
/// has read past them.
pub fn picked_frames_let_go_of_what_was_read()
    ensures { (nexts ends : ℕ → ℕ) (flows : Flows) (count : ℕ) (begin : Partition) (marks : Marks)
        (old new : CellView) (frame : List Entry) (sending : List Sending) → TrimsRead nexts old
        → ((reader : ℕ) → nexts reader ≤ ends reader)
        → HasPicked flows count begin marks old frame sending new
        → LetGoBefore ends (items_in frame) }
{}
