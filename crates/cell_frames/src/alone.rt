//! Laws of what a cell does without the store: it stays joined to it. The functions do nothing.

ghost use Rattle.std.specs.Prelude.{◌≡◌, ◌<◌, ◌≤◌, ℕ, max, true, List, [], ◌++◌};
ghost use Rattle.std.specs.List.{Contains};
ghost use Rattle.cell_frames.specs.Begun.{HasBegun};
ghost use Rattle.cell_frames.specs.Joined.{StoreView, Joined, read_by};
ghost use Rattle.cell_steps.specs.declared.mode.Mode.{Mode};
ghost use Rattle.dura_model.specs.Partition.{Partition};
ghost use Rattle.dura_model.specs.World.{Activity};
ghost use Rattle.dura_value.specs.Ids.{Id};
ghost use Rattle.dura_value.specs.Items.{Identity, took, ended};
ghost use Rattle.dura_value.specs.Messages.{Message};
ghost use Rattle.dura_value.specs.declared.outcome.Outcome.{Outcome};
ghost use Rattle.hub_store.specs.Origin.{Origin};
ghost use Rattle.hub_store.specs.Trail.{Said};
ghost use Rattle.log_items.specs.declared.items.Packet.{Packet};
ghost use Rattle.many_rules.specs.Rules.{Rules, rules_at, pairs_of};
ghost use Rattle.run_rules.specs.Rules.{IsAsked};
ghost use Rattle.spec_cell.specs.Comes.{Arrives, Records, Offers};
ghost use Rattle.spec_cell.specs.Trims.{Trims};
ghost use Rattle.spec_cell.specs.Turns.{MakesEntry, IsIdle, IsSpent, CellTurns};
ghost use Rattle.spec_cell.specs.Views.{CellView, HasFacts, IsBase};
ghost use Rattle.spec_cell.specs.declared.cell.CellTurn.{CellTurn};
ghost use Rattle.spec_cell.specs.declared.coming.Arrived.{Arrived};
ghost use Rattle.spec_cell.specs.declared.coming.Offered.{Offered};
ghost use Rattle.spec_cell.specs.declared.coming.Recorded.{Recorded};
ghost use Rattle.spec_tracker.specs.declared.marks.Marks.{Marks};
ghost use Rattle.spec_tracker.specs.declared.marks.Read.{Read};
ghost use Rattle.task_laws.specs.Asked.{WasAsked, AreAsked};

/// A cell that is joined to the store is so still once it made an entry more, found nothing possible, or had no number left for an entry; so
/// a turn leaves it joined, whatever it makes.
pub fn what_turns_make_stays_joined()
    ensures turns { (rules : Rules) (s : StoreView) (partition : ℕ) (mode : Mode) (limit : ℕ)
        (old new : CellView) (position : ℕ) (packets : List Packet)
        → HasFacts rules.flows rules.count (rules.begin old.number) old
        → limit ≤ rules.most → Joined rules s partition old
        → MakesEntry rules.flows rules.count (rules.begin old.number) mode limit old new position
        packets
        → Joined rules s partition new }
    ensures idle { (rules : Rules) (s : StoreView) (partition : ℕ) (old new : CellView)
        → Joined rules s partition old
        → IsIdle rules.flows rules.count (rules.begin old.number) old new
        → Joined rules s partition new }
    ensures spent { (rules : Rules) (s : StoreView) (partition : ℕ) (old new : CellView)
        (number : ℕ) → Joined rules s partition old
        → IsSpent rules.flows rules.count (rules.begin old.number) old new number
        → Joined rules s partition new }
    ensures turned { (rules : Rules) (s : StoreView) (partition : ℕ) (mode : Mode) (limit : ℕ)
        (old new : CellView) (turned : CellTurn)
        → HasFacts rules.flows rules.count (rules.begin old.number) old
        → limit ≤ rules.most → Joined rules s partition old
        → CellTurns rules.flows rules.count (rules.begin old.number) mode limit old turned new
        → Joined rules s partition new }
{}

/// So it is once something came to it: a packet, whatever it brings; a request, where it is asked for; an outcome, where its activity was
/// asked for by what is settled; and trims, where what they say of the partition's streams was read. What is said of requests and outcomes is
/// asked only of a call that serves clients.
pub fn what_comes_stays_joined()
    ensures arrives { (rules : Rules) (s : StoreView) (partition : ℕ) (old new : CellView)
        (ahead : Partition) (source : Identity) (number : ℕ) (message : Message)
        (arrived : Arrived) → Joined rules s partition old
        → Arrives ahead source number message old arrived new → Joined rules s partition new }
    ensures offers { (rules : Rules) (s : StoreView) (partition : ℕ) (old new : CellView)
        (base ahead : Partition) (message : Message) (offered : Offered)
        → (rules.serves ≡ true
        → IsAsked (rules_at rules old.number) (pairs_of s.told) (took message))
        → Joined rules s partition old → Offers base ahead message old offered new
        → Joined rules s partition new }
    ensures records { (rules : Rules) (s : StoreView) (partition : ℕ) (old new : CellView)
        (ahead : Partition) (id : Id) (task : ℕ) (activity : Activity) (outcome : Outcome)
        (recorded : Recorded)
        → (rules.serves ≡ true → (base : Partition)
        → IsBase rules.flows rules.count (rules.begin old.number) old base
        → WasAsked rules.flows base (ended id task outcome)) → Joined rules s partition old
        → Records ahead id task activity outcome old recorded new → Joined rules s partition new }
    ensures trims { (rules : Rules) (s : StoreView) (partition : ℕ) (old new : CellView)
        (marks : Marks) (ahead : Partition) (count : ℕ)
        → ((read : Read) → Contains marks.reads.items read → read.source ≡ ahead.number
        → read.next ≤ read_by rules s partition read.reader) → Joined rules s partition old
        → Trims marks ahead old count new → Joined rules s partition new }
{}

/// So it is once a moment was handed to it, where the store has heard of it, and where a cell that serves clients holds nothing; other cells stay
/// joined to a store that hears of a later moment, unless they serve clients; and who owns a cell, and which tasks it gave out, joins it to nothing.
pub fn what_is_handed_in_stays_joined()
    ensures fires { (rules : Rules) (s : StoreView) (partition : ℕ) (old new : CellView)
        (now later : ℕ) → now ≤ later → s.latest ≤ later
        → (rules.serves ≡ true → (old.entries ≡ []) × (later ≤ max s.latest now))
        → Joined rules s partition old
        → new ≡ record old { now = max old.now now }
        → Joined rules (record s { latest = later }) partition new }
    ensures others { (rules : Rules) (s : StoreView) (partition : ℕ) (c : CellView) (later : ℕ)
        → s.latest ≤ later → (rules.serves ≡ true → later ≤ s.latest)
        → Joined rules s partition c
        → Joined rules (record s { latest = later }) partition c }
    ensures owned { (rules : Rules) (s : StoreView) (partition : ℕ) (old new : CellView) (node : ℕ)
        → Joined rules s partition old → new ≡ record old { owner = node }
        → Joined rules s partition new }
    ensures tasks { (rules : Rules) (s : StoreView) (partition : ℕ) (old new : CellView)
        → Joined rules s partition old → new ≡ record old { given = new.given }
        → Joined rules s partition new }
{}

/// A cell stays joined to a store that said more: what was asked for once so much was said is so once more was.
pub fn what_is_said_stays_joined()
    ensures { (rules : Rules) (s : StoreView) (partition : ℕ) (c : CellView) (more : List Said)
        → Joined rules s partition c
        → Joined rules (record s { told = s.told ++ more }) partition c }
{}

/// What is pending by what is settled of a cell's partition was asked for by it.
pub fn pending_tasks_were_asked()
    ensures { (o : Origin) (rules : Rules) (s : StoreView) (partition : ℕ) (c : CellView)
        (base : Partition) → HasBegun o rules → partition < rules.count
        → Joined rules s partition c
        → IsBase rules.flows rules.count (rules.begin c.number) c base
        → AreAsked rules.flows base }
{}
