//! Laws of the failure-free machine. They are said of the definitions alone: the functions do nothing.

ghost use Rattle.std.specs.Prelude.{◌≡◌, ◌↔◌, ◌<◌, ◌≤◌, ℕ, ◌+◌, List, [], ◌∷◌, ◌++◌, true, Some, None, Ok};
ghost use Rattle.std.specs.List.{All};
ghost use Rattle.dura_value.specs.Ids.{Id, home};
ghost use Rattle.dura_value.specs.Items.{Entry, Item, ran};
ghost use Rattle.dura_value.specs.Messages.{Message};
ghost use Rattle.dura_value.specs.Reading.{◌>>=◌ as bind};
ghost use Rattle.flow_syntax.specs.Syntax.{Flows};
ghost use Rattle.log_items.specs.Entries.{items_in, AreInTurn};
ghost use Rattle.dura_model.specs.Entries.{placed, next_incarnation, labels_in, AllGiven};
ghost use Rattle.dura_model.specs.Legal.{Legal, may_ask, may_go_on, TakenInTurn, finishes};
ghost use Rattle.dura_model.specs.Partition.{Partition, fresh, enter, first_in, accepted, label_in, shown, with_part};
ghost use Rattle.dura_model.specs.Placed.{AreShown, happens_at, IsGiven, IsOfStreams, IsLabelled, ShowsNothing, IsSameEntry, Belongs, AreOfInstances};
ghost use Rattle.dura_model.specs.Sends.{Sends, IsLocal};
ghost use Rattle.dura_model.specs.Steps.{Label};
ghost use Rattle.dura_model.specs.World.{World, empty};

/// In a legal run no task of an instance is ended twice.
#[tactic(auto, using(crate::proofs::Outcomes::never_twice))]
pub fn ends_once()
    ensures { (flows : Flows) (run : List Label) (w : World) → Legal flows run w
        → (id : Id) (task : ℕ) → finishes id task run ≤ 1 }
{}

/// An item of one of the partitions does to the world that they show what its label does. It is accepted only in the home of
/// whom it happens to, and a link is delivered only where a message of it came in.
#[tactic(auto, using(crate::proofs::Shown::item_labelled, crate::proofs::Shown::link_waits, crate::proofs::Kept::item_lives))]
pub fn items_are_labels()
    ensures labels { (flows : Flows) (count : ℕ) (parts : ℕ → Partition) (p : ℕ) (item : Item)
        (label : Label) (id : Id) → AreShown count parts → p < count → label_in item ≡ Some label
        → happens_at item ≡ Some id → home count id ≡ p → IsGiven (parts p) item
        → IsLabelled flows count parts p item label }
    ensures lives { (flows : Flows) (count : ℕ) (parts : ℕ → Partition) (p : ℕ) (item : Item)
        (next : Partition) (id : Id) → AreShown count parts → p < count → happens_at item ≡ Some id
        → accepted flows count (parts p) item ≡ Some next → home count id ≡ p }
    ensures waits { (flows : Flows) (count : ℕ) (p : Partition) (from to : Id) (stamp : ℕ)
        → first_in p.queue from to ≡ None → accepted flows count p (ran from to stamp) ≡ None }
{}

/// An item that is no label shows nothing.
#[tactic(auto, using(crate::proofs::Shown::item_silent))]
pub fn streams_show_nothing()
    ensures { (flows : Flows) (count : ℕ) (parts : ℕ → Partition) (p : ℕ) (item : Item)
        → AreShown count parts → p < count → label_in item ≡ None → IsOfStreams parts p item
        → ShowsNothing flows count parts p item }
{}

/// States that show a world still do after an item that is accepted in an entry, which goes on.
#[tactic(auto, using(crate::proofs::Kept::item_keeps))]
pub fn items_keep_shown()
    ensures shown { (flows : Flows) (count : ℕ) (parts : ℕ → Partition) (p : ℕ) (item : Item)
        (next : Partition) → AreShown count parts → p < count → 0 < (parts p).position
        → IsOfStreams parts p item → accepted flows count (parts p) item ≡ Some next
        → AreShown count (with_part parts p next) }
    ensures entry { (flows : Flows) (count : ℕ) (parts : ℕ → Partition) (p : ℕ) (item : Item)
        (next : Partition) → AreShown count parts → p < count → 0 < (parts p).position
        → accepted flows count (parts p) item ≡ Some next → IsSameEntry (parts p) next }
{}

/// What an item that is accepted makes of one state belongs where the state did, and what is pending in it is of instances that are
/// there. So it is of a state where nothing happened, and of one where an entry begins.
#[tactic(auto, using(crate::proofs::Kept::item_belongs, crate::proofs::Kept::fresh_belongs, crate::proofs::Belonging::enter_belongs, crate::proofs::Owned::item_owned, crate::proofs::Owned::fresh_owned))]
pub fn items_belong()
    ensures belongs { (flows : Flows) (count place : ℕ) (p next : Partition) (item : Item)
        → place < count → Belongs count place p → 0 < p.position
        → accepted flows count p item ≡ Some next → Belongs count place next }
    ensures owned { (flows : Flows) (count : ℕ) (p next : Partition) (item : Item)
        → AreOfInstances p → accepted flows count p item ≡ Some next → AreOfInstances next }
    ensures fresh { (count place : ℕ) → Belongs count place (fresh place)
        × AreOfInstances (fresh place) }
    ensures enters { (count place incarnation : ℕ) (p : Partition) → Belongs count place p
        → p.incarnation ≤ incarnation → Belongs count place (enter incarnation p) }
{}

/// The begin of an entry shows nothing.
#[tactic(auto, using(crate::proofs::Kept::enter_keeps, crate::proofs::Kept::enter_silent))]
pub fn entries_show_nothing()
    ensures kept { (count : ℕ) (parts : ℕ → Partition) (p incarnation : ℕ) → AreShown count parts
        → p < count → (parts p).incarnation ≤ incarnation
        → AreShown count (with_part parts p (enter incarnation (parts p))) }
    ensures same { (flows : Flows) (count : ℕ) (parts : ℕ → Partition) (p incarnation : ℕ)
        → shown flows count (with_part parts p (enter incarnation (parts p)))
        ≡ shown flows count parts }
{}

/// Partitions where nothing happened show the empty world.
#[tactic(auto, using(crate::proofs::Kept::fresh_shown, crate::proofs::Kept::fresh_empty))]
pub fn fresh_show_nothing()
    ensures kept { (count : ℕ) → AreShown count fresh }
    ensures same { (flows : Flows) (count : ℕ) → shown flows count fresh ≡ empty }
{}

/// Where requests were taken in turn, the one right before it tells whether a client may ask for the next.
pub fn the_one_before_tells()
    ensures { (w : World) (before : List Message) (request : Message) (behind : List Message)
        → TakenInTurn w (before ++ request ∷ behind)
        → may_go_on w request.from true true before ≡ may_ask w request.from before }
{}

/// What entries make where others come behind them is what the others make behind these.
#[tactic(auto, using(crate::proofs::Appending::placed_both, crate::proofs::Appending::labels_both, crate::proofs::Appending::next_incarnation_last))]
pub fn one_after_another()
    ensures placed { (flows : Flows) (count : ℕ) (p : Partition) (a b : List Entry)
        → placed flows count p (a ++ b)
        ≡ bind (placed flows count p a) (λ q. placed flows count q b) }
    ensures given { (flows : Flows) (count : ℕ) (p : Partition) (a b : List Entry)
        → AllGiven flows count p (a ++ b)
        ↔ (AllGiven flows count p a
        × ((q : Partition) → placed flows count p a ≡ Ok q → AllGiven flows count q b)) }
    ensures labels { (a b : List Entry) → labels_in (a ++ b) ≡ labels_in a ++ labels_in b }
    ensures incarnation { (entries : List Entry) (last : Entry)
        → next_incarnation (entries ++ last ∷ []) ≡ last.incarnation + 1 }
{}

/// Entries that a partition among so many accepts one after another send messages to others, take in what is next in the others'
/// streams, and let go of what lies in its own: what others see of it afterwards comes of their items and of what is sent. Where
/// there is one partition, nothing is sent, and none of their items takes in or lets go.
#[tactic(auto, using(crate::proofs::EntriesSend::entries_send, crate::proofs::EntriesSend::entries_alone))]
pub fn entries_send()
    ensures among { (flows : Flows) (count partition : ℕ) (p next : Partition)
        (entries : List Entry) → partition < count → p.number ≡ partition
        → AreInTurn p.position entries → placed flows count p entries ≡ Ok next
        → Sends count partition p entries next }
    ensures alone { (flows : Flows) (p next : Partition) (entries : List Entry) → p.number ≡ 0
        → placed flows 1 p entries ≡ Ok next
        → (next.outboxes ≡ p.outboxes) × All IsLocal (items_in entries) }
{}
