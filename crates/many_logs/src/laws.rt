//! Laws. The functions do nothing.

ghost use Rattle.dura_value.specs.Items.{Posted, Identity, Entry};
ghost use Rattle.dura_model.specs.Entries as alone;
ghost use Rattle.dura_model.specs.Partition.{with_part, shown, Partition, fresh};
ghost use Rattle.many_logs.specs.Placing.{AllReady, commits_at, stands_at, message_at, GoesThrough, frames_in_order, Commit, commit_accepted, states_after, of_partition, placed_from, placed, AllBelow, HasPlaced, IsStuck};
ghost use Rattle.std.specs.Prelude.{◌≡◌, ◌<◌, ◌≤◌, ◌↔◌, Ok, ℕ, List, [], ◌++◌, Some, None, true};
ghost use Rattle.dura_model.specs.Steps.{Label};
ghost use Rattle.many_logs.specs.Stands.{FilesStand, AreKept};
ghost use Rattle.dura_model.specs.Legal.{Legal, after_from};
ghost use Rattle.dura_model.specs.World.{World};
ghost use Rattle.dura_model.specs.Placed.{AreShown, Belongs};
ghost use Rattle.part_items.specs.Numbered.{IsNumbered};
ghost use Rattle.many_logs.specs.Unplaced.{unplaced};
ghost use Rattle.many_logs.specs.Gates.{frame_passes, FrameLetsGo};
ghost use Rattle.many_logs.specs.Names.{identities_in, AreOf, AreNamed, TrimsNamed};
ghost use Rattle.many_logs.specs.Labels.{labels_of_commits, AllGiven, AreNumbered, state_next};
ghost use Rattle.dura_value.specs.Messages.{Message};
ghost use Rattle.flow_syntax.specs.Syntax.{Flows};

/// In whatever order entries were accepted, none of them is left.
#[tactic(auto, using(crate::proofs::Orders::any_order))]
pub fn any_order()
    ensures { (flows : Flows) (count : ℕ) (run : List Commit) (logs : ℕ → List Entry)
        (final : ℕ → Partition) → AllBelow count run
        → states_after flows count fresh run ≡ Some final
        → ((partition : ℕ) → partition < count → logs partition ≡ of_partition partition run)
        → HasPlaced count (placed flows count logs) final (λ partition. []) }
{}

/// In whatever order entries were accepted until no next one is, the lowest first leaves the same.
pub fn any_order_so_far()
    ensures { (flows : Flows) (count : ℕ) (run : List Commit) (logs rest : ℕ → List Entry)
        (final : ℕ → Partition) → AllBelow count run
        → states_after flows count fresh run ≡ Some final
        → ((partition : ℕ) → partition < count
        → logs partition ≡ of_partition partition run ++ rest partition)
        → IsStuck flows count final rest → HasPlaced count (placed flows count logs) final rest }
{}

/// Entries that are accepted in an order lead the world that all partitions show where their labels do.
pub fn commits_are_labels()
    ensures { (flows : Flows) (count : ℕ) (parts later : ℕ → Partition) (run : List Commit)
        → AreShown count parts → AllBelow count run → AreNumbered parts run
        → AllGiven flows count parts run → states_after flows count parts run ≡ Some later
        → (after_from flows (shown flows count parts) (labels_of_commits run)
        ≡ Some (shown flows count later)) × AreShown count later }
{}

/// An entry that is accepted stays so, and comes to the same state, whatever another partition commits before it.
pub fn accepted_entries_stay()
    ensures { (flows : Flows) (count : ℕ) (parts : ℕ → Partition) (partition other : ℕ)
        (entry more : Entry) (next also : Partition) → (partition ≡ other → ⊥)
        → commit_accepted flows count parts partition entry ≡ Some next
        → commit_accepted flows count parts other more ≡ Some also
        → commit_accepted flows count (with_part parts other also) partition entry ≡ Some next }
{}

/// Frames of different partitions, each of which is accepted in the same states, are accepted one after another.
pub fn frames_go_together()
    ensures { (flows : Flows) (count : ℕ) (states : ℕ → Partition) (going : ℕ → List Entry)
        → ((partition : ℕ) → partition < count
        → GoesThrough flows count states partition (going partition))
        → (after : ℕ → Partition)
        × (states_after flows count states (frames_in_order count going) ≡ Some after) }
{}

/// Files that keep entries which were accepted in some order stand for the labels of that order.
pub fn kept_entries_stand()
    ensures { (flows : Flows) (count digest : ℕ) (files : ℕ → List ℕ) (commits : List Commit)
        → AreKept flows count digest files commits
        → FilesStand flows count digest files (labels_of_commits commits) }
{}

/// What is placed was accepted in some order.
pub fn placed_in_order()
    ensures { (flows : Flows) (count : ℕ) (logs : ℕ → List Entry)
        → (run : List Commit) ×
        (states_after flows count fresh run ≡ Some (placed flows count logs).states)
        × AllBelow count run × ((partition : ℕ)
        → logs partition ≡ of_partition partition run ++ (placed flows count logs).left partition) }
{}

/// Where entries are left there is a reason, and where none are there is none.
pub fn left_has_reason()
    ensures left { (flows : Flows) (count : ℕ) (logs : ℕ → List Entry)
        → unplaced flows count (placed flows count logs) ≡ None → (partition : ℕ)
        → partition < count → (placed flows count logs).left partition ≡ [] }
    ensures none { (flows : Flows) (count : ℕ) (logs : ℕ → List Entry)
        → ((partition : ℕ) → partition < count → (placed flows count logs).left partition ≡ [])
        → unplaced flows count (placed flows count logs) ≡ None }
{}

/// A partition's state is made of its own entries alone; and entries that make a state by themselves are accepted among the others, where
/// these are as far as each needs.
pub fn own_entries()
    ensures own { (flows : Flows) (count : ℕ) (run : List Commit) (parts later : ℕ → Partition)
        (partition : ℕ) → states_after flows count parts run ≡ Some later
        → alone.placed flows count (parts partition) (of_partition partition run)
        ≡ Ok (later partition) }
    ensures ready { (flows : Flows) (count : ℕ) (entries : List Entry) (parts : ℕ → Partition)
        (partition : ℕ) (q : Partition) → AllReady parts partition entries
        → alone.placed flows count (parts partition) entries ≡ Ok q
        → states_after flows count parts (commits_at partition entries)
        ≡ Some (with_part parts partition q) }
    ensures given { (flows : Flows) (count : ℕ) (entries : List Entry) (parts : ℕ → Partition)
        (partition : ℕ) → alone.AllGiven flows count (parts partition) entries
        → AllGiven flows count parts (commits_at partition entries) }
{}

/// What is known of outcomes in an order is known of each partition by itself.
pub fn given_by_each()
    ensures all { (flows : Flows) (count : ℕ) (run : List Commit) (parts : ℕ → Partition)
        → ((partition : ℕ) → alone.AllGiven flows count (parts partition)
        (of_partition partition run)) → AllGiven flows count parts run }
    ensures each { (flows : Flows) (count : ℕ) (run : List Commit) (parts later : ℕ → Partition)
        → states_after flows count parts run ≡ Some later → AllGiven flows count parts run
        → (partition : ℕ) → alone.AllGiven flows count (parts partition)
        (of_partition partition run) }
{}

/// From states that the first of each partition's entries made by themselves, as far as each was kept, none of the others is left, and they come
/// to the same states.
pub fn checkpoints_go_on()
    ensures { (flows : Flows) (count : ℕ) (run : List Commit) (final ahead : ℕ → Partition)
        (front back : ℕ → List Entry) → AllBelow count run
        → states_after flows count fresh run ≡ Some final
        → ((partition : ℕ) → of_partition partition run ≡ front partition ++ back partition)
        → ((partition : ℕ) → alone.placed flows count (fresh partition) (front partition)
        ≡ Ok (ahead partition))
        → HasPlaced count (placed_from flows count ahead back) final (λ partition. []) }
{}

/// What entries before a position sent and took in, those from there on leave as it is: a message that stands in a stream now stood
/// there once its entry was placed, and a stream whose last message was taken in by such an entry was as far then.
pub fn later_entries_leave()
    ensures sent { (flows : Flows) (count : ℕ) (entries : List Entry) (p next : Partition)
        → alone.placed flows count p entries ≡ Ok next
        → (target number : ℕ) (source : Identity) (message : Message) → source.position < p.position
        → stands_at (next.outboxes target) source number message ≡ true
        → stands_at (p.outboxes target) source number message ≡ true }
    ensures read { (flows : Flows) (count : ℕ) (entries : List Entry) (p next : Partition)
        → alone.placed flows count p entries ≡ Ok next → (source : ℕ)
        → (next.inboxes source).reader.position < p.position
        → next.inboxes source ≡ p.inboxes source }
{}

/// A frame that passes the gate is ready where all is settled, whatever is under way of each partition; and it names only entries that are known,
/// where what it lets go does.
pub fn what_passes_is_ready()
    ensures ready { (flows : Flows) (count : ℕ) (settled ahead : ℕ → Partition)
        (under_way : ℕ → List Entry)
        → ((partition : ℕ) → alone.placed flows count (settled partition) (under_way partition)
        ≡ Ok (ahead partition)) → (partition : ℕ) (going : List Entry)
        → frame_passes ahead (λ p. (settled p).position)
        (λ p source. ((settled p).inboxes source).next) partition going ≡ true
        → AllReady settled partition going }
    ensures named { (flows : Flows) (count : ℕ) (settled ahead : ℕ → Partition)
        (under_way : ℕ → List Entry)
        → ((partition : ℕ) → alone.placed flows count (settled partition) (under_way partition)
        ≡ Ok (ahead partition)) → (known : List Identity) → AreOf known settled
        → (partition : ℕ) (going : List Entry) → TrimsNamed known going
        → frame_passes ahead (λ p. (settled p).position)
        (λ p source. ((settled p).inboxes source).next) partition going ≡ true
        → AreNamed known going }
{}

/// Each message in the streams was sent by an entry of the order, and each stream that was taken in, by one.
pub fn streams_are_of_entries()
    ensures { (flows : Flows) (count : ℕ) (run : List Commit) (later : ℕ → Partition)
        → AreNumbered fresh run → states_after flows count fresh run ≡ Some later
        → AreOf (identities_in run) later }
{}

/// What a partition has yet to take in of a stream stays in it, whatever the stream's partition does, where that lets go no more than was read.
#[tactic(auto, using(crate::proofs::Acked::stays_there))]
pub fn unread_stays()
    ensures { (flows : Flows) (count partition target most : ℕ) → partition < count
        → (entries : List Entry) (p next : Partition) → Belongs count partition p
        → IsNumbered (state_next p) entries → FrameLetsGo target most entries
        → (p.outboxes target).first ≤ most → alone.placed flows count p entries ≡ Ok next
        → (posted : Posted) → message_at (p.outboxes target) most ≡ Some posted
        → message_at (next.outboxes target) most ≡ Some posted }
{}

/// Files that stand for a run that goes on from one world stand for any other run to there that goes on so.
#[tactic(auto, using(crate::proofs::Runs::goes_on_alike))]
pub fn runs_go_on_alike()
    ensures { (flows : Flows) (count digest : ℕ) (files : ℕ → List ℕ) (one other more : List Label)
        (w : World) → Legal flows one w → Legal flows other w
        → FilesStand flows count digest files (one ++ more)
        → FilesStand flows count digest files (other ++ more) }
{}
