//! Laws. The functions do nothing.

ghost use Rattle.std.specs.Prelude.{◌≡◌, ◌<◌, ◌≤◌, ℕ, List, Some, Ok, IsSome};
ghost use Rattle.std.specs.List.{All};
ghost use Rattle.dura_model.specs.Entries.{placed};
ghost use Rattle.dura_model.specs.Partition.{Partition, accepted, fresh};
ghost use Rattle.dura_value.specs.Ids.{Id};
ghost use Rattle.dura_value.specs.Items.{Item, Entry};
ghost use Rattle.flow_syntax.specs.Syntax.{Flows};
ghost use Rattle.run_rules.specs.Rules.{EndPending};
ghost use Rattle.task_laws.specs.Asked.{tasks_at, WasAsked, AreAsked};

/// What was asked for stays so: behind an item or entries that are accepted no instance has fewer tasks.
pub fn asked_tasks_stay_asked()
    ensures item { (flows : Flows) (count : ℕ) (p q : Partition) (item : Item) (id : Id)
        → accepted flows count p item ≡ Some q → tasks_at flows p id ≤ tasks_at flows q id }
    ensures entries { (flows : Flows) (count : ℕ) (p q : Partition) (entries : List Entry) (id : Id)
        → placed flows count p entries ≡ Ok q → tasks_at flows p id ≤ tasks_at flows q id }
{}

/// An activity is pending once: where its task was there already, and it is pending afterwards, it was pending before.
pub fn asked_tasks_are_never_pending_again()
    ensures item { (flows : Flows) (count : ℕ) (p q : Partition) (item : Item) (id : Id) (task : ℕ)
        → accepted flows count p item ≡ Some q → task < tasks_at flows p id
        → IsSome (q.activities id task) → IsSome (p.activities id task) }
    ensures entries { (flows : Flows) (count : ℕ) (p q : Partition) (entries : List Entry) (id : Id)
        (task : ℕ) → placed flows count p entries ≡ Ok q → task < tasks_at flows p id
        → IsSome (q.activities id task) → IsSome (p.activities id task) }
{}

/// What is pending was asked for: so it is where nothing happened, and it stays so.
pub fn pending_activities_were_asked()
    ensures begins { (flows : Flows) (number : ℕ) → AreAsked flows (fresh number) }
    ensures item { (flows : Flows) (count : ℕ) (p q : Partition) (item : Item) → AreAsked flows p
        → accepted flows count p item ≡ Some q → AreAsked flows q }
    ensures entries { (flows : Flows) (count : ℕ) (p q : Partition) (entries : List Entry)
        → AreAsked flows p → placed flows count p entries ≡ Ok q → AreAsked flows q }
{}

/// Outcomes of activities that were asked for are of such as are pending, where the entries that have them are accepted.
pub fn asked_outcomes_are_of_pending_activities()
    ensures { (flows : Flows) (count : ℕ) (p q : Partition) (entries : List Entry)
        → placed flows count p entries ≡ Ok q
        → All (λ entry. All (WasAsked flows p) entry.items) entries → EndPending p entries }
{}
