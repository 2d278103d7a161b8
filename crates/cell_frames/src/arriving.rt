//! Laws of what comes to a cell, and of what it gives up. The functions do nothing.

ghost use Rattle.std.specs.Prelude.{◌≡◌, ℕ, List, true};
ghost use Rattle.cell_frames.specs.Ours.{AreOurs, WaitOurs};
ghost use Rattle.dura_model.specs.Partition.{Partition};
ghost use Rattle.dura_model.specs.World.{Activity};
ghost use Rattle.dura_value.specs.Ids.{Id};
ghost use Rattle.dura_value.specs.Items.{Identity, took, ended};
ghost use Rattle.dura_value.specs.Messages.{Message};
ghost use Rattle.dura_value.specs.declared.outcome.Outcome.{Outcome};
ghost use Rattle.flow_syntax.specs.Syntax.{Flows};
ghost use Rattle.hub_store.specs.Trail.{Said};
ghost use Rattle.many_rules.specs.Rules.{Rules, rules_at, pairs_of};
ghost use Rattle.run_rules.specs.Rules.{IsAsked};
ghost use Rattle.spec_cell.specs.Comes.{Arrives, Records, Offers};
ghost use Rattle.spec_cell.specs.Moves.{IsRewound, IsReset, IsKept};
ghost use Rattle.spec_cell.specs.Trims.{Trims};
ghost use Rattle.spec_cell.specs.Views.{CellView, IsBase};
ghost use Rattle.spec_cell.specs.declared.coming.Arrived.{Arrived};
ghost use Rattle.spec_cell.specs.declared.coming.Offered.{Offered};
ghost use Rattle.spec_cell.specs.declared.coming.Recorded.{Recorded};
ghost use Rattle.spec_tracker.specs.declared.marks.Marks.{Marks};
ghost use Rattle.task_laws.specs.Asked.{WasAsked};

/// What a cell holds and what waits there is the call's still once something came to it: a packet, whatever it brings; a request, where it
/// is asked for; an outcome, where its activity was asked for by what is settled. The last two are asked only of a call that serves
/// clients.
pub fn what_comes_is_ours()
    ensures arrives { (rules : Rules) (latest : ℕ) (told : List Said) (old new : CellView)
        (ahead : Partition) (source : Identity) (number : ℕ) (message : Message)
        (arrived : Arrived) → AreOurs rules latest told old → WaitOurs rules told old
        → Arrives ahead source number message old arrived new
        → AreOurs rules latest told new × WaitOurs rules told new }
    ensures offers { (rules : Rules) (latest : ℕ) (told : List Said) (old new : CellView)
        (base ahead : Partition) (message : Message) (offered : Offered)
        → AreOurs rules latest told old → WaitOurs rules told old
        → (rules.serves ≡ true
        → IsAsked (rules_at rules old.number) (pairs_of told) (took message))
        → Offers base ahead message old offered new
        → AreOurs rules latest told new × WaitOurs rules told new }
    ensures records { (rules : Rules) (latest : ℕ) (told : List Said) (old new : CellView)
        (ahead : Partition) (id : Id) (task : ℕ) (activity : Activity) (outcome : Outcome)
        (recorded : Recorded) → AreOurs rules latest told old → WaitOurs rules told old
        → ((base : Partition) → IsBase rules.flows rules.count (rules.begin old.number) old base
        → rules.serves ≡ true → WasAsked rules.flows base (ended id task outcome))
        → Records ahead id task activity outcome old recorded new
        → AreOurs rules latest told new × WaitOurs rules told new }
{}

/// So it is once entries were given up, packets were let go of that were sent by what was, or trims came to wait.
pub fn what_is_given_up_leaves_ours()
    ensures rewound { (rules : Rules) (latest : ℕ) (told : List Said) (flows : Flows) (count : ℕ)
        (begin : Partition) (marks : Marks) (old new : CellView) (from : ℕ) (lost : Identity)
        → AreOurs rules latest told old → WaitOurs rules told old
        → IsRewound flows count begin marks old new from lost
        → AreOurs rules latest told new × WaitOurs rules told new }
    ensures reset { (rules : Rules) (latest : ℕ) (told : List Said) (old new : CellView) (from : ℕ)
        → AreOurs rules latest told old → WaitOurs rules told old → IsReset from old new
        → AreOurs rules latest told new × WaitOurs rules told new }
    ensures kept { (rules : Rules) (latest : ℕ) (told : List Said) (flows : Flows) (count : ℕ)
        (begin : Partition) (marks : Marks) (old new : CellView)
        → AreOurs rules latest told old → WaitOurs rules told old
        → IsKept flows count begin marks old new
        → AreOurs rules latest told new × WaitOurs rules told new }
    ensures trims { (rules : Rules) (latest : ℕ) (told : List Said) (marks : Marks)
        (ahead : Partition) (old new : CellView) (count : ℕ)
        → AreOurs rules latest told old → WaitOurs rules told old
        → Trims marks ahead old count new
        → AreOurs rules latest told new × WaitOurs rules told new }
{}
