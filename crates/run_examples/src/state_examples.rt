//! Definitions from both sides.

ghost use Rattle.std.specs.Prelude.{◌≡◌, List, [], ◌∷◌, Some, None};
ghost use Rattle.dura_value.specs.declared.data.Value.TheVariants as values;
ghost use Rattle.dura_value.specs.Ids.{id_eq};
ghost use Rattle.dura_value.specs.Items.{Item, ran, took};
ghost use Rattle.dura_value.specs.Messages.{is_value, is_running};
ghost use Rattle.shared_maps.specs.IdOrder.{IsNextBehind, NoneBehind};
ghost use Rattle.dura_model.specs.Partition.{Partition};
ghost use Rattle.dura_model.specs.Placed.{Belongs, AreOfInstances};
ghost use Rattle.part_steps.specs.Enabled.{stamp_at, IsEnabled, NoneEnabled, Makes};
ghost use Rattle.part_steps.specs.Listing.{entity_standing, instance_standing};
ghost use Rattle.part_steps.specs.Outputs.{Outputs};
ghost use Rattle.part_steps.specs.Quiet.{IsQuiet};
ghost use Rattle.run_examples.specs.States.{asker, sum, account, question, begun, asked, held, orphaned, ticking, ahead, waiting, come_to, no_flows};

/// A state belongs at its number. It doesn't elsewhere, nor with a message for who lives elsewhere, nor where something in it is of a later
/// stamp than its own.
#[tactic(auto, using(crate::proofs::Places::belongs_here, crate::proofs::Places::belongs_elsewhere, crate::proofs::Places::of_others, crate::proofs::Places::too_late))]
pub fn belongs()
    ensures here { Belongs 1 0 begun }
    ensures elsewhere { Belongs 2 1 begun → ⊥ }
    ensures of_others { Belongs 2 0 asked → ⊥ }
    ensures later { Belongs 1 0 ahead → ⊥ }
{}

/// What is pending is of instances that are there, unless an activity or a timer is of one that isn't.
#[tactic(auto, using(crate::proofs::Places::owned, crate::proofs::Places::orphan, crate::proofs::Places::ticks))]
pub fn are_of_instances()
    ensures nothing { AreOfInstances begun }
    ensures orphaned { AreOfInstances orphaned → ⊥ }
    ensures ticking { AreOfInstances ticking → ⊥ }
{}

/// What is done now is at the greater of now and the stamp that the state has come to.
pub fn stamps()
    ensures behind { stamp_at (come_to 5) 3 ≡ 5 }
    ensures ahead { stamp_at (come_to 5) 8 ≡ 8 }
{}

/// A message can be delivered at its stamp, where it is there and its receiver takes it. Nothing else is enabled.
#[tactic(auto, using(crate::proofs::Moves::delivers, crate::proofs::Moves::at_another, crate::proofs::Moves::not_there, crate::proofs::Moves::not_taken, crate::proofs::Moves::no_request))]
pub fn enabled()
    ensures delivers { IsEnabled no_flows 1 asked 0 (ran asker sum 0) }
    ensures at_another { IsEnabled no_flows 1 asked 1 (ran asker sum 0) → ⊥ }
    ensures not_there { IsEnabled no_flows 1 begun 0 (ran asker sum 0) → ⊥ }
    ensures not_taken { IsEnabled no_flows 1 held 0 (ran asker account 0) → ⊥ }
    ensures no_request { IsEnabled no_flows 1 begun 0 (took (question sum)) → ⊥ }
{}

/// Where nothing happened nothing is enabled, and where a message waits something is.
#[tactic(auto, using(crate::proofs::Moves::none_at_first, crate::proofs::Moves::some_then))]
pub fn none_enabled()
    ensures none { NoneEnabled no_flows 1 begun 0 }
    ensures some { NoneEnabled no_flows 1 asked 0 → ⊥ }
{}

/// No items make nothing, a delivery that is enabled makes what follows it, and where nothing is enabled nothing else is made.
#[tactic(auto, using(crate::proofs::Moves::no_items, crate::proofs::Moves::one_item, crate::proofs::Moves::only_none))]
pub fn makes()
    ensures none { Makes no_flows 1 0 begun [] [] begun }
    ensures one { (made : List Outputs) × (q : Partition)
        × Makes no_flows 1 0 asked (ran asker sum 0 ∷ []) made q }
    ensures only_none { (items : List Item) (made : List Outputs) (q : Partition)
        → Makes no_flows 1 0 begun items made q → items ≡ [] }
{}

/// A partition is quiet where nothing is on its way or pending, and where an entity that another holds is asked.
#[tactic(auto, using(crate::proofs::Stillness::quiet_at_first, crate::proofs::Stillness::quiet_held, crate::proofs::Stillness::stirs, crate::proofs::Stillness::has_activity, crate::proofs::Stillness::has_timer))]
pub fn quiet()
    ensures nothing { IsQuiet begun }
    ensures held { IsQuiet held }
    ensures stirs { IsQuiet asked → ⊥ }
    ensures orphaned { IsQuiet orphaned → ⊥ }
    ensures ticking { IsQuiet ticking → ⊥ }
{}

/// A listing has the value of an entity whoever holds it, and how an instance stands that is there.
pub fn listed()
    ensures entity { entity_standing held account ≡ Some (is_value values.Null) }
    ensures no_entity { entity_standing begun account ≡ None }
    ensures instance { instance_standing no_flows waiting sum ≡ Some is_running }
    ensures no_instance { instance_standing no_flows begun sum ≡ None }
{}

/// The next id is behind the last one, and is not itself.
#[tactic(auto, using(crate::proofs::Orders::first_of_all, crate::proofs::Orders::one_next, crate::proofs::Orders::not_itself, crate::proofs::Orders::none_behind, crate::proofs::Orders::one_behind))]
pub fn next_behind()
    ensures first { IsNextBehind (id_eq account) None account }
    ensures behind { IsNextBehind (id_eq sum) (Some account) sum }
    ensures itself { IsNextBehind (id_eq account) (Some account) account → ⊥ }
    ensures none { NoneBehind (id_eq account) (Some account) }
    ensures one { NoneBehind (id_eq sum) (Some account) → ⊥ }
{}
