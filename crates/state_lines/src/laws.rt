//! Laws of tables. They are said of the definitions alone: the functions do nothing.

ghost use Rattle.std.specs.Prelude.{◌≡◌, ◌++◌, ◌↔◌, ◌<◌, ℕ, List, [], ◌∷◌, Bool, length, is_some, true};
ghost use Rattle.std.specs.List.{AllPairs, Contains};
ghost use Rattle.dura_model.specs.Entries.{shown_by};
ghost use Rattle.dura_model.specs.Partition.{shown};
ghost use Rattle.dura_model.specs.World.{World};
ghost use Rattle.dura_value.specs.Ids.{Id};
ghost use Rattle.flow_syntax.specs.Syntax.{Flows};
ghost use Rattle.shared_maps.specs.IdOrder.{is_before};
ghost use Rattle.part_steps.specs.States.{AreStatesOfAll, IsSound, count_of, parts_in, state_of};
ghost use Rattle.part_steps.specs.declared.state.PartState.{PartState as Given};
ghost use Rattle.state_lines.specs.Fronts.{AreFirstLines};
ghost use Rattle.state_lines.specs.Table.{AreAll, IsTable, has_entity, has_instance};

/// The world that the states of all partitions show has a table, and so has the one that a state alone shows; and no world has
/// two.
pub fn states_have_one_table()
    ensures there { (flows : Flows) (states : List Given) → AreStatesOfAll states
        → (table : List ℕ)
        × IsTable flows (shown flows (length states) (parts_in states)) table }
    ensures of_one { (flows : Flows) (state : Given)
        → (table : List ℕ) × IsTable flows (shown_by flows (state_of state)) table }
    ensures one { (flows : Flows) (world : World) (a b : List ℕ) → IsTable flows world a
        → IsTable flows world b → a ≡ b }
{}

/// The ids of a table are strictly rising, and just those that are there.
#[tactic(auto, using(crate::proofs::Whole::are_rising, crate::proofs::Whole::are_there, crate::proofs::Whole::have_all))]
pub fn tables_are_whole()
    ensures rising { (there : Id → Bool) (ids : List Id) → AreAll there ids
        → AllPairs (λ a b. is_before a b ≡ true) ids }
    ensures there { (there : Id → Bool) (ids : List Id) → AreAll there ids → (id : Id)
        → Contains ids id → there id ≡ true }
    ensures all { (there : Id → Bool) (ids : List Id) → AreAll there ids → (id : Id)
        → there id ≡ true → Contains ids id }
{}

/// What is there in the world that the states of all partitions show is what some state keeps.
pub fn worlds_are_kept()
    ensures entities { (flows : Flows) (states : List Given) → AreStatesOfAll states → (id : Id)
        → has_entity (shown flows (length states) (parts_in states)) id ≡ true
        ↔ ((place : ℕ) × (place < length states)
        × (is_some ((parts_in states place).entities id) ≡ true)) }
    ensures instances { (flows : Flows) (states : List Given) → AreStatesOfAll states → (id : Id)
        → has_instance (shown flows (length states) (parts_in states)) id ≡ true
        ↔ ((place : ℕ) × (place < length states)
        × (is_some ((parts_in states place).instances id) ≡ true)) }
{}

/// One state is the states of all partitions where there is one, and shows the world that it shows by itself.
pub fn one_state_is_all()
    ensures all { (state : Given) → IsSound state → count_of state ≡ 1
        → AreStatesOfAll (state ∷ []) }
    ensures shows { (flows : Flows) (state : Given) → shown flows 1 (parts_in (state ∷ []))
        ≡ shown_by flows (state_of state) }
{}

/// What a call that failed has said of a table is its front.
#[tactic(auto, using(crate::proofs::Tables::front_of_table))]
pub fn fronts_begin_tables()
    ensures { (flows : Flows) (world : World) (lines part table : List ℕ)
        → AreFirstLines flows world lines part → IsTable flows world table
        → (rest : List ℕ) × (table ≡ lines ++ part ++ rest) }
{}
