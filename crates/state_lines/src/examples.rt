//! Examples of tables. They are said of the definitions alone: the functions do nothing.

ghost use Rattle.std.specs.Prelude.{◌≡◌, ◌++◌, ℕ, List, [], ◌∷◌, codes};
ghost use Rattle.dura_model.specs.Entries.{shown_by};
ghost use Rattle.dura_model.specs.Partition.{fresh};
ghost use Rattle.flow_syntax.specs.Syntax.{Flows};
ghost use Rattle.state_lines.specs.Examples.{accounts, no_flows, one_entity, both_kinds, two_and_one, one_and_none, later_first};
ghost use Rattle.state_lines.specs.Table.{IsTable};

/// Where nothing happened the table is empty.
pub fn empty_tables()
    ensures empty { (flows : Flows) → IsTable flows (shown_by flows (fresh 0)) [] }
    ensures some { (flows : Flows) → IsTable flows (shown_by flows (fresh 0))
        (codes "@Account/A value 90" ++ 10 ∷ []) → ⊥ }
{}

/// A state with one entity has just its line: no other id, no other value, and no line without its line feed.
pub fn tables_with_one_entity()
    ensures line { IsTable accounts (shown_by accounts one_entity) (codes "@Account/A value 90" ++ 10 ∷ []) }
    ensures other_id { IsTable accounts (shown_by accounts one_entity) (codes "@Account/B value 90" ++ 10 ∷ []) → ⊥ }
    ensures other_value { IsTable accounts (shown_by accounts one_entity) (codes "@Account/A value 91" ++ 10 ∷ []) → ⊥ }
    ensures no_line_feed { IsTable accounts (shown_by accounts one_entity) (codes "@Account/A value 90") → ⊥ }
    ensures nothing { IsTable accounts (shown_by accounts one_entity) [] → ⊥ }
    ensures no_class { IsTable no_flows (shown_by no_flows one_entity) (codes "@Account/A none" ++ 10 ∷ []) }
{}

/// Entities come before instances, and none of them is left out.
pub fn tables_with_both()
    ensures both { IsTable accounts (shown_by accounts both_kinds)
        (codes "@Account/A value 90" ++ 10 ∷ codes "Sum/x running" ++ 10 ∷ []) }
    ensures other_order { IsTable accounts (shown_by accounts both_kinds)
        (codes "Sum/x running" ++ 10 ∷ codes "@Account/A value 90" ++ 10 ∷ []) → ⊥ }
    ensures left_out { IsTable accounts (shown_by accounts both_kinds) (codes "@Account/A value 90" ++ 10 ∷ []) → ⊥ }
{}

/// The lines of two partitions are in the order of the ids, not of the partitions.
pub fn tables_of_two()
    ensures line_by_line { IsTable accounts two_and_one
        (codes "@Account/A value 90" ++ 10 ∷ codes "@Account/B value 90"
        ++ 10 ∷ codes "@Account/C value 90" ++ 10 ∷ []) }
    ensures one_after_another { IsTable accounts two_and_one
        (codes "@Account/A value 90" ++ 10 ∷ codes "@Account/C value 90"
        ++ 10 ∷ codes "@Account/B value 90" ++ 10 ∷ []) → ⊥ }
    ensures left_out { IsTable accounts two_and_one
        (codes "@Account/A value 90" ++ 10 ∷ codes "@Account/C value 90" ++ 10 ∷ []) → ⊥ }
{}

/// A partition where nothing happened adds no line.
pub fn tables_with_none()
    ensures line { IsTable accounts one_and_none (codes "@Account/A value 90" ++ 10 ∷ []) }
    ensures nothing { IsTable accounts one_and_none [] → ⊥ }
{}

/// The first line may be of the second partition, and an instance comes behind the entities of both.
pub fn tables_of_later()
    ensures second_first { IsTable accounts later_first
        (codes "@Account/B value 90" ++ 10 ∷ codes "@Account/C value 90"
        ++ 10 ∷ codes "Sum/x running" ++ 10 ∷ []) }
    ensures first_first { IsTable accounts later_first
        (codes "@Account/C value 90" ++ 10 ∷ codes "@Account/B value 90"
        ++ 10 ∷ codes "Sum/x running" ++ 10 ∷ []) → ⊥ }
    ensures by_partition { IsTable accounts later_first
        (codes "@Account/B value 90" ++ 10 ∷ codes "Sum/x running"
        ++ 10 ∷ codes "@Account/C value 90" ++ 10 ∷ []) → ⊥ }
{}
