//! Worked rows: what becomes of plan files, as theorems by computation. Each is a function that does nothing, whose contract has the rows.

ghost use Rattle.std.specs.Prelude.{◌≡◌, [], ◌∷◌, codes, Err};
ghost use Rattle.move_plan.specs.declared.error.Place.TheVariants as places;
ghost use Rattle.move_plan.specs.Plans.{plan_in};
ghost use Rattle.move_plan.specs.Rows.{going, stopping, plan_with};

/// Files that are no object of lists, and which of doubled members counts.
#[tactic(auto, using(crate::proofs::Worked::whole_files_empty, crate::proofs::Worked::whole_files_list, crate::proofs::Worked::whole_files_cut, crate::proofs::Worked::whole_files_no_utf8, crate::proofs::Worked::whole_files_no_list, crate::proofs::Worked::whole_files_null, crate::proofs::Worked::whole_files_further, crate::proofs::Worked::whole_files_shape_first, crate::proofs::Worked::whole_files_nothing, crate::proofs::Worked::whole_files_blanks, crate::proofs::Worked::whole_files_last_counts))]
pub fn whole_files()
    ensures of_empty { plan_in 4 2 (codes "") ≡ Err places.Whole }
    ensures of_list { plan_in 4 2 (codes "[]") ≡ Err places.Whole }
    ensures of_cut { plan_in 4 2 (codes "{\"moves\":[") ≡ Err places.Whole }
    ensures of_no_utf8 { plan_in 4 2 (34 ∷ 255 ∷ 34 ∷ []) ≡ Err places.Whole }
    ensures of_no_list { plan_in 4 2 (codes "{\"moves\":{}}") ≡ Err places.Whole }
    ensures of_null { plan_in 4 2 (codes "{\"stops\":null}") ≡ Err places.Whole }
    ensures of_further { plan_in 4 2 (codes "{\"moves\":[],\"turns\":[]}") ≡ Err places.Whole }
    ensures of_shape_first { plan_in 4 2 (codes "{\"moves\":[0],\"stops\":0}") ≡ Err places.Whole }
    ensures of_nothing { plan_in 4 2 (codes "{}") ≡ plan_with [] [] }
    ensures of_blanks { plan_in 4 2 (codes " { \"stops\" : [ ] } ") ≡ plan_with [] [] }
    ensures of_last_counts { plan_in 4 2 (codes "{\"moves\":0,\"moves\":[]}") ≡ plan_with [] [] }
{}

/// Lists of moves.
#[tactic(auto, using(crate::proofs::Worked::moves_partition_past, crate::proofs::Worked::moves_last_partition, crate::proofs::Worked::moves_node_past, crate::proofs::Worked::moves_no_turn, crate::proofs::Worked::moves_greatest_turn, crate::proofs::Worked::moves_too_great, crate::proofs::Worked::moves_below_zero, crate::proofs::Worked::moves_minus_zero, crate::proofs::Worked::moves_point, crate::proofs::Worked::moves_exponent, crate::proofs::Worked::moves_text, crate::proofs::Worked::moves_no_node, crate::proofs::Worked::moves_further, crate::proofs::Worked::moves_no_object, crate::proofs::Worked::moves_last_counts, crate::proofs::Worked::moves_twice))]
pub fn moves()
    ensures of_partition_past { plan_in 4 1 (codes
        "{\"moves\":[{\"turn\":1,\"partition\":4,\"node\":0}]}") ≡ Err (places.Move 0) }
    ensures of_last_partition { plan_in 4 1 (codes
        "{\"moves\":[{\"turn\":1,\"partition\":3,\"node\":0}]}") ≡ plan_with (going 1 3 0 ∷ []) [] }
    ensures of_node_past { plan_in 4 2 (codes
        "{\"moves\":[{\"turn\":1,\"partition\":0,\"node\":1},{\"turn\":1,\"partition\":0,\"node\":2}]}")
        ≡ Err (places.Move 1) }
    ensures of_no_turn { plan_in 4 2 (codes
        "{\"moves\":[{\"turn\":0,\"partition\":0,\"node\":0}]}") ≡ Err (places.Move 0) }
    ensures of_greatest_turn { plan_in 4 2 (codes
        "{\"moves\":[{\"turn\":18446744073709551615,\"partition\":0,\"node\":0}]}")
        ≡ plan_with (going 18446744073709551615 0 0 ∷ []) [] }
    ensures of_too_great { plan_in 4 2 (codes
        "{\"moves\":[{\"turn\":18446744073709551616,\"partition\":0,\"node\":0}]}")
        ≡ Err (places.Move 0) }
    ensures of_below_zero { plan_in 4 2 (codes
        "{\"moves\":[{\"turn\":-1,\"partition\":0,\"node\":0}]}") ≡ Err (places.Move 0) }
    ensures of_minus_zero { plan_in 4 2 (codes
        "{\"moves\":[{\"turn\":1,\"partition\":-0,\"node\":0}]}") ≡ Err (places.Move 0) }
    ensures of_point { plan_in 4 2 (codes
        "{\"moves\":[{\"turn\":1.0,\"partition\":0,\"node\":0}]}") ≡ Err (places.Move 0) }
    ensures of_exponent { plan_in 4 2 (codes
        "{\"moves\":[{\"turn\":1e2,\"partition\":0,\"node\":0}]}") ≡ Err (places.Move 0) }
    ensures of_text { plan_in 4 2 (codes
        "{\"moves\":[{\"turn\":\"1\",\"partition\":0,\"node\":0}]}") ≡ Err (places.Move 0) }
    ensures of_no_node { plan_in 4 2 (codes
        "{\"moves\":[{\"turn\":1,\"partition\":0}]}") ≡ Err (places.Move 0) }
    ensures of_further { plan_in 4 2 (codes
        "{\"moves\":[{\"turn\":1,\"partition\":0,\"node\":0,\"of\":0}]}") ≡ Err (places.Move 0) }
    ensures of_no_object { plan_in 4 2 (codes
        "{\"moves\":[{\"turn\":1,\"partition\":0,\"node\":0},[1,0,0]]}") ≡ Err (places.Move 1) }
    ensures of_last_counts { plan_in 4 2 (codes
        "{\"moves\":[{\"turn\":0,\"turn\":2,\"partition\":0,\"node\":1}]}")
        ≡ plan_with (going 2 0 1 ∷ []) [] }
    ensures of_twice { plan_in 4 2 (codes
        "{\"moves\":[{\"turn\":9,\"partition\":0,\"node\":1},{\"turn\":3,\"partition\":0,\"node\":1}]}")
        ≡ plan_with (going 9 0 1 ∷ going 3 0 1 ∷ []) [] }
{}

/// Lists of stops, and which of moves and stops decides.
#[tactic(auto, using(crate::proofs::Worked::stops_only_node, crate::proofs::Worked::stops_every_node, crate::proofs::Worked::stops_one_left, crate::proofs::Worked::stops_node_past, crate::proofs::Worked::stops_no_turn, crate::proofs::Worked::stops_further, crate::proofs::Worked::stops_shape_first, crate::proofs::Worked::stops_moves_first, crate::proofs::Worked::stops_both, crate::proofs::Worked::stops_no_node))]
pub fn stops()
    ensures of_only_node { plan_in 4 1 (codes
        "{\"stops\":[{\"turn\":1,\"node\":0}]}") ≡ Err (places.Stop 0) }
    ensures of_every_node { plan_in 4 2 (codes
        "{\"stops\":[{\"turn\":5,\"node\":1},{\"turn\":5,\"node\":1},{\"turn\":1,\"node\":0},{\"turn\":1,\"node\":1}]}")
        ≡ Err (places.Stop 2) }
    ensures of_one_left { plan_in 4 3 (codes
        "{\"stops\":[{\"turn\":5,\"node\":1},{\"turn\":5,\"node\":1},{\"turn\":1,\"node\":0}]}")
        ≡ plan_with [] (stopping 5 1 ∷ stopping 5 1 ∷ stopping 1 0 ∷ []) }
    ensures of_node_past { plan_in 4 2 (codes
        "{\"stops\":[{\"turn\":1,\"node\":2}]}") ≡ Err (places.Stop 0) }
    ensures of_no_turn { plan_in 4 2 (codes
        "{\"stops\":[{\"turn\":0,\"node\":1}]}") ≡ Err (places.Stop 0) }
    ensures of_further { plan_in 4 2 (codes
        "{\"stops\":[{\"turn\":1,\"partition\":0,\"node\":1}]}") ≡ Err (places.Stop 0) }
    ensures of_shape_first { plan_in 4 1 (codes
        "{\"stops\":[{\"turn\":1,\"node\":0},{}]}") ≡ Err (places.Stop 1) }
    ensures of_moves_first { plan_in 4 1 (codes
        "{\"stops\":[{\"turn\":1,\"node\":9}],\"moves\":[{\"turn\":1,\"partition\":9,\"node\":0}]}")
        ≡ Err (places.Move 0) }
    ensures of_both { plan_in 4 2 (codes
        "{\"moves\":[{\"turn\":20,\"partition\":0,\"node\":1}],\"stops\":[{\"turn\":30,\"node\":0}]}")
        ≡ plan_with (going 20 0 1 ∷ []) (stopping 30 0 ∷ []) }
    ensures of_no_node { plan_in 0 0 (codes "{\"stops\":[],\"moves\":[]}") ≡ plan_with [] [] }
{}
