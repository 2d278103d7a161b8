//! Worked rows: what becomes of request files and of words, and of what clients are told.

ghost use Rattle.std.specs.Prelude.{◌≡◌, [], ◌∷◌, codes};
ghost use Rattle.worked_rows.specs.Ports.{BeginsSo, GoesOnSo, EndsSo};
ghost use Rattle.worked_rows.specs.Readings.{asked_by, requests_of};

/// Files of requests: how many are read, or the line or the number that is refused.
#[tactic(auto, using(crate::proofs::Worked::request_files_clash, crate::proofs::Worked::request_files_second, crate::proofs::Worked::request_files_repeated, crate::proofs::Worked::request_files_other_argument, crate::proofs::Worked::request_files_below, crate::proofs::Worked::request_files_other_client, crate::proofs::Worked::request_files_first_decides, crate::proofs::Worked::request_files_blank, crate::proofs::Worked::request_files_zero, crate::proofs::Worked::request_files_too_great, crate::proofs::Worked::request_files_greatest, crate::proofs::Worked::request_files_no_integer, crate::proofs::Worked::request_files_further, crate::proofs::Worked::request_files_two_kinds, crate::proofs::Worked::request_files_last_counts, crate::proofs::Worked::request_files_entity_started, crate::proofs::Worked::request_files_client_queried, crate::proofs::Worked::request_files_entity_queried, crate::proofs::Worked::request_files_no_event, crate::proofs::Worked::request_files_raised, crate::proofs::Worked::request_files_minus_zero, crate::proofs::Worked::request_files_exponent, crate::proofs::Worked::request_files_too_large, crate::proofs::Worked::request_files_least, crate::proofs::Worked::request_files_nested))]
pub fn request_files()
    ensures of_clash { requests_of (codes "{\"client\":\"a\",\"n\":1,\"start\":\"Sum/x\"}"
        ∷ codes "{\"client\":\"a\",\"n\":1,\"wait\":\"Sum/x\"}" ∷ []) ≡ codes "clash a 1" }
    ensures of_second { requests_of (codes "{\"client\":\"a\",\"n\":1,\"start\":\"Sum/x\"}"
        ∷ codes "{}" ∷ []) ≡ codes "line 2" }
    ensures of_repeated { requests_of (codes "{\"client\":\"a\",\"n\":1,\"start\":\"Sum/x\"}"
        ∷ codes " {\"arg\":null, \"start\":\"Sum/x\",\"n\":1,\"client\":\"a\"} " ∷ codes "" ∷ [])
        ≡ codes "read 1" }
    ensures of_other_argument { requests_of (codes "{\"client\":\"a\",\"n\":1,\"start\":\"Sum/x\"}"
        ∷ codes "{\"client\":\"a\",\"n\":1,\"start\":\"Sum/x\",\"arg\":0}" ∷ [])
        ≡ codes "clash a 1" }
    ensures of_below { requests_of (codes "{\"client\":\"a\",\"n\":2,\"start\":\"Sum/x\"}"
        ∷ codes "{\"client\":\"a\",\"n\":1,\"start\":\"Sum/x\"}" ∷ []) ≡ codes "line 2" }
    ensures of_other_client { requests_of (codes "{\"client\":\"a\",\"n\":2,\"start\":\"Sum/x\"}"
        ∷ codes "{\"client\":\"b\",\"n\":1,\"wait\":\"Sum/x\"}" ∷ []) ≡ codes "read 2" }
    ensures of_first_decides { requests_of (codes "{\"client\":\"a\",\"n\":1,\"start\":\"Sum/x\"}"
        ∷ codes "{\"client\":\"a\",\"n\":1,\"wait\":\"Sum/x\"}" ∷ codes "{}" ∷ [])
        ≡ codes "clash a 1" }
    ensures of_blank { requests_of (codes "" ∷ codes "  " ∷ codes "{}" ∷ []) ≡ codes "line 3" }
    ensures of_zero { requests_of (codes "{\"client\":\"a\",\"n\":0,\"start\":\"Sum/x\"}" ∷ [])
        ≡ codes "line 1" }
    ensures of_too_great { requests_of (codes
        "{\"client\":\"a\",\"n\":4294967296,\"start\":\"Sum/x\"}" ∷ []) ≡ codes "line 1" }
    ensures of_greatest { requests_of (codes
        "{\"client\":\"a\",\"n\":4294967295,\"start\":\"Sum/x\"}" ∷ []) ≡ codes "read 1" }
    ensures of_no_integer { requests_of (codes "{\"client\":\"a\",\"n\":1.0,\"start\":\"Sum/x\"}"
        ∷ []) ≡ codes "line 1" }
    ensures of_further { requests_of (codes
        "{\"client\":\"a\",\"n\":1,\"start\":\"Sum/x\",\"value\":0}" ∷ []) ≡ codes "line 1" }
    ensures of_two_kinds { requests_of (codes
        "{\"client\":\"a\",\"n\":1,\"start\":\"Sum/x\",\"wait\":\"Sum/x\"}" ∷ []) ≡ codes "line 1" }
    ensures of_last_counts { requests_of (codes
        "{\"client\":\"a\",\"n\":1,\"start\":\"Sum/\",\"start\":\"Sum/x\"}" ∷ []) ≡ codes "read 1" }
    ensures of_entity_started { requests_of (codes "{\"client\":\"a\",\"n\":1,\"start\":\"@A/x\"}"
        ∷ []) ≡ codes "line 1" }
    ensures of_client_queried { requests_of (codes "{\"client\":\"a\",\"n\":1,\"query\":\"#a\"}"
        ∷ []) ≡ codes "line 1" }
    ensures of_entity_queried { requests_of (codes "{\"client\":\"a\",\"n\":1,\"query\":\"@A/x\"}"
        ∷ []) ≡ codes "read 1" }
    ensures of_no_event { requests_of (codes
        "{\"client\":\"a\",\"n\":1,\"raise\":\"G/x\",\"value\":1}" ∷ []) ≡ codes "line 1" }
    ensures of_raised { requests_of (codes
        "{\"client\":\"a\",\"n\":1,\"raise\":\"G/x\",\"event\":\"go\"}" ∷ []) ≡ codes "read 1" }
    ensures of_minus_zero { requests_of (codes
        "{\"client\":\"a\",\"n\":1,\"start\":\"S/x\",\"arg\":-0}" ∷ []) ≡ codes "line 1" }
    ensures of_exponent { requests_of (codes
        "{\"client\":\"a\",\"n\":1,\"start\":\"S/x\",\"arg\":1e2}" ∷ []) ≡ codes "line 1" }
    ensures of_too_large { requests_of (codes
        "{\"client\":\"a\",\"n\":1,\"start\":\"S/x\",\"arg\":9223372036854775808}" ∷ [])
        ≡ codes "line 1" }
    ensures of_least { requests_of (codes
        "{\"client\":\"a\",\"n\":1,\"start\":\"S/x\",\"arg\":-9223372036854775808}" ∷ [])
        ≡ codes "read 1" }
    ensures of_nested { requests_of (codes
        "{\"client\":\"a\",\"n\":1,\"start\":\"S/x\",\"arg\":[[]]}" ∷ []) ≡ codes "line 1" }
{}

/// Words: what they ask for, or that the command refuses them.
#[tactic(auto, using(crate::proofs::Worked::words_none, crate::proofs::Worked::words_run, crate::proofs::Worked::words_show, crate::proofs::Worked::words_all, crate::proofs::Worked::words_many_partitions, crate::proofs::Worked::words_no_partition, crate::proofs::Worked::words_leading_zero, crate::proofs::Worked::words_sign, crate::proofs::Worked::words_batch_above, crate::proofs::Worked::words_segment_below, crate::proofs::Worked::words_steps_none, crate::proofs::Worked::words_twice, crate::proofs::Worked::words_no_value, crate::proofs::Worked::words_unknown, crate::proofs::Worked::words_of_run, crate::proofs::Worked::words_further, crate::proofs::Worked::words_no_help, crate::proofs::Worked::words_no_version, crate::proofs::Worked::words_one_partition, crate::proofs::Worked::words_most_batch, crate::proofs::Worked::words_steps, crate::proofs::Worked::words_segment, crate::proofs::Worked::words_shown_partition, crate::proofs::Worked::words_help_of_run, crate::proofs::Worked::words_stop, crate::proofs::Worked::words_some, crate::proofs::Worked::words_two_partitions, crate::proofs::Worked::words_most_partitions, crate::proofs::Worked::words_no_partition_of_run, crate::proofs::Worked::words_most_shown, crate::proofs::Worked::words_shown_above, crate::proofs::Worked::words_most_nodes, crate::proofs::Worked::words_nodes_above, crate::proofs::Worked::words_no_node, crate::proofs::Worked::words_shown_nodes, crate::proofs::Worked::words_mode_none, crate::proofs::Worked::words_mode_local, crate::proofs::Worked::words_mode_global, crate::proofs::Worked::words_mode_unknown, crate::proofs::Worked::words_mode_in_capitals, crate::proofs::Worked::words_steps_above, crate::proofs::Worked::words_seed, crate::proofs::Worked::words_greatest_seed, crate::proofs::Worked::words_seed_above, crate::proofs::Worked::words_most_twice, crate::proofs::Worked::words_twice_above, crate::proofs::Worked::words_most_drop, crate::proofs::Worked::words_drop_above, crate::proofs::Worked::words_most_hold, crate::proofs::Worked::words_hold_above, crate::proofs::Worked::words_segment_above))]
pub fn words()
    ensures of_none { asked_by ([]) ≡ codes "usage" }
    ensures of_run { asked_by (codes "run" ∷ [])
        ≡ codes "run 4 1 global 16 1048576 0 0 0 0 2147483648" }
    ensures of_show { asked_by (codes "show" ∷ []) ≡ codes "show 4" }
    ensures of_all { asked_by (codes "run" ∷ codes "--segment=4096" ∷ codes "--hold" ∷ codes "3"
        ∷ codes "--drop=2" ∷ codes "--twice" ∷ codes "1" ∷ codes "--seed" ∷ codes "9"
        ∷ codes "--steps" ∷ codes "7" ∷ codes "--batch" ∷ codes "64" ∷ codes "--mode"
        ∷ codes "local" ∷ codes "--nodes" ∷ codes "8" ∷ codes "--partitions" ∷ codes "1" ∷ [])
        ≡ codes "run 1 8 local 64 7 9 1 2 3 4096" }
    ensures of_many_partitions { asked_by (codes "run" ∷ codes "--partitions" ∷ codes "33" ∷ [])
        ≡ codes "usage" }
    ensures of_no_partition { asked_by (codes "show" ∷ codes "--partitions" ∷ codes "0" ∷ [])
        ≡ codes "usage" }
    ensures of_leading_zero { asked_by (codes "run" ∷ codes "--batch" ∷ codes "08" ∷ [])
        ≡ codes "usage" }
    ensures of_sign { asked_by (codes "run" ∷ codes "--batch" ∷ codes "+8" ∷ []) ≡ codes "usage" }
    ensures of_batch_above { asked_by (codes "run" ∷ codes "--batch" ∷ codes "65" ∷ [])
        ≡ codes "usage" }
    ensures of_segment_below { asked_by (codes "run" ∷ codes "--segment" ∷ codes "4095" ∷ [])
        ≡ codes "usage" }
    ensures of_steps_none { asked_by (codes "run" ∷ codes "--steps" ∷ codes "0" ∷ [])
        ≡ codes "usage" }
    ensures of_twice { asked_by (codes "run" ∷ codes "--batch" ∷ codes "8" ∷ codes "--batch"
        ∷ codes "8" ∷ []) ≡ codes "usage" }
    ensures of_no_value { asked_by (codes "run" ∷ codes "--batch" ∷ []) ≡ codes "usage" }
    ensures of_unknown { asked_by (codes "run" ∷ codes "--speed" ∷ codes "1" ∷ []) ≡ codes "usage" }
    ensures of_of_run { asked_by (codes "show" ∷ codes "--batch" ∷ codes "8" ∷ []) ≡ codes "usage" }
    ensures of_further { asked_by (codes "run" ∷ codes "on" ∷ []) ≡ codes "usage" }
    ensures of_no_help { asked_by (codes "help" ∷ []) ≡ codes "usage" }
    ensures of_no_version { asked_by (codes "--version" ∷ []) ≡ codes "usage" }
    ensures of_one_partition { asked_by (codes "run" ∷ codes "--partitions" ∷ codes "1" ∷ [])
        ≡ codes "run 1 1 global 16 1048576 0 0 0 0 2147483648" }
    ensures of_most_batch { asked_by (codes "run" ∷ codes "--batch" ∷ codes "64" ∷ [])
        ≡ codes "run 4 1 global 64 1048576 0 0 0 0 2147483648" }
    ensures of_steps { asked_by (codes "run" ∷ codes "--steps" ∷ codes "7" ∷ [])
        ≡ codes "run 4 1 global 16 7 0 0 0 0 2147483648" }
    ensures of_segment { asked_by (codes "run" ∷ codes "--segment=4096" ∷ [])
        ≡ codes "run 4 1 global 16 1048576 0 0 0 0 4096" }
    ensures of_shown_partition { asked_by (codes "show" ∷ codes "--partitions" ∷ codes "1" ∷ [])
        ≡ codes "show 1" }
    ensures of_help_of_run { asked_by (codes "run" ∷ codes "--help" ∷ []) ≡ codes "usage" }
    ensures of_stop { asked_by (codes "stop" ∷ []) ≡ codes "usage" }
    ensures of_some { asked_by (codes "run" ∷ codes "--segment=4096" ∷ codes "--steps" ∷ codes "7"
        ∷ codes "--batch" ∷ codes "64" ∷ codes "--partitions" ∷ codes "1" ∷ [])
        ≡ codes "run 1 1 global 64 7 0 0 0 0 4096" }
    ensures of_two_partitions { asked_by (codes "run" ∷ codes "--partitions" ∷ codes "2" ∷ [])
        ≡ codes "run 2 1 global 16 1048576 0 0 0 0 2147483648" }
    ensures of_most_partitions { asked_by (codes "run" ∷ codes "--partitions" ∷ codes "32" ∷ [])
        ≡ codes "run 32 1 global 16 1048576 0 0 0 0 2147483648" }
    ensures of_no_partition_of_run { asked_by (codes "run" ∷ codes "--partitions" ∷ codes "0" ∷ [])
        ≡ codes "usage" }
    ensures of_most_shown { asked_by (codes "show" ∷ codes "--partitions" ∷ codes "32" ∷ [])
        ≡ codes "show 32" }
    ensures of_shown_above { asked_by (codes "show" ∷ codes "--partitions" ∷ codes "33" ∷ [])
        ≡ codes "usage" }
    ensures of_most_nodes { asked_by (codes "run" ∷ codes "--nodes" ∷ codes "8" ∷ [])
        ≡ codes "run 4 8 global 16 1048576 0 0 0 0 2147483648" }
    ensures of_nodes_above { asked_by (codes "run" ∷ codes "--nodes" ∷ codes "9" ∷ [])
        ≡ codes "usage" }
    ensures of_no_node { asked_by (codes "run" ∷ codes "--nodes" ∷ codes "0" ∷ []) ≡ codes "usage" }
    ensures of_shown_nodes { asked_by (codes "show" ∷ codes "--nodes" ∷ codes "1" ∷ [])
        ≡ codes "usage" }
    ensures of_mode_none { asked_by (codes "run" ∷ codes "--mode" ∷ codes "none" ∷ [])
        ≡ codes "run 4 1 none 16 1048576 0 0 0 0 2147483648" }
    ensures of_mode_local { asked_by (codes "run" ∷ codes "--mode" ∷ codes "local" ∷ [])
        ≡ codes "run 4 1 local 16 1048576 0 0 0 0 2147483648" }
    ensures of_mode_global { asked_by (codes "run" ∷ codes "--mode=global" ∷ [])
        ≡ codes "run 4 1 global 16 1048576 0 0 0 0 2147483648" }
    ensures of_mode_unknown { asked_by (codes "run" ∷ codes "--mode" ∷ codes "fast" ∷ [])
        ≡ codes "usage" }
    ensures of_mode_in_capitals { asked_by (codes "run" ∷ codes "--mode" ∷ codes "Global" ∷ [])
        ≡ codes "usage" }
    ensures of_steps_above { asked_by (codes "run" ∷ codes "--steps" ∷ codes "1048577" ∷ [])
        ≡ codes "usage" }
    ensures of_seed { asked_by (codes "run" ∷ codes "--seed" ∷ codes "1" ∷ [])
        ≡ codes "run 4 1 global 16 1048576 1 0 0 0 2147483648" }
    ensures of_greatest_seed { asked_by (codes "run" ∷ codes "--seed" ∷ codes "4294967295" ∷ [])
        ≡ codes "run 4 1 global 16 1048576 4294967295 0 0 0 2147483648" }
    ensures of_seed_above { asked_by (codes "run" ∷ codes "--seed" ∷ codes "4294967296" ∷ [])
        ≡ codes "usage" }
    ensures of_most_twice { asked_by (codes "run" ∷ codes "--twice" ∷ codes "100" ∷ [])
        ≡ codes "run 4 1 global 16 1048576 0 100 0 0 2147483648" }
    ensures of_twice_above { asked_by (codes "run" ∷ codes "--twice" ∷ codes "101" ∷ [])
        ≡ codes "usage" }
    ensures of_most_drop { asked_by (codes "run" ∷ codes "--drop" ∷ codes "100" ∷ [])
        ≡ codes "run 4 1 global 16 1048576 0 0 100 0 2147483648" }
    ensures of_drop_above { asked_by (codes "run" ∷ codes "--drop" ∷ codes "101" ∷ [])
        ≡ codes "usage" }
    ensures of_most_hold { asked_by (codes "run" ∷ codes "--hold" ∷ codes "100" ∷ [])
        ≡ codes "run 4 1 global 16 1048576 0 0 0 100 2147483648" }
    ensures of_hold_above { asked_by (codes "run" ∷ codes "--hold" ∷ codes "101" ∷ [])
        ≡ codes "usage" }
    ensures of_segment_above { asked_by (codes "run" ∷ codes "--segment" ∷ codes "2147483649" ∷ [])
        ≡ codes "usage" }
{}

/// Two clients' requests: what is due, and the lines of what was said.
#[tactic(auto, using(crate::proofs::Told::begins, crate::proofs::Told::goes_on, crate::proofs::Told::ends))]
pub fn ports()
    ensures begun { BeginsSo }
    ensures going_on { GoesOnSo }
    ensures at_the_end { EndsSo }
{}
