//! Worked rows of flows: the lines of refusals.

ghost use Rattle.std.specs.Prelude.{◌≡◌, [], ◌∷◌, ◌++◌, codes};
ghost use Rattle.worked_rows.specs.Flows.{line_for, line_in_flow};

/// Flows with one statement that has a fault in it.
#[tactic(auto, using(crate::proofs::FlowRows::statements_unknown_word, crate::proofs::FlowRows::statements_let_short, crate::proofs::FlowRows::statements_let_name, crate::proofs::FlowRows::statements_let_value, crate::proofs::FlowRows::statements_spawn, crate::proofs::FlowRows::statements_call, crate::proofs::FlowRows::statements_sub, crate::proofs::FlowRows::statements_ask, crate::proofs::FlowRows::statements_timer, crate::proofs::FlowRows::statements_event, crate::proofs::FlowRows::statements_awaited, crate::proofs::FlowRows::statements_all_of, crate::proofs::FlowRows::statements_any_of, crate::proofs::FlowRows::statements_signal, crate::proofs::FlowRows::statements_lock_none, crate::proofs::FlowRows::statements_lock_many, crate::proofs::FlowRows::statements_lock_pair, crate::proofs::FlowRows::statements_lock_class, crate::proofs::FlowRows::statements_lock_body, crate::proofs::FlowRows::statements_branch, crate::proofs::FlowRows::statements_repeat, crate::proofs::FlowRows::statements_catch, crate::proofs::FlowRows::statements_returned, crate::proofs::FlowRows::statements_failed, crate::proofs::FlowRows::statements_no_word, crate::proofs::FlowRows::statements_no_array, crate::proofs::FlowRows::statements_second))]
pub fn statements()
    ensures of_unknown_word { line_in_flow (codes "[\"lot\",\"x\",1]") ≡ codes "shape #/flows/F/0" }
    ensures of_let_short { line_in_flow (codes "[\"let\",\"x\"]") ≡ codes "shape #/flows/F/0" }
    ensures of_let_name { line_in_flow (codes "[\"let\",\"1x\",1]") ≡ codes "shape #/flows/F/0/1" }
    ensures of_let_value { line_in_flow (codes "[\"let\",\"x\",[1]]")
        ≡ codes "shape #/flows/F/0/2" }
    ensures of_spawn { line_in_flow (codes "[\"spawn\",\"x\",7,null]")
        ≡ codes "shape #/flows/F/0/2" }
    ensures of_call { line_in_flow (codes "[\"call\",\"x\",\"add\"]") ≡ codes "shape #/flows/F/0" }
    ensures of_sub { line_in_flow (codes "[\"sub\",\"h\",\"F\",\"k\",{\"v\":\"\"}]")
        ≡ codes "shape #/flows/F/0/4/v" }
    ensures of_ask { line_in_flow (codes "[\"ask\",\"h\",\"C\",\"k\",true,null]")
        ≡ codes "shape #/flows/F/0/4" }
    ensures of_timer { line_in_flow (codes "[\"timer\",\"h\",{\"list\":0}]")
        ≡ codes "shape #/flows/F/0/2/list" }
    ensures of_event { line_in_flow (codes "[\"event\",\"h\",{\"v\":\"x\"}]")
        ≡ codes "shape #/flows/F/0/2" }
    ensures of_awaited { line_in_flow (codes "[\"await\",\"\",{\"v\":\"h\"}]")
        ≡ codes "shape #/flows/F/0/1" }
    ensures of_all_of { line_in_flow (codes "[\"all\",\"x\",{\"list\":[1,[2]]}]")
        ≡ codes "shape #/flows/F/0/2/list/1" }
    ensures of_any_of { line_in_flow (codes "[\"any\",\"x\",{\"v\":\"h\",\"list\":[]}]")
        ≡ codes "shape #/flows/F/0/2" }
    ensures of_signal { line_in_flow (codes "[\"signal\",\"C\",\"k\",\"o\",{}]")
        ≡ codes "shape #/flows/F/0/4" }
    ensures of_lock_none { line_in_flow (codes "[\"lock\",[],[]]") ≡ codes "shape #/flows/F/0/1" }
    ensures of_lock_many { line_in_flow (codes
        "[\"lock\",[[\"C\",\"k\"],[\"C\",\"k\"],[\"C\",\"k\"],[\"C\",\"k\"],[\"C\",\"k\"],[\"C\",\"k\"],[\"C\",\"k\"],[\"C\",\"k\"],[\"C\",\"k\"],[\"C\",\"k\"],[\"C\",\"k\"],[\"C\",\"k\"],[\"C\",\"k\"],[\"C\",\"k\"],[\"C\",\"k\"],[\"C\",\"k\"],[\"C\",\"k\"]],[]]")
        ≡ codes "shape #/flows/F/0/1" }
    ensures of_lock_pair { line_in_flow (codes "[\"lock\",[[\"C\"]],[]]")
        ≡ codes "shape #/flows/F/0/1/0" }
    ensures of_lock_class { line_in_flow (codes "[\"lock\",[[\"C\",\"k\"],[1,\"k\"]],[]]")
        ≡ codes "shape #/flows/F/0/1/1/0" }
    ensures of_lock_body { line_in_flow (codes "[\"lock\",[[\"C\",\"k\"]],0]")
        ≡ codes "shape #/flows/F/0/2" }
    ensures of_branch { line_in_flow (codes "[\"if\",true,[],[[\"fail\"]]]")
        ≡ codes "shape #/flows/F/0/3/0" }
    ensures of_repeat { line_in_flow (codes "[\"while\",{\"do\":[\"not\",1,2]},[]]")
        ≡ codes "shape #/flows/F/0/1/do" }
    ensures of_catch { line_in_flow (codes "[\"try\",[],\"e \",[]]") ≡ codes "shape #/flows/F/0/2" }
    ensures of_returned { line_in_flow (codes "[\"return\",{\"do\":[\"add\",1,{\"w\":\"x\"}]}]")
        ≡ codes "shape #/flows/F/0/1/do/2" }
    ensures of_failed { line_in_flow (codes "[\"fail\",{\"do\":[\"neg\",1]}]")
        ≡ codes "shape #/flows/F/0/1/do" }
    ensures of_no_word { line_in_flow (codes "[]") ≡ codes "shape #/flows/F/0" }
    ensures of_no_array { line_in_flow (codes "0") ≡ codes "shape #/flows/F/0" }
    ensures of_second { line_in_flow (codes "[\"let\",\"x\",1],[\"let\",\"y\"]")
        ≡ codes "shape #/flows/F/1" }
{}

/// Flows whose statements name what isn't there, or what needn't be there, and some with a fault of shape behind.
#[tactic(auto, using(crate::proofs::FlowRows::names_flow, crate::proofs::FlowRows::names_own, crate::proofs::FlowRows::names_activity, crate::proofs::FlowRows::names_event, crate::proofs::FlowRows::names_class, crate::proofs::FlowRows::names_signalled, crate::proofs::FlowRows::names_locked, crate::proofs::FlowRows::names_repeated, crate::proofs::FlowRows::names_chosen, crate::proofs::FlowRows::names_tried, crate::proofs::FlowRows::names_caught, crate::proofs::FlowRows::names_shape_first, crate::proofs::FlowRows::names_operation, crate::proofs::FlowRows::names_signalled_operation, crate::proofs::FlowRows::names_asked, crate::proofs::FlowRows::names_second_lock, crate::proofs::FlowRows::names_within_lock, crate::proofs::FlowRows::names_first_flow, crate::proofs::FlowRows::names_shape_of_a_later_flow))]
pub fn names()
    ensures of_flow { line_in_flow (codes "[\"sub\",\"h\",\"Nope\",\"k\",null]")
        ≡ codes "name #/flows/F/0/2" }
    ensures of_own { line_in_flow (codes "[\"sub\",\"h\",\"F\",\"k\",null]") ≡ codes "read" }
    ensures of_activity { line_in_flow (codes "[\"call\",\"x\",\"nope\",null]") ≡ codes "read" }
    ensures of_event { line_in_flow (codes "[\"event\",\"h\",\"nope\"]") ≡ codes "read" }
    ensures of_class { line_in_flow (codes "[\"ask\",\"h\",\"C\",\"k\",\"o\",null]")
        ≡ codes "name #/flows/F/0/2" }
    ensures of_signalled { line_in_flow (codes "[\"signal\",\"C\",\"k\",\"o\",null]")
        ≡ codes "name #/flows/F/0/1" }
    ensures of_locked { line_in_flow (codes "[\"lock\",[[\"C\",\"k\"]],[]]")
        ≡ codes "name #/flows/F/0/1/0/0" }
    ensures of_repeated { line_in_flow (codes
        "[\"while\",true,[[\"if\",true,[],[[\"sub\",\"h\",\"Nope\",\"k\",null]]]]]")
        ≡ codes "name #/flows/F/0/2/0/3/0/2" }
    ensures of_chosen { line_in_flow (codes
        "[\"if\",true,[[\"signal\",\"C\",\"k\",\"o\",null]],[]]") ≡ codes "name #/flows/F/0/2/0/1" }
    ensures of_tried { line_in_flow (codes
        "[\"try\",[[\"let\",\"x\",1],[\"sub\",\"h\",\"Nope\",\"k\",null]],\"e\",[]]")
        ≡ codes "name #/flows/F/0/1/1/2" }
    ensures of_caught { line_in_flow (codes
        "[\"try\",[],\"e\",[[\"sub\",\"h\",\"Nope\",\"k\",null]]]")
        ≡ codes "name #/flows/F/0/3/0/2" }
    ensures of_shape_first { line_in_flow (codes
        "[\"sub\",\"h\",\"Nope\",\"k\",null],[\"let\",\"x\"]") ≡ codes "shape #/flows/F/1" }
    ensures of_operation { line_for (codes
        "{\"classes\":{\"C\":{\"init\":0,\"ops\":{\"o\":[]}}},\"flows\":{\"F\":[[\"ask\",\"h\",\"C\",\"k\",\"p\",null]]}}")
        ≡ codes "name #/flows/F/0/4" }
    ensures of_signalled_operation { line_for (codes
        "{\"classes\":{\"C\":{\"init\":0,\"ops\":{\"o\":[]}}},\"flows\":{\"F\":[[\"signal\",\"C\",\"k\",\"p\",null]]}}")
        ≡ codes "name #/flows/F/0/3" }
    ensures of_asked { line_for (codes
        "{\"classes\":{\"C\":{\"init\":0,\"ops\":{\"o\":[]}}},\"flows\":{\"F\":[[\"ask\",\"h\",\"C\",\"k\",\"o\",null]]}}")
        ≡ codes "read" }
    ensures of_second_lock { line_for (codes
        "{\"classes\":{\"C\":{\"init\":0,\"ops\":{\"o\":[]}}},\"flows\":{\"F\":[[\"lock\",[[\"C\",\"k\"],[\"D\",\"k\"]],[]]]}}")
        ≡ codes "name #/flows/F/0/1/1/0" }
    ensures of_within_lock { line_for (codes
        "{\"classes\":{\"C\":{\"init\":0,\"ops\":{\"o\":[]}}},\"flows\":{\"F\":[[\"lock\",[[\"C\",\"k\"]],[[\"signal\",\"D\",\"k\",\"o\",null]]]]}}")
        ≡ codes "name #/flows/F/0/2/0/1" }
    ensures of_first_flow { line_for (codes
        "{\"flows\":{\"a\":[[\"sub\",\"h\",\"c\",\"k\",0]],\"B\":[[\"sub\",\"h\",\"b\",\"k\",0]]}}")
        ≡ codes "name #/flows/B/0/2" }
    ensures of_shape_of_a_later_flow { line_for (codes
        "{\"flows\":{\"A\":[[\"sub\",\"h\",\"c\",\"k\",0]],\"B\":0}}") ≡ codes "shape #/flows/B" }
{}

/// Numbers at the limits of 64 bits, and those that are written as no integers.
#[tactic(auto, using(crate::proofs::FlowRows::numbers_greatest, crate::proofs::FlowRows::numbers_least, crate::proofs::FlowRows::numbers_above, crate::proofs::FlowRows::numbers_below, crate::proofs::FlowRows::numbers_above_all, crate::proofs::FlowRows::numbers_minus_zero, crate::proofs::FlowRows::numbers_fraction, crate::proofs::FlowRows::numbers_exponent, crate::proofs::FlowRows::numbers_in_list, crate::proofs::FlowRows::numbers_in_operation, crate::proofs::FlowRows::numbers_in_init, crate::proofs::FlowRows::numbers_in_init_list))]
pub fn numbers()
    ensures of_greatest { line_in_flow (codes "[\"return\",9223372036854775807]") ≡ codes "read" }
    ensures of_least { line_in_flow (codes "[\"return\",-9223372036854775808]") ≡ codes "read" }
    ensures of_above { line_in_flow (codes "[\"return\",9223372036854775808]")
        ≡ codes "shape #/flows/F/0/1" }
    ensures of_below { line_in_flow (codes "[\"return\",-9223372036854775809]")
        ≡ codes "shape #/flows/F/0/1" }
    ensures of_above_all { line_in_flow (codes "[\"return\",18446744073709551616]")
        ≡ codes "shape #/flows/F/0/1" }
    ensures of_minus_zero { line_in_flow (codes "[\"return\",-0]") ≡ codes "shape #/flows/F/0/1" }
    ensures of_fraction { line_in_flow (codes "[\"return\",1.0]") ≡ codes "shape #/flows/F/0/1" }
    ensures of_exponent { line_in_flow (codes "[\"return\",1e2]") ≡ codes "shape #/flows/F/0/1" }
    ensures of_in_list { line_in_flow (codes "[\"return\",{\"list\":[1,-0]}]")
        ≡ codes "shape #/flows/F/0/1/list/1" }
    ensures of_in_operation { line_in_flow (codes "[\"return\",{\"do\":[\"add\",1,1e2]}]")
        ≡ codes "shape #/flows/F/0/1/do/2" }
    ensures of_in_init { line_for (codes "{\"classes\":{\"C\":{\"init\":-0,\"ops\":{}}}}")
        ≡ codes "shape #/classes/C/init" }
    ensures of_in_init_list { line_for (codes
        "{\"classes\":{\"C\":{\"init\":[0,9223372036854775808],\"ops\":{}}}}")
        ≡ codes "shape #/classes/C/init/1" }
{}

/// Expressions, names, texts, and members that are there twice: the last counts.
#[tactic(auto, using(crate::proofs::FlowRows::expressions_kinds, crate::proofs::FlowRows::expressions_escaped, crate::proofs::FlowRows::expressions_pair, crate::proofs::FlowRows::expressions_lone_high, crate::proofs::FlowRows::expressions_lone_low, crate::proofs::FlowRows::expressions_escaped_name, crate::proofs::FlowRows::expressions_empty_name, crate::proofs::FlowRows::expressions_name_of_64, crate::proofs::FlowRows::expressions_name_of_65, crate::proofs::FlowRows::expressions_name_of_a_digit, crate::proofs::FlowRows::expressions_two_members, crate::proofs::FlowRows::expressions_doubled, crate::proofs::FlowRows::expressions_doubled_last, crate::proofs::FlowRows::expressions_no_operation, crate::proofs::FlowRows::expressions_operation_of_two, crate::proofs::FlowRows::expressions_operation_no_word))]
pub fn expressions()
    ensures of_kinds { line_in_flow (codes
        "[\"return\",{\"list\":[null,false,true,\"a\",{\"v\":\"x\"},{\"list\":[]},{\"do\":[\"str\",1]}]}]")
        ≡ codes "read" }
    ensures of_escaped { line_in_flow (codes "[\"return\",\"\\u00e9\\n\"]") ≡ codes "read" }
    ensures of_pair { line_in_flow (codes "[\"return\",\"\\ud83d\\ude00\"]") ≡ codes "read" }
    ensures of_lone_high { line_in_flow (codes "[\"return\",\"\\ud83d\"]") ≡ codes "not json" }
    ensures of_lone_low { line_in_flow (codes "[\"return\",\"\\ude00\"]") ≡ codes "not json" }
    ensures of_escaped_name { line_in_flow (codes "[\"return\",{\"v\":\"\\u0078\"}]")
        ≡ codes "read" }
    ensures of_empty_name { line_in_flow (codes "[\"return\",{\"v\":\"\"}]")
        ≡ codes "shape #/flows/F/0/1/v" }
    ensures of_name_of_64 { line_in_flow (codes
        "[\"return\",{\"v\":\"aaaaaaaaaaaaaaaaaaaaaaaaaaaaaaaaaaaaaaaaaaaaaaaaaaaaaaaaaaaaaaaa\"}]")
        ≡ codes "read" }
    ensures of_name_of_65 { line_in_flow (codes
        "[\"return\",{\"v\":\"aaaaaaaaaaaaaaaaaaaaaaaaaaaaaaaaaaaaaaaaaaaaaaaaaaaaaaaaaaaaaaaaa\"}]")
        ≡ codes "shape #/flows/F/0/1/v" }
    ensures of_name_of_a_digit { line_in_flow (codes "[\"return\",{\"v\":\"1\"}]")
        ≡ codes "shape #/flows/F/0/1/v" }
    ensures of_two_members { line_in_flow (codes "[\"return\",{\"v\":\"x\",\"do\":[\"not\",true]}]")
        ≡ codes "shape #/flows/F/0/1" }
    ensures of_doubled { line_in_flow (codes "[\"return\",{\"v\":\"1\",\"v\":\"x\"}]")
        ≡ codes "read" }
    ensures of_doubled_last { line_in_flow (codes "[\"return\",{\"v\":\"x\",\"v\":\"1\"}]")
        ≡ codes "shape #/flows/F/0/1/v" }
    ensures of_no_operation { line_in_flow (codes "[\"return\",{\"do\":[\"not\"]}]")
        ≡ codes "shape #/flows/F/0/1/do" }
    ensures of_operation_of_two { line_in_flow (codes "[\"return\",{\"do\":[\"add\",1]}]")
        ≡ codes "shape #/flows/F/0/1/do" }
    ensures of_operation_no_word { line_in_flow (codes "[\"return\",{\"do\":[0,1]}]")
        ≡ codes "shape #/flows/F/0/1/do" }
{}

/// Files, and members that are there twice.
#[tactic(auto, using(crate::proofs::FlowRows::files_empty, crate::proofs::FlowRows::files_both, crate::proofs::FlowRows::files_list, crate::proofs::FlowRows::files_further, crate::proofs::FlowRows::files_three, crate::proofs::FlowRows::files_flows_key, crate::proofs::FlowRows::files_flows_array, crate::proofs::FlowRows::files_classes_first, crate::proofs::FlowRows::files_flows_in_order, crate::proofs::FlowRows::files_doubled, crate::proofs::FlowRows::files_doubled_last, crate::proofs::FlowRows::files_doubled_flows))]
pub fn files()
    ensures of_empty { line_for (codes "{}") ≡ codes "read" }
    ensures of_both { line_for (codes " {\"flows\":{},\"classes\":{}}\n") ≡ codes "read" }
    ensures of_list { line_for (codes "[]") ≡ codes "shape #" }
    ensures of_further { line_for (codes "{\"flows\":{},\"plan\":{}}") ≡ codes "shape #" }
    ensures of_three { line_for (codes "{\"flows\":{},\"classes\":{},\"plan\":{}}")
        ≡ codes "shape #" }
    ensures of_flows_key { line_for (codes "{\"flows\":{\"A\":0,\"1\":[]}}")
        ≡ codes "shape #/flows" }
    ensures of_flows_array { line_for (codes "{\"flows\":[]}") ≡ codes "shape #/flows" }
    ensures of_classes_first { line_for (codes "{\"flows\":0,\"classes\":0}")
        ≡ codes "shape #/classes" }
    ensures of_flows_in_order { line_for (codes "{\"flows\":{\"b\":0,\"a\":0,\"C\":0}}")
        ≡ codes "shape #/flows/C" }
    ensures of_doubled { line_for (codes "{\"flows\":{\"F\":0,\"F\":[]}}") ≡ codes "read" }
    ensures of_doubled_last { line_for (codes "{\"flows\":{\"F\":[],\"F\":0}}")
        ≡ codes "shape #/flows/F" }
    ensures of_doubled_flows { line_for (codes "{\"flows\":0,\"flows\":{}}") ≡ codes "read" }
{}

/// Classes, and statements that may not stand in their operations.
#[tactic(auto, using(crate::proofs::FlowRows::classes_key, crate::proofs::FlowRows::classes_short, crate::proofs::FlowRows::classes_long, crate::proofs::FlowRows::classes_init, crate::proofs::FlowRows::classes_init_of_object, crate::proofs::FlowRows::classes_init_first, crate::proofs::FlowRows::classes_ops_key, crate::proofs::FlowRows::classes_doubled, crate::proofs::FlowRows::classes_operation_spawn, crate::proofs::FlowRows::classes_operation_call, crate::proofs::FlowRows::classes_operation_sub, crate::proofs::FlowRows::classes_operation_ask, crate::proofs::FlowRows::classes_operation_timer, crate::proofs::FlowRows::classes_operation_event, crate::proofs::FlowRows::classes_operation_awaited, crate::proofs::FlowRows::classes_operation_all_of, crate::proofs::FlowRows::classes_operation_any_of, crate::proofs::FlowRows::classes_operation_signal, crate::proofs::FlowRows::classes_operation_lock, crate::proofs::FlowRows::classes_operation_within, crate::proofs::FlowRows::classes_operation))]
pub fn classes()
    ensures of_key { line_for (codes "{\"classes\":{\"\":{\"init\":0,\"ops\":{}}}}")
        ≡ codes "shape #/classes" }
    ensures of_short { line_for (codes "{\"classes\":{\"C\":{\"init\":0}}}")
        ≡ codes "shape #/classes/C" }
    ensures of_long { line_for (codes "{\"classes\":{\"C\":{\"init\":[[]],\"ops\":0,\"p\":0}}}")
        ≡ codes "shape #/classes/C" }
    ensures of_init { line_for (codes "{\"classes\":{\"C\":{\"init\":[0,[]],\"ops\":{}}}}")
        ≡ codes "shape #/classes/C/init/1" }
    ensures of_init_of_object { line_for (codes "{\"classes\":{\"C\":{\"init\":{},\"ops\":{}}}}")
        ≡ codes "shape #/classes/C/init" }
    ensures of_init_first { line_for (codes "{\"classes\":{\"C\":{\"ops\":0,\"init\":[{}]}}}")
        ≡ codes "shape #/classes/C/init/0" }
    ensures of_ops_key { line_for (codes "{\"classes\":{\"C\":{\"init\":0,\"ops\":{\"a b\":[]}}}}")
        ≡ codes "shape #/classes/C/ops" }
    ensures of_doubled { line_for (codes
        "{\"classes\":{\"C\":{\"init\":{},\"init\":0,\"ops\":{}}}}") ≡ codes "read" }
    ensures of_operation_spawn { line_for (codes
        "{\"classes\":{\"C\":{\"init\":0,\"ops\":{\"o\":[[\"spawn\",\"x\",\"a\",1]]}}}}")
        ≡ codes "shape #/classes/C/ops/o/0" }
    ensures of_operation_call { line_for (codes
        "{\"classes\":{\"C\":{\"init\":0,\"ops\":{\"o\":[[\"call\",\"x\",\"a\",1]]}}}}")
        ≡ codes "shape #/classes/C/ops/o/0" }
    ensures of_operation_sub { line_for (codes
        "{\"classes\":{\"C\":{\"init\":0,\"ops\":{\"o\":[[\"sub\",\"x\",\"F\",\"k\",1]]}}}}")
        ≡ codes "shape #/classes/C/ops/o/0" }
    ensures of_operation_ask { line_for (codes
        "{\"classes\":{\"C\":{\"init\":0,\"ops\":{\"o\":[[\"ask\",\"x\",\"C\",\"k\",\"o\",1]]}}}}")
        ≡ codes "shape #/classes/C/ops/o/0" }
    ensures of_operation_timer { line_for (codes
        "{\"classes\":{\"C\":{\"init\":0,\"ops\":{\"o\":[[\"timer\",\"x\",1]]}}}}")
        ≡ codes "shape #/classes/C/ops/o/0" }
    ensures of_operation_event { line_for (codes
        "{\"classes\":{\"C\":{\"init\":0,\"ops\":{\"o\":[[\"event\",\"x\",\"e\"]]}}}}")
        ≡ codes "shape #/classes/C/ops/o/0" }
    ensures of_operation_awaited { line_for (codes
        "{\"classes\":{\"C\":{\"init\":0,\"ops\":{\"o\":[[\"await\",\"x\",1]]}}}}")
        ≡ codes "shape #/classes/C/ops/o/0" }
    ensures of_operation_all_of { line_for (codes
        "{\"classes\":{\"C\":{\"init\":0,\"ops\":{\"o\":[[\"all\",\"x\",1]]}}}}")
        ≡ codes "shape #/classes/C/ops/o/0" }
    ensures of_operation_any_of { line_for (codes
        "{\"classes\":{\"C\":{\"init\":0,\"ops\":{\"o\":[[\"any\",\"x\",1]]}}}}")
        ≡ codes "shape #/classes/C/ops/o/0" }
    ensures of_operation_signal { line_for (codes
        "{\"classes\":{\"C\":{\"init\":0,\"ops\":{\"o\":[[\"signal\",\"C\",\"k\",\"o\",1]]}}}}")
        ≡ codes "shape #/classes/C/ops/o/0" }
    ensures of_operation_lock { line_for (codes
        "{\"classes\":{\"C\":{\"init\":0,\"ops\":{\"o\":[[\"lock\",[[\"C\",\"k\"]],[]]]}}}}")
        ≡ codes "shape #/classes/C/ops/o/0" }
    ensures of_operation_within { line_for (codes
        "{\"classes\":{\"C\":{\"init\":0,\"ops\":{\"o\":[[\"try\",[],\"e\",[[\"if\",true,[[\"timer\",\"x\",1]],[]]]]]}}}}")
        ≡ codes "shape #/classes/C/ops/o/0/3/0/2/0" }
    ensures of_operation { line_for (codes
        "{\"classes\":{\"C\":{\"init\":0,\"ops\":{\"o\":[[\"let\",\"self\",{\"v\":\"arg\"}],[\"if\",true,[[\"return\",1]],[[\"while\",false,[[\"fail\",\"x\"]]]]],[\"try\",[],\"e\",[]]]}}}}")
        ≡ codes "read" }
{}

/// Bytes that are no JSON, and the deepest that is.
#[tactic(auto, using(crate::proofs::FlowRows::no_json_cut, crate::proofs::FlowRows::no_json_comma, crate::proofs::FlowRows::no_json_surrogate, crate::proofs::FlowRows::no_json_huge, crate::proofs::FlowRows::no_json_empty, crate::proofs::FlowRows::no_json_two, crate::proofs::FlowRows::no_json_leading_zero, crate::proofs::FlowRows::no_json_no_text, crate::proofs::FlowRows::no_json_overlong, crate::proofs::FlowRows::no_json_marked, crate::proofs::FlowRows::no_json_line_feed_in_text, crate::proofs::FlowRows::no_json_nested, crate::proofs::FlowRows::no_json_nested_127))]
pub fn no_json()
    ensures of_cut { line_for (codes "{\"flows\":{}") ≡ codes "not json" }
    ensures of_comma { line_for (codes "{\"flows\":{},}") ≡ codes "not json" }
    ensures of_surrogate { line_for (codes "{\"\\ud800\":0}") ≡ codes "not json" }
    ensures of_huge { line_for (codes "1e400") ≡ codes "not json" }
    ensures of_empty { line_for [] ≡ codes "not json" }
    ensures of_two { line_for (codes "{}{}") ≡ codes "not json" }
    ensures of_leading_zero { line_for (codes "01") ≡ codes "not json" }
    ensures of_no_text { line_for (34 ∷ 255 ∷ 34 ∷ []) ≡ codes "not json" }
    ensures of_overlong { line_for (34 ∷ 192 ∷ 128 ∷ 34 ∷ []) ≡ codes "not json" }
    ensures of_marked { line_for (239 ∷ 187 ∷ 191 ∷ codes "{}") ≡ codes "not json" }
    ensures of_line_feed_in_text { line_for (34 ∷ 10 ∷ 34 ∷ []) ≡ codes "not json" }
    ensures of_nested { line_for (codes
        "[[[[[[[[[[[[[[[[[[[[[[[[[[[[[[[[[[[[[[[[[[[[[[[[[[[[[[[[[[[[[[[[[[[[[[[[[[[[[[[[[[[[[[[[[[[[[[[[[[[[[[[[[[[[[[[[[[[[[[[[[[[[[[[[]]]]]]]]]]]]]]]]]]]]]]]]]]]]]]]]]]]]]]]]]]]]]]]]]]]]]]]]]]]]]]]]]]]]]]]]]]]]]]]]]]]]]]]]]]]]]]]]]]]]]]]]]]]]]]]]]]]]]]]]]]]]]]]]")
        ≡ codes "not json" }
    ensures of_nested_127 { line_for (codes
        "[[[[[[[[[[[[[[[[[[[[[[[[[[[[[[[[[[[[[[[[[[[[[[[[[[[[[[[[[[[[[[[[[[[[[[[[[[[[[[[[[[[[[[[[[[[[[[[[[[[[[[[[[[[[[[[[[[[[[[[[[[[[[[[]]]]]]]]]]]]]]]]]]]]]]]]]]]]]]]]]]]]]]]]]]]]]]]]]]]]]]]]]]]]]]]]]]]]]]]]]]]]]]]]]]]]]]]]]]]]]]]]]]]]]]]]]]]]]]]]]]]]]]]]]]]]]]]")
        ≡ codes "shape #" }
{}
