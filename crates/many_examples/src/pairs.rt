//! Two partitions and three, by example.

ghost use Rattle.std.specs.Prelude.{◌≡◌, List, [], ◌∷◌, ◌++◌, map, true, false, Some, None};
ghost use Rattle.flow_syntax.specs.Syntax.{Flows};
ghost use Rattle.many_logs.specs.Placing.{frames_in_order};
ghost use Rattle.many_logs.specs.Unplaced.{illegal, unclosed};
ghost use Rattle.many_examples.specs.Pairs.{request, entry_at, first_entry, logs_with, left_of, reason_of, emptied, astray, let_go_early, taking, coming_in, letting_go, positions, sent_first, stands_first, of_g, of_a, of_c, orders, frames};
ghost use Rattle.dura_value.specs.Items.{got, trim};

/// None is left of two logs whose entries stand on one another; where another message came in than was sent, it is left, and what
/// stands on it.
pub fn two_logs()
    ensures none { (flows : Flows) → left_of flows (logs_with (request 1)) ≡ [] ∷ [] ∷ [] }
    ensures no_reason { (flows : Flows) → reason_of flows (logs_with (request 1)) ≡ None }
    ensures other { (flows : Flows) → left_of flows (logs_with (request 2))
        ≡ (entry_at 0 (got (first_entry 1) 0 (request 2)) ∷ [])
        ∷ (entry_at 1 (trim (first_entry 0) 1) ∷ []) ∷ [] }
    ensures other_reason { (flows : Flows) → reason_of flows (logs_with (request 2))
        ≡ Some (unclosed 0 0 1 0) }
{}

/// A log that was emptied leaves what another took in from it; a request of a client who lives elsewhere is illegal by itself; and
/// what was let go before it was read isn't closed either.
pub fn reasons()
    ensures emptied { (flows : Flows) → reason_of flows emptied ≡ Some (unclosed 1 0 0 0) }
    ensures astray { (flows : Flows) → reason_of flows astray ≡ Some (illegal 0 0) }
    ensures early { (flows : Flows) → reason_of flows let_go_early ≡ Some (unclosed 1 1 0 1) }
{}

/// A message is let go once it was read, and not before. Its second arrival is refused, though the stream that begins behind it has
/// sent it.
pub fn streams()
    ensures early { (flows : Flows) → positions flows 2 (0 ∷ 1 ∷ []) (taking ∷ letting_go ∷ [])
        ≡ None }
    ensures in_turn { (flows : Flows) → positions flows 2 (0 ∷ 1 ∷ [])
        (taking ∷ coming_in 0 ∷ letting_go ∷ []) ≡ Some (1 ∷ 2 ∷ []) }
    ensures unsent { (flows : Flows) → positions flows 2 (0 ∷ 1 ∷ []) (coming_in 0 ∷ []) ≡ None }
    ensures again { (flows : Flows) → positions flows 2 (0 ∷ 1 ∷ [])
        (taking ∷ coming_in 0 ∷ letting_go ∷ coming_in 1 ∷ []) ≡ None }
    ensures stands { (flows : Flows) → stands_first flows (taking ∷ coming_in 0 ∷ []) ≡ Some true }
    ensures sent { (flows : Flows) → sent_first flows (taking ∷ coming_in 0 ∷ letting_go ∷ [])
        ≡ Some true }
    ensures gone { (flows : Flows) → stands_first flows (taking ∷ coming_in 0 ∷ letting_go ∷ [])
        ≡ Some false }
    ensures not_yet { (flows : Flows) → sent_first flows [] ≡ Some false }
{}

/// Three partitions come to the same in every order.
pub fn every_order()
    ensures { (flows : Flows) → map (positions flows 3 (0 ∷ 1 ∷ 2 ∷ [])) orders
        ≡ Some (1 ∷ 1 ∷ 1 ∷ []) ∷ Some (1 ∷ 1 ∷ 1 ∷ []) ∷ Some (1 ∷ 1 ∷ 1 ∷ [])
        ∷ Some (1 ∷ 1 ∷ 1 ∷ []) ∷ Some (1 ∷ 1 ∷ 1 ∷ []) ∷ Some (1 ∷ 1 ∷ 1 ∷ []) ∷ [] }
{}

/// Of two frames under way a crash leaves either, both or none, as their gates are open or closed; what is left is accepted in each
/// of the four ways.
pub fn four_ways()
    ensures closed { (flows : Flows) → positions flows 2 (0 ∷ 1 ∷ [])
        (taking ∷ frames_in_order 2 (frames false false)) ≡ Some (0 ∷ 1 ∷ []) }
    ensures first { (flows : Flows) → positions flows 2 (0 ∷ 1 ∷ [])
        (taking ∷ frames_in_order 2 (frames true false)) ≡ Some (1 ∷ 1 ∷ []) }
    ensures second { (flows : Flows) → positions flows 2 (0 ∷ 1 ∷ [])
        (taking ∷ frames_in_order 2 (frames false true)) ≡ Some (0 ∷ 2 ∷ []) }
    ensures both { (flows : Flows) → positions flows 2 (0 ∷ 1 ∷ [])
        (taking ∷ frames_in_order 2 (frames true true)) ≡ Some (1 ∷ 2 ∷ []) }
{}
