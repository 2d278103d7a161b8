//! What comes of packets that are disturbed, by example.

ghost use Rattle.std.specs.Prelude.{◌≡◌, [], ◌∷◌, ◌++◌, replicate};
ghost use Rattle.part_transport.specs.Examples.{four, periods, queue_after, waiting};
ghost use Rattle.part_transport.specs.Lanes.{put_on};

/// Four packets: the third comes behind the fourth, each is held behind the next one, every other one is dropped, or all are; two that each
/// come twice; and one that is held, where the next is dropped or comes twice.
pub fn disturbed()
    ensures plain { queue_after (periods 0 0 0) four ≡ 1 ∷ 2 ∷ 3 ∷ 4 ∷ [] }
    ensures held { queue_after (periods 0 0 3) four ≡ 1 ∷ 2 ∷ 4 ∷ 3 ∷ [] }
    ensures all_held { queue_after (periods 0 0 1) four ≡ 1 ∷ 2 ∷ 3 ∷ [] }
    ensures dropped { queue_after (periods 0 2 0) four ≡ 1 ∷ 3 ∷ [] }
    ensures none { queue_after (periods 0 1 1) four ≡ [] }
    ensures drop_first { queue_after (periods 1 1 1) four ≡ [] }
    ensures hold_first { queue_after (periods 1 0 1) four ≡ 1 ∷ 2 ∷ 3 ∷ [] }
    ensures twice { queue_after (periods 1 0 0) (1 ∷ 2 ∷ []) ≡ 1 ∷ 1 ∷ 2 ∷ 2 ∷ [] }
    ensures held_then_dropped { queue_after (periods 0 3 2) four ≡ 1 ∷ 2 ∷ [] }
    ensures held_then_twice { queue_after (periods 3 0 2) four ≡ 1 ∷ 3 ∷ 3 ∷ 2 ∷ [] }
{}

/// Where 255 wait, one more comes, but not two; where 256 do, none comes, and one may be dropped.
pub fn full()
    ensures one { put_on (periods 0 0 0) 7 (waiting 255)
        ≡ Ok (record { queue = replicate 255 0 ++ 7 ∷ []; puts = 1; held = None }) }
    ensures two { put_on (periods 1 0 0) 7 (waiting 255) ≡ Err 7 }
    ensures none { put_on (periods 0 0 0) 7 (waiting 256) ≡ Err 7 }
    ensures dropped { put_on (periods 0 1 0) 7 (waiting 256)
        ≡ Ok (record { queue = replicate 256 0; puts = 1; held = None }) }
{}
