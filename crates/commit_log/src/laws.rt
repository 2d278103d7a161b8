// Laws of the definitions. Each is the contract of a function that does nothing.
ghost use Rattle.std.specs.Prelude.{◌≡◌, ◌+◌, ◌<◌, ◌^◌, ℕ, List, length, drop};
ghost use Rattle.commit_log.specs.declared.header.Header.{Header};
ghost use Rattle.commit_log.specs.Segment.{reading_of, segment, damaged};
ghost use Rattle.commit_log.specs.Frames.{closed, wrong, found_at, HasRead};

/// Reading frame by frame comes to what reading the whole file does: at a closed gate to the segment before it, and
/// at a gate with no whole frame to the same damage.
pub fn the_frames_are_the_whole()
    ensures ends { (content : List ℕ) (header : Header) (payloads : List (List ℕ)) (gate : ℕ)
        → HasRead content header payloads gate → gate + 1 < 2 ^ 31
        → found_at gate (drop gate content) ≡ closed
        → reading_of content ≡ segment header payloads gate }
    ensures breaks { (content : List ℕ) (header : Header) (payloads : List (List ℕ))
        (gate offset : ℕ) → HasRead content header payloads gate → gate + 1 < 2 ^ 31
        → gate < length content → found_at gate (drop gate content) ≡ wrong offset
        → reading_of content ≡ damaged offset }
{}
