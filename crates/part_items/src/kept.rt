//! Laws of what a log file keeps. They are said of the definitions alone: the functions do nothing.

ghost use Rattle.std.specs.Prelude.{◌≡◌, ◌↔◌, ℕ, ◌+◌, List, [], ◌∷◌, ◌++◌, length, drop, map, Some, Ok, Err};
ghost use Rattle.std.specs.List.{All, flat_map};
ghost use Rattle.commit_log.specs.declared.header.Header.{Header};
ghost use Rattle.commit_log.specs.Segment.{◌>>=◌ as bind, first_gate, frame_bytes, fresh as is_fresh, segment, reading_of};
ghost use Rattle.commit_log.specs.Frames.{closed, frame, wrong, found_at};
ghost use Rattle.dura_value.specs.Items.{Entry};
ghost use Rattle.part_items.specs.ItemFits.{FitsFrame};
ghost use Rattle.part_items.specs.Kept.{nothing, keeps, in_file, left_from, first_of, kept_in, decoded};
ghost use Rattle.part_items.specs.Logs.{Asked, first_next, logs_in, entries_in};
ghost use Rattle.part_items.specs.Numbered.{Next, behind_all, IsNumbered, next_frame_in};
ghost use Rattle.part_items.specs.Spelling.{spell_frame};

/// What a file keeps from a gate on is what stands there, with what it keeps from the next gate on.
#[tactic(auto, using(crate::proofs::FrameByFrame::left_frame, crate::proofs::FrameByFrame::left_closed, crate::proofs::FrameByFrame::left_wrong))]
pub fn read_frame_by_frame()
    ensures frame { (content : List ℕ) (gate : ℕ) (next : Next) (payload : List ℕ)
        → found_at gate (drop gate content) ≡ frame payload
        → left_from content gate next
        ≡ bind (in_file (gate + 5) (next_frame_in next payload))
        (λ entries. bind (left_from content (gate + 5 + length payload) (behind_all next entries))
        (λ more. Ok (entries ++ more.0, more.1))) }
    ensures closed { (content : List ℕ) (gate : ℕ) (next : Next)
        → found_at gate (drop gate content) ≡ closed → left_from content gate next ≡ Ok ([], gate) }
    ensures wrong { (content : List ℕ) (gate : ℕ) (next : Next) (offset : ℕ)
        → found_at gate (drop gate content) ≡ wrong offset
        → left_from content gate next ≡ Err offset }
{}

/// A log keeps what its payloads are read as.
pub fn payloads_are_kept()
    ensures kept { (partition : ℕ) (bytes : List ℕ) (h : Header) (payloads : List (List ℕ))
        (gate : ℕ) (entries : List Entry) → reading_of bytes ≡ segment h payloads gate
        → h.partition ≡ partition → decoded first_gate (first_of h) payloads ≡ Ok entries
        → kept_in partition bytes ≡ keeps h entries gate }
    ensures only { (partition : ℕ) (bytes : List ℕ) (h : Header) (entries : List Entry) (gate : ℕ)
        → kept_in partition bytes ≡ keeps h entries gate
        → (payloads : List (List ℕ)) × (reading_of bytes ≡ segment h payloads gate)
        × (h.partition ≡ partition) × (decoded first_gate (first_of h) payloads ≡ Ok entries) }
    ensures nothing { (partition : ℕ) (bytes : List ℕ) → (reading_of bytes ≡ is_fresh)
        ↔ (kept_in partition bytes ≡ nothing) }
{}

/// Payloads are decoded one behind the other, and their entries are numbered. What was spelled of numbered entries is decoded
/// again.
pub fn payloads_are_decoded()
    ensures last { (gate : ℕ) (next : Next) (payloads : List (List ℕ)) (payload : List ℕ)
        → decoded gate next (payloads ++ payload ∷ [])
        ≡ bind (decoded gate next payloads)
        (λ entries. bind (in_file (gate + length (flat_map frame_bytes payloads) + 5)
        (next_frame_in (behind_all next entries) payload)) (λ more. Ok (entries ++ more))) }
    ensures numbered { (gate : ℕ) (next : Next) (payloads : List (List ℕ)) (entries : List Entry)
        → decoded gate next payloads ≡ Ok entries → IsNumbered next entries }
    ensures spelled { (gate : ℕ) (next : Next) (frames : List (List Entry)) → All FitsFrame frames
        → IsNumbered next (flat_map (λ frame. frame) frames)
        → decoded gate next (map spell_frame frames) ≡ Ok (flat_map (λ frame. frame) frames) }
    ensures appended { (gate : ℕ) (next : Next) (payloads : List (List ℕ))
        (entries frame : List Entry) → decoded gate next payloads ≡ Ok entries → FitsFrame frame
        → IsNumbered (behind_all next entries) frame
        → decoded gate next (payloads ++ spell_frame frame ∷ []) ≡ Ok (entries ++ frame) }
{}

/// A log goes on behind entries where it goes on behind the last of them, each numbered behind those before.
#[tactic(auto, using(crate::proofs::Behind::behind_both, crate::proofs::Behind::numbered_both))]
pub fn logs_go_on()
    ensures behind { (next : Next) (a b : List Entry)
        → behind_all next (a ++ b) ≡ behind_all (behind_all next a) b }
    ensures numbered { (next : Next) (a b : List Entry) → IsNumbered next (a ++ b)
        ↔ (IsNumbered next a × IsNumbered (behind_all next a) b) }
{}

/// The entries of a partition's log are numbered from the first position on.
pub fn logs_are_numbered()
    ensures { (asked : Asked) (files : ℕ → List ℕ) (entries : List Entry)
        → entries_in (logs_in asked files) ≡ Some entries → IsNumbered first_next entries }
{}
