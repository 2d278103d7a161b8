//! A log's next frame, whose entries are numbered on from those before. It is said of the definitions alone: the function does
//! nothing.

ghost use Rattle.std.specs.Prelude.{◌≡◌, ℕ, List, Ok};
ghost use Rattle.dura_value.specs.Items.{Entry};
ghost use Rattle.part_items.specs.Grammar.{frame_in};
ghost use Rattle.part_items.specs.Numbered.{Next, IsNumbered, next_frame_in};
ghost use Rattle.part_items.specs.Spelling.{spell_frame};
ghost use Rattle.part_items.specs.ItemFits.{FitsFrame};

/// A frame is read with its numbering exactly where it is read without and its entries are numbered. So what was written of
/// numbered entries is read again.
#[tactic(auto, using(crate::proofs::NumberedFrames::numbered_reads, crate::proofs::NumberedFrames::numbered_is, crate::proofs::NumberedFrames::numbered_only, crate::proofs::NumberedFrames::numbered_again))]
pub fn next_frames()
    ensures reads { (next : Next) (bytes : List ℕ) (entries : List Entry)
        → next_frame_in next bytes ≡ Ok entries → frame_in bytes ≡ Ok entries }
    ensures numbered { (next : Next) (bytes : List ℕ) (entries : List Entry)
        → next_frame_in next bytes ≡ Ok entries → IsNumbered next entries }
    ensures only { (next : Next) (bytes : List ℕ) (entries : List Entry)
        → frame_in bytes ≡ Ok entries → IsNumbered next entries
        → next_frame_in next bytes ≡ Ok entries }
    ensures again { (next : Next) (entries : List Entry) → IsNumbered next entries
        → FitsFrame entries → next_frame_in next (spell_frame entries) ≡ Ok entries }
{}
