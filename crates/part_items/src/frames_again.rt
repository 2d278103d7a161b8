//! Items, entries and frames that were written are read again, and their spellings stand apart. It is said of the definitions
//! alone: the functions do nothing.

ghost use Rattle.std.specs.Prelude.{◌≡◌, ℕ, ◌∷◌, ◌++◌, List, Ok, Err, length};
ghost use Rattle.dura_value.specs.Items.{Item, Entry};
ghost use Rattle.part_items.specs.Grammar.{item_at, entry_at, frame_in};
ghost use Rattle.part_items.specs.Spelling.{spell_item, spell_entry, spell_frame};
ghost use Rattle.part_items.specs.ItemFits.{FitsItem, FitsEntry, FitsFrame};

/// An item is read again, whatever follows, and so is an entry.
#[tactic(auto, using(crate::proofs::ItemLemmas::item_again, crate::proofs::EntryLemmas::entry_again))]
pub fn items_again()
    ensures item { (item : Item) (rest : List ℕ) → FitsItem item
        → item_at (spell_item item ++ rest) ≡ Ok (item, rest) }
    ensures entry { (entry : Entry) (rest : List ℕ) → FitsEntry entry
        → entry_at (spell_entry entry ++ rest) ≡ Ok (entry, rest) }
{}

/// A frame is read again where nothing follows it; else the fault is at the first byte behind it.
#[tactic(auto, using(crate::proofs::EntryLemmas::frame_again, crate::proofs::EntryLemmas::frame_alone))]
pub fn frames_again()
    ensures again { (entries : List Entry) → FitsFrame entries
        → frame_in (spell_frame entries) ≡ Ok entries }
    ensures alone { (entries : List Entry) (byte : ℕ) (more : List ℕ) → FitsFrame entries
        → frame_in (spell_frame entries ++ byte ∷ more) ≡ Err (length (spell_frame entries)) }
{}

/// Items whose spellings begin the same bytes are the same, and so is what follows; so are frames.
#[tactic(auto, using(crate::proofs::EntryLemmas::item_apart, crate::proofs::EntryLemmas::frame_apart))]
pub fn items_apart()
    ensures item { (a b : Item) (more other : List ℕ) → FitsItem a → FitsItem b
        → spell_item a ++ more ≡ spell_item b ++ other → (a ≡ b) × (more ≡ other) }
    ensures frame { (a b : List Entry) (more other : List ℕ) → FitsFrame a → FitsFrame b
        → spell_frame a ++ more ≡ spell_frame b ++ other → (a ≡ b) × (more ≡ other) }
{}
