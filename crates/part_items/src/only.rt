//! Nothing is read but what is spelled: what was read is spelled by the bytes that it was read from. It is said of the definitions
//! alone: the functions do nothing.

ghost use Rattle.std.specs.Prelude.{◌≡◌, ℕ, ◌++◌, List, Ok};
ghost use Rattle.dura_value.specs.declared.data.Scalar.{Scalar};
ghost use Rattle.dura_value.specs.declared.data.Value.{Value};
ghost use Rattle.dura_value.specs.declared.outcome.Outcome.{Outcome};
ghost use Rattle.dura_value.specs.Ids.{Id};
ghost use Rattle.dura_value.specs.Messages.{Reply, Answer, Spot, Body, Message};
ghost use Rattle.dura_value.specs.Items.{Item, Entry};
ghost use Rattle.dura_codec.specs.Grammar.{name_at, key_at, text_at, scalar_at, value_at, id_at, reply_at, answer_at, outcome_at, spot_at, body_at, message_at};
ghost use Rattle.dura_codec.specs.Spelling.{spell_word, spell_text, spell_scalar, spell_value, spell_id, spell_reply, spell_answer, spell_outcome, spell_spot, spell_body, spell_message};
ghost use Rattle.part_items.specs.Grammar.{item_at, entry_at, frame_in};
ghost use Rattle.part_items.specs.Spelling.{spell_item, spell_entry, spell_frame};
ghost use Rattle.part_items.specs.Fits.{AreBytes};

/// Values and their parts.
#[tactic(auto, using(crate::proofs::OnlyValues::name_only, crate::proofs::OnlyValues::key_only, crate::proofs::OnlyValues::text_only, crate::proofs::OnlyValues::scalar_only, crate::proofs::OnlyValues::value_only))]
pub fn values_only()
    ensures name { (bytes : List ℕ) (read : List ℕ × List ℕ) → AreBytes bytes
        → name_at bytes ≡ Ok read → bytes ≡ spell_word read.0 ++ read.1 }
    ensures key { (bytes : List ℕ) (read : List ℕ × List ℕ) → AreBytes bytes
        → key_at bytes ≡ Ok read → bytes ≡ spell_word read.0 ++ read.1 }
    ensures text { (bytes : List ℕ) (read : List ℕ × List ℕ) → AreBytes bytes
        → text_at bytes ≡ Ok read → bytes ≡ spell_text read.0 ++ read.1 }
    ensures scalar { (bytes : List ℕ) (read : Scalar × List ℕ) → AreBytes bytes
        → scalar_at bytes ≡ Ok read → bytes ≡ spell_scalar read.0 ++ read.1 }
    ensures value { (bytes : List ℕ) (read : Value × List ℕ) → AreBytes bytes
        → value_at bytes ≡ Ok read → bytes ≡ spell_value read.0 ++ read.1 }
{}

/// Messages and their parts.
#[tactic(auto, using(crate::proofs::OnlyMessages::id_only, crate::proofs::OnlyMessages::reply_only, crate::proofs::OnlyMessages::answer_only, crate::proofs::OnlyMessages::outcome_only, crate::proofs::OnlyMessages::spot_only, crate::proofs::OnlyMessages::body_only, crate::proofs::OnlyMessages::message_only))]
pub fn messages_only()
    ensures id { (bytes : List ℕ) (read : Id × List ℕ) → AreBytes bytes → id_at bytes ≡ Ok read
        → bytes ≡ spell_id read.0 ++ read.1 }
    ensures reply { (bytes : List ℕ) (read : Reply × List ℕ) → AreBytes bytes
        → reply_at bytes ≡ Ok read → bytes ≡ spell_reply read.0 ++ read.1 }
    ensures answer { (bytes : List ℕ) (read : Answer × List ℕ) → AreBytes bytes
        → answer_at bytes ≡ Ok read → bytes ≡ spell_answer read.0 ++ read.1 }
    ensures outcome { (bytes : List ℕ) (read : Outcome × List ℕ) → AreBytes bytes
        → outcome_at bytes ≡ Ok read → bytes ≡ spell_outcome read.0 ++ read.1 }
    ensures spot { (bytes : List ℕ) (read : Spot × List ℕ) → AreBytes bytes
        → spot_at bytes ≡ Ok read → bytes ≡ spell_spot read.0 ++ read.1 }
    ensures body { (bytes : List ℕ) (read : Body × List ℕ) → AreBytes bytes
        → body_at bytes ≡ Ok read → bytes ≡ spell_body read.0 ++ read.1 }
    ensures message { (bytes : List ℕ) (read : Message × List ℕ) → AreBytes bytes
        → message_at bytes ≡ Ok read → bytes ≡ spell_message read.0 ++ read.1 }
{}

/// Items, entries and frames.
#[tactic(auto, using(crate::proofs::OnlyItems::item_only, crate::proofs::OnlyItems::entry_only, crate::proofs::OnlyItems::frame_only))]
pub fn frames_only()
    ensures item { (bytes : List ℕ) (read : Item × List ℕ) → AreBytes bytes
        → item_at bytes ≡ Ok read → bytes ≡ spell_item read.0 ++ read.1 }
    ensures entry { (bytes : List ℕ) (read : Entry × List ℕ) → AreBytes bytes
        → entry_at bytes ≡ Ok read → bytes ≡ spell_entry read.0 ++ read.1 }
    ensures frame { (bytes : List ℕ) (entries : List Entry) → AreBytes bytes
        → frame_in bytes ≡ Ok entries → bytes ≡ spell_frame entries }
{}
