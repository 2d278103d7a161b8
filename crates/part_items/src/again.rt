//! What was written is read again, whatever follows. It is said of the definitions alone: the functions do nothing.

ghost use Rattle.std.specs.Prelude.{◌≡◌, ℕ, ◌++◌, List, Ok, true};
ghost use Rattle.dura_value.specs.declared.data.Scalar.{Scalar};
ghost use Rattle.dura_value.specs.declared.data.Value.{Value};
ghost use Rattle.dura_value.specs.declared.outcome.Outcome.{Outcome};
ghost use Rattle.dura_value.specs.Ids.{Id};
ghost use Rattle.dura_value.specs.Messages.{Reply, Answer, Spot, Body, Message};
ghost use Rattle.dura_value.specs.Names.{is_name, is_key};
ghost use Rattle.dura_value.specs.Text.{IsText};
ghost use Rattle.dura_codec.specs.Spelling.{spell_word, spell_text, spell_scalar, spell_value, spell_id, spell_reply, spell_answer, spell_outcome, spell_spot, spell_body, spell_message};
ghost use Rattle.dura_codec.specs.Grammar.{name_at, key_at, text_at, scalar_at, value_at, id_at, reply_at, answer_at, outcome_at, spot_at, body_at, message_at};
ghost use Rattle.part_items.specs.Fits.{FitsScalar, FitsValue, FitsId, FitsReply, FitsAnswer, FitsOutcome, FitsSpot, FitsBody, FitsMessage};

/// Names, keys and texts are read again.
#[tactic(auto, using(crate::proofs::Words::name_again, crate::proofs::Words::key_again, crate::proofs::Words::text_again))]
pub fn words_again()
    ensures name { (name rest : List ℕ) → is_name name ≡ true
        → name_at (spell_word name ++ rest) ≡ Ok (name, rest) }
    ensures key { (key rest : List ℕ) → is_key key ≡ true
        → key_at (spell_word key ++ rest) ≡ Ok (key, rest) }
    ensures text { (text rest : List ℕ) → IsText text
        → text_at (spell_text text ++ rest) ≡ Ok (text, rest) }
{}

/// A scalar is read again, and so is a value.
#[tactic(auto, using(crate::proofs::Values::scalar_again, crate::proofs::Values::value_again))]
pub fn values_again()
    ensures scalar { (scalar : Scalar) (rest : List ℕ) → FitsScalar scalar
        → scalar_at (spell_scalar scalar ++ rest) ≡ Ok (scalar, rest) }
    ensures value { (value : Value) (rest : List ℕ) → FitsValue value
        → value_at (spell_value value ++ rest) ≡ Ok (value, rest) }
{}

/// An id is read again, and so is who is answered.
#[tactic(auto, using(crate::proofs::Ids::id_again, crate::proofs::Ids::reply_again))]
pub fn ids_again()
    ensures id { (id : Id) (rest : List ℕ) → FitsId id
        → id_at (spell_id id ++ rest) ≡ Ok (id, rest) }
    ensures reply { (reply : Reply) (rest : List ℕ) → FitsReply reply
        → reply_at (spell_reply reply ++ rest) ≡ Ok (reply, rest) }
{}

/// A message is read again, and so are its parts.
#[tactic(auto, using(crate::proofs::Messages::answer_again, crate::proofs::Messages::outcome_again, crate::proofs::Messages::spot_again, crate::proofs::Messages::body_again, crate::proofs::Messages::message_again))]
pub fn messages_again()
    ensures answer { (answer : Answer) (rest : List ℕ) → FitsAnswer answer
        → answer_at (spell_answer answer ++ rest) ≡ Ok (answer, rest) }
    ensures outcome { (outcome : Outcome) (rest : List ℕ) → FitsOutcome outcome
        → outcome_at (spell_outcome outcome ++ rest) ≡ Ok (outcome, rest) }
    ensures spot { (spot : Spot) (rest : List ℕ) → FitsSpot spot
        → spot_at (spell_spot spot ++ rest) ≡ Ok (spot, rest) }
    ensures body { (body : Body) (rest : List ℕ) → FitsBody body
        → body_at (spell_body body ++ rest) ≡ Ok (body, rest) }
    ensures message { (message : Message) (rest : List ℕ) → FitsMessage message
        → message_at (spell_message message ++ rest) ≡ Ok (message, rest) }
{}
