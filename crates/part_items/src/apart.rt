//! Bytes begin with one spelling of a kind at most: no spelling goes on as another's. It is said of the definitions alone: the
//! functions do nothing.

ghost use Rattle.std.specs.Prelude.{◌≡◌, ℕ, ◌++◌, List};
ghost use Rattle.dura_value.specs.declared.data.Value.{Value};
ghost use Rattle.dura_value.specs.Ids.{Id};
ghost use Rattle.dura_value.specs.Messages.{Message};
ghost use Rattle.dura_codec.specs.Spelling.{spell_value, spell_id, spell_message};
ghost use Rattle.part_items.specs.Fits.{FitsValue, FitsId, FitsMessage};

/// Values whose spellings begin the same bytes are the same, and so is what follows.
#[tactic(auto, using(crate::proofs::Prefixes::value_apart))]
pub fn values_apart()
    ensures { (a b : Value) (more other : List ℕ) → FitsValue a → FitsValue b
        → spell_value a ++ more ≡ spell_value b ++ other → (a ≡ b) × (more ≡ other) }
{}

/// So are ids.
#[tactic(auto, using(crate::proofs::Prefixes::id_apart))]
pub fn ids_apart()
    ensures { (a b : Id) (more other : List ℕ) → FitsId a → FitsId b
        → spell_id a ++ more ≡ spell_id b ++ other → (a ≡ b) × (more ≡ other) }
{}

/// So are messages.
#[tactic(auto, using(crate::proofs::Prefixes::message_apart))]
pub fn messages_apart()
    ensures { (a b : Message) (more other : List ℕ) → FitsMessage a → FitsMessage b
        → spell_message a ++ more ≡ spell_message b ++ other → (a ≡ b) × (more ≡ other) }
{}
