//! What is within the limits of the format may be handed to the writers. It is said of the definitions alone: the function does
//! nothing.

ghost use Rattle.std.specs.Prelude.{List};
ghost use Rattle.dura_value.specs.declared.data.Value.{Value};
ghost use Rattle.dura_value.specs.declared.outcome.Outcome.{Outcome};
ghost use Rattle.dura_value.specs.Messages.{Answer, Body};
ghost use Rattle.dura_value.specs.Items.{Entry};
ghost use Rattle.dura_codec.specs.Spelling.{CanSpell, CanSpellAnswer, CanSpellOutcome, CanSpellBody};
ghost use Rattle.part_items.specs.Spelling.{CanSpellFrame};
ghost use Rattle.part_items.specs.Fits.{FitsValue, FitsAnswer, FitsOutcome, FitsBody};
ghost use Rattle.part_items.specs.ItemFits.{FitsFrame};

/// Values, answers, outcomes, bodies and frames.
#[tactic(auto, using(crate::proofs::Writable::value_writable, crate::proofs::Writable::answer_writable, crate::proofs::Writable::outcome_writable, crate::proofs::Writable::body_writable, crate::proofs::Writable::frame_writable))]
pub fn all_may_be_written()
    ensures value { (value : Value) → FitsValue value → CanSpell value }
    ensures answer { (answer : Answer) → FitsAnswer answer → CanSpellAnswer answer }
    ensures outcome { (outcome : Outcome) → FitsOutcome outcome → CanSpellOutcome outcome }
    ensures body { (body : Body) → FitsBody body → CanSpellBody body }
    ensures frame { (entries : List Entry) → FitsFrame entries → CanSpellFrame entries }
{}
