//! When messages are the same, by their plain data.

ghost use Rattle.std.specs.Prelude.{◌≡◌, ◌↔◌, true};
ghost use Rattle.dura_value.specs.Messages.{Message as PlainMessage};
ghost use Rattle.dura_value.specs.Same.{message_eq};
ghost use Rattle.dura_value.specs.Views.{message_of};

use crate::messages::Message;

/// Whether two messages say the same, from the same sender to the same receiver.
pub fn is_same_message(one: &Message, other: &Message) -> bool
    ensures { result ≡ message_eq (message_of one.now) (message_of other.now) }
{
    one == other
}

/// Messages that are said to be the same are, and only those.
#[tactic(auto, using(crate::proofs::Same::message_same))]
pub fn same_messages()
    ensures { (a b : PlainMessage) → message_eq a b ≡ true → a ≡ b }
{}
