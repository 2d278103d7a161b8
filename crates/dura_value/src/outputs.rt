//! What a step makes for the outside.

ghost use Rattle.std.specs.Prelude.{◌≡◌};

use crate::messages::{Answer, Message};
use crate::names::Name;
use std::marker::Model;

/// Messages in the order in which they were made, which a contract sees as a list.
#[derive(Drop)]
pub struct Messages {
    items: Vec<Message>,
}

impl Model for Messages {
    ghost use Rattle.std.specs.Prelude.{List};
    ghost use Rattle.dura_value.specs.declared.messages.Message.{Message};

    ghost Value = { List Message };

    ghost view = { λ m. m.items.items };
}

impl Messages {
    /// A list of these messages, in this order.
    pub fn of(items: Vec<Message>) -> Messages
        ensures { result ≡ items.items }
    {
        Messages { items }
    }

    /// The messages, where they lie.
    pub fn as_slice(&self) -> &[Message]
        ensures { result.now ≡ self.now }
    {
        &self.items
    }
}

/// The answer to a client's request.
#[derive(Drop)]
pub struct Answered {
    /// Whose request it is.
    pub client: Name,
    /// The request's number among the client's.
    pub number: u32,
    /// What it is answered.
    pub answer: Answer,
}

/// Answers in the order in which they came, which a contract sees as a list.
#[derive(Drop)]
pub struct Answers {
    items: Vec<Answered>,
}

impl Model for Answers {
    ghost use Rattle.std.specs.Prelude.{List};
    ghost use Rattle.dura_value.specs.declared.outputs.Answered.{Answered};

    ghost Value = { List Answered };

    ghost view = { λ a. a.items.items };
}

impl Answers {
    /// A list of these answers, in this order.
    pub fn of(items: Vec<Answered>) -> Answers
        ensures { result ≡ items.items }
    {
        Answers { items }
    }

    /// The answers, where they lie.
    pub fn as_slice(&self) -> &[Answered]
        ensures { result.now ≡ self.now }
    {
        &self.items
    }
}

/// What a step makes for the outside: messages, and answers to requests of clients.
#[derive(Drop)]
pub struct Outputs {
    /// What it sends.
    pub messages: Messages,
    /// The answers that came.
    pub answers: Answers,
}

impl Outputs {
    /// Lets go of them. Where another crate drops them, the drop of each of their parts is proved there once more.
    pub fn let_go(self) {
        drop(self);
    }
}
