//! An instance, and what a delivery or an event made of it.

use dura_value::Message;
use flow_machine::Machine;
use flow_messages::Asked;
use part_rows::Waiting;

/// An instance: its machine, and who waits for its end.
#[derive(Drop)]
pub(crate) struct Instance<'f> {
    /// Its machine.
    pub machine: Machine<'f>,
    /// Who waits for its end, the longest waiting first.
    pub waiting: Vec<Waiting>,
}

/// What a delivery or an event made.
#[derive(Drop)]
pub(crate) struct Effect<'f> {
    /// The instance, or none where it isn't there.
    pub instance: Option<Instance<'f>>,
    /// What is sent, in this order.
    pub sent: Vec<Message>,
    /// What was asked for.
    pub asked: Vec<Asked>,
    /// Whether its pending activities and timers are given up.
    pub gives_up: bool,
}
