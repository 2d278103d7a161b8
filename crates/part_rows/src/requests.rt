//! Requests of clients that were taken, and their answers.

ghost use Rattle.std.specs.Prelude.{◌≡◌, ◌<◌, Some, OnOk, IfOk, is_some};
ghost use Rattle.dura_value.specs.Views.{id_of, answer_of, body_of, message_of};
ghost use Rattle.dura_value.specs.ById.{at_number};
ghost use Rattle.dura_model.specs.Partition.{client_received};
ghost use Rattle.dura_model.specs.Steps.{number_in, is_asking, is_request};
ghost use Rattle.part_rows.specs.Accepts.{Accepts, accepted_request};
ghost use Rattle.part_rows.specs.Parts.{part_of};

use crate::copies::{copy_answer, copy_message};
use crate::parts::PartRows;
use dura_value::{Answer, Body, Id, Message, Reply, home, with};
use flow_messages::copy_id;
use std::alloc::{AllocError, Global};

impl PartRows {
    /// Whether a request of a client was taken.
    pub fn has_taken(&self, client: &Id, number: u32) -> bool
        ensures { result ≡ is_some ((part_of self.now).taken (id_of client.now) number) }
    {
        self.taken.get(client, number).is_some()
    }

    /// A request of a client was taken.
    fn put_taken(
        &mut self,
        alloc: Global,
        client: &Id,
        number: u32,
        message: Message,
    ) -> Result<(), AllocError>
        ensures put { OnOk result (part_of self.new
            ≡ record (part_of self.old) {
              taken = at_number (part_of self.old).taken (id_of client.now) number
                  (Some (message_of message));
            }) }
        ensures timers { self.new.timers ≡ self.old.timers }
        ensures partitions { self.new.partitions ≡ self.old.partitions }
    {
        let (client, message) = with(copy_id(client), message)?;
        self.taken.put(alloc, client, number, message)?;
        Ok(())
    }

    /// A request of a client has its answer.
    fn put_answer(
        &mut self,
        alloc: Global,
        client: &Id,
        number: u32,
        answer: Answer,
    ) -> Result<(), AllocError>
        ensures put { OnOk result (part_of self.new
            ≡ record (part_of self.old) {
              answers = at_number (part_of self.old).answers (id_of client.now) number
                  (Some (answer_of answer));
            }) }
        ensures timers { self.new.timers ≡ self.old.timers }
        ensures partitions { self.new.partitions ≡ self.old.partitions }
    {
        let (client, answer) = with(copy_id(client), answer)?;
        self.answers.put(alloc, client, number, answer)?;
        Ok(())
    }

    /// A request of a client who lives here is taken, once; anything else is refused.
    pub fn take(&mut self, alloc: Global, message: &Message) -> Result<bool, AllocError>
        requires { 0 < self.old.partitions }
        ensures accepts { IfOk result (λ yes.
            Accepts yes (part_of self.old) (part_of self.new)
            (accepted_request self.old.partitions (part_of self.old) (message_of message.now))) }
        ensures timers { self.new.timers ≡ self.old.timers }
        ensures partitions { self.new.partitions ≡ self.old.partitions }
    {
        let number = number_in(&message.body);
        if home(&message.from, self.partitions) != self.number || !is_request(message) {
            return Ok(false);
        }
        if self.has_taken(&message.from, number) {
            return Ok(false);
        }
        self.put_taken(alloc, &message.from, number, copy_message(message)?)?;
        self.post(alloc, copy_message(message)?)?;
        Ok(true)
    }

    /// A message reaches a client: the answer to a request that was taken is kept.
    pub fn receive(&mut self, alloc: Global, to: &Id, body: &Body) -> Result<(), AllocError>
        ensures received { OnOk result (part_of self.new
            ≡ client_received (part_of self.old) (id_of to.now) (body_of body.now)) }
        ensures timers { self.new.timers ≡ self.old.timers }
        ensures partitions { self.new.partitions ≡ self.old.partitions }
    {
        if let Body::Result(Reply::Request(number), answer) = body {
            if self.has_taken(to, *number) {
                self.put_answer(alloc, to, *number, copy_answer(answer)?)?;
            }
        }
        Ok(())
    }
}

/// The number of a request, and 0 of what is none.
pub fn number_in(body: &Body) -> u32
    ensures { result ≡ number_in (body_of body.now) }
{
    match body {
        Body::Start(_, Reply::Request(number))
        | Body::Raise(_, _, number)
        | Body::Query(number)
        | Body::Wait(number) => *number,
        _ => 0,
    }
}

/// Whether clients send this, and to such a receiver.
fn is_asking(body: &Body, to: &Id) -> bool
    ensures { result ≡ is_asking (body_of body.now) (id_of to.now) }
{
    match body {
        Body::Start(_, Reply::Request(_)) | Body::Raise(_, _, _) | Body::Wait(_) => {
            matches!(to, Id::Flow(_, _))
        }
        Body::Query(_) => matches!(to, Id::Flow(_, _) | Id::Entity(_, _)),
        _ => false,
    }
}

/// Whether a message is a request of the client that sends it.
fn is_request(message: &Message) -> bool
    ensures { result ≡ is_request (id_of message.now.from) (number_in (body_of message.now.body))
        (message_of message.now) }
{
    matches!(message.from, Id::Client(_))
        && is_asking(&message.body, &message.to)
        && number_in(&message.body) >= 1
}
