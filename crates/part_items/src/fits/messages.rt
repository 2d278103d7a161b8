//! Which messages are within the limits of the format.

ghost use Rattle.std.specs.List.{All};
ghost use Rattle.std.specs.Bool.{Decides};
ghost use Rattle.dura_value.specs.Views.{id_of, reply_of, answer_of, spot_of, spots_of, body_of, message_of};
ghost use Rattle.part_items.specs.Fits.{FitsId, FitsRequest, FitsReply, FitsAnswer, FitsOutcome, FitsSpot, FitsBody, FitsMessage};

use crate::fits::values::value_fits;
use dura_value::{Answer, Body, Id, Message, Outcome, Reply, SPOTS_LIMIT, Spot};

/// No id passes a limit, since its names and its key don't.
pub(crate) fn every_id_fits(id: &Id)
    ensures { FitsId (id_of id.now) }
{
    match id {
        Id::Client(name) => {
            let _ = name.as_bytes();
        }
        Id::Entity(class, key) => {
            let _ = class.as_bytes();
            let _ = key.as_bytes();
        }
        Id::Flow(flow, key) => {
            let _ = flow.as_bytes();
            let _ = key.as_bytes();
        }
    }
}

/// No entity passes a limit either.
fn every_spot_fits(spot: &Spot)
    ensures { FitsSpot (spot_of spot.now) }
{
    let _ = spot.class.as_bytes();
    let _ = spot.key.as_bytes();
}

fn all_spots_fit(spots: &[Spot])
    ensures { All FitsSpot (spots_of spots.now) }
{
    for spot in spots {
        every_spot_fits(spot);
    }
}

/// A request's number isn't 0.
fn request_fits(number: u32) -> bool
    ensures { Decides result (FitsRequest number) }
{
    number != 0
}

fn reply_fits(reply: &Reply) -> bool
    ensures { Decides result (FitsReply (reply_of reply.now)) }
{
    match reply {
        Reply::None => true,
        Reply::Task(number) => {
            let _number = *number;
            true
        }
        Reply::Request(number) => request_fits(*number),
    }
}

fn answer_fits(answer: &Answer) -> bool
    ensures { Decides result (FitsAnswer (answer_of answer.now)) }
{
    match answer {
        Answer::Done(value) => value_fits(value),
        Answer::Failed(text) => {
            let _ = text.as_bytes();
            true
        }
        Answer::Started => true,
        Answer::Exists => true,
        Answer::Unknown => true,
        Answer::Raised => true,
        Answer::Ended => true,
        Answer::None => true,
        Answer::Running => true,
        Answer::Value(value) => value_fits(value),
    }
}

pub(crate) fn outcome_fits(outcome: &Outcome) -> bool
    ensures { Decides result (FitsOutcome outcome.now) }
{
    match outcome {
        Outcome::Done(value) => value_fits(value),
        Outcome::Failed(text) => {
            let _ = text.as_bytes();
            true
        }
    }
}

fn body_fits(body: &Body) -> bool
    ensures { Decides result (FitsBody (body_of body.now)) }
{
    match body {
        Body::Start(argument, reply) => value_fits(argument) && reply_fits(reply),
        Body::Raise(event, value, number) => {
            let _ = event.as_bytes();
            value_fits(value) && request_fits(*number)
        }
        Body::Query(number) => request_fits(*number),
        Body::Wait(number) => request_fits(*number),
        Body::Result(reply, answer) => reply_fits(reply) && answer_fits(answer),
        Body::Op(operation, argument, reply) => {
            let _ = operation.as_bytes();
            value_fits(argument) && reply_fits(reply)
        }
        Body::Lock(id, task, set, _) => {
            let set = set.as_slice();
            let _task = *task;
            every_id_fits(id);
            all_spots_fit(set);
            set.len() <= SPOTS_LIMIT
        }
        Body::Granted(task) => {
            let _task = *task;
            true
        }
        Body::Release => true,
    }
}

pub(crate) fn message_fits(message: &Message) -> bool
    ensures { Decides result (FitsMessage (message_of message.now)) }
{
    every_id_fits(&message.from);
    every_id_fits(&message.to);
    body_fits(&message.body)
}
