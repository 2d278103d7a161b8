//! Copies of messages and of what they say.

ghost use Rattle.std.specs.Prelude.{◌≡◌, IfOk};

use dura_value::{Answer, Body, Message};
use flow_messages::{copy_id, copy_name, copy_reply, copy_spots, copy_value};
use std::alloc::AllocError;

/// A copy of an answer.
pub fn copy_answer(answer: &Answer) -> Result<Answer, AllocError>
    ensures { IfOk result (λ copy. copy ≡ answer.now) }
{
    answer.clone()
}

/// A copy of what a message says.
fn copy_body(body: &Body) -> Result<Body, AllocError>
    ensures { IfOk result (λ copy. copy ≡ body.now) }
{
    Ok(match body {
        Body::Start(argument, reply) => Body::Start(copy_value(argument)?, copy_reply(reply)),
        Body::Raise(name, value, number) => Body::Raise(
            copy_name(name)?,
            copy_value(value)?,
            *number,
        ),
        Body::Query(number) => Body::Query(*number),
        Body::Wait(number) => Body::Wait(*number),
        Body::Result(reply, answer) => Body::Result(copy_reply(reply), copy_answer(answer)?),
        Body::Op(name, argument, reply) => {
            Body::Op(copy_name(name)?, copy_value(argument)?, copy_reply(reply))
        }
        Body::Lock(id, task, set, index) => {
            Body::Lock(copy_id(id)?, *task, copy_spots(set)?, *index)
        }
        Body::Granted(task) => Body::Granted(*task),
        Body::Release => Body::Release,
    })
}

/// A copy of a message.
pub fn copy_message(message: &Message) -> Result<Message, AllocError>
    ensures { IfOk result (λ copy. copy ≡ message.now) }
{
    Ok(Message {
        from: copy_id(&message.from)?,
        to: copy_id(&message.to)?,
        body: copy_body(&message.body)?,
    })
}
