//! The messages that answer who asked.

ghost use Rattle.std.specs.Prelude.{◌≡◌, ◌++◌, ◌∷◌, [], length, ◌≤◌, IfOk, OnOk};
ghost use Rattle.dura_value.specs.Messages.{to_task, to_request, result as said_result, has_failed};
ghost use Rattle.dura_value.specs.Views.{id_of, reply_of, answer_of, message_of, messages_of};
ghost use Rattle.dura_model.specs.Deliveries.{telling, refusing, beginning, answering_all};
ghost use Rattle.part_rows.specs.Reactions.{waits_of};

use dura_value::{Answer, Body, Id, Message, Reply, with};
use flow_messages::{copy_id, word_text};
use part_rows::{Waiting, copy_answer};
use std::alloc::{AllocError, Global};

/// The answer to a client's request.
pub(crate) fn answer_request(
    from: &Id,
    to: &Id,
    number: u32,
    answer: Answer,
) -> Result<Message, AllocError>
    ensures { IfOk result (λ message. message_of message
        ≡ record {
          from = id_of from.now;
          to = id_of to.now;
          body = said_result (to_request number)
              (answer_of answer);
        }) }
{
    let (from, answer) = with(copy_id(from), answer)?;
    let (to, (from, answer)) = with(copy_id(to), (from, answer))?;
    Ok(Message {
        from,
        to,
        body: Body::Result(Reply::Request(number), answer),
    })
}

/// The answer to a client's request, alone.
pub(crate) fn tell(
    alloc: Global,
    from: &Id,
    to: &Id,
    number: u32,
    answer: Answer,
) -> Result<Vec<Message>, AllocError>
    ensures { IfOk result (λ sent. messages_of sent.items
        ≡ telling (id_of from.now) (id_of to.now) number (answer_of answer)) }
{
    let message = answer_request(from, to, number, answer)?;
    let mut sent = Vec::new(alloc);
    sent.push(message)?;
    Ok(sent)
}

/// The failure that a task is answered with, alone.
fn fail_task(
    alloc: Global,
    from: &Id,
    to: &Id,
    number: u32,
    failure: &str,
) -> Result<Vec<Message>, AllocError>
    requires { length failure.now ≤ 4096 }
    ensures { IfOk result (λ sent. messages_of sent.items
        ≡ record {
          from = id_of from.now;
          to = id_of to.now;
          body = said_result (to_task number)
              (has_failed failure.now);
        } ∷ []) }
{
    let answer = Answer::Failed(word_text(alloc, failure)?);
    let (from, answer) = with(copy_id(from), answer)?;
    let (to, (from, answer)) = with(copy_id(to), (from, answer))?;
    let mut sent = Vec::new(alloc);
    sent.push(Message {
        from,
        to,
        body: Body::Result(Reply::Task(number), answer),
    })?;
    Ok(sent)
}

/// The answer to a start of what can't begin. To a task it is a failure.
pub(crate) fn refuse(
    alloc: Global,
    from: &Id,
    to: &Id,
    reply: &Reply,
    answer: Answer,
    failure: &str,
) -> Result<Vec<Message>, AllocError>
    requires { length failure.now ≤ 4096 }
    ensures { IfOk result (λ sent. messages_of sent.items
        ≡ refusing (id_of from.now) (id_of to.now) (reply_of reply.now) (answer_of answer)
        failure.now) }
{
    match reply {
        Reply::None => {
            drop(answer);
            Ok(Vec::new(alloc))
        }
        Reply::Task(number) => {
            drop(answer);
            fail_task(alloc, from, to, *number, failure)
        }
        Reply::Request(number) => tell(alloc, from, to, *number, answer),
    }
}

/// A client is told that its instance began.
pub(crate) fn begin(
    alloc: Global,
    from: &Id,
    to: &Id,
    reply: &Reply,
) -> Result<Vec<Message>, AllocError>
    ensures { IfOk result (λ sent. messages_of sent.items
        ≡ beginning (id_of from.now) (id_of to.now) (reply_of reply.now)) }
{
    let mut sent = Vec::new(alloc);
    if let Reply::Request(number) = reply {
        sent.push(answer_request(from, to, *number, Answer::Started)?)?;
    }
    Ok(sent)
}

/// The same answer to all that wait, in their order.
#[tactic(auto, using(crate::proofs::Answering::one_answered))]
pub(crate) fn answer_all(
    sent: &mut Vec<Message>,
    from: &Id,
    waiting: &[Waiting],
    answer: &Answer,
) -> Result<(), AllocError>
    ensures { OnOk result (messages_of sent.new.items
        ≡ messages_of sent.old.items
        ++ answering_all (id_of from.now) (waits_of waiting.now) (answer_of answer.now)) }
{
    for one in waiting {
        sent.push(answer_request(from, &one.client, one.number, copy_answer(answer)?)?)?;
    }
    Ok(())
}
