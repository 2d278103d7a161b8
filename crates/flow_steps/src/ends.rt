//! What follows an event, with the answers at an end.

ghost use Rattle.std.specs.Prelude.{◌≡◌, ◌++◌, map, IfOk, option_map};
ghost use Rattle.dura_value.specs.Views.{answer_of, messages_of};
ghost use Rattle.flow_messages.specs.Views.{event_of, asked_of};
ghost use Rattle.flow_machine.specs.Views.{progress_of};
ghost use Rattle.dura_model.specs.Deliveries.{ending, goes_on_from};
ghost use Rattle.flow_steps.specs.Views.{instance_of, effect_of};
ghost use Rattle.flow_steps.specs.Ends.{ended_with, settled_with};

use crate::answers::answer_all;
use crate::instance::{Effect, Instance};
use dura_value::{Answer, Message, with};
use flow_machine::Progress;
use flow_messages::{Asked, Event, copy_text, copy_value};
use flow_replay::advance;
use std::alloc::{AllocError, Global};

/// What an instance that has come to its end is answered with.
pub(crate) fn end_answer(progress: &Progress) -> Result<Option<Answer>, AllocError>
    ensures { IfOk result (λ answer. option_map answer_of answer
        ≡ ending (progress_of progress.now)) }
{
    match progress {
        Progress::Done(value) => Ok(Some(Answer::Done(copy_value(value)?))),
        Progress::Failed(text) => Ok(Some(Answer::Failed(copy_text(text)?))),
        Progress::Unborn | Progress::Running => Ok(None),
    }
}

/// The clients that wait are answered behind all that is sent, and what is pending is given up.
fn finish<'f>(
    alloc: Global,
    instance: Instance<'f>,
    mut sent: Vec<Message>,
    answer: &Answer,
) -> Result<Effect<'f>, AllocError>
    ensures { IfOk result (λ e. effect_of e
        ≡ ended_with (instance_of instance.entry) (messages_of sent.items) (answer_of answer.now)) }
{
    let answered = answer_all(&mut sent, &instance.machine.id, &instance.waiting, answer);
    let (_, mut instance) = with(answered, instance)?;
    instance.waiting.clear();
    Ok(Effect {
        instance: Some(instance),
        sent,
        asked: Vec::new(alloc),
        gives_up: true,
    })
}

/// What follows all that is sent and asked for, with the answers at an end.
fn settle<'f>(
    alloc: Global,
    instance: Instance<'f>,
    sent: Vec<Message>,
    asked: Vec<Asked>,
) -> Result<Effect<'f>, AllocError>
    ensures { IfOk result (λ e. effect_of e
        ≡ settled_with (instance_of instance.entry) (messages_of sent.items)
        (map asked_of asked.items) (ending (instance_of instance.entry).machine.progress)) }
{
    let (answer, instance) = with(end_answer(&instance.machine.progress), instance)?;
    match answer {
        Some(answer) => {
            let effect = finish(alloc, instance, sent, &answer);
            drop(answer);
            effect
        }
        None => Ok(Effect {
            instance: Some(instance),
            sent,
            asked,
            gives_up: false,
        }),
    }
}

/// These messages, and then those.
fn join(mut sent: Vec<Message>, mut more: Vec<Message>) -> Result<Vec<Message>, AllocError>
    ensures { IfOk result (λ all. messages_of all.items
        ≡ messages_of sent.items ++ messages_of more.items) }
{
    sent.append(&mut more)?;
    Ok(sent)
}

/// An event reaches an instance at this stamp. `before` is sent before all that the machine sends.
#[tactic(auto, using(crate::proofs::AtEnds::at_an_end))]
pub(crate) fn go_on_from<'f>(
    alloc: Global,
    mut instance: Instance<'f>,
    event: &Event,
    stamp: u64,
    before: Vec<Message>,
) -> Result<Effect<'f>, AllocError>
    ensures { IfOk result (λ e. effect_of e
        ≡ goes_on_from (instance_of instance.entry) (event_of event.now) stamp
        (messages_of before.items)) }
{
    let advanced = advance(&mut instance.machine, alloc, event, stamp);
    let (made, instance) = with(advanced, instance)?;
    let (sent, instance) = with(join(before, made.messages), instance)?;
    settle(alloc, instance, sent, made.asked)
}
