//! Messages that instances and entities send.

ghost use Rattle.std.specs.Prelude.{◌≡◌, ◌++◌, ◌≤◌, Some, length, IfOk, OnOk};
ghost use Rattle.dura_value.specs.Messages.{at_spot, entity_at};
ghost use Rattle.dura_value.specs.Views.{id_of, reply_of, answer_of, message_of, messages_of, spot_of, spots_of};
ghost use Rattle.flow_syntax.specs.Machine.{releasing};
ghost use Rattle.flow_syntax.specs.Entity.{answering, lock_goes_on};

use crate::copies::{copy_id, copy_key, copy_name, copy_reply, copy_spots};
use dura_value::{Answer, Body, Id, Message, Reply, Spot, Spots, Text, with};
use std::alloc::{AllocError, Global};

/// The id of an entity.
pub fn entity_id(spot: &Spot) -> Result<Id, AllocError>
    ensures { IfOk result (λ id. id_of id ≡ at_spot (spot_of spot.now)) }
{
    Ok(Id::Entity(copy_name(&spot.class)?, copy_key(&spot.key)?))
}

/// Releases each of these entities.
pub fn release_all(messages: &mut Vec<Message>, id: &Id, set: &[Spot]) -> Result<(), AllocError>
    ensures { OnOk result (messages_of messages.new.items
        ≡ messages_of messages.old.items ++ releasing (id_of id.now) (spots_of set.now)) }
{
    for spot in set {
        let from = copy_id(id)?;
        let (to, from) = with(entity_id(spot), from)?;
        messages.push(Message {
            from,
            to,
            body: Body::Release,
        })?;
    }
    Ok(())
}

/// The message that answers a reply.
pub fn answer_reply(
    alloc: Global,
    from: &Id,
    to: &Id,
    reply: &Reply,
    answer: Answer,
) -> Result<Vec<Message>, AllocError>
    ensures { IfOk result (λ sent. messages_of sent.items
        ≡ answering (id_of from.now) (id_of to.now) (reply_of reply.now) (answer_of answer)) }
{
    let mut sent = Vec::new(alloc);
    match reply {
        Reply::None => drop(answer),
        other => {
            let (from, answer) = with(copy_id(from), answer)?;
            let (to, (from, answer)) = with(copy_id(to), (from, answer))?;
            sent.push(Message {
                from,
                to,
                body: Body::Result(copy_reply(other), answer),
            })?;
        }
    }
    Ok(sent)
}

/// The message that takes a lock to this place of its set. A place that has no number has no room.
fn lock_at(
    at: &Id,
    next: &Spot,
    id: &Id,
    task: u32,
    set: &Spots,
    place: usize,
) -> Result<Message, AllocError>
    ensures { IfOk result (λ message. message_of message
        ≡ lock_goes_on (id_of at.now) (id_of id.now) task (spots_of set.now) place
        (Some (at_spot (spot_of next.now)))) }
{
    let Ok(place) = u8::try_from(place) else {
        return Err(AllocError);
    };
    let from = copy_id(at)?;
    let (to, from) = with(entity_id(next), from)?;
    let (id, ends) = with(copy_id(id), (from, to))?;
    let (set, (id, (from, to))) = with(copy_spots(set), (id, ends))?;
    Ok(Message {
        from,
        to,
        body: Body::Lock(id, task, set, place),
    })
}

/// The message that takes a lock on to this place of its set, or, behind the last one, tells the instance that it has all.
#[tactic(auto, using(crate::proofs::Places::there, crate::proofs::Places::behind_all))]
pub fn pass_on(
    at: &Id,
    id: &Id,
    task: u32,
    set: &Spots,
    place: usize,
) -> Result<Message, AllocError>
    ensures { IfOk result (λ message. message_of message
        ≡ lock_goes_on (id_of at.now) (id_of id.now) task (spots_of set.now) place
        (entity_at (spots_of set.now) place)) }
{
    match set.as_slice().get(place) {
        Some(next) => lock_at(at, next, id, task, set, place),
        None => {
            let from = copy_id(at)?;
            let (to, from) = with(copy_id(id), from)?;
            Ok(Message {
                from,
                to,
                body: Body::Granted(task),
            })
        }
    }
}

/// The text of a short word.
pub fn word_text(alloc: Global, text: &str) -> Result<Text, AllocError>
    requires { length text.now ≤ 4096 }
    ensures { IfOk result (λ made. made ≡ text.now) }
{
    match Text::read(alloc, text.as_bytes()) {
        Ok(text) => Ok(text),
        Err(_) => Err(AllocError),
    }
}
