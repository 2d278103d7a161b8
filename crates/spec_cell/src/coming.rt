//! What comes to a cell.

ghost use Rattle.std.specs.Prelude.{◌≡◌, ◌++◌, ◌∷◌, [], true, is_ok, IfOk, option_map};
ghost use Rattle.activity_table.specs.Table.{may};
ghost use Rattle.cell_waits.specs.Indices.{IsIndexed};
ghost use Rattle.cell_waits.specs.Waits.{MayWait, wait_of, waits_of};
ghost use Rattle.dura_model.specs.Partition.{Partition};
ghost use Rattle.dura_value.specs.Same.{message_eq};
ghost use Rattle.dura_value.specs.Views.{id_of, message_of};
ghost use Rattle.part_rows.specs.Views.{activity_of};
ghost use Rattle.part_steps.specs.States.{state_of};
ghost use Rattle.cell_steps.specs.Ahead.{ahead_of};
ghost use Rattle.spec_cell.specs.Comes.{Arrives, Records, IsKnownAs, Offers, known_in};
ghost use Rattle.spec_cell.specs.Views.{IsAhead, IsBase};

use crate::cell::{Cell, put};
use crate::mine::Mine;
use cell_steps::{Live, is_pending};
use cell_waits::{Ended, Wait};
use dura_value::{Answer, Message};
use log_items::{Item, Packet};
use part_rows::{copy_answer, number_in};
use std::alloc::{AllocError, Global};

/// What came of a request.
pub enum Offered {
    /// It waits.
    Queued,
    /// It was taken, or waits already.
    Taken,
    /// It is answered by what is settled.
    Kept(Answer),
    /// Another request was taken or waits under its client and number.
    Clash,
}

/// What came of a packet.
pub enum Arrived {
    /// It waits.
    Queued,
    /// It came before: the next one has this number.
    Repeat(u64),
    /// Others are to come before it: the next one has this number.
    Gap(u64),
}

/// What came of an outcome.
pub enum Recorded {
    /// It waits.
    Recorded,
    /// Its activity isn't pending, or an outcome of it waits.
    NotPending,
}

/// This waits behind all others.
fn add_wait(alloc: Global, live: Live, wait: Wait) -> Result<Live, AllocError>
    requires { IsIndexed live.waits }
    ensures base { IfOk result (λ new. new.base ≡ live.base) }
    ensures steps { IfOk result (λ new. new.steps ≡ live.steps) }
    ensures incarnation { IfOk result (λ new. new.incarnation ≡ live.incarnation) }
    ensures given { IfOk result (λ new. new.given ≡ live.given) }
    ensures waits { IfOk result (λ new. waits_of new.waits
        ≡ waits_of live.waits ++ wait_of wait ∷ []) }
    ensures indexed { IfOk result (λ new. IsIndexed new.waits) }
{
    let mut live = live;
    match live.waits.push(alloc, wait) {
        Ok(()) => Ok(live),
        Err(error) => {
            live.let_go();
            Err(error)
        }
    }
}

/// Whether two messages are the same.
#[tactic(auto, using(dura_value::proofs::SameViews::derived_message_eq))]
fn is_same_message(one: &Message, other: &Message) -> bool
    ensures { result ≡ message_eq (message_of one.now) (message_of other.now) }
{
    one == other
}

/// The request of a client under a number that was taken ahead, or waits.
fn known_in<'a>(live: &'a Live, message: &Message) -> Option<&'a Message>
    requires { IsIndexed live.now.waits }
    ensures { option_map (λ m. message_of m.now) result
        ≡ known_in (state_of (ahead_of live.now)) (waits_of live.now.waits)
        (message_of message.now) }
{
    let number = number_in(&message.body);
    match live.ahead().taken(&message.from, number) {
        Some(known) => Some(known),
        None => live.waits.request(&message.from, number),
    }
}

/// What is known under a request's client and number, if anything is.
fn known_as(live: &Live, message: &Message) -> Result<Option<Offered>, AllocError>
    requires { IsIndexed live.now.waits }
    ensures { IfOk result (λ found. IsKnownAs (state_of live.now.base)
        (state_of (ahead_of live.now)) (waits_of live.now.waits) (message_of message.now) found) }
{
    let Some(known) = known_in(live, message) else {
        return Ok(None);
    };
    if !is_same_message(known, message) {
        return Ok(Some(Offered::Clash));
    }
    match live.base.answer(&message.from, number_in(&message.body)) {
        Some(answer) => Ok(Some(Offered::Kept(copy_answer(answer)?))),
        None => Ok(Some(Offered::Taken)),
    }
}

impl<S: Mine> Cell<S> {
    /// A packet comes. One that came before, or before which others are to come, is let go of.
    pub fn arrive(&mut self, alloc: Global, packet: Packet) -> Result<Arrived, AllocError>
        ensures arrives { IfOk result (λ arrived. (ahead : Partition)
            × IsAhead S.flows S.count (S.begin self.old.number) self.old ahead
            × Arrives ahead
            (record { partition = packet.src; incarnation = packet.inc; position = packet.pos })
            packet.seq (message_of packet.message) self.old arrived self.new) }
        ensures going { self.new.going ≡ is_ok result }
    {
        let Some(live) = self.live.take() else {
            drop(packet);
            return Err(AllocError);
        };
        let waiting = live.waits.packets_of(packet.src);
        let Some(next) = live.ahead().taken_in(packet.src).checked_add(waiting) else {
            drop(packet);
            live.let_go();
            return Err(AllocError);
        };
        if packet.seq < next {
            drop(packet);
            put(&mut self.live, live);
            return Ok(Arrived::Repeat(next));
        }
        if next < packet.seq {
            drop(packet);
            put(&mut self.live, live);
            return Ok(Arrived::Gap(next));
        }
        let item = Item::Got(
            packet.src,
            packet.inc,
            packet.pos,
            packet.seq,
            packet.message,
        );
        let next = add_wait(alloc, live, Wait::Outside(item))?;
        put(&mut self.live, next);
        Ok(Arrived::Queued)
    }

    /// An outcome of an activity comes, which the activity may give.
    pub fn outcome(&mut self, alloc: Global, ended: Ended) -> Result<Recorded, AllocError>
        requires { may ended.activity.name ended.activity.argument ended.outcome ≡ true }
        ensures records { IfOk result (λ recorded. (ahead : Partition)
            × IsAhead S.flows S.count (S.begin self.old.number) self.old ahead
            × Records ahead (id_of ended.id) ended.task (activity_of ended.activity) ended.outcome
            self.old recorded self.new) }
        ensures going { self.new.going ≡ is_ok result }
    {
        let Some(live) = self.live.take() else {
            drop(ended);
            return Err(AllocError);
        };
        if !is_pending(live.ahead(), &ended) {
            drop(ended);
            put(&mut self.live, live);
            return Ok(Recorded::NotPending);
        }
        if live
            .waits
            .has_outcome(&ended.id, ended.task, &ended.activity)
        {
            drop(ended);
            put(&mut self.live, live);
            return Ok(Recorded::NotPending);
        }
        let next = add_wait(alloc, live, Wait::Ended(ended))?;
        put(&mut self.live, next);
        Ok(Recorded::Recorded)
    }

    /// A request of a client comes.
    pub fn offer(&mut self, alloc: Global, message: Message) -> Result<Offered, AllocError>
        ensures offers { IfOk result (λ offered. (base : Partition)
            × IsBase S.flows S.count (S.begin self.old.number) self.old base × (ahead : Partition)
            × IsAhead S.flows S.count (S.begin self.old.number) self.old ahead
            × Offers base ahead (message_of message) self.old offered self.new) }
        ensures going { self.new.going ≡ is_ok result }
    {
        let Some(live) = self.live.take() else {
            drop(message);
            return Err(AllocError);
        };
        let known = match known_as(&live, &message) {
            Ok(known) => known,
            Err(error) => {
                drop(message);
                live.let_go();
                return Err(error);
            }
        };
        if let Some(offered) = known {
            drop(message);
            put(&mut self.live, live);
            return Ok(offered);
        }
        let next = add_wait(alloc, live, Wait::Outside(Item::Took(message)))?;
        put(&mut self.live, next);
        Ok(Offered::Queued)
    }
}
