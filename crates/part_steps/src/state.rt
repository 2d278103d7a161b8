//! The state of a partition.

ghost use Rattle.std.specs.Prelude.{◌≡◌, ◌<◌, ◌≤◌, ◌^◌, Some, None, IfOk, IfSome, IfNone};
ghost use Rattle.flow_syntax.specs.Syntax.{Flows as PlainFlows};
ghost use Rattle.log_items.specs.Plain.{item_of};
ghost use Rattle.dura_model.specs.Partition.{fresh, enter, accepted};
ghost use Rattle.part_rows.specs.Timers.{NoneDue};
ghost use Rattle.part_steps.specs.Applied.{Becomes};
ghost use Rattle.part_steps.specs.Enabled.{ComesNext, FiresFirst, stamp_at, IsEnabled, NoneEnabled};
ghost use Rattle.part_steps.specs.Outputs.{outputs_by};
ghost use Rattle.part_steps.specs.States.{IsSound, state_of, count_of};

use crate::applying::apply_item;
use dura_value::Outputs;
use flow_messages::copy_id;
use log_items::Item;
use part_rows::{PartRows, Reactions};
use std::alloc::{AllocError, Global};

/// The state of one of so many partitions: all that it knows. `specs/States` says what it needs (`IsSound`), which each call
/// keeps. Want of memory drops it.
#[derive(Drop)]
pub struct PartState {
    pub(crate) rows: PartRows,
}

/// What came of an item.
#[derive(Drop)]
pub enum Verdict {
    /// It is applied, and this was made for the outside.
    Accepted(PartState, Outputs),
    /// It isn't legal in this state, which is as it was.
    Refused(PartState),
}

impl PartState {
    /// The state of a partition where nothing happened.
    pub fn new(alloc: Global, partitions: u32, number: u32) -> PartState
        requires { number < partitions }
        ensures fresh { state_of result ≡ fresh number }
        ensures partitions { count_of result ≡ partitions }
        ensures sound { IsSound result }
    {
        PartState {
            rows: PartRows::new(alloc, partitions, number),
        }
    }

    /// An equal state.
    pub fn copy(&self, alloc: Global) -> Result<PartState, AllocError>
        requires { IsSound self.now }
        ensures same { IfOk result (λ copy. state_of copy ≡ state_of self.now) }
        ensures partitions { IfOk result (λ copy. count_of copy ≡ count_of self.now) }
        ensures sound { IfOk result IsSound }
    {
        let rows = self.rows.copy(alloc)?;
        Ok(PartState { rows })
    }

    /// Lets go of all that it knows. Where another crate drops it, the drop of each of its parts is proved there once more.
    pub fn let_go(self) {
        self.rows.let_go();
    }

    /// An entry of this incarnation begins. Positions are below 2^62.
    pub fn enter(self, incarnation: u64) -> PartState
        requires sound { IsSound self }
        requires younger { (state_of self).incarnation ≤ incarnation }
        requires room { (state_of self).position < 2 ^ 63 }
        ensures entered { state_of result ≡ enter incarnation (state_of self) }
        ensures partitions { count_of result ≡ count_of self }
        ensures sound { IsSound result }
    {
        let mut rows = self.rows;
        rows.incarnation = incarnation;
        rows.position += 1;
        PartState { rows }
    }

    /// An item of the entry that has begun is applied, where it is legal.
    pub fn apply<R: Reactions>(
        self,
        alloc: Global,
        reactions: &R,
        item: &Item,
    ) -> Result<Verdict, AllocError>
        requires sound { IsSound self }
        requires begun { 0 < (state_of self).position }
        ensures { IfOk result (λ verdict.
            Becomes verdict self (accepted (R.flows reactions.now) (count_of self) (state_of self)
            (item_of item.now)) (outputs_by (R.flows reactions.now) (state_of self)
            (item_of item.now))) }
    {
        let mut rows = self.rows;
        let made = match apply_item(alloc, reactions, &mut rows, item) {
            Ok(made) => made,
            Err(error) => {
                rows.let_go();
                return Err(error);
            }
        };
        match made {
            Some(made) => Ok(Verdict::Accepted(PartState { rows }, made)),
            None => Ok(Verdict::Refused(PartState { rows })),
        }
    }

    /// The stamp of what is done now: a clock may stand behind what was done before.
    fn stamp(&self, now: u64) -> u64
        ensures { result ≡ stamp_at (state_of self.now) now }
    {
        if self.rows.stamp <= now {
            now
        } else {
            self.rows.stamp
        }
    }

    /// The timer that is due first by now, as the item that it fires, if one is due.
    pub fn due(&self, now: u64) -> Result<Option<Item>, AllocError>
        requires { IsSound self.now }
        ensures first { IfOk result (λ item.
            IfSome item (λ one. FiresFirst (state_of self.now) (stamp_at (state_of self.now) now)
            (item_of one))) }
        ensures enabled { IfOk result (λ item.
            IfSome item (λ one. (flows : PlainFlows)
            → IsEnabled flows (count_of self.now) (state_of self.now)
            (stamp_at (state_of self.now) now) (item_of one))) }
        ensures none { IfOk result (λ item.
            IfNone item (NoneDue (state_of self.now).timers (stamp_at (state_of self.now) now))) }
    {
        let stamp = self.stamp(now);
        match self.rows.timers.due(stamp) {
            Some(timer) => Ok(Some(Item::Fired(copy_id(&timer.id)?, timer.task, stamp))),
            None => Ok(None),
        }
    }

    /// A delivery or a timer that is possible now, if there is one: the message that has waited longest of those that their
    /// receivers take, else the timer that is due first.
    pub fn enabled(&self, now: u64) -> Result<Option<Item>, AllocError>
        requires { IsSound self.now }
        ensures some { IfOk result (λ item.
            IfSome item (λ one. (flows : PlainFlows)
            → IsEnabled flows (count_of self.now) (state_of self.now)
            (stamp_at (state_of self.now) now) (item_of one))) }
        ensures next { IfOk result (λ item.
            IfSome item (λ one. ComesNext (state_of self.now) (stamp_at (state_of self.now) now)
            (item_of one))) }
        ensures none { IfOk result (λ item.
            IfNone item ((flows : PlainFlows)
            → NoneEnabled flows (count_of self.now) (state_of self.now)
            (stamp_at (state_of self.now) now))) }
    {
        if let Some(message) = self.rows.first_open() {
            let stamp = self.stamp(now);
            return Ok(Some(Item::Ran(copy_id(&message.from)?, copy_id(&message.to)?, stamp)));
        }
        self.due(now)
    }
}
