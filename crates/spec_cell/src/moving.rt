//! The settled state moves on, and entries are given up.

ghost use Rattle.std.specs.Prelude.{◌≡◌, ℕ, Bool, ◌<◌, ◌≤◌, ◌+◌, ◌-◌, ◌^◌, ◌++◌, min, take, drop, filter, length, is_ok, IfOk, OnOk};
ghost use Rattle.std.specs.List.{All};
ghost use Rattle.cell_tasks.specs.Tasks.{is_out, none_out, IsAhead};
ghost use Rattle.cell_waits.specs.Indices.{IsIndexed};
ghost use Rattle.cell_waits.specs.Waits.{MayWait, waits_of, lasting, lost_by, without_lost};
ghost use Rattle.dura_value.specs.Ids.{Id as PlainId};
ghost use Rattle.part_steps.specs.States.{IsSound, state_of, count_of};
ghost use Rattle.spec_cell.specs.Moves.{CellRewinds, CellResets};
ghost use Rattle.spec_cell.specs.Sends.{SendsSettled};
ghost use Rattle.cell_steps.specs.Sent.{SendsLater};
ghost use Rattle.spec_tracker.specs.Marks.{floors_of};
ghost use Rattle.cell_steps.specs.Steps.{last_of, entries_in};
ghost use Rattle.spec_cell.specs.Tasks.{without_settled};
ghost use Rattle.spec_cell.specs.Views.{HasSettled};

use crate::cell::{Cell, let_one_go, put};
use crate::mine::Mine;
use crate::tasks::forget_settled;
use cell_steps::{Live, Mode, NUMBER_LIMIT, Step, first_lost, last_made, packets_later};
use log_items::Packet;
use part_steps::PartState;
use spec_tracker::{Dep, Marks};
use std::alloc::{AllocError, Global};
use std::mem;

/// What came of looking for what was given up.
pub enum CellRewind {
    /// No entry behind those that are out depends on it.
    Kept,
    /// The entries from this position on are given up: the first of them depends on this entry, which was.
    Rewound(u64, Dep),
    /// The incarnation that would begin has this number, which is past those that there are.
    Spent(u64),
}

/// What came of giving up.
pub enum CellReset {
    /// It is done.
    Done,
    /// The incarnation that would begin has this number, which is past those that there are.
    Spent(u64),
}

/// The state after the last of these steps, or this one where there is none.
fn state_behind(base: PartState, steps: Vec<Step>) -> PartState
    ensures { result ≡ last_of base steps.items }
{
    let mut steps = steps;
    match steps.pop() {
        Some(last) => {
            base.let_go();
            let Step { entry, after } = last;
            entry.let_go();
            after
        }
        None => base,
    }
}

/// The state behind the first so many steps.
pub(crate) fn state_at(live: &Live, count: usize) -> &PartState
    requires { count ≤ length live.now.steps.items }
    ensures { result.now ≡ last_of live.now.base (take count live.now.steps.items) }
{
    if count == 0 {
        return &live.base;
    }
    &live.steps[count - 1].after
}

/// The settled state moves on by the first so many steps.
fn settle(live: Live, count: usize) -> Result<Live, AllocError>
    requires { count ≤ length live.steps.items }
    ensures base { IfOk result (λ new. new.base ≡ last_of live.base (take count live.steps.items)) }
    ensures steps { IfOk result (λ new. new.steps.items ≡ drop count live.steps.items) }
    ensures incarnation { IfOk result (λ new. new.incarnation ≡ live.incarnation) }
    ensures waits { IfOk result (λ new. new.waits ≡ live.waits) }
    ensures given { IfOk result (λ new. new.given ≡ live.given) }
{
    let Live {
        base,
        steps: mut first,
        incarnation,
        waits,
        given,
    } = live;
    let steps = first.split_off(count)?;
    Ok(Live {
        base: state_behind(base, first),
        steps,
        incarnation,
        waits,
        given,
    })
}

/// The same, with what goes out by then of what these steps sent.
fn settle_and_send(
    alloc: Global,
    live: Live,
    count: usize,
    mode: Mode,
) -> Result<(Live, Vec<Packet>), AllocError>
    requires few { count ≤ length live.steps.items }
    requires before { IsSound live.base }
    requires after { IsSound (last_of live.base (take count live.steps.items)) }
    ensures base { IfOk result (λ both. both.0.base ≡ last_of live.base (take count live.steps.items)) }
    ensures steps { IfOk result (λ both. both.0.steps.items ≡ drop count live.steps.items) }
    ensures incarnation { IfOk result (λ both. both.0.incarnation ≡ live.incarnation) }
    ensures waits { IfOk result (λ both. both.0.waits ≡ live.waits) }
    ensures given { IfOk result (λ both. is_out both.0.given
        ≡ without_settled (is_out live.given) (take count (entries_in live.steps.items))) }
    ensures anew { IfOk result (λ both. (there : PlainId → ℕ → Bool)
        → IsAhead both.0.given there) }
    ensures sends { IfOk result (λ both. SendsLater mode (count_of both.0.base)
        (state_of live.base) (state_of both.0.base) both.1.items) }
{
    let packets = match packets_later(alloc, mode, &live.base, state_at(&live, count)) {
        Ok(packets) => packets,
        Err(error) => {
            live.let_go();
            return Err(error);
        }
    };
    let forgotten = forget_settled(alloc, live, count)?;
    let next = settle(forgotten, count)?;
    Ok((next, packets))
}

/// All steps but the first so many come behind those that were cut off before.
fn cut(steps: &mut Vec<Step>, kept: usize, cut_off: &mut Vec<Step>) -> Result<(), AllocError>
    requires { kept ≤ length steps.old.items }
    ensures { OnOk result (steps.new.items ≡ take kept steps.old.items) }
{
    let mut behind = steps.split_off(kept)?;
    cut_off.append(&mut behind)
}

/// All steps but the first so many are given up, with the packets and outcomes that wait, and a later incarnation begins.
fn give_up(
    alloc: Global,
    live: Live,
    kept: usize,
    cut_off: &mut Vec<Step>,
) -> Result<Live, AllocError>
    requires few { kept ≤ length live.steps.items }
    requires room { live.incarnation < 2 ^ 62 }
    ensures base { IfOk result (λ new. new.base ≡ live.base) }
    ensures steps { IfOk result (λ new. new.steps.items ≡ take kept live.steps.items) }
    ensures incarnation { IfOk result (λ new. new.incarnation ≡ live.incarnation + 1) }
    ensures waits { IfOk result (λ new. waits_of new.waits ≡ filter lasting (waits_of live.waits)) }
    ensures given { IfOk result (λ new. is_out new.given ≡ none_out) }
    ensures anew { IfOk result (λ new. (there : PlainId → ℕ → Bool) → IsAhead new.given there) }
    ensures indexed { IfOk result (λ new. IsIndexed new.waits) }
    ensures may { All MayWait (waits_of live.waits)
        → IfOk result (λ new. All MayWait (waits_of new.waits)) }
{
    let mut live = live;
    if let Err(error) = cut(&mut live.steps, kept, cut_off) {
        live.let_go();
        return Err(error);
    }
    live.incarnation += 1;
    live.given.clear(alloc);
    match live.waits.keep_lasting(alloc) {
        Ok(()) => Ok(live),
        Err(error) => {
            live.let_go();
            Err(error)
        }
    }
}

/// Packets that were sent by what was given up are let go of, and so are those of their streams behind them.
fn cut_lost(alloc: Global, live: Live, marks: &Marks) -> Result<Live, AllocError>
    ensures base { IfOk result (λ new. new.base ≡ live.base) }
    ensures steps { IfOk result (λ new. new.steps ≡ live.steps) }
    ensures incarnation { IfOk result (λ new. new.incarnation ≡ live.incarnation) }
    ensures given { IfOk result (λ new. new.given ≡ live.given) }
    ensures waits { IfOk result (λ new. waits_of new.waits
        ≡ without_lost (lost_by (floors_of marks.now)) (waits_of live.waits)) }
    ensures indexed { IfOk result (λ new. IsIndexed new.waits) }
    ensures may { All MayWait (waits_of live.waits)
        → IfOk result (λ new. All MayWait (waits_of new.waits)) }
{
    let mut live = live;
    match live.waits.cut_lost(alloc, marks) {
        Ok(()) => Ok(live),
        Err(error) => {
            live.let_go();
            Err(error)
        }
    }
}

/// How many of the first steps stand before a position.
fn count_before(live: &Live, floor: u64) -> usize
    ensures { result ≡ min (floor - (state_of live.now.base).position)
        (length live.now.steps.items) }
{
    let many = floor.saturating_sub(live.base.position());
    if many < live.steps.len() as u64 {
        many as usize
    } else {
        live.steps.len()
    }
}

impl<S: Mine> Cell<S> {
    /// The settled state moves on by the first so many entries, which the seat that comes back has settled. What stood for it is given
    /// back with what goes out by now of what they sent, and no frame is out.
    pub fn settled(
        &mut self,
        alloc: Global,
        count: usize,
        mode: Mode,
        seat: S,
    ) -> (S, Result<Vec<Packet>, AllocError>)
        requires few { count ≤ length self.old.entries }
        requires number { S.number seat ≡ self.old.number }
        requires mine { (S.slot seat).mine ≡ self.old.slot.mine ++ take count self.old.entries }
        ensures settled { OnOk result.1 (HasSettled count (S.slot seat) self.old self.new) }
        ensures sends { IfOk result.1 (λ packets. SendsSettled S.flows S.count
            (S.begin self.old.number) mode self.old self.new packets.items) }
        ensures going { self.new.going ≡ is_ok result.1 }
        ensures number { S.number result.0 ≡ self.old.number }
        ensures slot { S.slot result.0 ≡ self.old.slot }
    {
        let_one_go(&mut self.cut_off);
        let live = self.live.take();
        let stub = mem::replace(&mut self.seat, seat);
        self.out = 0;
        let Some(live) = live else {
            return (stub, Err(AllocError));
        };
        match settle_and_send(alloc, live, count, mode) {
            Ok((next, packets)) => {
                put(&mut self.live, next);
                (stub, Ok(packets))
            }
            Err(error) => (stub, Err(error)),
        }
    }

    /// Gives up entries behind those that are out, from the first on that depends on what was given up; where none does, of the packets
    /// that wait those that were sent by what was.
    pub fn rewind(&mut self, alloc: Global, marks: &Marks) -> Result<CellRewind, AllocError>
        ensures rewinds { IfOk result (λ rewound. CellRewinds S.flows S.count
            (S.begin self.old.number) marks.now self.old rewound self.new) }
        ensures going { self.new.going ≡ is_ok result }
    {
        let Some(live) = self.live.take() else {
            return Err(AllocError);
        };
        let before = last_made(&live.base);
        let lost = first_lost(marks, live.base.number(), before, &live.steps, self.out);
        let Some((kept, dep)) = lost else {
            let next = cut_lost(alloc, live, marks)?;
            put(&mut self.live, next);
            return Ok(CellRewind::Kept);
        };
        let incarnation = live.incarnation.saturating_add(1);
        if incarnation >= NUMBER_LIMIT {
            put(&mut self.live, live);
            return Ok(CellRewind::Spent(incarnation));
        }
        let floor = live.steps[kept].entry.position;
        let next = give_up(alloc, live, kept, &mut self.cut_off)?;
        put(&mut self.live, next);
        Ok(CellRewind::Rewound(floor, dep))
    }

    /// Gives up all entries from a position on, those in a frame that is out too.
    pub fn reset(&mut self, alloc: Global, floor: u64) -> Result<CellReset, AllocError>
        ensures resets { IfOk result (λ reset. CellResets floor self.old reset self.new) }
        ensures going { self.new.going ≡ is_ok result }
    {
        let Some(live) = self.live.take() else {
            return Err(AllocError);
        };
        let incarnation = live.incarnation.saturating_add(1);
        if incarnation >= NUMBER_LIMIT {
            put(&mut self.live, live);
            return Ok(CellReset::Spent(incarnation));
        }
        let kept = count_before(&live, floor);
        let next = give_up(alloc, live, kept, &mut self.cut_off)?;
        self.out = 0;
        put(&mut self.live, next);
        Ok(CellReset::Done)
    }
}
