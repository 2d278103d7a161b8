//! One entry more.

ghost use Rattle.std.specs.Prelude.{◌≡◌, ◌⊎◌, ◌<◌, ◌≤◌, ◌^◌, List, [], true, IfOk, OnOk, IfSome, IfNone, length};
ghost use Rattle.std.specs.List.{All};
ghost use Rattle.cell_waits.specs.Waits.{Waiting, MayWait, waits_of};
ghost use Rattle.cell_waits.specs.Indices.{IsIndexed};
ghost use Rattle.log_items.specs.Plain.{items_of};
ghost use Rattle.part_rows.specs.Timers.{NoneDue};
ghost use Rattle.part_steps.specs.Enabled.{NoneEnabled, FiresFirst, stamp_at};
ghost use Rattle.part_steps.specs.States.{state_of, count_of};
ghost use Rattle.cell_steps.specs.Ahead.{MayTurn, Turns};
ghost use Rattle.cell_steps.specs.Fills.{IsUnderWay, LooksOn};
ghost use Rattle.cell_steps.specs.Possible.{waits_first, is_own, Begins, OwnFirst};

use crate::filling::{Filling, all_fit, fill, fire_due, fire_first};
use crate::live::Live;
use crate::mode::Mode;
use crate::round::Round;
use crate::sending::packets_at_once;
use crate::step::Step;
use crate::waiting::put_waits;
use cell_waits::Waits;
use log_items::{Entry, Items, Packet};
use part_rows::Reactions;
use std::alloc::{AllocError, Global};

/// Numbers of entries and incarnations stay below this.
pub const NUMBER_LIMIT: u64 = 1 << 62;

/// What came of a turn.
pub enum Turned {
    /// One entry more was made, and these go out at once.
    Made(Live, Vec<Packet>),
    /// Nothing is possible.
    Idle(Live),
    /// This number is used up.
    Spent(Live, u64),
}

/// The one of an entry's position and its incarnation that is past those that there are, if one is.
fn used_up(position: u64, incarnation: u64) -> Option<u64>
    ensures one { IfSome result (λ number. (number ≡ position) ⊎ (number ≡ incarnation)) }
    ensures past { IfSome result (λ number. 2 ^ 62 ≤ number) }
    ensures none { IfNone result ((position < 2 ^ 62) × (incarnation < 2 ^ 62)) }
{
    if position >= NUMBER_LIMIT {
        return Some(position);
    }
    if incarnation >= NUMBER_LIMIT {
        return Some(incarnation);
    }
    None
}

/// Fills an entry that has begun with what waits, up to its share, and then with deliveries and timers.
fn fill_waits_first<R: Reactions>(
    alloc: Global,
    reactions: &R,
    begun: Filling,
    waits: &mut Waits,
    now: u64,
    limit: u32,
    share: u32,
) -> Result<Filling, AllocError>
    requires way { IsUnderWay begun }
    requires empty { begun.items.items ≡ [] }
    requires some { 0 < share }
    requires within { share ≤ limit }
    requires indexed { IsIndexed waits.old }
    requires may { All MayWait (waits_of waits.old) }
    ensures on { IfOk result (λ next.
        LooksOn (R.flows reactions.now) now begun next (waits_of waits.old) (waits_of waits.new)) }
    ensures indexed { OnOk result (IsIndexed waits.new) }
    ensures may { OnOk result (All MayWait (waits_of waits.new)) }
    ensures few { IfOk result (λ next. length next.items.items ≤ limit) }
    ensures first { OnOk result (0 < length (waits_of waits.old)
        → length (waits_of waits.new) < length (waits_of waits.old)) }
{
    let first = put_waits(alloc, reactions, begun, waits, share)?;
    let second = fill(alloc, reactions, first, now, limit)?;
    Ok(second)
}

/// Fills an entry that has begun with deliveries and timers, up to their share. Where timers are first, those that are due come before
/// deliveries.
fn fill_own_first<R: Reactions>(
    alloc: Global,
    reactions: &R,
    begun: Filling,
    now: u64,
    share: u32,
    timers: bool,
) -> Result<Filling, AllocError>
    requires way { IsUnderWay begun }
    requires empty { begun.items.items ≡ [] }
    requires some { 0 < share }
    ensures on { (waits : List Waiting)
        → IfOk result (λ next. LooksOn (R.flows reactions.now) now begun next waits waits) }
    ensures few { IfOk result (λ next. length next.items.items ≤ share) }
    ensures own { (NoneEnabled (R.flows reactions.now) (count_of begun.state) (state_of begun.state)
        (stamp_at (state_of begun.state) now) → ⊥)
        → IfOk result (λ next. Begins (λ item. is_own item ≡ true) (items_of next.items.items)) }
    ensures timer { timers ≡ true
        → (NoneDue (state_of begun.state).timers (stamp_at (state_of begun.state) now) → ⊥)
        → IfOk result (λ next. Begins (FiresFirst (state_of begun.state)
        (stamp_at (state_of begun.state) now)) (items_of next.items.items)) }
{
    if !timers {
        let filled = fill(alloc, reactions, begun, now, share)?;
        return Ok(filled);
    }
    let first = fire_first(alloc, reactions, begun, now)?;
    let timed = fire_due(alloc, reactions, first, now, share)?;
    let filled = fill(alloc, reactions, timed, now, share)?;
    Ok(filled)
}

/// Fills an entry that has begun with the side that is first in this round, which has half of the room, and the rest of it too where the
/// other side has less.
fn fill_first<R: Reactions>(
    alloc: Global,
    reactions: &R,
    begun: Filling,
    waits: &mut Waits,
    now: u64,
    limit: u32,
    round: Round,
) -> Result<Filling, AllocError>
    requires way { IsUnderWay begun }
    requires empty { begun.items.items ≡ [] }
    requires some { 0 < limit }
    requires indexed { IsIndexed waits.old }
    requires may { All MayWait (waits_of waits.old) }
    ensures on { IfOk result (λ next.
        LooksOn (R.flows reactions.now) now begun next (waits_of waits.old) (waits_of waits.new)) }
    ensures indexed { OnOk result (IsIndexed waits.new) }
    ensures may { OnOk result (All MayWait (waits_of waits.new)) }
    ensures few { IfOk result (λ next. length next.items.items ≤ limit) }
    ensures first { waits_first round ≡ true → OnOk result (0 < length (waits_of waits.old)
        → length (waits_of waits.new) < length (waits_of waits.old)) }
    ensures own { IfOk result (λ next. OwnFirst (R.flows reactions.now) (count_of begun.state) now
        round (state_of begun.state) (items_of next.items.items)) }
{
    let half = limit - limit / 2;
    match round {
        Round::Waits | Round::WaitsAgain => {
            let next = fill_waits_first(alloc, reactions, begun, waits, now, limit, half)?;
            Ok(next)
        }
        Round::Timers => {
            let next = fill_own_first(alloc, reactions, begun, now, half, true)?;
            Ok(next)
        }
        Round::Deliveries => {
            let next = fill_own_first(alloc, reactions, begun, now, half, false)?;
            Ok(next)
        }
    }
}

/// Fills an entry that has begun: with what waits and with deliveries and timers, each side up to its share, and then with what is left of
/// both, until it is full or nothing is possible.
fn gather<R: Reactions>(
    alloc: Global,
    reactions: &R,
    begun: Filling,
    waits: &mut Waits,
    now: u64,
    limit: u32,
    round: Round,
) -> Result<Filling, AllocError>
    requires way { IsUnderWay begun }
    requires empty { begun.items.items ≡ [] }
    requires some { 0 < limit }
    requires indexed { IsIndexed waits.old }
    requires may { All MayWait (waits_of waits.old) }
    ensures on { IfOk result (λ next.
        LooksOn (R.flows reactions.now) now begun next (waits_of waits.old) (waits_of waits.new)) }
    ensures indexed { OnOk result (IsIndexed waits.new) }
    ensures may { OnOk result (All MayWait (waits_of waits.new)) }
    ensures few { IfOk result (λ next. length next.items.items ≤ limit) }
    ensures gone { IfOk result (λ next. length next.items.items < limit
        → waits_of waits.new ≡ []) }
    ensures none { IfOk result (λ next. length next.items.items < limit
        → NoneEnabled (R.flows reactions.now) (count_of begun.state) (state_of next.state)
        (stamp_at (state_of next.state) now)) }
    ensures first { waits_first round ≡ true → OnOk result (0 < length (waits_of waits.old)
        → length (waits_of waits.new) < length (waits_of waits.old)) }
    ensures own { IfOk result (λ next. OwnFirst (R.flows reactions.now) (count_of begun.state) now
        round (state_of begun.state) (items_of next.items.items)) }
{
    let second = fill_first(alloc, reactions, begun, waits, now, limit, round)?;
    let third = put_waits(alloc, reactions, second, waits, limit)?;
    let fourth = fill(alloc, reactions, third, now, limit)?;
    Ok(fourth)
}

/// One entry more, of 1 to so many items; or nothing is possible in the state ahead.
pub fn turn<R: Reactions>(
    alloc: Global,
    reactions: &R,
    live: Live,
    mode: Mode,
    now: u64,
    limit: u32,
    round: Round,
) -> Result<Turned, AllocError>
    requires may { MayTurn live }
    requires some { 0 < limit }
    requires most { limit ≤ 64 }
    ensures { IfOk result (λ turned. Turns (R.flows reactions.now) mode now limit round live turned) }
{
    let mut live = live;
    let position = live.ahead().position();
    let begun = Filling {
        state: live.ahead().copy(alloc)?.enter(live.incarnation),
        items: Vec::new(alloc),
    };
    let filled = gather(alloc, reactions, begun, &mut live.waits, now, limit, round)?;
    if filled.items.is_empty() {
        filled.let_go();
        return Ok(Turned::Idle(live));
    }
    if let Some(number) = used_up(position, live.incarnation) {
        filled.let_go();
        return Ok(Turned::Spent(live, number));
    }
    if !all_fit(&filled.items) {
        filled.let_go();
        return Err(AllocError);
    }
    let packets = match packets_at_once(alloc, mode, live.ahead(), &filled.state) {
        Ok(packets) => packets,
        Err(error) => {
            filled.let_go();
            return Err(error);
        }
    };
    let Filling { state, items } = filled;
    live.steps.push(Step {
        entry: Entry {
            position,
            incarnation: live.incarnation,
            items: Items::of(items),
        },
        after: state,
    })?;
    Ok(Turned::Made(live, packets))
}
