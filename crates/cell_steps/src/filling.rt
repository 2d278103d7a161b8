//! An entry as far as it is filled: its items, the state that they make, and what puts one more or several behind them.

ghost use Rattle.std.specs.Prelude.{◌≡◌, ◌<◌, ◌≤◌, List, [], ◌∷◌, ◌++◌, true, false, IfOk, length, ◌+◌, max};
ghost use Rattle.std.specs.List.{All};
ghost use Rattle.cell_waits.specs.Waits.{Waiting};
ghost use Rattle.log_items.specs.Plain.{item_of, items_of};
ghost use Rattle.part_items.specs.ItemFits.{FitsItem};
ghost use Rattle.part_steps.specs.Enabled.{IsEnabled, NoneEnabled, stamp_at};
ghost use Rattle.part_steps.specs.States.{state_of, count_of};
ghost use Rattle.part_rows.specs.Timers.{NoneDue};
ghost use Rattle.cell_steps.specs.Fills.{IsUnderWay, LooksOn, Puts, PutsFirstDue};

use log_items::Item;
use part_items::item_fits;
use part_rows::Reactions;
use part_steps::{Batch, PartState, Verdict, next_items};
use std::alloc::{AllocError, Global};

/// The items that an entry is filled with so far, and the state that they make.
pub struct Filling {
    /// The state.
    pub state: PartState,
    /// The items.
    pub items: Vec<Item>,
}

impl Filling {
    /// Lets go of both.
    pub fn let_go(self) {
        let Filling { state, items } = self;
        state.let_go();
        drop(items);
    }
}

/// Puts an item behind the others, where it is accepted.
pub fn put<R: Reactions>(
    alloc: Global,
    reactions: &R,
    filling: Filling,
    item: Item,
) -> Result<Filling, AllocError>
    requires way { IsUnderWay filling }
    ensures puts { IfOk result (λ next. Puts (R.flows reactions.now) filling item next) }
{
    let Filling { state, mut items } = filling;
    let verdict = match state.apply(alloc, reactions, &item) {
        Ok(verdict) => verdict,
        Err(error) => {
            drop(item);
            return Err(error);
        }
    };
    match verdict {
        Verdict::Accepted(state, outputs) => {
            drop(outputs);
            match items.push(item) {
                Ok(()) => Ok(Filling { state, items }),
                Err(error) => {
                    state.let_go();
                    Err(error.into())
                }
            }
        }
        Verdict::Refused(state) => {
            drop(item);
            Ok(Filling { state, items })
        }
    }
}

/// Puts the deliveries and timers that are possible now behind the others, up to so many items in all; fewer only where none is possible
/// behind them.
pub fn fill<R: Reactions>(
    alloc: Global,
    reactions: &R,
    filling: Filling,
    now: u64,
    limit: u32,
) -> Result<Filling, AllocError>
    requires way { IsUnderWay filling }
    ensures on { (waits : List Waiting)
        → IfOk result (λ next. LooksOn (R.flows reactions.now) now filling next waits waits) }
    ensures few { length filling.items.items ≤ limit
        → IfOk result (λ next. length next.items.items ≤ limit) }
    ensures less { IfOk result (λ next. length next.items.items < limit
        → NoneEnabled (R.flows reactions.now) (count_of filling.state) (state_of next.state)
        (stamp_at (state_of next.state) now)) }
{
    let Filling { state, mut items } = filling;
    let room = (limit as usize).saturating_sub(items.len());
    let batch = next_items(alloc, reactions, state, now, room as u32)?;
    let Batch {
        state,
        items: mut more,
        outputs,
    } = batch;
    drop(outputs);
    match items.append(&mut more) {
        Ok(()) => Ok(Filling { state, items }),
        Err(error) => {
            state.let_go();
            Err(error)
        }
    }
}

/// Puts a delivery or a timer behind the others, which is possible there.
fn put_step<R: Reactions>(
    alloc: Global,
    reactions: &R,
    filling: Filling,
    item: Item,
    now: u64,
) -> Result<Filling, AllocError>
    requires way { IsUnderWay filling }
    requires enabled { IsEnabled (R.flows reactions.now) (count_of filling.state)
        (state_of filling.state) (stamp_at (state_of filling.state) now) (item_of item) }
    ensures on { (waits : List Waiting)
        → IfOk result (λ next. LooksOn (R.flows reactions.now) now filling next waits waits) }
    ensures one { IfOk result (λ next. length next.items.items
        ≡ length filling.items.items + 1) }
    ensures items { IfOk result (λ next. items_of next.items.items
        ≡ items_of filling.items.items ++ item_of item ∷ []) }
{
    let next = put(alloc, reactions, filling, item)?;
    Ok(next)
}

/// Puts the timer that is due first behind the others, if one is due.
pub fn fire_first<R: Reactions>(
    alloc: Global,
    reactions: &R,
    filling: Filling,
    now: u64,
) -> Result<Filling, AllocError>
    requires way { IsUnderWay filling }
    ensures on { (waits : List Waiting)
        → IfOk result (λ next. LooksOn (R.flows reactions.now) now filling next waits waits) }
    ensures few { IfOk result (λ next. length next.items.items
        ≤ length filling.items.items + 1) }
    ensures first { (NoneDue (state_of filling.state).timers (stamp_at (state_of filling.state) now) → ⊥)
        → IfOk result (λ next. PutsFirstDue (state_of filling.state)
        (stamp_at (state_of filling.state) now) filling next) }
{
    let due = match filling.state.due(now) {
        Ok(due) => due,
        Err(error) => {
            filling.let_go();
            return Err(error);
        }
    };
    let Some(item) = due else {
        return Ok(filling);
    };
    let next = put_step(alloc, reactions, filling, item, now)?;
    Ok(next)
}

/// Puts the timers that are due behind the others, the first one first, up to so many items in all.
pub fn fire_due<R: Reactions>(
    alloc: Global,
    reactions: &R,
    filling: Filling,
    now: u64,
    limit: u32,
) -> Result<Filling, AllocError>
    requires way { IsUnderWay filling }
    ensures on { (waits : List Waiting)
        → IfOk result (λ next. LooksOn (R.flows reactions.now) now filling next waits waits) }
    ensures few { IfOk result (λ next. length next.items.items
        ≤ max (length filling.items.items) limit) }
{
    let mut filling = filling;
    'fires: while (filling.items.len() as u64) < limit as u64 {
        let due = match filling.state.due(now) {
            Ok(due) => due,
            Err(error) => {
                filling.let_go();
                return Err(error);
            }
        };
        let Some(item) = due else {
            return Ok(filling);
        };
        filling = put_step(alloc, reactions, filling, item, now)?;
    }
    Ok(filling)
}

/// Whether all of these can be written.
pub fn all_fit(items: &[Item]) -> bool
    ensures fits { result ≡ true → All FitsItem (items_of items.now) }
    ensures misfit { result ≡ false → All FitsItem (items_of items.now) → ⊥ }
{
    for item in items {
        if !item_fits(item) {
            return false;
        }
    }
    true
}
