//! What waits is put into an entry.

ghost use Rattle.std.specs.Prelude.{◌≡◌, ◌<◌, ◌≤◌, ◌+◌, ◌∷◌, ℕ, List, [], true, false, IfOk, OnOk, length};
ghost use Rattle.std.specs.List.{All};
ghost use Rattle.cell_waits.specs.Waits.{Waiting, MayWait, wait_of, waits_of};
ghost use Rattle.cell_waits.specs.Indices.{IsIndexed};
ghost use Rattle.cell_waits.specs.declared.wait.Wait.TheVariants.{Ended as AnEnd};
ghost use Rattle.part_steps.specs.States.{state_of};
ghost use Rattle.cell_steps.specs.Fills.{IsUnderWay, IsFor, LooksOn};

use crate::filling::{Filling, put};
use cell_waits::{Ended, Wait, Waits};
use log_items::Item;
use part_rows::Reactions;
use part_steps::PartState;
use std::alloc::{AllocError, Global};

/// Whether the activity of an outcome is pending.
pub fn is_pending(state: &PartState, ended: &Ended) -> bool
    ensures pending { result ≡ true → IsFor (state_of state.now) (wait_of (AnEnd ended.now)) }
    ensures gone { result ≡ false → IsFor (state_of state.now) (wait_of (AnEnd ended.now)) → ⊥ }
{
    match state.activity(&ended.id, ended.task) {
        Some(activity) => {
            activity.name == ended.activity.name && activity.argument == ended.activity.argument
        }
        None => false,
    }
}

/// Puts what waits behind the items, where it is possible.
fn put_wait<R: Reactions>(
    alloc: Global,
    reactions: &R,
    filling: Filling,
    wait: Wait,
) -> Result<Filling, AllocError>
    requires way { IsUnderWay filling }
    requires may { MayWait (wait_of wait) }
    ensures on { (now : ℕ) (rest : List Waiting) → IfOk result
        (λ next. LooksOn (R.flows reactions.now) now filling next (wait_of wait ∷ rest) rest) }
    ensures few { IfOk result (λ next. length next.items.items ≤ length filling.items.items + 1) }
{
    match wait {
        Wait::Outside(item) => {
            let next = put(alloc, reactions, filling, item)?;
            Ok(next)
        }
        Wait::Ended(ended) => {
            if !is_pending(&filling.state, &ended) {
                drop(ended);
                return Ok(filling);
            }
            let item = Item::Done(ended.id, ended.task, ended.outcome);
            let next = put(alloc, reactions, filling, item)?;
            Ok(next)
        }
    }
}

/// Puts what waits behind the items, in the order in which it came, up to so many items in all. What isn't possible is let go of.
pub fn put_waits<R: Reactions>(
    alloc: Global,
    reactions: &R,
    filling: Filling,
    waits: &mut Waits,
    limit: u32,
) -> Result<Filling, AllocError>
    requires way { IsUnderWay filling }
    requires indexed { IsIndexed waits.old }
    requires may { All MayWait (waits_of waits.old) }
    ensures on { (now : ℕ) → IfOk result (λ next.
        LooksOn (R.flows reactions.now) now filling next (waits_of waits.old) (waits_of waits.new)) }
    ensures indexed { OnOk result (IsIndexed waits.new) }
    ensures may { OnOk result (All MayWait (waits_of waits.new)) }
    ensures few { length filling.items.items ≤ limit
        → IfOk result (λ next. length next.items.items ≤ limit) }
    ensures less { IfOk result (λ next. length next.items.items < limit
        → waits_of waits.new ≡ []) }
    ensures first { length filling.items.items < limit → OnOk result
        (0 < length (waits_of waits.old) → length (waits_of waits.new) < length (waits_of waits.old)) }
{
    let mut filling = filling;
    'waits: while (filling.items.len() as u64) < limit as u64 {
        let found = match waits.pop(alloc) {
            Ok(found) => found,
            Err(error) => {
                filling.let_go();
                return Err(error);
            }
        };
        let Some(wait) = found else {
            return Ok(filling);
        };
        filling = put_wait(alloc, reactions, filling, wait)?;
    }
    Ok(filling)
}
