//! Why an entry isn't placed.

ghost use Rattle.std.specs.Prelude.{◌≡◌, ◌<◌, ◌≤◌, ◌+◌, ℕ, None, option_map, IfOk, length};
ghost use Rattle.dura_value.specs.Limits.{number_limit};
ghost use Rattle.log_items.specs.Plain.{entry_of, item_of, items_of};
ghost use Rattle.many_logs.specs.Placing.{commit_accepted};
ghost use Rattle.many_logs.specs.Unplaced.{unplaced_by, first_refused, why};
ghost use Rattle.part_steps.specs.States.{IsSound, AreStatesOfAll, count_of, parts_in, state_of};
ghost use Rattle.recover_core.specs.Reasons.{IsReason, IsReasonOf, SaysReason};

use crate::error::RecoverError;
use crate::ready::is_item_ready;
use log_items::{Entry, Item};
use part_rows::Reactions;
use part_steps::{PartState, Verdict};
use std::alloc::{AllocError, Global};

/// The positions that no entry has.
const POSITION_LIMIT: u64 = 1 << 63;

/// Why an entry of a partition isn't placed whose first item that isn't accepted is this one.
fn reason_of(partition: u32, position: u64, item: &Item) -> RecoverError
    ensures { IsReasonOf result (unplaced_by partition position (item_of item.now)) }
{
    match item {
        Item::Got(src, _, _, seq, _) => RecoverError::Unclosed {
            partition,
            position,
            src: *src,
            seq: *seq,
        },
        Item::Trim(dst, upto, _, _) => RecoverError::Unclosed {
            partition,
            position,
            src: *dst,
            seq: *upto,
        },
        Item::Took(_) | Item::Ran(_, _, _) | Item::Done(_, _, _) | Item::Fired(_, _, _) => {
            RecoverError::Illegal {
                partition,
                position,
            }
        }
    }
}

/// The first of these items that isn't accepted says why: the entry has begun in this state, and the others are these.
fn why_items<R: Reactions>(
    alloc: Global,
    reactions: &R,
    states: &[PartState],
    partition: u32,
    state: PartState,
    items: &[Item],
) -> Result<Option<RecoverError>, AllocError>
    requires sound { IsSound state }
    requires begun { 0 < (state_of state).position }
    requires among { count_of state ≡ length states.now }
    ensures { (position : ℕ) → position + 1 ≡ (state_of state).position → IfOk result (λ found.
        SaysReason found (option_map (unplaced_by partition position)
        (first_refused (R.flows reactions.now) (length states.now) (parts_in states.now)
        partition (state_of state) (items_of items.now)))) }
{
    let position = state.position() - 1;
    let mut state = state;
    'items: for item in items {
        if !is_item_ready(states, partition, item) {
            state.let_go();
            return Ok(Some(reason_of(partition, position, item)));
        }
        match state.apply(alloc, reactions, item)? {
            Verdict::Accepted(next, made) => {
                made.let_go();
                state = next;
            }
            Verdict::Refused(same) => {
                same.let_go();
                return Ok(Some(reason_of(partition, position, item)));
            }
        }
    }
    state.let_go();
    Ok(None)
}

/// Why the next entry of a partition isn't placed: its first item that isn't accepted. The state stays: a copy is tried.
pub(crate) fn why<R: Reactions>(
    alloc: Global,
    reactions: &R,
    states: &[PartState],
    place: usize,
    entry: &Entry,
) -> Result<RecoverError, AllocError>
    requires all { AreStatesOfAll states.now }
    requires place { place < length states.now }
    requires few { length states.now ≤ 32 }
    ensures why { commit_accepted (R.flows reactions.now) (length states.now) (parts_in states.now)
        place (entry_of entry.now) ≡ None
        → (parts_in states.now place).position ≡ entry.now.position
        → (parts_in states.now place).incarnation ≤ entry.now.incarnation
        → entry.now.position < number_limit
        → IfOk result (λ error. IsReason error (why (R.flows reactions.now) (length states.now)
        (parts_in states.now) (record { partition = place; entry = entry_of entry.now }))) }
    ensures no_fault { IfOk result (λ error. error ≡ RecoverError.SiteFault → ⊥) }
{
    let partition = place as u32;
    let illegal = RecoverError::Illegal {
        partition,
        position: entry.position,
    };
    let state = states[place].copy(alloc)?;
    if state.incarnation() > entry.incarnation || state.position() >= POSITION_LIMIT {
        state.let_go();
        return Ok(illegal);
    }
    let entered = state.enter(entry.incarnation);
    match why_items(
        alloc,
        reactions,
        states,
        partition,
        entered,
        entry.items.as_slice(),
    )? {
        Some(found) => Ok(found),
        // No entry is like this: one whose items all are accepted is accepted.
        None => Ok(illegal),
    }
}
