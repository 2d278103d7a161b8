//! The entries of logs make the states, one after another.

ghost use Rattle.std.specs.Prelude.{◌≡◌, ◌<◌, ◌≤◌, ◌^◌, IfOk, length};
ghost use Rattle.log_items.specs.Plain.{items_of, entry_of};
ghost use Rattle.part_steps.specs.States.{IsSound, IsStateOf, state_of, count_of, parts_in};
ghost use Rattle.dura_model.specs.Entries.{all_accepted, entry_accepted};
ghost use Rattle.recover_core.specs.Placed.{Makes, MakesEntry};

use log_items::{Entry, Item};
use part_rows::Reactions;
use part_steps::{PartState, Verdict};
use std::alloc::{AllocError, Global};

/// The state that items make one after another, or none where one of them isn't accepted.
fn place_items<R: Reactions>(
    alloc: Global,
    reactions: &R,
    state: PartState,
    items: &[Item],
) -> Result<Option<PartState>, AllocError>
    requires sound { IsSound state }
    requires begun { 0 < (state_of state).position }
    ensures { IfOk result (λ made. Makes made state
        (all_accepted (R.flows reactions.now) (count_of state) (state_of state)
        (items_of items.now))) }
{
    let mut state = state;
    for item in items {
        match state.apply(alloc, reactions, item)? {
            Verdict::Accepted(next, made) => {
                made.let_go();
                state = next;
            }
            Verdict::Refused(state) => {
                state.let_go();
                return Ok(None);
            }
        }
    }
    Ok(Some(state))
}

/// The state that an entry makes of this one, or none where it isn't accepted: then this one is gone.
pub(crate) fn place_on<R: Reactions>(
    alloc: Global,
    reactions: &R,
    state: PartState,
    entry: &Entry,
) -> Result<Option<PartState>, AllocError>
    requires sound { IsSound state }
    requires younger { (state_of state).incarnation ≤ entry.now.incarnation }
    requires room { (state_of state).position < 2 ^ 63 }
    ensures { IfOk result (λ made. MakesEntry made state (entry_of entry.now)
        (entry_accepted (R.flows reactions.now) (count_of state) (state_of state)
        (entry_of entry.now))) }
{
    let entered = state.enter(entry.incarnation);
    place_items(alloc, reactions, entered, entry.items.as_slice())
}
