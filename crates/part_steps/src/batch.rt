//! The items of an entry that a partition makes by itself.

ghost use Rattle.std.specs.Prelude.{◌≡◌, ◌<◌, ◌≤◌, ◌++◌, ◌∷◌, [], length, map, IfOk, OnOk};
ghost use Rattle.log_items.specs.Plain.{items_of};
ghost use Rattle.part_steps.specs.Batches.{BatchGoesOn};
ghost use Rattle.part_steps.specs.Enabled.{stamp_at, NoneEnabled, Makes};
ghost use Rattle.part_steps.specs.Outputs.{outputs_of};
ghost use Rattle.part_steps.specs.States.{IsSound, state_of, count_of};

use crate::state::{PartState, Verdict};
use dura_value::Outputs;
use log_items::Item;
use part_rows::Reactions;
use std::alloc::{AllocError, Global};

/// Items, applied one after another.
#[derive(Drop)]
pub struct Batch {
    /// The state after all of them.
    pub state: PartState,
    /// The items.
    pub items: Vec<Item>,
    /// What each of them made.
    pub outputs: Vec<Outputs>,
}

/// What came of going on with a batch.
#[derive(Drop)]
pub(crate) enum Turn {
    /// It has one item more.
    More(Batch),
    /// Nothing more is possible now.
    Over(Batch),
}

/// A batch with one item more that was applied.
fn with_item(
    state: PartState,
    mut items: Vec<Item>,
    mut outputs: Vec<Outputs>,
    item: Item,
    made: Outputs,
) -> Result<Batch, AllocError>
    ensures state { IfOk result (λ batch. batch.state ≡ state) }
    ensures items { IfOk result (λ batch. batch.items.items ≡ items.items ++ item ∷ []) }
    ensures outputs { IfOk result (λ batch. batch.outputs.items ≡ outputs.items ++ made ∷ []) }
{
    match add_item(&mut items, &mut outputs, item, made) {
        Ok(()) => Ok(Batch {
            state,
            items,
            outputs,
        }),
        Err(error) => {
            state.let_go();
            Err(error)
        }
    }
}

/// An item comes behind the others, and what it made behind what they made.
fn add_item(
    items: &mut Vec<Item>,
    outputs: &mut Vec<Outputs>,
    item: Item,
    made: Outputs,
) -> Result<(), AllocError>
    ensures items { OnOk result (items.new.items ≡ items.old.items ++ item ∷ []) }
    ensures outputs { OnOk result (outputs.new.items ≡ outputs.old.items ++ made ∷ []) }
{
    items.push(item)?;
    outputs.push(made)?;
    Ok(())
}

/// A batch goes on with what is possible now.
pub(crate) fn add_next<R: Reactions>(
    alloc: Global,
    reactions: &R,
    batch: Batch,
    now: u64,
) -> Result<Turn, AllocError>
    requires sound { IsSound batch.state }
    requires begun { 0 < (state_of batch.state).position }
    ensures { IfOk result (λ turn. BatchGoesOn (R.flows reactions.now) now batch turn) }
{
    let enabled = match batch.state.enabled(now) {
        Ok(enabled) => enabled,
        Err(error) => {
            batch.state.let_go();
            return Err(error);
        }
    };
    let Some(item) = enabled else {
        return Ok(Turn::Over(batch));
    };
    let verdict = match batch.state.apply(alloc, reactions, &item) {
        Ok(verdict) => verdict,
        Err(error) => {
            drop(item);
            return Err(error);
        }
    };
    match verdict {
        Verdict::Accepted(state, made) => {
            let next = with_item(state, batch.items, batch.outputs, item, made)?;
            Ok(Turn::More(next))
        }
        Verdict::Refused(_) => unreachable!(),
    }
}

/// Deliveries and timers that are possible now, each after those before it, up to this many; there are fewer only where nothing is
/// possible behind them. They are applied as they are chosen, so that each is chosen in the state that it meets.
#[tactic(auto, using(crate::proofs::Batching::filled_first, crate::proofs::Batching::filled_more, crate::proofs::Batching::none_behind, crate::proofs::Batching::over_filled))]
pub fn next_items<R: Reactions>(
    alloc: Global,
    reactions: &R,
    state: PartState,
    now: u64,
    limit: u32,
) -> Result<Batch, AllocError>
    requires sound { IsSound state }
    requires begun { 0 < (state_of state).position }
    ensures made { IfOk result (λ batch.
        Makes (R.flows reactions.now) (count_of state) now (state_of state)
        (items_of batch.items.items) (map outputs_of batch.outputs.items) (state_of batch.state)) }
    ensures limit { IfOk result (λ batch. length batch.items.items ≤ limit) }
    ensures none { IfOk result (λ batch. length batch.items.items < limit
        → NoneEnabled (R.flows reactions.now) (count_of state) (state_of batch.state)
        (stamp_at (state_of batch.state) now)) }
    ensures partitions { IfOk result (λ batch. count_of batch.state ≡ count_of state) }
    ensures entry { IfOk result (λ batch. (state_of batch.state).position
        ≡ (state_of state).position) }
    ensures sound { IfOk result (λ batch. IsSound batch.state) }
{
    let mut batch = Batch {
        state,
        items: Vec::new(alloc),
        outputs: Vec::new(alloc),
    };
    for _ in 0..limit {
        match add_next(alloc, reactions, batch, now)? {
            Turn::More(next) => batch = next,
            Turn::Over(last) => return Ok(last),
        }
    }
    Ok(batch)
}
