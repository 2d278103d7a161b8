//! What others see of a partition that was recovered.

ghost use Rattle.std.specs.Prelude.{◌≡◌, map, IfOk};
ghost use Rattle.std.specs.List.{range_with_len};
ghost use Rattle.dura_value.specs.Views.{identity_of};
ghost use Rattle.part_steps.specs.States.{IsSound, state_of, count_of};
ghost use Rattle.state_ledgers.specs.Ledger.{IsLedgerOf};

use crate::streams::streams_of;
use commit_gate::{Ledger, Past};
use dura_value::Identity;
use part_steps::PartState;
use std::alloc::{AllocError, Global};

/// How far the stream from each of so many partitions was taken in.
fn nexts_of(alloc: Global, state: &PartState, count: u32) -> Result<Vec<u64>, AllocError>
    ensures { IfOk result (λ v. v.items
        ≡ map (λ source. ((state_of state.now).inboxes source).next) (range_with_len 0 count)) }
{
    let mut nexts = Vec::with_capacity(alloc, count as usize)?;
    for source in 0..count {
        nexts.push(state.taken_in(source))?;
    }
    Ok(nexts)
}

/// The entry that took in the last message of the stream from each of so many partitions.
fn readers_of(alloc: Global, state: &PartState, count: u32) -> Result<Vec<Identity>, AllocError>
    ensures { IfOk result (λ v. map identity_of v.items
        ≡ map (λ source. ((state_of state.now).inboxes source).reader) (range_with_len 0 count)) }
{
    let mut readers = Vec::with_capacity(alloc, count as usize)?;
    for source in 0..count {
        readers.push(state.taken_by(source))?;
    }
    Ok(readers)
}

/// What others see of one of so many partitions that was recovered, whose entries are of these incarnations: how far it took in the
/// stream from each partition and by which entry, and what is left of its own streams. No entry was given up.
pub fn ledger_of(
    alloc: Global,
    state: &PartState,
    count: u32,
    past: Past,
) -> Result<Ledger, AllocError>
    requires sound { IsSound state.now }
    requires among { count_of state.now ≡ count }
    ensures { IfOk result (IsLedgerOf count (state_of state.now) past) }
{
    let nexts = nexts_of(alloc, state, count)?;
    let readers = readers_of(alloc, state, count)?;
    let streams = streams_of(alloc, state, count)?;
    Ok(Ledger::recovered(alloc, past, Vec::new(alloc), nexts, readers, streams))
}
