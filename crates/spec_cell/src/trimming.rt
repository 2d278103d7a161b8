//! What was read of streams to others is let go of.

ghost use Rattle.std.specs.Prelude.{◌≡◌, ◌++◌, ◌∷◌, [], length, is_ok, IfOk, OnOk};
ghost use Rattle.std.specs.List.{All};
ghost use Rattle.cell_waits.specs.Indices.{IsIndexed};
ghost use Rattle.cell_waits.specs.Waits.{MayWait, waits_of};
ghost use Rattle.dura_model.specs.Partition.{Partition};
ghost use Rattle.log_items.specs.Plain.{item_of, items_of};
ghost use Rattle.part_steps.specs.States.{state_of};
ghost use Rattle.cell_steps.specs.Ahead.{ahead_of};
ghost use Rattle.spec_cell.specs.Trims.{has_before, trims_of, trims_by, has_trim, with_trims, Trims};
ghost use Rattle.spec_cell.specs.Views.{IsAhead};

use crate::cell::{Cell, put};
use crate::mine::Mine;
use cell_steps::Live;
use cell_waits::{Wait, Waits};
use log_items::Item;
use part_steps::PartState;
use spec_tracker::{Marks, Read};
use std::alloc::{AllocError, Global};

/// Whether a stream still has a message before this number.
fn has_before(state: &PartState, target: u32, number: u64) -> bool
    ensures { result ≡ has_before ((state_of state.now).outboxes target) number }
{
    state.left_len(target) > 0 && state.first_left(target) < number
}

/// What lets go of what was read, where it is of a stream of this partition that still has some of it, comes behind the others.
fn add_trim(trims: &mut Vec<Item>, state: &PartState, read: &Read) -> Result<(), AllocError>
    ensures { OnOk result (items_of trims.new.items
        ≡ items_of trims.old.items ++ trims_of (state_of state.now) read.now) }
{
    if read.source == state.number() && has_before(state, read.reader, read.next) {
        trims.push(Item::Trim(read.reader, read.next, read.inc, read.pos))?;
    }
    Ok(())
}

/// What lets go of what was read of a partition's streams.
fn trims_by(alloc: Global, state: &PartState, reads: &[Read]) -> Result<Vec<Item>, AllocError>
    ensures { IfOk result (λ trims. items_of trims.items
        ≡ trims_by (state_of state.now) reads.now) }
{
    let mut trims = Vec::new(alloc);
    for read in reads {
        add_trim(&mut trims, state, read)?;
    }
    Ok(trims)
}

/// Whether a trim of the same stream waits.
fn has_trim(waits: &Waits, item: &Item) -> bool
    requires { IsIndexed waits.now }
    ensures { result ≡ has_trim (waits_of waits.now) (item_of item.now) }
{
    match item {
        Item::Trim(target, _, _, _) => waits.has_trim(*target),
        _ => false,
    }
}

/// A trim waits behind all others, unless one of its stream waits.
fn wait_for_trim(alloc: Global, waits: &mut Waits, item: Item) -> Result<(), AllocError>
    requires { IsIndexed waits.old }
    ensures waits { OnOk result (waits_of waits.new
        ≡ with_trims (waits_of waits.old) (item_of item ∷ [])) }
    ensures indexed { OnOk result (IsIndexed waits.new) }
{
    if has_trim(waits, &item) {
        drop(item);
        return Ok(());
    }
    waits.push(alloc, Wait::Outside(item))
}

/// Trims wait behind all others, but for those of streams of which one waits.
fn wait_for_trims(alloc: Global, waits: &mut Waits, trims: Vec<Item>) -> Result<(), AllocError>
    requires { IsIndexed waits.old }
    ensures waits { OnOk result (waits_of waits.new
        ≡ with_trims (waits_of waits.old) (items_of trims.items)) }
    ensures indexed { OnOk result (IsIndexed waits.new) }
{
    for item in trims {
        wait_for_trim(alloc, waits, item)?;
    }
    Ok(())
}

/// Of each stream of the state ahead that still has some of what was read a trim waits; with how many streams those are.
fn add_trims(alloc: Global, live: Live, marks: &Marks) -> Result<(Live, usize), AllocError>
    requires { IsIndexed live.waits }
    ensures base { IfOk result (λ both. both.0.base ≡ live.base) }
    ensures steps { IfOk result (λ both. both.0.steps ≡ live.steps) }
    ensures incarnation { IfOk result (λ both. both.0.incarnation ≡ live.incarnation) }
    ensures given { IfOk result (λ both. both.0.given ≡ live.given) }
    ensures waits { IfOk result (λ both. waits_of both.0.waits ≡ with_trims (waits_of live.waits)
        (trims_by (state_of (ahead_of live)) marks.now.reads.items)) }
    ensures indexed { IfOk result (λ both. IsIndexed both.0.waits) }
    ensures count { IfOk result (λ both. both.1
        ≡ length (trims_by (state_of (ahead_of live)) marks.now.reads.items)) }
{
    let mut live = live;
    let trims = match trims_by(alloc, live.ahead(), &marks.reads) {
        Ok(trims) => trims,
        Err(error) => {
            live.let_go();
            return Err(error);
        }
    };
    let count = trims.len();
    match wait_for_trims(alloc, &mut live.waits, trims) {
        Ok(()) => Ok((live, count)),
        Err(error) => {
            live.let_go();
            Err(error)
        }
    }
}

impl<S: Mine> Cell<S> {
    /// Of each stream to another partition that still has, in the state ahead, some of what its reader has taken in by settled entries,
    /// the trim that lets go of it waits from now on, unless one waits already. It says how many streams those are.
    pub fn trim(&mut self, alloc: Global, marks: &Marks) -> Result<usize, AllocError>
        ensures trims { IfOk result (λ count. (ahead : Partition)
            × IsAhead S.flows S.count (S.begin self.old.number) self.old ahead
            × Trims marks.now ahead self.old count self.new) }
        ensures going { self.new.going ≡ is_ok result }
    {
        let Some(live) = self.live.take() else {
            return Err(AllocError);
        };
        let (next, count) = add_trims(alloc, live, marks)?;
        put(&mut self.live, next);
        Ok(count)
    }
}
