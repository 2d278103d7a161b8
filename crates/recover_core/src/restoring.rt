//! A state is made again from the log of its partition.

ghost use Rattle.std.specs.Prelude.{◌≡◌, ◌≤◌, ◌<◌, ◌^◌, ℕ, List, Err, IfOk, IfErr};
ghost use Rattle.site_model.specs.Calls.{HasRisen};
ghost use Rattle.dura_value.specs.Items.{Entry as PlainEntry};
ghost use Rattle.dura_model.specs.Partition.{Partition};
ghost use Rattle.log_files.specs.Entries.{IsOpenedLog};
ghost use Rattle.part_steps.specs.States.{IsSound, IsStateOf, count_of, state_of};
ghost use Rattle.recover_core.specs.Restored.{IsFront, Restores, FitsAhead, RestoresOne, StopsRestoring};

use crate::placing::place_on;
use commit_log::{FrameError, OpenedLog};
use log_files::{Ahead, EntryReader};
use part_rows::Reactions;
use part_steps::PartState;
use site_model::Site;
use std::alloc::Global;

/// The state that the next entry makes of one that it made before, and the log behind the entry.
fn restore_one<R: Reactions>(
    alloc: Global,
    reactions: &R,
    state: PartState,
    next: Ahead,
) -> Result<(PartState, EntryReader), FrameError>
    requires sound { IsSound state }
    requires fits { FitsAhead (state_of state) next }
    ensures makes { IfOk result (λ made. RestoresOne (R.flows reactions.now) state next made) }
    ensures stops { IfErr result (λ error.
        StopsRestoring (R.flows reactions.now) (count_of state) (state_of state) next error) }
    ensures no_fault { result ≡ Err FrameError.SiteFault → ⊥ }
{
    let (entry, behind) = match next {
        Ahead::Entry(entry, behind) => (entry, behind),
        // The log was longer when it was read first.
        Ahead::End(end) => {
            state.let_go();
            return Err(FrameError::Damaged { offset: end.gate });
        }
    };
    let made = place_on(alloc, reactions, state, &entry);
    entry.let_go();
    match made {
        Ok(Some(made)) => Ok((made, behind)),
        // Its entries were others when it was read first.
        Ok(None) => Err(FrameError::Damaged { offset: 0 }),
        Err(_) => Err(FrameError::Memory),
    }
}

/// The state that the entries before this position make of the log of one of so many partitions. They made it once.
pub(crate) fn restore<V: Site, R: Reactions>(
    alloc: Global,
    site: &mut V,
    reactions: &R,
    log: OpenedLog,
    count: u32,
    partition: u32,
    position: u64,
) -> Result<PartState, FrameError>
    requires below { partition < count }
    requires room { position < 2 ^ 63 }
    requires first { log.header.base ≡ 0 }
    ensures tells { V.tells site.new → V.tells site.old }
    ensures state { IfOk result (IsStateOf count partition) }
    ensures restores { V.tells site.new → (done : List PlainEntry) (made : Partition)
        → IsOpenedLog (V.history site.old) log
        → IsFront (R.flows reactions.now) (V.history site.old) log count partition position done
        made → Restores (V.history site.old) log made result }
    ensures unchanged { V.history site.new ≡ V.history site.old }
    ensures fault { result ≡ Err FrameError.SiteFault
        → HasRisen (V.disk_faults site.old) (V.disk_faults site.new) }
    ensures later { V.disk_faults site.old ≤ V.disk_faults site.new }
    ensures say_faults { V.say_faults site.new ≡ V.say_faults site.old }
{
    let mut state = PartState::new(alloc, count, partition);
    let mut reader = EntryReader::begin(alloc, log);
    'entries: while state.position() < position {
        let next = match reader.next(alloc, site) {
            Ok(next) => next,
            Err(error) => {
                state.let_go();
                return Err(error);
            }
        };
        match restore_one(alloc, reactions, state, next) {
            Ok((made, behind)) => {
                state = made;
                reader = behind;
            }
            Err(error) => return Err(error),
        }
    }
    Ok(state)
}
