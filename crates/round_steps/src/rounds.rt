//! A round.

ghost use Rattle.std.specs.Prelude.{◌≡◌, ◌≢◌, ◌≤◌, ◌<◌, false, length, Err, IfErr, OnOk};
ghost use Rattle.cell_frames.specs.Joined.{StoreView};
ghost use Rattle.hub_store.specs.Changes.{trail_in};
ghost use Rattle.round_steps.specs.Labels.{AreFew, IsCounted};
ghost use Rattle.round_steps.specs.Serving.{GoesOn, IsServing};
ghost use Rattle.node_core.specs.Halts.{IsInner, IsPast, RisesFor};
ghost use Rattle.node_core.specs.Running.{Keeps};
ghost use Rattle.world_steps.specs.Cells.{AllJoined};

use crate::course::{Course, Pace};
use crate::labels::look;
use crate::tasks::run_all_tasks;
use activity_table::Activities;
use cell_frames::Seat;
use cell_steps::Mode;
use gated_store::GatedStore;
use many_rules::{ByRules, Picked};
use node_core::{Halt, Stepped, commit_wave, step_turn, take_in};
use part_rows::Reactions;
use part_transport::Transport;
use site_model::Site;
use spec_cell::Cell;
use std::alloc::Global;

/// The most turns of a partition before its frame is written.
const MOST_TURNS: u32 = 16;

/// The most waves of a round. Each settles a frame, if no node stops in it.
const MOST_WAVES: u32 = 1 << 20;

/// A partition makes an entry, if it may. It says whether what that sends found room, where one was made.
fn turn_part<M: Picked, R: Reactions>(
    alloc: Global,
    reactions: &R,
    cells: &mut Vec<Cell<Seat<M>>>,
    transport: &mut Transport,
    part: u32,
    pace: &Pace,
) -> Result<Option<bool>, Halt>
    requires flows { R.flows reactions.now ≡ M.rules.flows }
    requires some { 0 < pace.now.batch }
    requires few { pace.now.batch ≤ 64 }
    requires bound { pace.now.batch ≤ M.rules.most }
    requires place { part < length cells.old.items }
    ensures many { length cells.new.items ≡ length cells.old.items }
    ensures joined { (s : StoreView) → AllJoined M.rules s cells.old.items
        → OnOk result (AllJoined M.rules s cells.new.items) }
    ensures inner { IfErr result (IsInner M.rules cells.old.items cells.new.items) }
{
    match step_turn(
        alloc, reactions, cells, transport, part, pace.batch, pace.mode,
    ) {
        Ok((Stepped::Turned(_), fits)) => Ok(Some(fits)),
        Ok((Stepped::Held, _)) | Ok((Stepped::Idle, _)) => Ok(None),
        Ok((Stepped::Spent(number), _)) => Err(Halt::Spent {
            partition: part,
            number,
        }),
        Err(_) => Err(Halt::Memory),
    }
}

/// A partition makes entries, at most so many. It says whether it made one, and whether all that they send found room.
fn step_part<M: Picked, R: Reactions>(
    alloc: Global,
    reactions: &R,
    cells: &mut Vec<Cell<Seat<M>>>,
    transport: &mut Transport,
    part: u32,
    pace: &Pace,
    most: u32,
) -> Result<(bool, bool), Halt>
    requires flows { R.flows reactions.now ≡ M.rules.flows }
    requires some { 0 < pace.now.batch }
    requires few { pace.now.batch ≤ 64 }
    requires bound { pace.now.batch ≤ M.rules.most }
    requires place { part < length cells.old.items }
    ensures many { length cells.new.items ≡ length cells.old.items }
    ensures joined { (s : StoreView) → AllJoined M.rules s cells.old.items
        → OnOk result (AllJoined M.rules s cells.new.items) }
    ensures inner { IfErr result (IsInner M.rules cells.old.items cells.new.items) }
{
    let mut turned = false;
    let mut all = true;
    'turns: for _ in 0..most {
        let Some(fits) = turn_part(alloc, reactions, cells, transport, part, pace)? else {
            return Ok((turned, all));
        };
        turned = true;
        all = all && fits;
    }
    Ok((turned, all))
}

/// A partition whose node hasn't stopped by so many turns of the store makes entries. It says whether one was made.
fn step_one<M: Picked, R: Reactions>(
    alloc: Global,
    reactions: &R,
    cells: &mut Vec<Cell<Seat<M>>>,
    course: &mut Course,
    turns: u64,
    part: u32,
    pace: &Pace,
    most: u32,
) -> Result<bool, Halt>
    requires flows { R.flows reactions.now ≡ M.rules.flows }
    requires some { 0 < pace.now.batch }
    requires few { pace.now.batch ≤ 64 }
    requires bound { pace.now.batch ≤ M.rules.most }
    requires place { part < length cells.old.items }
    ensures many { length cells.new.items ≡ length cells.old.items }
    ensures joined { (s : StoreView) → AllJoined M.rules s cells.old.items
        → OnOk result (AllJoined M.rules s cells.new.items) }
    ensures inner { IfErr result (IsInner M.rules cells.old.items cells.new.items) }
    ensures port { course.new.port ≡ course.old.port }
    ensures seen { course.new.seen ≡ course.old.seen }
{
    if course.crew.has_stopped(part, turns) {
        return Ok(false);
    }
    let (turned, fits) = step_part(
        alloc,
        reactions,
        cells,
        &mut course.transport,
        part,
        pace,
        most,
    )?;
    if !fits {
        course.lacking = true;
    }
    Ok(turned)
}

/// Each partition whose node hasn't stopped makes entries. It says whether one was made.
fn turn_all<M: Picked, R: Reactions>(
    alloc: Global,
    reactions: &R,
    cells: &mut Vec<Cell<Seat<M>>>,
    course: &mut Course,
    turns: u64,
    pace: &Pace,
    most: u32,
) -> Result<bool, Halt>
    requires flows { R.flows reactions.now ≡ M.rules.flows }
    requires some { 0 < pace.now.batch }
    requires few { pace.now.batch ≤ 64 }
    requires bound { pace.now.batch ≤ M.rules.most }
    requires place { length cells.old.items ≤ 32 }
    ensures many { length cells.new.items ≡ length cells.old.items }
    ensures joined { (s : StoreView) → AllJoined M.rules s cells.old.items
        → OnOk result (AllJoined M.rules s cells.new.items) }
    ensures inner { IfErr result (IsInner M.rules cells.old.items cells.new.items) }
    ensures port { course.new.port ≡ course.old.port }
    ensures seen { course.new.seen ≡ course.old.seen }
{
    let count = cells.len() as u32;
    let mut turned = false;
    'parts: for part in 0..count {
        if step_one(alloc, reactions, cells, course, turns, part, pace, most)? {
            turned = true;
        }
    }
    Ok(turned)
}

/// The packets that wait for a partition come to it, unless its node has stopped by so many turns of the store.
fn take_in_part<M: Picked>(
    alloc: Global,
    cells: &mut Vec<Cell<Seat<M>>>,
    course: &mut Course,
    turns: u64,
    part: u32,
) -> Result<(), Halt>
    requires place { part < length cells.old.items }
    ensures many { length cells.new.items ≡ length cells.old.items }
    ensures joined { (s : StoreView) → AllJoined M.rules s cells.old.items
        → OnOk result (AllJoined M.rules s cells.new.items) }
    ensures memory { IfErr result (λ halt. halt ≡ Halt.Memory) }
    ensures port { course.new.port ≡ course.old.port }
    ensures seen { course.new.seen ≡ course.old.seen }
{
    if course.crew.has_stopped(part, turns) {
        return Ok(());
    }
    match take_in(alloc, cells, &mut course.transport, part) {
        Ok(()) => Ok(()),
        Err(_) => Err(Halt::Memory),
    }
}

/// The packets that wait come to all partitions whose nodes haven't stopped.
fn take_in_all<M: Picked>(
    alloc: Global,
    cells: &mut Vec<Cell<Seat<M>>>,
    course: &mut Course,
    turns: u64,
) -> Result<(), Halt>
    requires place { length cells.old.items ≤ 32 }
    ensures many { length cells.new.items ≡ length cells.old.items }
    ensures joined { (s : StoreView) → AllJoined M.rules s cells.old.items
        → OnOk result (AllJoined M.rules s cells.new.items) }
    ensures memory { IfErr result (λ halt. halt ≡ Halt.Memory) }
    ensures port { course.new.port ≡ course.old.port }
    ensures seen { course.new.seen ≡ course.old.seen }
{
    let count = cells.len() as u32;
    'parts: for part in 0..count {
        take_in_part(alloc, cells, course, turns, part)?;
    }
    Ok(())
}

/// What waits comes to each partition, and then each makes entries, unless its node has stopped. It says whether one was made. What one sends
/// comes to another only the next time: so no entry is made of one that isn't settled elsewhere, and the frames of all partitions go in one wave.
pub fn step_all<M: Picked, R: Reactions>(
    alloc: Global,
    reactions: &R,
    cells: &mut Vec<Cell<Seat<M>>>,
    course: &mut Course,
    turns: u64,
    pace: &Pace,
    most: u32,
) -> Result<bool, Halt>
    requires flows { R.flows reactions.now ≡ M.rules.flows }
    requires some { 0 < pace.now.batch }
    requires few { pace.now.batch ≤ 64 }
    requires bound { pace.now.batch ≤ M.rules.most }
    requires place { length cells.old.items ≤ 32 }
    ensures many { length cells.new.items ≡ length cells.old.items }
    ensures joined { (s : StoreView) → AllJoined M.rules s cells.old.items
        → OnOk result (AllJoined M.rules s cells.new.items) }
    ensures inner { IfErr result (IsInner M.rules cells.old.items cells.new.items) }
    ensures port { course.new.port ≡ course.old.port }
    ensures seen { course.new.seen ≡ course.old.seen }
{
    take_in_all(alloc, cells, course, turns)?;
    turn_all(alloc, reactions, cells, course, turns, pace, most)
}

/// A wave of frames is committed, where fewer labels were settled than are enough. It says whether a frame was written.
fn commit_once<V: Site, M: Picked>(
    alloc: Global,
    store: &mut GatedStore<V, ByRules<M>>,
    cells: &mut Vec<Cell<Seat<M>>>,
    course: &mut Course,
    pace: &Pace,
) -> Result<bool, Halt>
    requires serving { IsServing M.origin M.rules store.old cells.old.items course.old.port }
    requires counted { IsCounted course.old.seen (trail_in store.old.logs) }
    ensures goes { GoesOn M.rules store.old store.new }
    ensures kept { Keeps M.origin M.rules store.new }
    ensures whole { result ≢ Err Halt.SayFault → store.new.logs.cut ≡ false }
    ensures serving { OnOk result (IsServing M.origin M.rules store.new cells.new.items course.new.port) }
    ensures rises { IfErr result (RisesFor (V.disk_faults store.old.logs.site)
        (V.say_faults store.old.logs.site) (V.disk_faults store.new.logs.site)
        (V.say_faults store.new.logs.site)) }
    ensures past { IfErr result (IsPast M.rules store.new cells.new.items) }
    ensures clock { result ≢ Err Halt.ClockFault }
    ensures latest { store.new.logs.latest ≡ store.old.logs.latest }
    ensures fewer { AreFew M.rules pace.now.steps (trail_in store.old.logs)
        → AreFew M.rules pace.now.steps (trail_in store.new.logs) }
    ensures counted { OnOk result (IsCounted course.new.seen (trail_in store.new.logs)) }
{
    if pace.steps <= course.seen.labels {
        return Ok(false);
    }
    let wave = commit_wave(
        alloc,
        store,
        cells,
        &mut course.transport,
        &course.crew,
        pace.mode,
    )?;
    course.note_room(wave.fits);
    look(store, course)?;
    Ok(wave.wrote)
}

/// Waves of frames are committed until no frame may go, or as many labels were settled as are enough.
pub fn commit_all<V: Site, M: Picked>(
    alloc: Global,
    store: &mut GatedStore<V, ByRules<M>>,
    cells: &mut Vec<Cell<Seat<M>>>,
    course: &mut Course,
    pace: &Pace,
) -> Result<(), Halt>
    requires serving { IsServing M.origin M.rules store.old cells.old.items course.old.port }
    requires counted { IsCounted course.old.seen (trail_in store.old.logs) }
    ensures goes { GoesOn M.rules store.old store.new }
    ensures kept { Keeps M.origin M.rules store.new }
    ensures whole { result ≢ Err Halt.SayFault → store.new.logs.cut ≡ false }
    ensures serving { OnOk result (IsServing M.origin M.rules store.new cells.new.items course.new.port) }
    ensures rises { IfErr result (RisesFor (V.disk_faults store.old.logs.site)
        (V.say_faults store.old.logs.site) (V.disk_faults store.new.logs.site)
        (V.say_faults store.new.logs.site)) }
    ensures past { IfErr result (IsPast M.rules store.new cells.new.items) }
    ensures clock { result ≢ Err Halt.ClockFault }
    ensures latest { store.new.logs.latest ≡ store.old.logs.latest }
    ensures fewer { AreFew M.rules pace.now.steps (trail_in store.old.logs)
        → AreFew M.rules pace.now.steps (trail_in store.new.logs) }
    ensures counted { OnOk result (IsCounted course.new.seen (trail_in store.new.logs)) }
{
    'waves: for _ in 0..MOST_WAVES {
        if !commit_once(alloc, store, cells, course, pace)? {
            return Ok(());
        }
    }
    Ok(())
}

/// Partitions make so many entries each at the most, which are committed. It says whether one was made.
pub fn step_and_commit<V: Site, M: Picked, R: Reactions>(
    alloc: Global,
    reactions: &R,
    store: &mut GatedStore<V, ByRules<M>>,
    cells: &mut Vec<Cell<Seat<M>>>,
    course: &mut Course,
    turns: u64,
    pace: &Pace,
    most: u32,
) -> Result<bool, Halt>
    requires serving { IsServing M.origin M.rules store.old cells.old.items course.old.port }
    requires counted { IsCounted course.old.seen (trail_in store.old.logs) }
    requires flows { R.flows reactions.now ≡ M.rules.flows }
    requires some { 0 < pace.now.batch }
    requires few { pace.now.batch ≤ 64 }
    requires bound { pace.now.batch ≤ M.rules.most }
    ensures goes { GoesOn M.rules store.old store.new }
    ensures kept { Keeps M.origin M.rules store.new }
    ensures whole { result ≢ Err Halt.SayFault → store.new.logs.cut ≡ false }
    ensures serving { OnOk result (IsServing M.origin M.rules store.new cells.new.items course.new.port) }
    ensures rises { IfErr result (RisesFor (V.disk_faults store.old.logs.site)
        (V.say_faults store.old.logs.site) (V.disk_faults store.new.logs.site)
        (V.say_faults store.new.logs.site)) }
    ensures past { IfErr result (IsPast M.rules store.new cells.new.items) }
    ensures clock { result ≢ Err Halt.ClockFault }
    ensures latest { store.new.logs.latest ≡ store.old.logs.latest }
    ensures fewer { AreFew M.rules pace.now.steps (trail_in store.old.logs)
        → AreFew M.rules pace.now.steps (trail_in store.new.logs) }
    ensures counted { OnOk result (IsCounted course.new.seen (trail_in store.new.logs)) }
{
    let turned = step_all(alloc, reactions, cells, course, turns, pace, most)?;
    commit_all(alloc, store, cells, course, pace)?;
    Ok(turned)
}

/// Partitions make entries, which are committed: in the mode without speculation one after another, else all of a round at once.
fn make_and_commit<V: Site, M: Picked, R: Reactions>(
    alloc: Global,
    reactions: &R,
    store: &mut GatedStore<V, ByRules<M>>,
    cells: &mut Vec<Cell<Seat<M>>>,
    course: &mut Course,
    pace: &Pace,
) -> Result<(), Halt>
    requires serving { IsServing M.origin M.rules store.old cells.old.items course.old.port }
    requires counted { IsCounted course.old.seen (trail_in store.old.logs) }
    requires flows { R.flows reactions.now ≡ M.rules.flows }
    requires some { 0 < pace.now.batch }
    requires few { pace.now.batch ≤ 64 }
    requires bound { pace.now.batch ≤ M.rules.most }
    ensures goes { GoesOn M.rules store.old store.new }
    ensures kept { Keeps M.origin M.rules store.new }
    ensures whole { result ≢ Err Halt.SayFault → store.new.logs.cut ≡ false }
    ensures serving { OnOk result (IsServing M.origin M.rules store.new cells.new.items course.new.port) }
    ensures rises { IfErr result (RisesFor (V.disk_faults store.old.logs.site)
        (V.say_faults store.old.logs.site) (V.disk_faults store.new.logs.site)
        (V.say_faults store.new.logs.site)) }
    ensures past { IfErr result (IsPast M.rules store.new cells.new.items) }
    ensures clock { result ≢ Err Halt.ClockFault }
    ensures latest { store.new.logs.latest ≡ store.old.logs.latest }
    ensures fewer { AreFew M.rules pace.now.steps (trail_in store.old.logs)
        → AreFew M.rules pace.now.steps (trail_in store.new.logs) }
    ensures counted { OnOk result (IsCounted course.new.seen (trail_in store.new.logs)) }
{
    let (often, most) = if pace.mode == Mode::None {
        (MOST_TURNS, 1)
    } else {
        (1, MOST_TURNS)
    };
    'turns: for _ in 0..often {
        let turns = store.turns();
        if !step_and_commit(alloc, reactions, store, cells, course, turns, pace, most)? {
            return Ok(());
        }
    }
    Ok(())
}

/// One round: what waits comes to each partition, each makes entries, frames are committed until none may go, or as many labels were
/// settled as are enough, and else each task that is pending in what is settled runs once.
pub fn round<V: Site, M: Picked, R: Reactions, A: Activities>(
    alloc: Global,
    reactions: &R,
    acts: &A,
    store: &mut GatedStore<V, ByRules<M>>,
    cells: &mut Vec<Cell<Seat<M>>>,
    course: &mut Course,
    pace: &Pace,
) -> Result<(), Halt>
    requires serving { IsServing M.origin M.rules store.old cells.old.items course.old.port }
    requires counted { IsCounted course.old.seen (trail_in store.old.logs) }
    requires flows { R.flows reactions.now ≡ M.rules.flows }
    requires some { 0 < pace.now.batch }
    requires few { pace.now.batch ≤ 64 }
    requires bound { pace.now.batch ≤ M.rules.most }
    ensures goes { GoesOn M.rules store.old store.new }
    ensures kept { Keeps M.origin M.rules store.new }
    ensures whole { result ≢ Err Halt.SayFault → store.new.logs.cut ≡ false }
    ensures serving { OnOk result (IsServing M.origin M.rules store.new cells.new.items course.new.port) }
    ensures rises { IfErr result (RisesFor (V.disk_faults store.old.logs.site)
        (V.say_faults store.old.logs.site) (V.disk_faults store.new.logs.site)
        (V.say_faults store.new.logs.site)) }
    ensures past { IfErr result (IsPast M.rules store.new cells.new.items) }
    ensures clock { result ≢ Err Halt.ClockFault }
    ensures latest { store.new.logs.latest ≡ store.old.logs.latest }
    ensures fewer { AreFew M.rules pace.now.steps (trail_in store.old.logs)
        → AreFew M.rules pace.now.steps (trail_in store.new.logs) }
    ensures counted { OnOk result (IsCounted course.new.seen (trail_in store.new.logs)) }
{
    make_and_commit(alloc, reactions, store, cells, course, pace)?;
    if pace.steps <= course.seen.labels {
        return Ok(());
    }
    let turns = store.turns();
    match run_all_tasks(
        alloc,
        acts,
        cells,
        &course.crew,
        turns,
        pace.seed,
        &mut course.runs,
    ) {
        Ok(()) => Ok(()),
        Err(_) => Err(Halt::Memory),
    }
}
