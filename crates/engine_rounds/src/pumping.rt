//! Where a round added nothing, what is possible is done without the packets on their way.

ghost use Rattle.std.specs.Prelude.{◌≡◌, ◌≢◌, ◌≤◌, ℕ, ◌<◌, ◌+◌, false, max, true, length, Some, Ok, Err, IfErr, IfOk, IfSome, OnOk};
ghost use Rattle.cell_frames.specs.Joined.{StoreView, view_of};
ghost use Rattle.engine_rounds.specs.Adding.{Adds, HasLostNode, MayAdd};
ghost use Rattle.engine_rounds.specs.Heard.{ByClock};
ghost use Rattle.engine_rounds.specs.Held.{HaveHeard, NoneHeld};
ghost use Rattle.round_steps.specs.Labels.{AreFew, IsCounted, settled_labels};
ghost use Rattle.round_steps.specs.Serving.{GoesOn, IsServing};
ghost use Rattle.node_core.specs.Halts.{IsPast, RisesFor};
ghost use Rattle.client_port.specs.Clients.{clients_of};
ghost use Rattle.rest_check.specs.Rest.{IsAtRest};
ghost use Rattle.hub_store.specs.Changes.{told_in, trail_in};
ghost use Rattle.node_core.specs.Running.{IsRunning, Keeps};
ghost use Rattle.site_model.specs.Calls.{HasRisen};
ghost use Rattle.world_steps.specs.Cells.{AllJoined};

use activity_table::Activities;
use cell_frames::Seat;
use cell_steps::Mode;
use dura_value::Name;
use gated_store::GatedStore;
use log_items::Packet;
use many_rules::{ByRules, Picked};
use node_core::{Crew, Halt, has_stopped};
use part_rows::Reactions;
use rest_check::is_at_rest;
use round_steps::{
    Course, Pace, own_all, run_all_tasks, serve_all, serve_reached, step_and_commit,
};
use site_model::{Clock, LAST_STAMP, Site};
use spec_cell::{Arrived, Cell};
use std::alloc::{AllocError, Global};
use world_steps::{arrive_at, fire_at, resend_at};

/// A packet comes where it goes to, without a way.
fn bring_one<M: Picked>(
    alloc: Global,
    cells: &mut Vec<Cell<Seat<M>>>,
    packet: Packet,
) -> Result<(), AllocError>
    ensures many { length cells.new.items ≡ length cells.old.items }
    ensures joined { (s : StoreView) → AllJoined M.rules s cells.old.items
        → OnOk result (AllJoined M.rules s cells.new.items) }
{
    let part = packet.dst;
    if cells.len() <= part as usize {
        drop(packet);
        return Ok(());
    }
    match arrive_at(alloc, cells, part, packet)? {
        Arrived::Queued => Ok(()),
        Arrived::Repeat(_) => Ok(()),
        Arrived::Gap(_) => Ok(()),
    }
}

/// Packets come where they go to.
fn bring<M: Picked>(
    alloc: Global,
    cells: &mut Vec<Cell<Seat<M>>>,
    packets: Vec<Packet>,
) -> Result<(), AllocError>
    ensures many { length cells.new.items ≡ length cells.old.items }
    ensures joined { (s : StoreView) → AllJoined M.rules s cells.old.items
        → OnOk result (AllJoined M.rules s cells.new.items) }
{
    'packets: for packet in packets {
        bring_one(alloc, cells, packet)?;
    }
    Ok(())
}

/// What is left of a partition's settled streams comes where it goes to.
fn bring_from<M: Picked>(
    alloc: Global,
    cells: &mut Vec<Cell<Seat<M>>>,
    part: u32,
) -> Result<(), AllocError>
    requires place { part < length cells.old.items }
    ensures many { length cells.new.items ≡ length cells.old.items }
    ensures joined { (s : StoreView) → AllJoined M.rules s cells.old.items
        → OnOk result (AllJoined M.rules s cells.new.items) }
{
    let packets = resend_at(alloc, cells, part, Mode::Local)?;
    bring(alloc, cells, packets)
}

/// What is left of all settled streams comes where it goes to.
fn bring_all<M: Picked>(alloc: Global, cells: &mut Vec<Cell<Seat<M>>>) -> Result<(), AllocError>
    requires few { length cells.old.items ≤ 32 }
    ensures many { length cells.new.items ≡ length cells.old.items }
    ensures joined { (s : StoreView) → AllJoined M.rules s cells.old.items
        → OnOk result (AllJoined M.rules s cells.new.items) }
{
    let count = cells.len() as u32;
    'parts: for part in 0..count {
        bring_from(alloc, cells, part)?;
    }
    Ok(())
}

/// Whether a cell holds an entry that isn't settled.
pub(crate) fn holds_some<M: Picked>(cells: &[Cell<Seat<M>>]) -> bool
    ensures { result ≡ false → NoneHeld cells.now }
{
    'parts: for part in 0..cells.len() {
        if cells[part].held() > 0 {
            return true;
        }
    }
    false
}

/// The moment comes to all cells.
fn fire_all<M: Picked>(cells: &mut Vec<Cell<Seat<M>>>, now: u64)
    requires few { length cells.old.items ≤ 32 }
    ensures many { length cells.new.items ≡ length cells.old.items }
    ensures heard { HaveHeard now cells.old.items cells.new.items }
{
    let count = cells.len() as u32;
    'parts: for part in 0..count {
        let _ = fire_at(cells, part, now);
    }
}

/// The moment comes to all cells, which hold nothing, and the store hears of it. So what they make then is of this moment, and what they made
/// before it is settled.
pub(crate) fn hear<V: Site, M: Picked>(
    store: &mut GatedStore<V, ByRules<M>>,
    cells: &mut Vec<Cell<Seat<M>>>,
    now: u64,
)
    requires running { IsRunning M.origin M.rules store.old cells.old.items }
    requires none { NoneHeld cells.old.items }
    ensures goes { GoesOn M.rules store.old store.new }
    ensures site { store.new.logs.site ≡ store.old.logs.site }
    ensures told { told_in store.new.logs ≡ told_in store.old.logs }
    ensures trail { trail_in store.new.logs ≡ trail_in store.old.logs }
    ensures latest { store.new.logs.latest ≡ max store.old.logs.latest now }
    ensures running { IsRunning M.origin M.rules store.new cells.new.items }
{
    store.raise(now);
    fire_all(cells, now);
}

/// The earliest moment at which a timer is due, of all settled states.
fn next_due<M: Picked>(cells: &Vec<Cell<Seat<M>>>) -> Option<u64> {
    let mut first: Option<u64> = None;
    'cells: for cell in cells.iter() {
        let due = match cell.base() {
            Some(base) => base.next_timer(),
            None => None,
        };
        first = match (first, due) {
            (Some(one), Some(other)) => Some(one.min(other)),
            (None, other) => other,
            (one, None) => one,
        };
    }
    first
}

/// What came of pumping.
#[derive(Clone, Copy, Drop, PartialEq, Eq)]
pub enum Pumped {
    /// So many labels were settled, at least one.
    Labels(u64),
    /// Nothing is possible any more.
    Rest,
    /// The node of a partition has stopped, and no label was settled since.
    Stopped,
}

/// Whether a partition is on a node that has stopped by so many turns of the store.
fn has_lost_node(crew: &Crew, turns: u64) -> bool
    ensures { result ≡ true → HasLostNode crew.now turns }
{
    'parts: for part in 0..crew.owners.len() {
        if has_stopped(&crew.plan.stops, crew.owners[part], turns) {
            return true;
        }
    }
    false
}

/// All that is possible comes to the cells: what clients ask, what is left of streams, and what activities come to.
fn gather<V: Site, M: Picked, A: Activities>(
    alloc: Global,
    acts: &A,
    store: &mut GatedStore<V, ByRules<M>>,
    cells: &mut Vec<Cell<Seat<M>>>,
    course: &mut Course,
    clients: &[Name],
    seed: u32,
) -> Result<(), Halt>
    requires serving { IsServing M.origin M.rules store.old cells.old.items course.old.port }
    ensures goes { GoesOn M.rules store.old store.new }
    ensures kept { Keeps M.origin M.rules store.new }
    ensures whole { result ≢ Err Halt.SayFault → store.new.logs.cut ≡ false }
    ensures serving { OnOk result (IsServing M.origin M.rules store.new cells.new.items course.new.port) }
    ensures rises { IfErr result (RisesFor (V.disk_faults store.old.logs.site)
        (V.say_faults store.old.logs.site) (V.disk_faults store.new.logs.site)
        (V.say_faults store.new.logs.site)) }
    ensures past { IfErr result (IsPast M.rules store.new cells.new.items) }
    ensures clock { result ≢ Err Halt.ClockFault }
    ensures latest { store.new.logs.latest ≡ store.old.logs.latest }
    ensures trail { trail_in store.new.logs ≡ trail_in store.old.logs }
    ensures seen { course.new.seen ≡ course.old.seen }
{
    serve_all(alloc, store, cells, &mut course.port, clients)?;
    if bring_all(alloc, cells).is_err() {
        return Err(Halt::Memory);
    }
    match run_all_tasks(alloc, acts, cells, &course.crew, 0, seed, &mut course.runs) {
        Ok(()) => Ok(()),
        Err(_) => Err(Halt::Memory),
    }
}

/// All that is possible comes to the cells, they make an entry each, and these are committed. It says whether one was made, and how many
/// labels were settled.
fn push<V: Site, M: Picked, R: Reactions, A: Activities>(
    alloc: Global,
    reactions: &R,
    acts: &A,
    store: &mut GatedStore<V, ByRules<M>>,
    cells: &mut Vec<Cell<Seat<M>>>,
    course: &mut Course,
    clients: &[Name],
    pace: &Pace,
) -> Result<(bool, u64), Halt>
    requires serving { IsServing M.origin M.rules store.old cells.old.items course.old.port }
    requires counted { IsCounted course.old.seen (trail_in store.old.logs) }
    requires flows { R.flows reactions.now ≡ M.rules.flows }
    requires some { 0 < pace.now.batch }
    requires few { pace.now.batch ≤ 64 }
    requires bound { pace.now.batch ≤ M.rules.most }
    ensures goes { GoesOn M.rules store.old store.new }
    ensures fewer { AreFew M.rules pace.now.steps (trail_in store.old.logs)
        → AreFew M.rules pace.now.steps (trail_in store.new.logs) }
    ensures kept { Keeps M.origin M.rules store.new }
    ensures whole { result ≢ Err Halt.SayFault → store.new.logs.cut ≡ false }
    ensures serving { OnOk result (IsServing M.origin M.rules store.new cells.new.items course.new.port) }
    ensures rises { IfErr result (RisesFor (V.disk_faults store.old.logs.site)
        (V.say_faults store.old.logs.site) (V.disk_faults store.new.logs.site)
        (V.say_faults store.new.logs.site)) }
    ensures past { IfErr result (IsPast M.rules store.new cells.new.items) }
    ensures clock { result ≢ Err Halt.ClockFault }
    ensures latest { store.new.logs.latest ≡ store.old.logs.latest }
    ensures adds { IfOk result (λ both. settled_labels (trail_in store.new.logs)
        ≡ settled_labels (trail_in store.old.logs) + both.1) }
    ensures counted { OnOk result (IsCounted course.new.seen (trail_in store.new.logs)) }
{
    let before = course.seen.labels;
    gather(alloc, acts, store, cells, course, clients, pace.seed)?;
    let turned = step_and_commit(alloc, reactions, store, cells, course, 0, pace, 1)?;
    serve_reached(alloc, store, cells, course)?;
    let labels = course.seen.labels - before;
    Ok((turned, labels))
}

/// Whether rounds end, since nothing is possible any more.
fn rest_of<V: Site, M: Picked>(
    alloc: Global,
    store: &GatedStore<V, ByRules<M>>,
    cells: &[Cell<Seat<M>>],
    course: &Course,
    clients: &[Name],
) -> Result<Option<Pumped>, Halt>
    requires running { IsRunning M.origin M.rules store.now cells.now }
    requires clients { clients.now ≡ clients_of M.rules.requests }
    ensures rest { result ≡ Ok (Some Pumped.Rest)
        → IsAtRest M.rules (trail_in store.now.logs) course.now.port }
    ensures kind { IfOk result (λ come. IfSome come (λ one. one ≡ Pumped.Rest)) }
    ensures memory { IfErr result (λ halt. halt ≡ Halt.Memory) }
{
    match is_at_rest(alloc, store, cells, &course.port, clients) {
        Ok(true) => Ok(Some(Pumped::Rest)),
        Ok(false) => Ok(None),
        Err(_) => Err(Halt::Memory),
    }
}

/// All that cells hold is given up, and all that is settled was seen then: what they made can't be settled as it is. It says how many labels were
/// settled by it, if some were.
fn give_up_seen<V: Site, M: Picked>(
    alloc: Global,
    store: &mut GatedStore<V, ByRules<M>>,
    cells: &mut Vec<Cell<Seat<M>>>,
    course: &mut Course,
    pace: &Pace,
) -> Result<Option<Pumped>, Halt>
    requires serving { IsServing M.origin M.rules store.old cells.old.items course.old.port }
    requires counted { IsCounted course.old.seen (trail_in store.old.logs) }
    ensures goes { GoesOn M.rules store.old store.new }
    ensures fewer { AreFew M.rules pace.now.steps (trail_in store.old.logs)
        → AreFew M.rules pace.now.steps (trail_in store.new.logs) }
    ensures kept { Keeps M.origin M.rules store.new }
    ensures whole { result ≢ Err Halt.SayFault → store.new.logs.cut ≡ false }
    ensures serving { OnOk result (IsServing M.origin M.rules store.new cells.new.items course.new.port) }
    ensures rises { IfErr result (RisesFor (V.disk_faults store.old.logs.site)
        (V.say_faults store.old.logs.site) (V.disk_faults store.new.logs.site)
        (V.say_faults store.new.logs.site)) }
    ensures past { IfErr result (IsPast M.rules store.new cells.new.items) }
    ensures clock { result ≢ Err Halt.ClockFault }
    ensures latest { store.new.logs.latest ≡ store.old.logs.latest }
    ensures kind { IfOk result (λ come. IfSome come (λ one. (labels : ℕ)
        × (one ≡ Pumped.Labels labels))) }
    ensures adds { IfOk result (MayAdd (trail_in store.old.logs) (trail_in store.new.logs)) }
    ensures counted { OnOk result (IsCounted course.new.seen (trail_in store.new.logs)) }
{
    let before = course.seen.labels;
    own_all(alloc, store, cells, course, pace)?;
    serve_reached(alloc, store, cells, course)?;
    let labels = course.seen.labels - before;
    if labels > 0 {
        Ok(Some(Pumped::Labels(labels)))
    } else {
        Ok(None)
    }
}

/// Where cells hold nothing, and nothing is possible now: the first timer's moment comes, or nothing is possible any more.
fn wait_on<V: Site, M: Picked, C: Clock>(
    alloc: Global,
    clock: &mut C,
    store: &mut GatedStore<V, ByRules<M>>,
    cells: &mut Vec<Cell<Seat<M>>>,
    course: &mut Course,
    clients: &[Name],
    steps: u64,
) -> Result<Option<Pumped>, Halt>
    requires serving { IsServing M.origin M.rules store.old cells.old.items course.old.port }
    requires clients { clients.now ≡ clients_of M.rules.requests }
    requires none { NoneHeld cells.old.items }
    requires enough { settled_labels (trail_in store.old.logs) < steps }
    requires counted { IsCounted course.old.seen (trail_in store.old.logs) }
    ensures goes { GoesOn M.rules store.old store.new }
    ensures kept { Keeps M.origin M.rules store.new }
    ensures whole { result ≢ Err Halt.SayFault → store.new.logs.cut ≡ false }
    ensures serving { OnOk result (IsServing M.origin M.rules store.new cells.new.items course.new.port) }
    ensures rises { IfErr result (RisesFor (V.disk_faults store.old.logs.site)
        (V.say_faults store.old.logs.site) (V.disk_faults store.new.logs.site)
        (V.say_faults store.new.logs.site)) }
    ensures past { IfErr result (IsPast M.rules store.new cells.new.items) }
    ensures clock { result ≡ Err Halt.ClockFault
        → HasRisen (C.clock_faults clock.old) (C.clock_faults clock.new) }
    ensures ticks { C.clock_faults clock.old ≤ C.clock_faults clock.new }
    ensures latest { C.latest clock.old ≤ C.latest clock.new }
    ensures heard { store.old.logs.latest ≤ C.latest clock.old
        → store.new.logs.latest ≤ C.latest clock.new }
    ensures by_clock { ByClock M.rules steps (C.given clock.old) store.old (C.given clock.new) store.new }
    ensures rest { result ≡ Ok (Some Pumped.Rest)
        → IsAtRest M.rules (trail_in store.new.logs) course.new.port }
    ensures kind { IfOk result (λ come. IfSome come (λ one. one ≡ Pumped.Rest)) }
    ensures trail { trail_in store.new.logs ≡ trail_in store.old.logs }
    ensures counted { OnOk result (IsCounted course.new.seen (trail_in store.new.logs)) }
{
    let Some(due) = next_due(cells) else {
        return rest_of(alloc, store, cells, course, clients);
    };
    match clock.wait_until(due.min(LAST_STAMP)) {
        Ok(now) => {
            hear(store, cells, now);
            Ok(None)
        }
        Err(_) => Err(Halt::ClockFault),
    }
}

/// Labels are settled, or entries are, or the first timer's moment comes, or nothing is possible any more, or a node stopped on the way.
fn push_on<V: Site, M: Picked, R: Reactions, A: Activities, C: Clock>(
    alloc: Global,
    reactions: &R,
    acts: &A,
    clock: &mut C,
    store: &mut GatedStore<V, ByRules<M>>,
    cells: &mut Vec<Cell<Seat<M>>>,
    course: &mut Course,
    clients: &[Name],
    pace: &Pace,
) -> Result<Option<Pumped>, Halt>
    requires serving { IsServing M.origin M.rules store.old cells.old.items course.old.port }
    requires clients { clients.now ≡ clients_of M.rules.requests }
    requires enough { settled_labels (trail_in store.old.logs) < pace.now.steps }
    requires counted { IsCounted course.old.seen (trail_in store.old.logs) }
    requires flows { R.flows reactions.now ≡ M.rules.flows }
    requires some { 0 < pace.now.batch }
    requires few { pace.now.batch ≤ 64 }
    requires bound { pace.now.batch ≤ M.rules.most }
    ensures goes { GoesOn M.rules store.old store.new }
    ensures fewer { AreFew M.rules pace.now.steps (trail_in store.old.logs)
        → AreFew M.rules pace.now.steps (trail_in store.new.logs) }
    ensures kept { Keeps M.origin M.rules store.new }
    ensures whole { result ≢ Err Halt.SayFault → store.new.logs.cut ≡ false }
    ensures serving { OnOk result (IsServing M.origin M.rules store.new cells.new.items course.new.port) }
    ensures rises { IfErr result (RisesFor (V.disk_faults store.old.logs.site)
        (V.say_faults store.old.logs.site) (V.disk_faults store.new.logs.site)
        (V.say_faults store.new.logs.site)) }
    ensures past { IfErr result (IsPast M.rules store.new cells.new.items) }
    ensures clock { result ≡ Err Halt.ClockFault
        → HasRisen (C.clock_faults clock.old) (C.clock_faults clock.new) }
    ensures ticks { C.clock_faults clock.old ≤ C.clock_faults clock.new }
    ensures latest { C.latest clock.old ≤ C.latest clock.new }
    ensures heard { store.old.logs.latest ≤ C.latest clock.old
        → store.new.logs.latest ≤ C.latest clock.new }
    ensures by_clock { ByClock M.rules pace.now.steps (C.given clock.old) store.old (C.given clock.new)
        store.new }
    ensures rest { result ≡ Ok (Some Pumped.Rest)
        → IsAtRest M.rules (trail_in store.new.logs) course.new.port }
    ensures stopped { result ≡ Ok (Some Pumped.Stopped)
        → HasLostNode course.new.crew store.new.turns }
    ensures adds { IfOk result (MayAdd (trail_in store.old.logs) (trail_in store.new.logs)) }
    ensures counted { OnOk result (IsCounted course.new.seen (trail_in store.new.logs)) }
{
    let (turned, labels) = push(alloc, reactions, acts, store, cells, course, clients, pace)?;
    if labels > 0 {
        return Ok(Some(Pumped::Labels(labels)));
    }
    if has_lost_node(&course.crew, store.turns()) {
        return Ok(Some(Pumped::Stopped));
    }
    if turned {
        return Ok(None);
    }
    if holds_some(cells) {
        return give_up_seen(alloc, store, cells, course, pace);
    }
    wait_on(alloc, clock, store, cells, course, clients, pace.steps)
}

/// Labels are settled where one is possible, or nothing is: a label more at least, and else the call is at rest. Where a node stops on the way,
/// whose partitions can't commit any more, it ends too, so that they go to another. All that was settled before was seen.
pub fn pump<V: Site, M: Picked, R: Reactions, A: Activities, C: Clock>(
    alloc: Global,
    reactions: &R,
    acts: &A,
    clock: &mut C,
    store: &mut GatedStore<V, ByRules<M>>,
    cells: &mut Vec<Cell<Seat<M>>>,
    course: &mut Course,
    clients: &[Name],
    pace: &Pace,
) -> Result<Pumped, Halt>
    requires serving { IsServing M.origin M.rules store.old cells.old.items course.old.port }
    requires clients { clients.now ≡ clients_of M.rules.requests }
    requires enough { settled_labels (trail_in store.old.logs) < pace.now.steps }
    requires counted { IsCounted course.old.seen (trail_in store.old.logs) }
    requires flows { R.flows reactions.now ≡ M.rules.flows }
    requires some { 0 < pace.now.batch }
    requires few { pace.now.batch ≤ 64 }
    requires bound { pace.now.batch ≤ M.rules.most }
    ensures goes { GoesOn M.rules store.old store.new }
    ensures fewer { AreFew M.rules pace.now.steps (trail_in store.old.logs)
        → AreFew M.rules pace.now.steps (trail_in store.new.logs) }
    ensures kept { Keeps M.origin M.rules store.new }
    ensures whole { result ≢ Err Halt.SayFault → store.new.logs.cut ≡ false }
    ensures serving { OnOk result (IsServing M.origin M.rules store.new cells.new.items course.new.port) }
    ensures rises { IfErr result (RisesFor (V.disk_faults store.old.logs.site)
        (V.say_faults store.old.logs.site) (V.disk_faults store.new.logs.site)
        (V.say_faults store.new.logs.site)) }
    ensures past { IfErr result (IsPast M.rules store.new cells.new.items) }
    ensures clock { result ≡ Err Halt.ClockFault
        → HasRisen (C.clock_faults clock.old) (C.clock_faults clock.new) }
    ensures ticks { C.clock_faults clock.old ≤ C.clock_faults clock.new }
    ensures latest { C.latest clock.old ≤ C.latest clock.new }
    ensures heard { store.old.logs.latest ≤ C.latest clock.old
        → store.new.logs.latest ≤ C.latest clock.new }
    ensures by_clock { ByClock M.rules pace.now.steps (C.given clock.old) store.old (C.given clock.new)
        store.new }
    ensures rest { result ≡ Ok Pumped.Rest
        → IsAtRest M.rules (trail_in store.new.logs) course.new.port }
    ensures stopped { result ≡ Ok Pumped.Stopped → HasLostNode course.new.crew store.new.turns }
    ensures adds { IfOk result (Adds (trail_in store.old.logs) (trail_in store.new.logs)) }
    ensures counted { OnOk result (IsCounted course.new.seen (trail_in store.new.logs)) }
{
    'pushes: for _ in 0..u64::MAX {
        let pumped = push_on(
            alloc, reactions, acts, clock, store, cells, course, clients, pace,
        )?;
        if let Some(pumped) = pumped {
            return Ok(pumped);
        }
    }
    Err(Halt::Memory)
}
