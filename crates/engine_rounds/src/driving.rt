//! Round after round, until nothing is possible any more.

ghost use Rattle.std.specs.Prelude.{◌≡◌, ◌≢◌, ◌≤◌, ◌<◌, ◌+◌, false, Ok, Err, IfErr, IfOk, IfSome, OnOk};
ghost use Rattle.client_port.specs.Clients.{clients_of};
ghost use Rattle.engine_rounds.specs.Ends.{EndsAs};
ghost use Rattle.engine_rounds.specs.Heard.{ByClock};
ghost use Rattle.hub_store.specs.Changes.{trail_in};
ghost use Rattle.engine_rounds.specs.Held.{NoneHeld};
ghost use Rattle.round_steps.specs.Labels.{AreFew, IsCounted, settled_labels};
ghost use Rattle.round_steps.specs.Serving.{GoesOn, IsServing};
ghost use Rattle.node_core.specs.Halts.{IsPast, RisesFor};
ghost use Rattle.node_core.specs.Running.{IsRunning, Keeps};
ghost use Rattle.site_model.specs.Calls.{HasRisen};

use crate::pumping::{Pumped, hear, holds_some, pump};
use activity_table::Activities;
use cell_frames::Seat;
use cell_steps::Mode;
use dura_value::Name;
use gated_store::GatedStore;
use many_rules::{ByRules, Picked};
use node_core::Halt;
use part_rows::Reactions;
use rest_check::is_at_rest;
use round_steps::{Course, Pace, follow, own_all, round, serve_all, serve_reached, tidy};
use site_model::{Clock, Site};
use spec_cell::Cell;
use std::alloc::Global;

/// Where rounds end.
#[derive(Clone, Copy, Drop, PartialEq, Eq)]
pub enum End {
    /// Nothing is possible any more.
    Rest,
    /// So many labels were settled, which are as many as there may be, or more.
    Long(u64),
}

/// The clock is read, where cells hold nothing and fewer labels were settled than are enough, and all hear of its moment.
fn hear_clock<V: Site, M: Picked, C: Clock>(
    clock: &mut C,
    store: &mut GatedStore<V, ByRules<M>>,
    cells: &mut Vec<Cell<Seat<M>>>,
    course: &Course,
    steps: u64,
) -> Result<(), Halt>
    requires serving { IsServing M.origin M.rules store.old cells.old.items course.now.port }
    requires none { NoneHeld cells.old.items }
    requires enough { settled_labels (trail_in store.old.logs) < steps }
    ensures goes { GoesOn M.rules store.old store.new }
    ensures kept { Keeps M.origin M.rules store.new }
    ensures whole { result ≢ Err Halt.SayFault → store.new.logs.cut ≡ false }
    ensures serving { OnOk result (IsServing M.origin M.rules store.new cells.new.items course.now.port) }
    ensures rises { IfErr result (RisesFor (V.disk_faults store.old.logs.site)
        (V.say_faults store.old.logs.site) (V.disk_faults store.new.logs.site)
        (V.say_faults store.new.logs.site)) }
    ensures past { IfErr result (IsPast M.rules store.new cells.new.items) }
    ensures clock { result ≡ Err Halt.ClockFault
        → HasRisen (C.clock_faults clock.old) (C.clock_faults clock.new) }
    ensures ticks { C.clock_faults clock.old ≤ C.clock_faults clock.new }
    ensures trail { trail_in store.new.logs ≡ trail_in store.old.logs }
    ensures latest { C.latest clock.old ≤ C.latest clock.new }
    ensures heard { store.old.logs.latest ≤ C.latest clock.old
        → store.new.logs.latest ≤ C.latest clock.new }
    ensures by_clock { ByClock M.rules steps (C.given clock.old) store.old (C.given clock.new) store.new }
{
    let _ = course;
    match clock.now() {
        Ok(now) => {
            hear(store, cells, now);
            Ok(())
        }
        Err(_) => Err(Halt::ClockFault),
    }
}

/// The clock is read, and a round is gone.
fn go_once<V: Site, M: Picked, R: Reactions, A: Activities, C: Clock>(
    alloc: Global,
    reactions: &R,
    acts: &A,
    clock: &mut C,
    store: &mut GatedStore<V, ByRules<M>>,
    cells: &mut Vec<Cell<Seat<M>>>,
    course: &mut Course,
    pace: &Pace,
) -> Result<(), Halt>
    requires serving { IsServing M.origin M.rules store.old cells.old.items course.old.port }
    requires none { NoneHeld cells.old.items }
    requires counted { IsCounted course.old.seen (trail_in store.old.logs) }
    requires enough { settled_labels (trail_in store.old.logs) < pace.now.steps }
    requires flows { R.flows reactions.now ≡ M.rules.flows }
    requires some { 0 < pace.now.batch }
    requires few { pace.now.batch ≤ 64 }
    requires bound { pace.now.batch ≤ M.rules.most }
    ensures goes { GoesOn M.rules store.old store.new }
    ensures fewer { AreFew M.rules pace.now.steps (trail_in store.old.logs)
        → AreFew M.rules pace.now.steps (trail_in store.new.logs) }
    ensures kept { Keeps M.origin M.rules store.new }
    ensures whole { result ≢ Err Halt.SayFault → store.new.logs.cut ≡ false }
    ensures serving { OnOk result (IsServing M.origin M.rules store.new cells.new.items course.new.port) }
    ensures rises { IfErr result (RisesFor (V.disk_faults store.old.logs.site)
        (V.say_faults store.old.logs.site) (V.disk_faults store.new.logs.site)
        (V.say_faults store.new.logs.site)) }
    ensures past { IfErr result (IsPast M.rules store.new cells.new.items) }
    ensures clock { result ≡ Err Halt.ClockFault
        → HasRisen (C.clock_faults clock.old) (C.clock_faults clock.new) }
    ensures ticks { C.clock_faults clock.old ≤ C.clock_faults clock.new }
    ensures latest { C.latest clock.old ≤ C.latest clock.new }
    ensures heard { store.old.logs.latest ≤ C.latest clock.old
        → store.new.logs.latest ≤ C.latest clock.new }
    ensures by_clock { ByClock M.rules pace.now.steps (C.given clock.old) store.old (C.given clock.new)
        store.new }
    ensures counted { OnOk result (IsCounted course.new.seen (trail_in store.new.logs)) }
{
    hear_clock(clock, store, cells, course, pace.steps)?;
    round(alloc, reactions, acts, store, cells, course, pace)
}

/// One round, and what is between it and the next. It says whether a label was settled or a partition went to another node.
fn go_round<V: Site, M: Picked, R: Reactions, A: Activities, C: Clock>(
    alloc: Global,
    reactions: &R,
    acts: &A,
    clock: &mut C,
    store: &mut GatedStore<V, ByRules<M>>,
    cells: &mut Vec<Cell<Seat<M>>>,
    course: &mut Course,
    clients: &[Name],
    pace: &Pace,
) -> Result<bool, Halt>
    requires serving { IsServing M.origin M.rules store.old cells.old.items course.old.port }
    requires none { NoneHeld cells.old.items }
    requires enough { settled_labels (trail_in store.old.logs) < pace.now.steps }
    requires counted { IsCounted course.old.seen (trail_in store.old.logs) }
    requires flows { R.flows reactions.now ≡ M.rules.flows }
    requires some { 0 < pace.now.batch }
    requires few { pace.now.batch ≤ 64 }
    requires bound { pace.now.batch ≤ M.rules.most }
    ensures goes { GoesOn M.rules store.old store.new }
    ensures fewer { AreFew M.rules pace.now.steps (trail_in store.old.logs)
        → AreFew M.rules pace.now.steps (trail_in store.new.logs) }
    ensures kept { Keeps M.origin M.rules store.new }
    ensures whole { result ≢ Err Halt.SayFault → store.new.logs.cut ≡ false }
    ensures serving { OnOk result (IsServing M.origin M.rules store.new cells.new.items course.new.port) }
    ensures rises { IfErr result (RisesFor (V.disk_faults store.old.logs.site)
        (V.say_faults store.old.logs.site) (V.disk_faults store.new.logs.site)
        (V.say_faults store.new.logs.site)) }
    ensures past { IfErr result (IsPast M.rules store.new cells.new.items) }
    ensures clock { result ≡ Err Halt.ClockFault
        → HasRisen (C.clock_faults clock.old) (C.clock_faults clock.new) }
    ensures ticks { C.clock_faults clock.old ≤ C.clock_faults clock.new }
    ensures latest { C.latest clock.old ≤ C.latest clock.new }
    ensures heard { store.old.logs.latest ≤ C.latest clock.old
        → store.new.logs.latest ≤ C.latest clock.new }
    ensures by_clock { ByClock M.rules pace.now.steps (C.given clock.old) store.old (C.given clock.new)
        store.new }
    ensures counted { OnOk result (IsCounted course.new.seen (trail_in store.new.logs)) }
    ensures still { result ≡ Ok false → course.new.seen.labels ≡ course.old.seen.labels }
{
    let before = course.seen.labels;
    go_once(alloc, reactions, acts, clock, store, cells, course, pace)?;
    let went = follow(alloc, store, cells, course, clients, pace)?;
    serve_reached(alloc, store, cells, course)?;
    if course.seen.labels == before {
        return Ok(went);
    }
    tidy(alloc, store, cells, course, pace.mode)?;
    Ok(true)
}

/// Where as many labels were settled as may be rounds end, whether something is possible still or not.
fn stop_long<V: Site, M: Picked>(
    alloc: Global,
    store: &GatedStore<V, ByRules<M>>,
    cells: &[Cell<Seat<M>>],
    course: &Course,
    clients: &[Name],
    steps: u64,
) -> Result<Option<End>, Halt>
    requires running { IsRunning M.origin M.rules store.now cells.now }
    requires clients { clients.now ≡ clients_of M.rules.requests }
    requires counted { IsCounted course.now.seen (trail_in store.now.logs) }
    requires long { steps ≤ course.now.seen.labels }
    ensures ends { IfOk result (λ end. IfSome end
        (EndsAs M.rules steps (trail_in store.now.logs) course.now.port)) }
    ensures memory { IfErr result (λ halt. halt ≡ Halt.Memory) }
{
    match is_at_rest(alloc, store, cells, &course.port, clients) {
        Ok(true) => Ok(Some(End::Rest)),
        Ok(false) => Ok(Some(End::Long(course.seen.labels))),
        Err(_) => Err(Halt::Memory),
    }
}

/// All that isn't settled is given up, and all that is settled was seen then. It says whether labels were settled by it.
fn give_up<V: Site, M: Picked>(
    alloc: Global,
    store: &mut GatedStore<V, ByRules<M>>,
    cells: &mut Vec<Cell<Seat<M>>>,
    course: &mut Course,
    pace: &Pace,
) -> Result<bool, Halt>
    requires serving { IsServing M.origin M.rules store.old cells.old.items course.old.port }
    requires counted { IsCounted course.old.seen (trail_in store.old.logs) }
    ensures goes { GoesOn M.rules store.old store.new }
    ensures fewer { AreFew M.rules pace.now.steps (trail_in store.old.logs)
        → AreFew M.rules pace.now.steps (trail_in store.new.logs) }
    ensures kept { Keeps M.origin M.rules store.new }
    ensures whole { result ≢ Err Halt.SayFault → store.new.logs.cut ≡ false }
    ensures serving { OnOk result (IsServing M.origin M.rules store.new cells.new.items course.new.port) }
    ensures rises { IfErr result (RisesFor (V.disk_faults store.old.logs.site)
        (V.say_faults store.old.logs.site) (V.disk_faults store.new.logs.site)
        (V.say_faults store.new.logs.site)) }
    ensures past { IfErr result (IsPast M.rules store.new cells.new.items) }
    ensures clock { result ≢ Err Halt.ClockFault }
    ensures latest { store.new.logs.latest ≡ store.old.logs.latest }
    ensures counted { OnOk result (IsCounted course.new.seen (trail_in store.new.logs)) }
    ensures still { result ≡ Ok false → course.new.seen.labels ≡ course.old.seen.labels }
{
    let before = course.seen.labels;
    own_all(alloc, store, cells, course, pace)?;
    serve_reached(alloc, store, cells, course)?;
    Ok(course.seen.labels != before)
}

/// One round, and where it added nothing, what is possible without it. It says where rounds end, where they do.
fn go_on<V: Site, M: Picked, R: Reactions, A: Activities, C: Clock>(
    alloc: Global,
    reactions: &R,
    acts: &A,
    clock: &mut C,
    store: &mut GatedStore<V, ByRules<M>>,
    cells: &mut Vec<Cell<Seat<M>>>,
    course: &mut Course,
    clients: &[Name],
    pace: &Pace,
) -> Result<Option<End>, Halt>
    requires serving { IsServing M.origin M.rules store.old cells.old.items course.old.port }
    requires clients { clients.now ≡ clients_of M.rules.requests }
    requires counted { IsCounted course.old.seen (trail_in store.old.logs) }
    requires flows { R.flows reactions.now ≡ M.rules.flows }
    requires some { 0 < pace.now.batch }
    requires few { pace.now.batch ≤ 64 }
    requires bound { pace.now.batch ≤ M.rules.most }
    ensures goes { GoesOn M.rules store.old store.new }
    ensures fewer { AreFew M.rules pace.now.steps (trail_in store.old.logs)
        → AreFew M.rules pace.now.steps (trail_in store.new.logs) }
    ensures kept { Keeps M.origin M.rules store.new }
    ensures whole { result ≢ Err Halt.SayFault → store.new.logs.cut ≡ false }
    ensures serving { OnOk result (IsServing M.origin M.rules store.new cells.new.items course.new.port) }
    ensures rises { IfErr result (RisesFor (V.disk_faults store.old.logs.site)
        (V.say_faults store.old.logs.site) (V.disk_faults store.new.logs.site)
        (V.say_faults store.new.logs.site)) }
    ensures past { IfErr result (IsPast M.rules store.new cells.new.items) }
    ensures clock { result ≡ Err Halt.ClockFault
        → HasRisen (C.clock_faults clock.old) (C.clock_faults clock.new) }
    ensures ticks { C.clock_faults clock.old ≤ C.clock_faults clock.new }
    ensures latest { C.latest clock.old ≤ C.latest clock.new }
    ensures heard { store.old.logs.latest ≤ C.latest clock.old
        → store.new.logs.latest ≤ C.latest clock.new }
    ensures by_clock { ByClock M.rules pace.now.steps (C.given clock.old) store.old (C.given clock.new)
        store.new }
    ensures ends { IfOk result (λ end. IfSome end
        (EndsAs M.rules pace.now.steps (trail_in store.new.logs) course.new.port)) }
    ensures counted { OnOk result (IsCounted course.new.seen (trail_in store.new.logs)) }
{
    if pace.steps <= course.seen.labels {
        return stop_long(alloc, store, cells, course, clients, pace.steps);
    }
    if holds_some(cells) {
        course.lacking = true;
        give_up(alloc, store, cells, course, pace)?;
        return Ok(None);
    }
    if go_round(
        alloc, reactions, acts, clock, store, cells, course, clients, pace,
    )? {
        return Ok(None);
    }
    if give_up(alloc, store, cells, course, pace)? {
        return Ok(None);
    }
    match pump(
        alloc, reactions, acts, clock, store, cells, course, clients, pace,
    )? {
        Pumped::Labels(_) => Ok(None),
        Pumped::Rest => Ok(Some(End::Rest)),
        Pumped::Stopped => Ok(None),
    }
}

/// Goes on round by round until nothing is possible any more, or as many labels were settled as may be.
pub fn drive<V: Site, M: Picked, R: Reactions, A: Activities, C: Clock>(
    alloc: Global,
    reactions: &R,
    acts: &A,
    clock: &mut C,
    store: &mut GatedStore<V, ByRules<M>>,
    cells: &mut Vec<Cell<Seat<M>>>,
    course: &mut Course,
    clients: &[Name],
    pace: &Pace,
) -> Result<End, Halt>
    requires serving { IsServing M.origin M.rules store.old cells.old.items course.old.port }
    requires clients { clients.now ≡ clients_of M.rules.requests }
    requires counted { IsCounted course.old.seen (trail_in store.old.logs) }
    requires flows { R.flows reactions.now ≡ M.rules.flows }
    requires some { 0 < pace.now.batch }
    requires few { pace.now.batch ≤ 64 }
    requires bound { pace.now.batch ≤ M.rules.most }
    ensures goes { GoesOn M.rules store.old store.new }
    ensures fewer { AreFew M.rules pace.now.steps (trail_in store.old.logs)
        → AreFew M.rules pace.now.steps (trail_in store.new.logs) }
    ensures kept { Keeps M.origin M.rules store.new }
    ensures whole { result ≢ Err Halt.SayFault → store.new.logs.cut ≡ false }
    ensures serving { OnOk result (IsServing M.origin M.rules store.new cells.new.items course.new.port) }
    ensures rises { IfErr result (RisesFor (V.disk_faults store.old.logs.site)
        (V.say_faults store.old.logs.site) (V.disk_faults store.new.logs.site)
        (V.say_faults store.new.logs.site)) }
    ensures past { IfErr result (IsPast M.rules store.new cells.new.items) }
    ensures clock { result ≡ Err Halt.ClockFault
        → HasRisen (C.clock_faults clock.old) (C.clock_faults clock.new) }
    ensures ticks { C.clock_faults clock.old ≤ C.clock_faults clock.new }
    ensures latest { C.latest clock.old ≤ C.latest clock.new }
    ensures heard { store.old.logs.latest ≤ C.latest clock.old
        → store.new.logs.latest ≤ C.latest clock.new }
    ensures by_clock { ByClock M.rules pace.now.steps (C.given clock.old) store.old (C.given clock.new)
        store.new }
    ensures ends { IfOk result
        (EndsAs M.rules pace.now.steps (trail_in store.new.logs) course.new.port) }
{
    serve_all(alloc, store, cells, &mut course.port, clients)?;
    'rounds: for _ in 0..u64::MAX {
        match go_on(
            alloc, reactions, acts, clock, store, cells, course, clients, pace,
        ) {
            Ok(None) => {}
            Ok(Some(end)) => return Ok(end),
            Err(halt) => return Err(halt),
        }
    }
    Err(Halt::Memory)
}
