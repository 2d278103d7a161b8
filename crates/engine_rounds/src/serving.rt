//! Clients are served over many partitions, from what the files keep on.

ghost use Rattle.std.specs.Prelude.{◌≡◌, ◌≢◌, ◌≤◌, ◌<◌, ◌^◌, ◌∷◌, ℕ, [], map, length, Err, IfErr, IfOk, IfSome, OnOk, None, true, false};
ghost use Rattle.call_begins.specs.Begins.{call_rules};
ghost use Rattle.cell_frames.specs.Begun.{HasBegun};
ghost use Rattle.client_port.specs.Clients.{clients_of};
ghost use Rattle.client_port.specs.Ports.{queues_of};
ghost use Rattle.commit_gate.specs.Ledgers.{log_length};
ghost use Rattle.engine_rounds.specs.Ends.{EndsAs};
ghost use Rattle.engine_rounds.specs.Heard.{ByClock, GoesByClock, heard_of};
ghost use Rattle.engine_rounds.specs.Served.{IsServed, LeavesRuns, SaysOn, came_of as came_from, refusal_in};
ghost use Rattle.round_steps.specs.Labels.{AreFew, IsCounted};
ghost use Rattle.round_steps.specs.Serving.{GoesOn, IsServing};
ghost use Rattle.gated_store.specs.Causal.{Causal};
ghost use Rattle.gated_store.specs.Follows.{ledgers_at};
ghost use Rattle.hub_store.specs.Changes.{trail_in};
ghost use Rattle.hub_store.specs.Opened.{IsOrigin, HasBegun as StoreBegun};
ghost use Rattle.hub_store.specs.Short.{IsShort};
ghost use Rattle.hub_store.specs.Trail.{of_part, settled_at};
ghost use Rattle.log_files.specs.Fronts.{AreSyncs};
ghost use Rattle.many_rules.specs.Leaves.{Begins};
ghost use Rattle.many_rules.specs.Ledgers.{ledgers};
ghost use Rattle.node_core.specs.Halts.{IsPast, RisesFor};
ghost use Rattle.node_core.specs.Running.{Keeps};
ghost use Rattle.node_core.specs.declared.halt.Halt.{Halt as HaltedFor};
ghost use Rattle.open_logs.specs.Begun.{CanBegin, MadeBy};
ghost use Rattle.open_logs.specs.Moments.{OpensOnly};
ghost use Rattle.open_logs.specs.Spent.{AreRefused, OnlySynced, WhyUnopened};
ghost use Rattle.request_reader.specs.Line.{request_of};
ghost use Rattle.site_model.specs.Calls.{HasRisen};
ghost use Rattle.site_model.specs.History.{content_of};
ghost use Rattle.site_model.specs.Moments.{Always};
ghost use Rattle.site_model.specs.Readings.{asked};

use crate::driving::{End, drive};
use activity_table::Activities;
use call_begins::{Call, Named, PlacedMark, Since, begin_call, end_cells, placed_by};
use cell_frames::Seat;
use client_port::Port;
use dura_value::{Name, Request};
use gated_store::GatedStore;
use hub_store::{Ended, Trail};
use many_rules::{ByRules, Picked, end_call};
use move_plan::Plan;
use node_core::{Crew, Halt};
use open_logs::{Begun, OpenError, open_logs};
use part_rows::Reactions;
use part_transport::{Disturb, Transport};
use recover_core::RecoverError;
use round_steps::{Course, Pace, Seen};
use site_model::{Clock, Site};
use spec_cell::Cell;
use std::alloc::{AllocError, Global};
use std::marker::Brand;

/// How a call over many partitions goes on.
#[derive(Drop)]
pub struct Shape {
    /// How many partitions there are.
    pub count: u32,
    /// How many nodes there are.
    pub nodes: u32,
    /// The digest of the flows file.
    pub digest: u64,
    /// The length below which logs stay.
    pub segment: u64,
    /// How fast it goes, and when it ends.
    pub pace: Pace,
    /// What befalls packets on their way.
    pub disturb: Disturb,
    /// Which partitions move, and which nodes stop.
    pub plan: Plan,
}

/// How a call came to its end.
#[derive(Drop)]
pub enum Came {
    /// The files were refused for this, or memory ran out before the call went on.
    Refused(OpenError),
    /// It went on until this.
    Halted(Halt),
    /// Its rounds ended so.
    Ended(End),
}

/// What there was of a call.
pub struct Served<V, C> {
    /// The files and the tape.
    pub site: V,
    /// The clock.
    pub clock: C,
    /// What was settled.
    pub trail: Trail,
    /// How it came to its end.
    pub came: Came,
    /// What clients may send next, where the call went on.
    pub port: Option<Port>,
}

/// No call went on, for this reason.
fn refused_by<V, C>(alloc: Global, site: V, clock: C, error: OpenError) -> Served<V, C>
    ensures site { result.site ≡ site }
    ensures clock { result.clock ≡ clock }
    ensures trail { result.trail ≡ [] }
    ensures came { result.came ≡ Came.Refused error }
{
    Served {
        site,
        clock,
        trail: Trail::none(alloc),
        came: Came::Refused(error),
        port: None,
    }
}

/// No call went on, since memory ran out.
fn out_of_memory<V, C>(alloc: Global, site: V, clock: C) -> Served<V, C>
    ensures site { result.site ≡ site }
    ensures clock { result.clock ≡ clock }
    ensures trail { result.trail ≡ [] }
    ensures came { result.came ≡ Came.Refused (OpenError.Refused RecoverError.Memory) }
{
    refused_by(alloc, site, clock, OpenError::Refused(RecoverError::Memory))
}

/// How a call came to its end, by what its rounds came to.
fn came_of(rounds: Result<End, Halt>) -> Came
    ensures { result ≡ came_from rounds }
{
    match rounds {
        Ok(end) => Came::Ended(end),
        Err(halt) => Came::Halted(halt),
    }
}

/// What a call has beside its store and its cells when it begins, and its clients.
fn course_of(
    alloc: Global,
    shape: Shape,
    requests: Vec<Request>,
) -> Result<(Course, Vec<Name>, Pace), AllocError>
    ensures port { IfOk result (λ all. all.0.port ≡ queues_of (map request_of requests.items)) }
    ensures clients { IfOk result (λ all. all.1.items ≡ map (λ q. q.client) all.0.port) }
    ensures pace { IfOk result (λ all. all.2 ≡ shape.pace) }
    ensures seen { IfOk result (λ all. IsCounted all.0.seen []) }
{
    let Shape {
        count,
        nodes,
        digest: _,
        segment: _,
        pace,
        disturb,
        plan,
    } = shape;
    let port = Port::new(alloc, requests)?;
    let clients = port.clients(alloc)?;
    let transport = Transport::new(alloc, count, disturb)?;
    let crew = Crew::new(alloc, count, nodes, plan)?;
    let mut runs = Vec::new(alloc);
    'nodes: for _ in 0..nodes {
        runs.push(0)?;
    }
    let course = Course {
        transport,
        crew,
        port,
        runs,
        seen: Seen {
            entries: 0,
            labels: 0,
        },
        reached: Vec::new(alloc),
        lacking: false,
        disturbed: disturb.twice > 0 || disturb.drop > 0 || disturb.hold > 0,
    };
    Ok((course, clients, pace))
}

/// The moment at which a call begins, as the clock gives it, and whether it gave one.
fn first_moment<C: Clock>(clock: &mut C) -> (u64, bool)
    ensures given { result.1 ≡ true → C.given clock.new ≡ asked result.0 ∷ C.given clock.old }
    ensures silent { result.1 ≡ false
        → (result.0 ≡ 0) × (C.given clock.new ≡ C.given clock.old) }
    ensures fault { result.1 ≡ false
        → HasRisen (C.clock_faults clock.old) (C.clock_faults clock.new) }
    ensures ticks { C.clock_faults clock.old ≤ C.clock_faults clock.new }
    ensures latest { C.latest clock.old ≤ C.latest clock.new }
    ensures by { result.0 ≤ C.latest clock.new }
{
    match clock.now() {
        Ok(now) => (now, true),
        Err(_) => (0, false),
    }
}

/// Goes on round by round, where the clock gave the moment at which the call began.
fn drive_since<V: Site, M: Picked, R: Reactions, A: Activities, C: Clock>(
    alloc: Global,
    reactions: &R,
    acts: &A,
    clock: &mut C,
    store: &mut GatedStore<V, ByRules<M>>,
    cells: &mut Vec<Cell<Seat<M>>>,
    course: &mut Course,
    clients: &[Name],
    pace: &Pace,
    was_heard: bool,
) -> Result<End, Halt>
    requires serving { IsServing M.origin M.rules store.old cells.old.items course.old.port }
    requires clients { clients.now ≡ clients_of M.rules.requests }
    requires counted { IsCounted course.old.seen (trail_in store.old.logs) }
    requires flows { R.flows reactions.now ≡ M.rules.flows }
    requires some { 0 < pace.now.batch }
    requires few { pace.now.batch ≤ 64 }
    requires bound { pace.now.batch ≤ M.rules.most }
    ensures goes { GoesOn M.rules store.old store.new }
    ensures fewer { AreFew M.rules pace.now.steps (trail_in store.old.logs)
        → AreFew M.rules pace.now.steps (trail_in store.new.logs) }
    ensures kept { Keeps M.origin M.rules store.new }
    ensures whole { result ≢ Err Halt.SayFault → store.new.logs.cut ≡ false }
    ensures serving { OnOk result (IsServing M.origin M.rules store.new cells.new.items course.new.port) }
    ensures rises { IfErr result (RisesFor (V.disk_faults store.old.logs.site)
        (V.say_faults store.old.logs.site) (V.disk_faults store.new.logs.site)
        (V.say_faults store.new.logs.site)) }
    ensures past { IfErr result (IsPast M.rules store.new cells.new.items) }
    ensures clock { was_heard ≡ true → result ≡ Err Halt.ClockFault
        → HasRisen (C.clock_faults clock.old) (C.clock_faults clock.new) }
    ensures ticks { C.clock_faults clock.old ≤ C.clock_faults clock.new }
    ensures latest { C.latest clock.old ≤ C.latest clock.new }
    ensures heard { store.old.logs.latest ≤ C.latest clock.old
        → store.new.logs.latest ≤ C.latest clock.new }
    ensures by_clock { ByClock M.rules pace.now.steps (C.given clock.old) store.old (C.given clock.new)
        store.new }
    ensures unheard { was_heard ≡ false → (result ≡ Err Halt.ClockFault)
        × (C.given clock.new ≡ C.given clock.old)
        × (trail_in store.new.logs ≡ trail_in store.old.logs) }
    ensures ends { IfOk result
        (EndsAs M.rules pace.now.steps (trail_in store.new.logs) course.new.port) }
{
    if was_heard {
        drive(
            alloc, reactions, acts, clock, store, cells, course, clients, pace,
        )
    } else {
        Err(Halt::ClockFault)
    }
}

/// Serves clients from a store and cells that begin, where the clock gave the moment at which they do.
fn serve_over<V: Site, N: Named, R: Reactions, C: Clock, A: Activities>(
    alloc: Global,
    reactions: &R,
    acts: &A,
    clock: C,
    call: Call<V, N>,
    course: Course,
    clients: &[Name],
    pace: Pace,
    was_heard: bool,
) -> Served<V, C>
    requires begun { HasBegun N.origin N.rules }
    requires flows { R.flows reactions.now ≡ N.rules.flows }
    requires batch { 0 < pace.batch }
    requires most { pace.batch ≤ 64 }
    requires bound { pace.batch ≤ N.rules.most }
    requires nothing { trail_in call.store.logs ≡ [] }
    requires serving { IsServing N.origin N.rules call.store call.cells.items course.port }
    requires counted { IsCounted course.seen [] }
    requires clients { clients.now ≡ clients_of N.rules.requests }
    requires latest { call.store.logs.latest ≤ C.latest clock }
    ensures tells { V.tells result.site → V.tells call.store.logs.site }
    ensures went { refusal_in result.came ≡ None }
    ensures latest { C.latest clock ≤ C.latest result.clock }
    ensures ticks { C.clock_faults clock ≤ C.clock_faults result.clock }
    ensures causal { Causal (λ partition. ledgers N.rules partition [])
        (λ settled partition. log_length (ledgers_at (ledgers N.rules) settled partition))
        result.trail }
    ensures further { V.tells result.site
        → Always (λ moment. Unit {0}) N.origin.steps (V.history result.site) }
    ensures unsettled { V.tells result.site → (moment : ℕ) → moment < length N.origin.steps
        → settled_at moment result.trail ≡ [] }
    ensures settled { V.tells result.site
        → settled_at (length (V.history result.site)) result.trail ≡ result.trail }
    ensures crash { V.tells result.site → (digest : ℕ) → Begins N.origin N.rules digest
        → LeavesRuns N.rules (C.latest result.clock) digest N.origin (V.history result.site)
        result.trail }
    ensures short { V.tells result.site → (partition : ℕ) → partition < N.origin.count
        → IsShort call.store.logs.segment (of_part partition result.trail)
        (content_of (N.origin.logs partition).file (V.history result.site)) }
    ensures on { SaysOn N.rules N.origin call.store.logs.segment pace.steps
        (C.latest result.clock) (V.tells result.site) (V.history result.site) result.trail
        result.came result.port }
    ensures later { (V.disk_faults call.store.logs.site ≤ V.disk_faults result.site)
        × (V.say_faults call.store.logs.site ≤ V.say_faults result.site) }
    ensures halts { (halt : HaltedFor) → result.came ≡ Came.Halted halt
        → RisesFor (V.disk_faults call.store.logs.site) (V.say_faults call.store.logs.site)
        (V.disk_faults result.site) (V.say_faults result.site) halt }
    ensures clock_fault { was_heard ≡ true → result.came ≡ Came.Halted Halt.ClockFault
        → HasRisen (C.clock_faults clock) (C.clock_faults result.clock) }
    ensures by_clock { (by : ℕ) × (by ≤ C.latest result.clock)
        × GoesByClock N.rules pace.steps (C.given clock) call.store.logs.latest [] (C.given result.clock) by
        result.trail }
    ensures unheard { was_heard ≡ false → (result.came ≡ Came.Halted Halt.ClockFault)
        × (C.given result.clock ≡ C.given clock) × (result.trail ≡ []) }
{
    let mut clock = clock;
    let mut course = course;
    let Call {
        mut store,
        mut cells,
    } = call;
    let rounds = drive_since(
        alloc,
        reactions,
        acts,
        &mut clock,
        &mut store,
        &mut cells,
        &mut course,
        clients,
        &pace,
        was_heard,
    );
    end_cells(cells);
    let Ended { site, trail } = end_call(store);
    Served {
        site,
        clock,
        trail,
        came: came_of(rounds),
        port: Some(course.into_port()),
    }
}

/// Serves clients from what was recovered on, and from this moment on, where the clock gave it. The caller picks by what the call begins.
fn serve_named<V: Site, N: Named, R: Reactions, C: Clock, A: Activities>(
    alloc: Global,
    site: V,
    reactions: &R,
    acts: &A,
    clock: C,
    begun: Begun,
    placed: PlacedMark,
    since: u64,
    was_heard: bool,
    requests: Vec<Request>,
    shape: Shape,
) -> Served<V, C>
    requires some { 0 < shape.count }
    requires few { shape.count ≤ 32 }
    requires short { shape.segment ≤ 2 ^ 31 }
    requires batch { 0 < shape.pace.batch }
    requires most { shape.pace.batch ≤ 64 }
    requires can { CanBegin shape.count begun }
    requires made { MadeBy (R.flows reactions.now) shape.count begun placed.run }
    requires since { since ≤ C.latest clock }
    requires rules { N.rules ≡ call_rules (R.flows reactions.now) shape.count begun placed.run
        since shape.pace.batch (map request_of requests.items) true }
    requires origin { IsOrigin N.origin }
    requires goes { HasBegun N.origin N.rules }
    requires begun { V.tells site → StoreBegun N.origin (V.history site) begun.logs.items }
    ensures tells { V.tells result.site → V.tells site }
    ensures same { refusal_in result.came ≢ None → (result.site ≡ site) × (result.trail ≡ []) }
    ensures memory { IfSome (refusal_in result.came)
        (λ e. e ≡ OpenError.Refused RecoverError.Memory) }
    ensures causal { refusal_in result.came ≡ None
        → Causal (λ partition. ledgers N.rules partition [])
        (λ settled partition. log_length (ledgers_at (ledgers N.rules) settled partition))
        result.trail }
    ensures further { V.tells result.site → refusal_in result.came ≡ None
        → Always (λ moment. Unit {0}) N.origin.steps (V.history result.site) }
    ensures unsettled { V.tells result.site → refusal_in result.came ≡ None → (moment : ℕ)
        → moment < length N.origin.steps → settled_at moment result.trail ≡ [] }
    ensures settled { V.tells result.site → refusal_in result.came ≡ None
        → settled_at (length (V.history result.site)) result.trail ≡ result.trail }
    ensures crash { V.tells result.site → refusal_in result.came ≡ None → (digest : ℕ)
        → Begins N.origin N.rules digest
        → LeavesRuns N.rules (C.latest result.clock) digest N.origin (V.history result.site)
        result.trail }
    ensures short { V.tells result.site → refusal_in result.came ≡ None → (partition : ℕ)
        → partition < shape.count → IsShort shape.segment (of_part partition result.trail)
        (content_of (N.origin.logs partition).file (V.history result.site)) }
    ensures on { refusal_in result.came ≡ None → SaysOn N.rules N.origin shape.segment
        shape.pace.steps (C.latest result.clock) (V.tells result.site) (V.history result.site)
        result.trail result.came result.port }
    ensures latest { C.latest clock ≤ C.latest result.clock }
    ensures ticks { C.clock_faults clock ≤ C.clock_faults result.clock }
    ensures later { (V.disk_faults site ≤ V.disk_faults result.site)
        × (V.say_faults site ≤ V.say_faults result.site) }
    ensures halts { (halt : HaltedFor) → result.came ≡ Came.Halted halt
        → RisesFor (V.disk_faults site) (V.say_faults site)
        (V.disk_faults result.site) (V.say_faults result.site) halt }
    ensures clock_fault { was_heard ≡ true → result.came ≡ Came.Halted Halt.ClockFault
        → HasRisen (C.clock_faults clock) (C.clock_faults result.clock) }
    ensures by_clock { refusal_in result.came ≡ None → (by : ℕ) × (by ≤ C.latest result.clock)
        × GoesByClock N.rules shape.pace.steps (C.given clock) since [] (C.given result.clock) by result.trail }
    ensures unheard { was_heard ≡ false → refusal_in result.came ≡ None
        → (result.came ≡ Came.Halted Halt.ClockFault)
        × (C.given result.clock ≡ C.given clock) × (result.trail ≡ []) }
{
    let count = shape.count;
    let nodes = shape.nodes;
    let segment = shape.segment;
    let Ok((course, clients, pace)) = course_of(alloc, shape, requests) else {
        return out_of_memory(alloc, site, clock);
    };
    match begin_call::<V, N>(alloc, site, begun, since, nodes, count, segment) {
        Ok(call) => serve_over(
            alloc, reactions, acts, clock, call, course, &clients, pace, was_heard,
        ),
        Err(site) => out_of_memory(alloc, site, clock),
    }
}

/// Serves clients after what happened. The caller picks that.
fn serve_since<V: Site, S: Since, R: Reactions, C: Clock, A: Activities>(
    alloc: Global,
    site: V,
    reactions: &R,
    acts: &A,
    clock: C,
    requests: Vec<Request>,
    shape: Shape,
) -> Served<V, C>
    requires since { S.steps ≡ V.history site }
    requires some { 0 < shape.count }
    requires few { shape.count ≤ 32 }
    requires short { shape.segment ≤ 2 ^ 31 }
    requires batch { 0 < shape.pace.batch }
    requires most { shape.pace.batch ≤ 64 }
    ensures tells { V.tells result.site → V.tells site }
    ensures nothing { refusal_in result.came ≢ None → result.trail ≡ [] }
    ensures during { V.tells result.site → refusal_in result.came ≢ None
        → OpensOnly (R.flows reactions.now) shape.count shape.digest (V.history site)
        (V.history result.site) }
    ensures refused { V.tells result.site → IfSome (refusal_in result.came) (WhyUnopened
        (R.flows reactions.now) shape.count shape.digest (λ file. content_of file (V.history site))
        (map request_of requests.items)) }
    ensures synced { IfSome (refusal_in result.came)
        (OnlySynced shape.count (V.history site) (V.history result.site)) }
    ensures clean { V.tells result.site → AreRefused (R.flows reactions.now) shape.count shape.digest
        (λ file. content_of file (V.history site)) (map request_of requests.items)
        → AreSyncs shape.count (V.history site) (V.history result.site) × (result.trail ≡ []) }
    ensures fault { result.came ≡ Came.Refused (OpenError.Refused RecoverError.SiteFault)
        → HasRisen (V.disk_faults site) (V.disk_faults result.site) }
    ensures served { refusal_in result.came ≡ None → IsServed (R.flows reactions.now) shape.count
        shape.digest shape.segment shape.pace.batch shape.pace.steps (map request_of requests.items)
        (heard_of (C.given clock) (C.given result.clock) (C.latest result.clock)) (V.tells result.site) (V.history site) (V.history result.site)
        result.trail result.came result.port }
    ensures latest { C.latest clock ≤ C.latest result.clock }
    ensures ticks { C.clock_faults clock ≤ C.clock_faults result.clock }
    ensures later { (V.disk_faults site ≤ V.disk_faults result.site)
        × (V.say_faults site ≤ V.say_faults result.site) }
    ensures halts { (halt : HaltedFor) → result.came ≡ Came.Halted halt
        → RisesFor (V.disk_faults site) (V.say_faults site)
        (V.disk_faults result.site) (V.say_faults result.site) halt }
    ensures clock_fault { result.came ≡ Came.Halted Halt.ClockFault
        → HasRisen (C.clock_faults clock) (C.clock_faults result.clock) }
{
    let mut site = site;
    let mut clock = clock;
    match open_logs(
        alloc,
        &mut site,
        reactions,
        &requests,
        shape.digest,
        shape.count,
    ) {
        Ok(begun) => {
            let placed = placed_by::<Brand, V, R>(
                &site,
                reactions,
                shape.digest,
                shape.count,
                &begun,
            );
            let (since, was_heard) = first_moment(&mut clock);
            serve_named::<V, Brand, R, C, A>(
                alloc, site, reactions, acts, clock, begun, placed, since, was_heard, requests,
                shape,
            )
        }
        Err(error) => refused_by(alloc, site, clock, error),
    }
}

/// Serves the clients of these requests over many partitions, from what the site's files keep on: recovers all partitions, opens their logs, and
/// goes on round by round until nothing is possible any more, or as many labels were settled as may be. Each client's next request is
/// taken once those before it were answered, and each answer is said once. Where the files are refused it says why, and nothing is settled.
pub fn serve<V: Site, R: Reactions, C: Clock, A: Activities>(
    alloc: Global,
    site: V,
    reactions: &R,
    acts: &A,
    clock: C,
    requests: Vec<Request>,
    shape: Shape,
) -> Served<V, C>
    requires some { 0 < shape.count }
    requires few { shape.count ≤ 32 }
    requires short { shape.segment ≤ 2 ^ 31 }
    requires batch { 0 < shape.pace.batch }
    requires most { shape.pace.batch ≤ 64 }
    ensures tells { V.tells result.site → V.tells site }
    ensures nothing { refusal_in result.came ≢ None → result.trail ≡ [] }
    ensures during { V.tells result.site → refusal_in result.came ≢ None
        → OpensOnly (R.flows reactions.now) shape.count shape.digest (V.history site)
        (V.history result.site) }
    ensures refused { V.tells result.site → IfSome (refusal_in result.came) (WhyUnopened
        (R.flows reactions.now) shape.count shape.digest (λ file. content_of file (V.history site))
        (map request_of requests.items)) }
    ensures synced { IfSome (refusal_in result.came)
        (OnlySynced shape.count (V.history site) (V.history result.site)) }
    ensures clean { V.tells result.site → AreRefused (R.flows reactions.now) shape.count shape.digest
        (λ file. content_of file (V.history site)) (map request_of requests.items)
        → AreSyncs shape.count (V.history site) (V.history result.site) × (result.trail ≡ []) }
    ensures fault { result.came ≡ Came.Refused (OpenError.Refused RecoverError.SiteFault)
        → HasRisen (V.disk_faults site) (V.disk_faults result.site) }
    ensures served { refusal_in result.came ≡ None → IsServed (R.flows reactions.now) shape.count
        shape.digest shape.segment shape.pace.batch shape.pace.steps (map request_of requests.items)
        (heard_of (C.given clock) (C.given result.clock) (C.latest result.clock)) (V.tells result.site) (V.history site) (V.history result.site)
        result.trail result.came result.port }
    ensures latest { C.latest clock ≤ C.latest result.clock }
    ensures ticks { C.clock_faults clock ≤ C.clock_faults result.clock }
    ensures later { (V.disk_faults site ≤ V.disk_faults result.site)
        × (V.say_faults site ≤ V.say_faults result.site) }
    ensures halts { (halt : HaltedFor) → result.came ≡ Came.Halted halt
        → RisesFor (V.disk_faults site) (V.say_faults site)
        (V.disk_faults result.site) (V.say_faults result.site) halt }
    ensures clock_fault { result.came ≡ Came.Halted Halt.ClockFault
        → HasRisen (C.clock_faults clock) (C.clock_faults result.clock) }
{
    serve_since::<V, Brand, R, C, A>(alloc, site, reactions, acts, clock, requests, shape)
}
