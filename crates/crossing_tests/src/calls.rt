//! A store of the two partitions, and calls of it.

ghost use Rattle.std.specs.Prelude.{◌≡◌, ◌⊎◌, ◌<◌, ◌+◌, ◌∷◌, [], false, Some, None};
ghost use Rattle.std.specs.List.{slice_get};
ghost use Rattle.site_memory.specs.Memory.{memory_history};
ghost use Rattle.log_items.specs.Plain.{entries_of};
ghost use Rattle.commit_gate.specs.Views.{all_sent};
ghost use Rattle.hub_store.specs.Opened.{HasBegun};
ghost use Rattle.crossing_tests.specs.Crossing.{header, origin_with};
ghost use Rattle.crossing_tests.specs.Standing.{MayWrite, Stands};

use crate::case::{Case, Named};
use crate::frames::{SENDER, asking, sending, taking};
use crate::ledgers::both;
use commit_gate::{Sending, Unmet};
use commit_log::{Header, Resting};
use gated_store::{BodyRefused, GateRefusal, GatedStore};
use hub_store::{Refusal, Reopening, SyncRefusal};
use log_items::Frame;
use site_memory::MemorySite;
use std::alloc::Global;
use std::process::Abort;

/// The log file of a partition.
pub(crate) fn file_of(part: u32) -> u32
    requires { part < 2 }
    ensures { result ≡ 16 + part }
{
    16 + part
}

/// The header of an empty segment of it.
pub(crate) fn header_of(part: u32) -> Header
    ensures { result ≡ header part }
{
    Header {
        partition: part,
        partitions: 2,
        digest: 0x08F4_4B07_B590_1A25,
        base: 0,
    }
}

/// A partition has no frame, or has one, and this is whether that is settled.
pub(crate) type Place = Option<bool>;

/// The store of these calls.
pub(crate) type Two<M> = GatedStore<MemorySite, Case<M>>;

/// A call on the frame of a partition.
#[derive(Clone, Copy, PartialEq, Eq)]
pub(crate) enum Call {
    /// It is written.
    Write,
    /// It is made safe.
    Sync,
    /// Its gate is opened.
    Gate,
    /// Its gate is made safe.
    Settle,
    /// Its log is opened again.
    Reopen,
    /// All that waits is made safe by one call, whichever partition's it is.
    SyncAll,
}

/// What a call gives.
#[derive(Clone, Copy, PartialEq, Eq)]
pub(crate) enum Told {
    /// It is done.
    Done,
    /// No frame has come to it.
    NoFrame,
    /// The first entry of partition 0 isn't settled, of which none is.
    NotReady,
    /// It isn't what the frame takes it for.
    Differs,
    /// The disk failed.
    Fault,
    /// The log was opened again, and the frame is settled.
    Settled,
    /// The frame is dropped.
    Dropped,
    /// Anything else.
    Other,
}

/// A store of the two partitions, over new segments.
pub(crate) fn begun<M: Named>(
    rt: &impl Abort,
    alloc: Global,
    site: MemorySite,
    first: Resting,
    second: Resting,
) -> Two<M>
    requires { HasBegun (origin_with M.steps) (memory_history site) (first ∷ second ∷ []) }
    ensures { Stands result (None ∷ None ∷ []) }
{
    let logs = vec![in alloc; first, second].expect(rt, "memory");
    let ledgers = both(rt, alloc);
    match GatedStore::begin(alloc, site, logs, ledgers, 1 << 20) {
        Ok(store) => store,
        Err(_) => panic!(rt; "memory"),
    }
}

/// Writes the frame of a partition that has none.
fn write<M: Named>(
    rt: &impl Abort,
    alloc: Global,
    store: &mut Two<M>,
    places: &mut [Place; 2],
    part: u32,
    frame: Frame,
    sending: Vec<Sending>,
) -> Told
    requires stands { Stands store.old places.old }
    requires going { store.old.logs.halted ≡ false }
    requires place { part < 2 }
    requires rests { slice_get places.old part ≡ Some None }
    requires may { MayWrite part (entries_of frame) (all_sent sending.items) }
    ensures { Stands store.new places.new }
{
    let answer = store.body(alloc, part, frame, sending);
    places[part as usize] = Some(false);
    match answer {
        Ok(()) => Told::Done,
        Err(BodyRefused::SiteFault) => Told::Fault,
        Err(_) => panic!(rt; "no room"),
    }
}

/// Makes it safe.
fn sync<M: Named>(store: &mut Two<M>, places: &[Place; 2], part: u32) -> Told
    requires stands { Stands store.old places.now }
    requires going { store.old.logs.halted ≡ false }
    requires place { part < 2 }
    ensures { Stands store.new places.now }
{
    match store.sync_body(part) {
        Ok(()) => Told::Done,
        Err(Refusal::NoFrame) => Told::NoFrame,
        Err(Refusal::SiteFault) => Told::Fault,
    }
}

/// Makes all safe that waits.
fn sync_all<M: Named>(alloc: Global, store: &mut Two<M>, places: &[Place; 2]) -> Told
    requires stands { Stands store.old places.now }
    requires going { store.old.logs.halted ≡ false }
    ensures { Stands store.new places.now }
{
    match store.sync_all(alloc) {
        Ok(()) => Told::Done,
        Err(SyncRefusal::NoFrame) => Told::NoFrame,
        Err(SyncRefusal::Memory) => Told::Other,
        Err(SyncRefusal::SiteFault) => Told::Fault,
    }
}

/// What an unmet frame tells: of the first entry of partition 0, of which none is settled, or which is another.
fn told_of(unmet: Unmet) -> Told {
    match unmet {
        Unmet::NotReady { dep, have: 0 } if dep == SENDER => Told::NotReady,
        Unmet::Differs { dep } if dep == SENDER => Told::Differs,
        _ => Told::Other,
    }
}

/// Opens its gate.
fn gate<M: Named>(store: &mut Two<M>, places: &[Place; 2], part: u32) -> Told
    requires stands { Stands store.old places.now }
    requires going { store.old.logs.halted ≡ false }
    requires place { part < 2 }
    ensures { Stands store.new places.now }
{
    match store.gate(part) {
        Ok(()) => Told::Done,
        Err(GateRefusal::NoFrame) => Told::NoFrame,
        Err(GateRefusal::Unmet(unmet)) => told_of(unmet),
        Err(GateRefusal::SiteFault) => Told::Fault,
    }
}

/// Makes the open gate safe.
fn settle<M: Named>(store: &mut Two<M>, places: &mut [Place; 2], part: u32) -> Told
    requires stands { Stands store.old places.old }
    requires going { store.old.logs.halted ≡ false }
    requires place { part < 2 }
    ensures { Stands store.new places.new }
{
    match store.settle(part) {
        Ok(()) => {
            places[part as usize] = Some(true);
            Told::Done
        }
        Err(Refusal::NoFrame) => Told::NoFrame,
        Err(Refusal::SiteFault) => Told::Fault,
    }
}

/// Where a frame was dropped that isn't settled, there is none.
fn dropped(place: Place) -> Place
    ensures { (place ≡ Some false × result ≡ None) ⊎ (result ≡ place) }
{
    match place {
        Some(false) => None,
        other => other,
    }
}

/// Opens the log again, also where a call failed.
fn reopen<M: Named>(store: &mut Two<M>, places: &mut [Place; 2], part: u32) -> Told
    requires stands { Stands store.old places.old }
    requires place { part < 2 }
    ensures { Stands store.new places.new }
{
    match store.reopen(part) {
        Ok(Reopening::Settled) => {
            places[part as usize] = Some(true);
            Told::Settled
        }
        Ok(Reopening::Dropped) => {
            places[part as usize] = dropped(places[part as usize]);
            Told::Dropped
        }
        Err(Refusal::NoFrame) => Told::NoFrame,
        Err(Refusal::SiteFault) => Told::Fault,
    }
}

/// Writes the frame of a partition: partition 1's takes in the request with this number.
fn write_frame<M: Named>(
    rt: &impl Abort,
    alloc: Global,
    store: &mut Two<M>,
    places: &mut [Place; 2],
    part: u32,
    number: u32,
) -> Told
    requires stands { Stands store.old places.old }
    requires going { store.old.logs.halted ≡ false }
    requires place { part < 2 }
    ensures { Stands store.new places.new }
{
    let None = places[part as usize] else {
        panic!(rt; "it has one");
    };
    if number == 0 {
        panic!(rt; "no request");
    }
    if part == 0 {
        let frame = asking(alloc).expect(rt, "memory");
        let sent = sending(alloc).expect(rt, "memory");
        return write(rt, alloc, store, places, 0, frame, sent);
    }
    let frame = taking(alloc, number).expect(rt, "memory");
    write(rt, alloc, store, places, 1, frame, Vec::new(alloc))
}

/// Makes a call on the frame of a partition. Where one failed, only a log is opened again.
pub(crate) fn make<M: Named>(
    rt: &impl Abort,
    alloc: Global,
    store: &mut Two<M>,
    places: &mut [Place; 2],
    part: u32,
    call: Call,
    number: u32,
) -> Told
    requires stands { Stands store.old places.old }
    requires place { part < 2 }
    ensures { Stands store.new places.new }
{
    if call == Call::Reopen {
        return reopen(store, places, part);
    }
    if store.is_halted() {
        return Told::Other;
    }
    match call {
        Call::Write => write_frame(rt, alloc, store, places, part, number),
        Call::Sync => sync(store, places, part),
        Call::Gate => gate(store, places, part),
        Call::Settle => settle(store, places, part),
        Call::SyncAll => sync_all(alloc, store, places),
        Call::Reopen => Told::Other,
    }
}
