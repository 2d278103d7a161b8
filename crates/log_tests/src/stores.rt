//! A store of the one partition, and calls by their names.

ghost use Rattle.std.specs.Prelude.{◌≡◌, ◌+◌, ◌≤◌, ◌<◌, ◌^◌, ℕ, List, [], ◌∷◌, IfOk};
ghost use Rattle.site_memory.specs.Memory.{memory_history};
ghost use Rattle.commit_log.specs.Outcomes.{RestsAs};
ghost use Rattle.dura_value.specs.Items.{Entry as plain};
ghost use Rattle.log_items.specs.Plain.{entries_of};
ghost use Rattle.hub_store.specs.Opened.{IsOrigin, HasBegun};
ghost use Rattle.hub_store.specs.Trail.{Settled, Said};
ghost use Rattle.log_tests.specs.Stores.{header, trimming, IsGoing, HasFailed, IsAt};

use commit_log::{Header, Resting};
use dura_value::Name;
use hub_store::{BodyRefusal, Refusal, Reopening, SayError, Stage, Start, Store, Unwritten};
use log_items::{Entry, Frame, Item, Items};
use site_memory::MemorySite;
use std::alloc::{AllocError, Global};
use std::process::Abort;

pub(crate) const HEADER: Header = Header {
    partition: 0,
    partitions: 1,
    digest: 0x08F4_4B07_B590_1A25,
    base: 0,
};

/// The partition's log file.
pub(crate) const FILE: u32 = 16;

/// The line that is said.
pub(crate) const LINE: &[u8] = b"{\"req\":1}\n";

/// Where the log goes on, with a frame of the entry there under way or not. Where a call on that frame failed it is an error, and one with
/// no position where the transcript is over.
pub(crate) type Place = Result<u64, Option<u64>>;

/// Where the log goes on after a call, and what the call gave.
pub(crate) type Given = (Place, &'static str);

/// A new segment.
pub(crate) fn formatted(rt: &impl Abort, site: &mut MemorySite) -> Resting
    requires { memory_history site.old ≡ [] }
    ensures file { result.file ≡ 16 }
    ensures rests { RestsAs (memory_history site.new) header [] result }
{
    Resting::format(site, FILE, HEADER).expect(rt, "room")
}

/// A store of the partition, over a new segment.
pub(crate) fn begun<N: Start>(
    rt: &impl Abort,
    alloc: Global,
    site: MemorySite,
    log: Resting,
    segment: u64,
) -> Store<MemorySite, N>
    requires short { segment ≤ 2 ^ 31 }
    requires one { N.origin.count ≡ 1 }
    requires origin { IsOrigin N.origin }
    requires begun { HasBegun N.origin (memory_history site) (log ∷ []) }
    requires log { (N.origin.logs 0).header ≡ header }
    requires empty { (N.origin.logs 0).entries ≡ [] }
    requires follow { (latest : ℕ) (trail : List Settled) (told : List Said) (partition : ℕ)
        (going : List plain) → N.may_follow latest trail told partition going }
    requires say { (trail : List Settled) (told : List Said) (one : Said) (line : List ℕ)
        → N.may_say trail told one line }
    ensures { IsGoing result 0 }
{
    let logs = vec![in alloc; log].expect(rt, "memory");
    match Store::begin(alloc, site, logs, segment) {
        Ok(store) => store,
        Err(_) => panic!(rt; "memory"),
    }
}

/// A frame of the entry at this position.
fn frame_at(alloc: Global, position: u64) -> Result<Frame, AllocError>
    ensures { IfOk result (λ frame. entries_of frame ≡ trimming position ∷ []) }
{
    let items = Items::of(vec![in alloc; Item::Trim(2, 5, 3, 4)]?);
    let entry = Entry {
        position,
        incarnation: 0,
        items,
    };
    Ok(Frame::of(vec![in alloc; entry]?))
}

/// Why a frame was not written.
fn refused(refusal: BodyRefusal) -> &'static str {
    match refusal {
        BodyRefusal::Full {
            partition: 0,
            length: 88,
        } => "full at 88",
        _ => "refused",
    }
}

/// Writes the frame at this position, where none is under way.
fn write<N: Start>(
    rt: &impl Abort,
    alloc: Global,
    store: &mut Store<MemorySite, N>,
    position: u64,
) -> Given
    requires going { IsGoing store.old position }
    requires position { position < 2 ^ 63 }
    ensures { IsAt store.new result.0 }
{
    assert!(rt; store.stage(0) == Stage::Resting, "a frame is under way");
    let frame = frame_at(alloc, position).expect(rt, "memory");
    match store.body(alloc, 0, frame) {
        Ok(()) => (Ok(position), "ok"),
        Err(Unwritten::SiteFault) => (Err(Some(position)), "fault"),
        Err(unwritten) => (Err(None), refused(unwritten.let_go())),
    }
}

/// Makes it safe.
fn sync<N: Start>(store: &mut Store<MemorySite, N>, position: u64) -> Given
    requires { IsGoing store.old position }
    ensures { IsAt store.new result.0 }
{
    match store.sync_body(0) {
        Ok(()) => (Ok(position), "ok"),
        Err(Refusal::NoFrame) => (Ok(position), "no frame"),
        Err(Refusal::SiteFault) => (Err(Some(position)), "fault"),
    }
}

/// Opens its gate.
fn gate<N: Start>(store: &mut Store<MemorySite, N>, position: u64) -> Given
    requires { IsGoing store.old position }
    ensures { IsAt store.new result.0 }
{
    match store.gate(0) {
        Ok(()) => (Ok(position), "ok"),
        Err(Refusal::NoFrame) => (Ok(position), "no frame"),
        Err(Refusal::SiteFault) => (Err(Some(position)), "fault"),
    }
}

/// Settles the frame that is under way.
fn settle<N: Start>(store: &mut Store<MemorySite, N>, position: u64) -> Given
    requires going { IsGoing store.old position }
    requires position { position < 2 ^ 63 }
    ensures { IsAt store.new result.0 }
{
    match store.settle(0) {
        Ok(()) => (Ok(position + 1), "ok"),
        Err(Refusal::NoFrame) => (Ok(position), "no frame"),
        Err(Refusal::SiteFault) => (Err(Some(position)), "fault"),
    }
}

/// Opens the log again.
fn reopen<N: Start>(store: &mut Store<MemorySite, N>, place: Place, position: u64) -> Given
    requires place { IsAt store.old place }
    requires failed { HasFailed store.old position }
    requires position { position < 2 ^ 63 }
    ensures { IsAt store.new result.0 }
{
    match store.reopen(0) {
        Ok(Reopening::Settled) => (Ok(position + 1), "settled"),
        Ok(Reopening::Dropped) => (Ok(position), "dropped"),
        Err(Refusal::NoFrame) => (place, "no frame"),
        Err(Refusal::SiteFault) => (Err(Some(position)), "fault"),
    }
}

/// Drops the frame.
fn drop_frame<N: Start>(store: &mut Store<MemorySite, N>, place: Place, position: u64) -> Given
    requires place { IsAt store.old place }
    requires failed { HasFailed store.old position }
    ensures { IsAt store.new result.0 }
{
    match store.drop_frame(0) {
        Ok(()) => (Ok(position), "ok"),
        Err(Refusal::NoFrame) => (place, "no frame"),
        Err(Refusal::SiteFault) => (Err(Some(position)), "fault"),
    }
}

/// Says an answer of client a's request 1.
fn say<N: Start>(
    rt: &impl Abort,
    alloc: Global,
    store: &mut Store<MemorySite, N>,
    position: u64,
) -> Given
    requires { IsGoing store.old position }
    ensures { IsAt store.new result.0 }
{
    let client = Name::of(alloc, b"a").expect(rt, "memory");
    match store.say(&client, 1, LINE) {
        Ok(()) => (Ok(position), "ok"),
        Err(SayError::SayFault) => (Err(None), "fault"),
        Err(SayError::Memory) => (Err(None), "memory"),
    }
}

/// Makes a call where none failed.
fn call_going<N: Start>(
    rt: &impl Abort,
    alloc: Global,
    store: &mut Store<MemorySite, N>,
    position: u64,
    name: &str,
) -> Given
    requires going { IsGoing store.old position }
    requires position { position < 2 ^ 63 }
    ensures { IsAt store.new result.0 }
{
    match name {
        "write" => write(rt, alloc, store, position),
        "sync" => sync(store, position),
        "gate" => gate(store, position),
        "settle" => settle(store, position),
        "reopen" => reopen(store, Ok(position), position),
        "drop" => drop_frame(store, Ok(position), position),
        "say" => say(rt, alloc, store, position),
        _ => panic!(rt; "no such call"),
    }
}

/// Whether it is halted.
fn halted<N: Start>(store: &Store<MemorySite, N>) -> &'static str {
    if store.is_halted() { "yes" } else { "no" }
}

/// Makes the call with this name.
pub(crate) fn call<N: Start>(
    rt: &impl Abort,
    alloc: Global,
    store: &mut Store<MemorySite, N>,
    place: Place,
    name: &str,
) -> Given
    requires { IsAt store.old place }
    ensures { IsAt store.new result.0 }
{
    if name == "halted" {
        return (place, halted(store));
    }
    match place {
        Ok(position) if position < 9 => call_going(rt, alloc, store, position, name),
        Err(Some(position)) if position < 9 && name == "reopen" => reopen(store, place, position),
        Err(Some(position)) if position < 9 && name == "drop" => drop_frame(store, place, position),
        _ => panic!(rt; "no call comes here"),
    }
}
