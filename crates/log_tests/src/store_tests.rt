//! Calls of a store as transcripts. The first line has the length that no log comes to, or the numbers of the calls that fail. Then come
//! calls with what they give, and behind `end` what they leave.

ghost use Rattle.std.specs.Prelude.{◌≡◌, ◌≤◌, ◌^◌, ◌∷◌, List, ℕ, []};
ghost use Rattle.site_memory.specs.Memory.{memory_history};
ghost use Rattle.dura_value.specs.Items.{Entry};
ghost use Rattle.hub_store.specs.Opened.{IsOrigin, HasBegun};
ghost use Rattle.hub_store.specs.Sound.{IsSound};
ghost use Rattle.hub_store.specs.Trail.{Settled, Said};
ghost use Rattle.log_tests.specs.Stores.{header, IsGoing};

use crate::left::check_left;
use crate::stores::{begun, call, formatted};
use crate::texts::numbered;
use commit_log::Resting;
use hub_store::{Start, Store};
use site_memory::{Kind, MemorySite};
use std::alloc::Global;
use std::marker::Brand;
use std::process::Abort;

/// Makes the calls of these lines, which give what they say.
fn play<N: Start>(rt: &impl Abort, alloc: Global, store: &mut Store<MemorySite, N>, calls: &str)
    requires { IsGoing store.old 0 }
    ensures { IsSound store.new }
{
    let mut place = Ok(0);
    for line in calls.lines() {
        let (name, wanted) = line.split_once(": ").expect(rt, "a call");
        let (next, given) = call(rt, alloc, store, place, name);
        assert!(rt; given == wanted, "not so: {line}");
        place = next;
    }
}

fn text_of<'a>(rt: &impl Abort, bytes: &'a [u8]) -> &'a str {
    str::from_utf8(bytes).expect(rt, "a text")
}

/// Makes calls of a store on a new segment, and checks what they leave. No call with a text can pick what may be settled.
fn play_begun<N: Start, A: Abort>(
    rt: &A,
    alloc: Global,
    site: MemorySite,
    log: Resting,
    segment: u64,
    calls: &[u8],
    left: &[u8],
)
    requires short { segment ≤ 2 ^ 31 }
    requires one { N.origin.count ≡ 1 }
    requires origin { IsOrigin N.origin }
    requires begun { HasBegun N.origin (memory_history site) (log ∷ []) }
    requires log { (N.origin.logs 0).header ≡ header }
    requires empty { (N.origin.logs 0).entries ≡ [] }
    requires follow { (latest : ℕ) (trail : List Settled) (told : List Said) (partition : ℕ)
        (going : List Entry) → N.may_follow latest trail told partition going }
    requires say { (trail : List Settled) (told : List Said) (one : Said) (line : List ℕ)
        → N.may_say trail told one line }
{
    let mut store: Store<MemorySite, N> = begun(rt, alloc, site, log, segment);
    play(rt, alloc, &mut store, text_of(rt, calls));
    check_left(rt, alloc, store.end(), text_of(rt, left));
}

/// A length that no log here comes to.
const LARGE: u64 = 1 << 20;

/// A call of the tape or else of the disk.
fn kind_of(word: &str) -> Kind {
    if word == "say" {
        Kind::Say
    } else {
        Kind::Device
    }
}

/// What the first line says: the length that no log comes to, and the calls that fail.
fn head_of(rt: &impl Abort, alloc: Global, line: &str) -> (u64, Vec<(Kind, u64)>) {
    let mut segment = LARGE;
    let mut fails = Vec::new(alloc);
    for part in line.split(", ") {
        match numbered(rt, part) {
            ("segment", length) => segment = length,
            (kind, number) => fails.push((kind_of(kind), number)).expect(rt, "memory"),
        }
    }
    (segment, fails)
}

/// Plays a transcript on a new segment.
fn check_lines(rt: &impl Abort, alloc: Global, head: &str, calls: &str, left: &str) {
    let (segment, fails) = head_of(rt, alloc, head);
    assert!(rt; segment <= LARGE);
    let mut site = MemorySite::new(alloc, 1000, 40, fails).expect(rt, "memory");
    let log = formatted(rt, &mut site);
    play_begun::<Brand, _>(
        rt,
        alloc,
        site,
        log,
        segment,
        calls.as_bytes(),
        left.as_bytes(),
    );
}

fn check_transcript(rt: &impl Abort, alloc: Global, text: &str) {
    let (lines, left) = text.split_once("\nend\n").expect(rt, "an end");
    let (head, calls) = lines.split_once('\n').expect(rt, "calls");
    check_lines(rt, alloc, head, calls, left);
}

/// Plays the transcripts, with an empty line between each two.
fn check(rt: &impl Abort, alloc: Global, texts: &str) {
    for text in texts.split("\n\n") {
        check_transcript(rt, alloc, text);
    }
}

/// Seven calls in six steps format the file, and each commit has four.
const TWO_FRAMES_ARE_COMMITTED: &str = "segment 1048576
write: ok
sync: ok
gate: ok
settle: ok
write: ok
sync: ok
gate: ok
settle: ok
say: ok
end
settled 2
first at 10
second at 14
lines 1
frames 2
frames read 2";

/// Each call comes in its turn alone.
const CALLS_OUT_OF_TURN: &str = "segment 1048576
sync: no frame
gate: no frame
settle: no frame
reopen: no frame
drop: no frame
write: ok
gate: no frame
settle: no frame
reopen: no frame
sync: ok
sync: no frame
settle: no frame
reopen: no frame
gate: ok
sync: no frame
gate: no frame
drop: no frame
settle: ok
reopen: no frame
drop: no frame
end
settled 1
moment 10";

/// A frame brings the file to 88 bytes, which is room or not.
const FULL_LOG: &str = "segment 88
write: full at 88
end
settled 0
frames 0

segment 89
write: ok
end
settled 0";

const FAULT_AT_EACH_CALL: &str = "device 7
write: fault
end
settled 0
disk faults 1
say faults 0

device 8
write: ok
sync: fault
end
settled 0
disk faults 1
say faults 0

device 9
write: ok
sync: ok
gate: fault
end
settled 0
disk faults 1
say faults 0

device 10
write: ok
sync: ok
gate: ok
settle: fault
end
settled 0
disk faults 1
say faults 0

say 0
say: fault
end
disk faults 0
say faults 1";

/// The sync behind the gate fails, or the gate's write, which stands, and the frame is settled when the log is opened again, which is a
/// sync and a read. Either of them may fail before. The gate was tried, so the frame can't be dropped unread.
const LOG_OPENED_AGAIN: &str = "device 10
write: ok
sync: ok
gate: ok
settle: fault
reopen: settled
end
settled 1
first at 10
disk faults 1
frames 1

device 10, device 11
write: ok
sync: ok
gate: ok
settle: fault
reopen: fault
reopen: settled
end
settled 1
first at 10
disk faults 2
frames 1

device 10, device 12
write: ok
sync: ok
gate: ok
settle: fault
reopen: fault
reopen: settled
end
settled 1
first at 11
disk faults 2
frames 1

device 9
write: ok
sync: ok
gate: fault
drop: no frame
reopen: settled
end
settled 1
first at 10
disk faults 1
frames 1

device 9, device 10
write: ok
sync: ok
gate: fault
reopen: fault
drop: no frame
reopen: settled
end
settled 1
first at 10
disk faults 2
frames 1";

/// The write of the frame fails, or its sync. It is dropped by one more sync, which may fail too, and the next one goes in its place. Its
/// gate was never tried, so the log isn't opened again. A frame may be given up at any time before its gate.
const FRAME_DROPPED: &str = "device 7
write: fault
halted: yes
reopen: no frame
halted: yes
drop: ok
halted: no
write: ok
sync: ok
gate: ok
settle: ok
end
settled 1
first at 12
disk faults 1
frames 1

device 8
write: ok
sync: fault
reopen: no frame
drop: ok
write: ok
sync: ok
gate: ok
settle: ok
end
settled 1
first at 12
disk faults 1
frames 1

device 8, device 9
write: ok
sync: fault
drop: fault
reopen: no frame
drop: ok
write: ok
sync: ok
gate: ok
settle: ok
end
settled 1
first at 12
disk faults 2
frames 1

segment 1048576
write: ok
drop: ok
write: ok
sync: ok
drop: ok
write: ok
sync: ok
gate: ok
settle: ok
end
settled 1
frames 1";

#[test]
fn transcripts(rt: HostRuntime) {
    let alloc = rt.alloc();
    check(&rt, alloc, TWO_FRAMES_ARE_COMMITTED);
    check(&rt, alloc, CALLS_OUT_OF_TURN);
    check(&rt, alloc, FULL_LOG);
    check(&rt, alloc, FAULT_AT_EACH_CALL);
    check(&rt, alloc, LOG_OPENED_AGAIN);
    check(&rt, alloc, FRAME_DROPPED);
}
