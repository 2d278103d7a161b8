//! What calls of a log give, and what a crash leaves of them.
//!
//! A run has two lines. The first says what file 1 holds, the site's room where it isn't ample or the device call that fails, counted
//! from 0, what is done, and what that gives. The second has the images that crashes leave of file 1: for each moment from 2 on, since two
//! steps make it, four letters, with the stable bytes, with all that was written, and with what is torn to bytes 17 and to bytes C3. `-` is
//! a fresh file, `0` a segment with no frame, `1` one with the example's, and `2` one with that of `NEXT` behind it.

ghost use Rattle.std.specs.Prelude.{◌≡◌, ◌∷◌, OnOk};
ghost use Rattle.site_model.specs.History.{changes_of, on, synced};
ghost use Rattle.site_model.specs.Moments.{OnlyFile};
ghost use Rattle.site_memory.specs.Memory.{memory_history};
ghost use Rattle.commit_log.specs.States.{Rests};

use crate::readings::{
    NEXT, NO_TROUBLE, ONE_FRAME, PAYLOAD, Trouble, changed, read_as, site_of, trouble_of,
};
use crate::stores::HEADER;
use crate::texts::{Told, same, text_of};
use commit_log::{BodyError, BrokenBody, BrokenGate, Next, Reopened, Resting, open_log};
use site_memory::{Kept, MemorySite, Pick};
use site_model::Site;
use std::alloc::Global;
use std::process::Abort;

/// An empty segment of partition 0 of 1, whose flows file holds `{}`.
const EMPTY: [u8; 34] = [
    0xC3, // the format's gate
    0x4E, 0x45, 0x54, 0x48, 0x4C, 0x4F, 0x47, // NETHLOG
    0x01, // the version
    0x00, 0x00, 0x00, 0x00, // the partition
    0x00, 0x00, 0x00, 0x01, // the partitions
    0x08, 0xF4, 0x4B, 0x07, 0xB5, 0x90, 0x1A, 0x25, // the digest
    0x00, 0x00, 0x00, 0x00, 0x00, 0x00, 0x00, 0x00, // the base position
    0x00, // the first gate
];

const LIMIT: u64 = 1 << 20;

/// Whether a file holds these bytes.
fn holds(rt: &impl Abort, alloc: Global, site: &MemorySite, file: u32, bytes: &[u8]) -> bool {
    let content = site.content(alloc, file).expect(rt, "memory");
    content.as_slice() == bytes
}

/// Opens this file and reads all its frames. The log rests then.
fn opened(rt: &impl Abort, alloc: Global, site: &mut MemorySite, file: u32) -> Resting
    ensures rests { Rests (changes_of file (memory_history site.new)) result.gate }
    ensures file { result.file ≡ file }
    ensures synced { memory_history site.new ≡ on file synced ∷ memory_history site.old }
{
    let log = open_log(site, file, 0).expect(rt, "a log");
    let mut reader = log.frames(alloc);
    for _ in 0..9u64 {
        match reader.next(alloc, site).expect(rt, "a frame") {
            Next::Frame(payload, behind) => {
                drop(payload);
                reader = behind;
            }
            Next::End(log) => return log,
        }
    }
    panic!(rt; "more frames")
}

/// The letter of what a file is read as.
fn letter_of(told: Told) -> char {
    match told {
        ("fresh", None) => '-',
        ("no frame, gate at", Some(33)) => '0',
        ("1 frame, gate at", Some(76)) => '1',
        ("2 frames, gate at", Some(84)) => '2',
        _ => '?',
    }
}

const PICKS: [Pick; 4] = [Pick::Stable, Pick::All, Pick::Torn(0x17), Pick::Torn(0xC3)];

/// The letter of what a crash at this moment leaves of file 1.
fn image_of(rt: &impl Abort, alloc: Global, site: &MemorySite, moment: u64, pick: Pick) -> char {
    let mut image = site.image(alloc, moment, pick).expect(rt, "memory");
    let content = image.content(alloc, 1).expect(rt, "memory");
    letter_of(read_as(alloc, &mut image, 1, &content))
}

/// Adds the letters of this moment.
fn add_images(rt: &impl Abort, alloc: Global, site: &MemorySite, moment: u64, images: &mut String) {
    for pick in PICKS {
        let letter = image_of(rt, alloc, site, moment, pick);
        images.push(letter).expect(rt, "memory");
    }
}

/// The letters of each moment from 2 on, with a blank between two moments.
fn images_of(rt: &impl Abort, alloc: Global, site: &MemorySite) -> String {
    let mut images = String::new(alloc);
    for moment in 2..=site.moment() {
        if moment > 2 {
            images.push(' ').expect(rt, "memory");
        }
        add_images(rt, alloc, site, moment, &mut images);
    }
    images
}

/// Formats file 1.
fn format(site: &mut MemorySite) -> Told {
    match Resting::format(site, 1, HEADER) {
        Ok(log) => ("gate at", Some(log.gate)),
        Err(_) => ("fault", None),
    }
}

/// A log whose commit failed, before its gate was tried or behind that.
#[derive(Drop)]
enum Broken {
    Body(BrokenBody),
    Gate(BrokenGate),
}

/// What became of a frame that was dropped.
fn dropped(answer: Result<Resting, BrokenBody>) -> Result<Reopened, Broken> {
    match answer {
        Ok(log) => {
            Ok(Reopened {
                log,
                settled: false,
            })
        }
        Err(broken) => Err(Broken::Body(broken)),
    }
}

/// What became of one whose log was opened again.
fn opened_again(answer: Result<Reopened, BrokenGate>) -> Result<Reopened, Broken> {
    match answer {
        Ok(found) => Ok(found),
        Err(broken) => Err(Broken::Gate(broken)),
    }
}

/// A commit, which stops after so many calls where its frame is dropped or the log opened again, or goes to its end.
fn commit(
    rt: &impl Abort,
    alloc: Global,
    site: &mut MemorySite,
    log: Resting,
    payload: &[u8],
    stop: u64,
) -> Result<Reopened, Broken>
    requires { Rests (changes_of log.file (memory_history site.old)) log.gate }
    ensures { OnOk result (OnlyFile log.file (memory_history site.old) (memory_history site.new)) }
{
    let log = match log.body(alloc, site, payload, LIMIT) {
        Ok(log) => log,
        Err(BodyError::SiteFault(broken)) => return Err(Broken::Body(broken)),
        Err(_) => panic!(rt; "no room"),
    };
    if stop == 1 {
        return dropped(log.drop_frame(site));
    }
    let log = match log.sync_body(site) {
        Ok(log) => log,
        Err(broken) => return Err(Broken::Body(broken)),
    };
    if stop == 2 {
        return dropped(log.drop_frame(site));
    }
    let log = match log.gate(site) {
        Ok(log) => log,
        Err(broken) => return Err(Broken::Gate(broken)),
    };
    if stop == 3 {
        return opened_again(log.reopen(site));
    }
    match log.settle(site) {
        Ok(log) => Ok(Reopened { log, settled: true }),
        Err(broken) => Err(Broken::Gate(broken)),
    }
}

/// The run that goes on behind a fault: the frame is dropped where its gate wasn't tried, and else the log is opened again.
const AGAIN: &str = "commit and go on behind a fault";

/// The calls of a commit.
const ALL: u64 = 4;

/// After how many calls of a commit its frame is given up, or all where it isn't.
fn calls_before(rt: &impl Abort, what: &str) -> u64 {
    match what {
        "commit and drop behind the body" => 1,
        "commit and drop behind the sync" => 2,
        "commit and open again behind the gate" => 3,
        "commit" => ALL,
        AGAIN => ALL,
        _ => panic!(rt; "no such run"),
    }
}

/// Opens file 1 and commits.
fn committed(
    rt: &impl Abort,
    alloc: Global,
    site: &mut MemorySite,
    payload: &[u8],
    what: &str,
) -> Told {
    let log = opened(rt, alloc, site, 1);
    let mut found = commit(rt, alloc, site, log, payload, calls_before(rt, what));
    if what == AGAIN {
        found = match found {
            Ok(_) => panic!(rt; "no fault"),
            Err(Broken::Body(broken)) => dropped(broken.drop_frame(site)),
            Err(Broken::Gate(broken)) => opened_again(broken.reopen(site)),
        };
    }
    match found {
        Ok(found) if found.settled => ("settled, gate at", Some(found.log.gate)),
        Ok(found) => ("dropped, gate at", Some(found.log.gate)),
        Err(_) => ("fault", None),
    }
}

/// The file stays as it was where the limit is 77, to which it would come. Where it is 78, the log goes on, up to a gate.
fn limited(rt: &impl Abort, alloc: Global, site: &mut MemorySite) -> Told {
    let log = opened(rt, alloc, site, 1);
    let Err(BodyError::Full { length: 77, log }) = log.body(alloc, site, &PAYLOAD, 77) else {
        return ("not full at 77", None);
    };
    if log.gate != 33 || !holds(rt, alloc, site, 1, &EMPTY) {
        return ("changed by what is refused", None);
    }
    match log.body(alloc, site, &PAYLOAD, 78) {
        Ok(log) => ("full at 77, then next gate at", Some(log.next)),
        Err(_) => ("full at 78", None),
    }
}

/// The first byte is closed, and made safe, before the header is written behind it.
fn is_in_order(record: &[Kept]) -> bool {
    record.starts_with(&[
        Kept::Wrote {
            file: 1,
            at: 0,
            size: 1,
        },
        Kept::Byte(0x00),
        Kept::Synced { file: 1 },
        Kept::Wrote {
            file: 1,
            at: 1,
            size: 33,
        },
        Kept::Byte(b'N'),
    ])
}

/// Formats the file and commits. Opening it takes a step, and a commit four.
fn formatted(rt: &impl Abort, alloc: Global, site: &mut MemorySite) -> Told {
    let ("gate at", Some(33)) = format(site) else {
        return ("not formatted", None);
    };
    if site.moment() != 6 || !holds(rt, alloc, site, 1, &EMPTY) || !is_in_order(site.record()) {
        return ("formatted otherwise", None);
    }
    let told = committed(rt, alloc, site, &PAYLOAD, "commit");
    if site.moment() != 11 || !holds(rt, alloc, site, 1, &ONE_FRAME) {
        return ("committed otherwise", None);
    }
    if letter_of(read_as(alloc, site, 1, &ONE_FRAME)) != '1' {
        return ("read otherwise", None);
    }
    told
}

/// `NEXT` behind an empty segment.
const SECOND: [u8; 42] = [
    0xC3, 0x4E, 0x45, 0x54, 0x48, 0x4C, 0x4F, 0x47, 0x01, 0x00, 0x00, 0x00, 0x00, 0x00, 0x00, 0x00,
    0x01, 0x08, 0xF4, 0x4B, 0x07, 0xB5, 0x90, 0x1A, 0x25, 0x00, 0x00, 0x00, 0x00, 0x00, 0x00, 0x00,
    0x00, // the header
    0xC3, 0x00, 0x00, 0x00, 0x03, 0xC3, 0x00, 0xC3, // the frame
    0x00, // the last gate
];

/// Opens file 1 and another such file, and then commits on each. The first log goes on behind the example.
fn both_committed(rt: &impl Abort, alloc: Global, site: &mut MemorySite) -> Told {
    let one = opened(rt, alloc, site, 1);
    let two = opened(rt, alloc, site, 2);
    match commit(rt, alloc, site, one, &PAYLOAD, ALL) {
        Ok(one) if one.log.gate == 76 => {}
        _ => return ("fault", None),
    }
    match commit(rt, alloc, site, two, &NEXT, ALL) {
        Ok(two) => ("gates at 76 and", Some(two.log.gate)),
        Err(_) => ("fault", None),
    }
}

/// The same, with what both files hold then.
fn two_files(rt: &impl Abort, alloc: Global, site: &mut MemorySite) -> Told {
    site.prepare(2, 0, &EMPTY).expect(rt, "room");
    let told = both_committed(rt, alloc, site);
    if !holds(rt, alloc, site, 1, &ONE_FRAME) || !holds(rt, alloc, site, 2, &SECOND) {
        return ("committed otherwise", None);
    }
    match read_as(alloc, site, 2, &SECOND) {
        ("1 frame, gate at", Some(41)) => told,
        _ => ("read otherwise", None),
    }
}

fn run(rt: &impl Abort, alloc: Global, site: &mut MemorySite, what: &str) -> Told {
    match what {
        "format" => format(site),
        "format and commit" => formatted(rt, alloc, site),
        "commit at two limits" => limited(rt, alloc, site),
        "commit to two files" => two_files(rt, alloc, site),
        _ => committed(rt, alloc, site, &NEXT, what),
    }
}

/// To format a file takes a length; a read of its first byte, where there are more; a write that closes it, unless it was read closed,
/// and a sync; a write and a sync for the header; and a write and a sync for the open first byte. To open the example takes a sync, a
/// length and two reads: of the header, and of all that stands behind it. A commit takes a write, a sync, a write and a sync. A write that fails stands, but not where it fails for want of room.
const RUNS: &str = "an empty file, fault at call 0; format: fault
----

an empty file, fault at call 1; format: fault
---- ----

an empty file, fault at call 2; format: fault
---- ----

an empty file, fault at call 3; format: fault
---- ---- ---- ----

an empty file, fault at call 4; format: fault
---- ---- ---- ----

an empty file, fault at call 5; format: fault
---- ---- ---- ---- ---- -0-0

an empty file, fault at call 6; format: fault
---- ---- ---- ---- ---- -0-0

an empty file, fault at call 7; format: gate at 33
---- ---- ---- ---- ---- -0-0 0000

a closed file, fault at call 0; format: fault
----

a closed file, fault at call 1; format: fault
----

a closed file, fault at call 2; format: fault
----

a closed file, fault at call 3; format: fault
---- ---- ----

a closed file, fault at call 4; format: fault
---- ---- ----

a closed file, fault at call 5; format: fault
---- ---- ---- ---- -0-0

a closed file, fault at call 6; format: fault
---- ---- ---- ---- -0-0

a closed file, fault at call 7; format: gate at 33
---- ---- ---- ---- -0-0 0000

the example, fault at call 0; format: fault
1111

the example, fault at call 1; format: fault
1111

the example, fault at call 2; format: fault
1111 1--1

the example, fault at call 3; format: fault
1111 1--1

the example, fault at call 4; format: fault
1111 1--1 ---- ----

the example, fault at call 5; format: fault
1111 1--1 ---- ----

the example, fault at call 6; format: fault
1111 1--1 ---- ---- ---- -0-0

the example, fault at call 7; format: fault
1111 1--1 ---- ---- ---- -0-0

the example, fault at call 8; format: gate at 33
1111 1--1 ---- ---- ---- -0-0 0000

the example, fault at call 4; commit: fault
1111 1111 1111

the example, fault at call 5; commit: fault
1111 1111 1111

the example, fault at call 6; commit: fault
1111 1111 1111 1111 1212

the example, fault at call 7; commit: fault
1111 1111 1111 1111 1212

the example; commit: settled, gate at 84
1111 1111 1111 1111 1212 2222

the example; commit and drop behind the body: dropped, gate at 76
1111 1111 1111 1111

the example; commit and drop behind the sync: dropped, gate at 76
1111 1111 1111 1111 1111

the example; commit and open again behind the gate: settled, gate at 84
1111 1111 1111 1111 1212 2222

the example, fault at call 6; commit and go on behind a fault: settled, gate at 84
1111 1111 1111 1111 1212 2222

the example, room for 85; commit and go on behind a fault: dropped, gate at 76
1111 1111 1111 1111 1111

the example, fault at call 4; commit and go on behind a fault: dropped, gate at 76
1111 1111 1111 1111

the example, fault at call 5; commit and go on behind a fault: dropped, gate at 76
1111 1111 1111 1111

no file; format and commit: settled, gate at 76
---- ---- ---- -0-0 0000 0000 0000 0000 0101 1111 1111

an empty segment; commit at two limits: full at 77, then next gate at 76
0000 0000 0000

an empty segment; commit to two files: gates at 76 and 41
0000 0000 0000 0000 0000 0000 0000 0101 1111 1111 1111 1111 1111 1111";

/// A site with this trouble, and what file 1 holds at first.
fn site_at(rt: &impl Abort, alloc: Global, start: &str, trouble: Trouble) -> MemorySite {
    let closed = changed(0, 0x174E_4554);
    let bytes: Option<&[u8]> = match start {
        "no file" => None,
        "an empty file" => Some(&[]),
        "a closed file" => Some(&closed),
        "an empty segment" => Some(&EMPTY),
        "the example" => Some(&ONE_FRAME),
        _ => panic!(rt; "no such file"),
    };
    site_of(rt, alloc, trouble, bytes)
}

/// Makes a run, and checks its images.
fn check_run(rt: &impl Abort, alloc: Global, text: &str) {
    let (line, images) = text.split_once('\n').expect(rt, "images");
    let (done, wanted) = line.split_once(": ").expect(rt, "an answer");
    let (before, what) = done.split_once("; ").expect(rt, "a run");
    let (start, trouble) = match before.split_once(", ") {
        Some((start, trouble)) => (start, trouble_of(rt, trouble)),
        None => (before, NO_TROUBLE),
    };
    let mut site = site_at(rt, alloc, start, trouble);
    let told = text_of(rt, alloc, run(rt, alloc, &mut site, what));
    same(rt, line, &told, wanted);
    same(rt, line, &images_of(rt, alloc, &site), images);
}

#[test]
fn runs(rt: HostRuntime) {
    for text in RUNS.split("\n\n") {
        check_run(&rt, rt.alloc(), text);
    }
}
