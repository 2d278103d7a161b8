// What no clause says of the site in memory: that each call gets through where none is listed to fail.
use crate::transcript::{Line, World, answers, check, read_line};
use site_memory::{Kept, Kind, MemorySite, Pick};
use site_model::Site;
use std::alloc::{AllocError, Global};

fn are(bytes: Result<Vec<u8>, AllocError>, wanted: &str) -> bool {
    match bytes {
        Ok(bytes) => bytes.as_slice() == wanted.as_bytes(),
        Err(_) => false,
    }
}

/// A crash leaves this of a file, and that of the tape: `FILE MOMENT CONTENT/TAPE`.
fn has_image(alloc: Global, site: &MemorySite, line: Line, pick: Pick) -> bool {
    let (content, tape) = line.text.split_once('/').unwrap_or(("?", ""));
    match site.image(alloc, line.second, pick) {
        Ok(image) => {
            are(image.content(alloc, line.file), content) && are(image.tape(alloc), tape)
        }
        Err(_) => false,
    }
}

/// So much is kept: first a write of the 4 bytes of file 1, and last a byte that was said.
fn is_kept(record: &[Kept], line: Line) -> bool {
    let first = Kept::Wrote {
        file: 1,
        at: 0,
        size: 4,
    };
    record.len() as u64 == line.first
        && record.starts_with(&[first])
        && record.ends_with(&[Kept::Said(b'\n')])
}

/// A site with room for so many bytes and so many calls, where the listed calls fail or none.
fn site_with(alloc: Global, line: Line) -> Result<MemorySite, AllocError> {
    let fails: &[(Kind, u64)] = if line.text == "listed" { &FAILS } else { &[] };
    MemorySite::new(alloc, line.first, line.second, fails.to_vec(alloc)?)
}

/// What the site shows, or a call that each site has.
fn shows(alloc: Global, site: &mut MemorySite, line: Line) -> bool {
    match line.verb {
        "content" => are(site.content(alloc, line.file), line.text),
        "tape" => are(site.tape(alloc), line.text),
        "kept" => is_kept(site.record(), line),
        "reads" => site.calls(Kind::Read) == line.first,
        "syncs" => site.calls(Kind::Sync) == line.first,
        "calls" => site.calls(Kind::Device) == line.first,
        "faults" => site.disk_faults() == line.first && site.say_faults() == line.second,
        _ => answers(site, line, 4),
    }
}

impl World for MemorySite {
    fn is_right(&mut self, host: &HostRuntime, line: Line) -> bool {
        let alloc = host.alloc();
        let made = match line.verb {
            "prepare" => return self.prepare(line.file, 0, line.bytes).is_err() == line.fails,
            "stable" => return has_image(alloc, self, line, Pick::Stable),
            "all" => return has_image(alloc, self, line, Pick::All),
            "torn" => return has_image(alloc, self, line, Pick::Torn(b'?')),
            "room" => site_with(alloc, line),
            "crash" => self.image(alloc, line.first, Pick::Stable),
            _ => return shows(alloc, self, line),
        };
        match made {
            Ok(made) => {
                *self = made;
                true
            }
            Err(_) => false,
        }
    }
}

const SITES: &str = "# a file reads what was written;
    room 100 20;
    read 1 0;
    write 1 abcd;
    inside 1 1 XY;
    content 1 aXYd;
    inside 1 3 zzz;
    write 2 other;
    sync 1;
    say hi\n;
    read 1 0 aXYz;
    read 1 1 XYzz;
    read 1 4 zz;
    read 1 6;
    read 1 9;
    length 1 6;
    length 2 5;
    length 3 0;
    at 8;
    faults 0 0;
    tape hi\n;
    kept 22;
    reads 6;
    calls 16;
# without room nothing is kept;
    room 4 3;
    fails prepare 1 abcde;
    prepare 1 abc;
    fails write 1 xy;
    fails say xy;
    at 2;
    sync 1;
    fails sync 1;
    at 3;
    faults 2 1;
    syncs 2;
    content 1 abc;
# a crash leaves what was synced;
    room 100 20;
    prepare 1 abcd;
    inside 1 2 XYZ;
    say k;
    write 2 other;
    inside 1 0 -;
    sync 1;
    all 1 0 /;
    all 1 1 abcd/;
    stable 1 1 /;
    stable 1 2 abcd/;
    stable 1 3 abcd/;
    all 1 3 abXYZ/;
    torn 1 3 ab???/;
    torn 1 4 ab???/k;
    stable 1 6 abcd/k;
    torn 1 6 ?b???/k;
    stable 1 7 -bXYZ/k;
    torn 1 9 -bXYZ/k;
# what is left has lost the other file, and its tape goes on;
    crash 6;
    length 2 0;
    say more;
    tape kmore;
# files that are synced together are synced one by one, and a crash in between leaves those before;
    room 100 20;
    write 1 a;
    write 2 b;
    write 3 c;
    together 2,3,1;
    together;
    together 1,;
    at 7;
    syncs 4;
    faults 0 0;
    stable 2 3 /;
    stable 2 4 b/;
    stable 3 4 /;
    stable 3 5 c/;
    stable 1 5 /;
    stable 1 6 a/;
    torn 1 5 ?/;
# without room a prefix of them is;
    room 9 4;
    write 1 a;
    write 2 b;
    fails together 1,2,1;
    at 4;
    faults 1 0;
    stable 2 4 b/;
# a listed sync among them ends the call behind those before it: the first, and the seventh of all calls;
    room 100 20 listed;
    write 1 a;
    fails write 2 b;
    write 3 c;
    fails together 1,2,3;
    at 3;
    syncs 1;
    fails together 1,2,3;
    at 5;
    syncs 4;
    faults 3 0;
    stable 1 5 a/;
    stable 2 5 b/;
    stable 3 5 /;
    together 1,2,3;
    at 8;
    stable 3 8 c/;
# a listed call fails and is counted;
    room 100 20 listed;
    fails length 1;
    fails read 1;
    write 1 ab;
    fails inside 1 1 cde;
    content 1 acde;
    at 2;
    fails sync 1;
    at 2;
    fails length 1;
    length 1 4;
    faults 5 0;
    fails say lines;
    tape li;
    say !;
    faults 5 1;
    tape li!;";

/// The calls that fail where they are listed.
const FAILS: [(Kind, u64); 6] = [
    (Kind::Length, 0),
    (Kind::Read, 0),
    (Kind::Write, 1),
    (Kind::Sync, 0),
    (Kind::Device, 6),
    (Kind::Say, 0),
];

#[test]
fn sites_in_memory(rt: HostRuntime) {
    let alloc = rt.alloc();
    let mut site = MemorySite::new(alloc, 0, 0, Vec::new(alloc)).expect(&rt, "memory");
    check(&rt, &rt, &mut site, SITES);
}

/// Takes a site that tells, which is proved where it is called.
fn believe<V: Site>(_site: &V)
    requires { V.tells _site.now }
{}

/// A site in memory always tells, also after calls that failed.
#[test]
fn a_site_in_memory_tells(rt: HostRuntime) {
    let mut site = site_with(rt.alloc(), read_line("room 100 20 listed")).expect(&rt, "memory");
    believe(&site);
    site.sync(1).expect_err(&rt, "a fault");
    believe(&site);
}
