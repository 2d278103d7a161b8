// What no clause says: that each call gets through, in which order the calls are made, and that just one fault is counted.
use crate::scripted::{FILE, ScriptedCalls};
use crate::transcript::{Line, World, answers, check, read_line};
use site_calls::{CalledSite, Fault, FaultPlace, Unknown};
use std::alloc::Global;
use std::io::ErrorKind;

type Called = CalledSite<ScriptedCalls, Unknown>;

/// A site on calls that move at most so many bytes, with this script.
fn site_with(alloc: Global, line: Line) -> Called {
    let calls = ScriptedCalls::new(alloc, line.first as usize, line.text);
    CalledSite::new(calls, Unknown)
}

fn has_failed(fault: Option<Fault>, wanted: &str) -> bool {
    let (place, kind) = match wanted {
        "file: other" => (FaultPlace::File(FILE), ErrorKind::Other),
        "names: other" => (FaultPlace::Names, ErrorKind::Other),
        "file: zero" => (FaultPlace::File(FILE), ErrorKind::WriteZero),
        _ => (FaultPlace::Output, ErrorKind::WriteZero),
    };
    match fault {
        Some(fault) => fault.place == place && fault.error.kind() == kind,
        None => false,
    }
}

impl World for Called {
    fn is_right(&mut self, host: &HostRuntime, line: Line) -> bool {
        match line.verb {
            "left" => self.calls().has_left(line.text),
            "tape" => self.calls().has_tape(line.bytes),
            "faults" => self.disk_faults() == line.first && self.say_faults() == line.second,
            "failed" => has_failed(self.fault(), line.text),
            "script" => {
                *self = site_with(host.alloc(), line);
                true
            }
            _ => answers(self, line, 16),
        }
    }
}

const SITES: &str = "# a write through short calls reads back whole;
    script 2;
    write 17 netherite;
    read 17 0 netherite;
    read 17 6 ite;
    read 17 9;
    read 17 18446744073709551615;
    say kept\n;
    faults 0 0;
    tape kept\n;
# a new file has its name flushed before its bytes;
    script 16 find make write find names flush end;
    write 17 ab;
    sync 17;
    left end;
# a later sync flushes no names, since the name is safe then;
    script 16 find make write find names flush find flush end;
    write 17 ab;
    sync 17;
    sync 17;
    left end;
# a file that is absent has no bytes, is safe as it is, and none of this makes it;
    script 16 find find find end;
    length 17 0;
    read 17 0;
    sync 17;
    at 289;
    left end;
# each failing call is counted once, where just the call of the site in which it was made fails. The steps tell what it
    left: a write that had begun, and no sync and no line that failed;
# the first find;
    script 16 find:fails;
    fails write 17 ab;
    length 17 0;
    read 17 0;
    sync 17;
    say hi;
    faults 1 0;
    at 291;
    left;
# the first make;
    script 16 find make:fails;
    fails write 17 ab;
    length 17 0;
    read 17 0;
    sync 17;
    say hi;
    faults 1 0;
    at 291;
    left;
# the first write;
    script 16 find make write:fails;
    fails write 17 ab;
    length 17 0;
    read 17 0;
    sync 17;
    say hi;
    faults 1 0;
    at 292;
    left;
# the first measure;
    script 16 find make write find measure:fails;
    write 17 ab;
    fails length 17;
    read 17 0 ab;
    sync 17;
    say hi;
    faults 1 0;
    at 292;
    left;
# the first read;
    script 16 find make write find measure find read:fails;
    write 17 ab;
    length 17 2;
    fails read 17 0;
    sync 17;
    say hi;
    faults 1 0;
    at 292;
    left;
# the first names;
    script 16 find make write find measure find read read find names:fails;
    write 17 ab;
    length 17 2;
    read 17 0 ab;
    fails sync 17;
    say hi;
    faults 1 0;
    at 291;
    left;
# the first flush;
    script 16 find make write find measure find read read find names flush:fails;
    write 17 ab;
    length 17 2;
    read 17 0 ab;
    fails sync 17;
    say hi;
    faults 1 0;
    at 291;
    left;
# the first print;
    script 16 find make write find measure find read read find names flush print:fails;
    write 17 ab;
    length 17 2;
    read 17 0 ab;
    sync 17;
    fails say hi;
    faults 0 1;
    at 290;
    left;
# after a failed sync each later one fails, though the device would succeed;
    script 16 find make write find names flush:fails find find end;
    write 17 ab;
    fails sync 17;
    failed file: other;
    fails sync 17;
    fails sync 17;
    failed file: other;
    faults 3 0;
    at 289;
    left end;
# after names that failed each later sync fails;
    script 16 find make write find names:fails find find end;
    write 17 ab;
    fails sync 17;
    failed names: other;
    fails sync 17;
    fails sync 17;
    failed file: other;
    faults 3 0;
    at 289;
    left end;
# files that are there are flushed by one call, behind the names, and each is one step;
    script 16 find make write find find names flushes find find flushes end;
    write 17 ab;
    together 17,18;
    at 291;
    together 18,17;
    at 293;
    faults 0 0;
    left end;
# where one is absent they are flushed one after another, and so is one alone;
    script 16 find make write find find find names flush find find flush find flush end;
    write 17 ab;
    together 17,19,18;
    at 292;
    together 18,;
    at 293;
    together;
    at 293;
    faults 0 0;
    left end;
# one after another, those before the one that failed count;
    script 16 find make write find find find names flush find find flush:fails end;
    write 17 ab;
    fails together 18,19,17;
    failed file: other;
    faults 1 0;
    at 291;
    left end;
# where one of several fails none counts, and each later sync fails, alone and with others;
    script 16 find make write find find names flushes:fails find find end;
    write 17 ab;
    fails together 18,17;
    failed file: other;
    at 289;
    fails together 17,18;
    failed file: other;
    fails sync 18;
    faults 3 0;
    at 289;
    left end;
# after names that failed nothing is flushed;
    script 16 find make write find find names:fails end;
    write 17 ab;
    fails together 17,18;
    failed names: other;
    faults 1 0;
    at 289;
    left end;
# one that can't be looked for is a fault, and a later call makes it safe;
    script 16 find make write find find:fails find find names flushes end;
    write 17 ab;
    fails together 18,17;
    failed file: other;
    at 289;
    together 18,17;
    faults 1 0;
    at 291;
    left end;
# a call that writes nothing is a fault;
    script 2 find make write write:nothing find read read print:nothing;
    fails write 17 abcd;
    failed file: zero;
    read 17 0 ab;
    fails say hi;
    failed output: zero;
    faults 1 1;
    left;
# a call that a signal cuts off goes on;
    script 2 find make write write:cut write find read:cut read read:cut read read print print:cut print;
    write 17 abcd;
    read 17 0 abcd;
    say said;
    faults 0 0;
    tape said;
    left;
# so does one that looks for a file, and one that measures it;
    script 16 find:cut find make write find:cut find:cut find measure:cut measure;
    write 17 ab;
    length 17 2;
    faults 0 0;
    left;
# a shorter write keeps what is behind it;
    script 2;
    write 17 ab;
    sync 17;
    write 17 xyz;
    read 17 0 xyz;
    write 17 w;
    read 17 0 wyz;
    length 17 3;
    say hi;
    tape hi;
# a read that the system ends early gives its front;
    script 2 find make write write find read:nothing;
    write 17 xyz;
    read 17 0;
    left;
    script 2 find make write write find read read:nothing;
    write 17 xyz;
    read 17 0 xy;
    left;";

#[test]
fn sites_over_calls(rt: HostRuntime) {
    let alloc = rt.alloc();
    let mut site = site_with(alloc, read_line("script"));
    check(&rt, &rt, &mut site, SITES);
}
