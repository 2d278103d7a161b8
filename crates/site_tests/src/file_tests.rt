// What no clause says: which bytes the disk gives, which names the files have, what is refused, and when a fault is
// counted.
use crate::transcript::{Line, World, answers, check};
use site_calls::{CalledSite, Calls, FileName, Reason, Unknown};
use site_host::{FlushMany, Helpers, Host};
use std::alloc::{AllocError, Global};
use std::fs;
use std::fs::{File, Permissions};
use std::os::unix::fs::PermissionsExt;
use std::process::Abort;
use std::rt::{Clock, Files};
use std::sync::Wait;
use std::thread::Threads;

/// How many threads help each site.
const HELPERS: u32 = 2;

/// The directory, in the one where the tests run.
const DIRECTORY: &str = "trial";

type Disk<R> = CalledSite<Host<R, Helpers<R>>, Unknown>;

/// Calls on a directory.
trait OnDisk: Calls {
    /// Why the last call failed, where the system's error doesn't tell it.
    fn why(&self) -> Option<Reason>;
}

impl<R: Files<File = File> + Print + Clock, H: FlushMany> OnDisk for Host<R, H> {
    fn why(&self) -> Option<Reason> {
        self.reason()
    }
}

/// A site on the directory, where nothing is opened before the first call.
fn new_site<R>(rt: R, alloc: Global) -> Result<Disk<R>, AllocError>
where
    R: Files<File = File> + Print + Clock + Threads + Wait + Copy + Send + Drop + 'static,
{
    let helpers = Helpers::start(rt, alloc, HELPERS)?;
    let host = Host::open(rt, alloc, DIRECTORY, helpers)?;
    Ok(CalledSite::new(host, Unknown))
}

fn has_text<R: Files + AllocGlobal>(rt: &R, file: &str, wanted: &str) -> bool {
    match fs::read_to_string(rt, file) {
        Ok(text) => text.as_str() == wanted,
        Err(_) => false,
    }
}

/// `VERB FILE [TEXT]`
fn does_to_file<R: Files + AllocGlobal>(rt: &R, text: &str) -> bool {
    let (verb, rest) = text.split_once(' ').unwrap_or((text, ""));
    let (file, text) = rest.split_once(' ').unwrap_or((rest, ""));
    let done = match verb {
        "put" => fs::write(rt, file, text),
        "protect" => fs::set_permissions(rt, file, Permissions::from_mode(0o444)),
        "link" => fs::hard_link(rt, text, file),
        "directory" => fs::create_dir(rt, file),
        "absent" => return matches!(fs::exists(rt, file), Ok(false)),
        _ => return has_text(rt, file, text),
    };
    done.is_ok()
}

fn is_for(reason: Option<Reason>, wanted: &str) -> bool {
    let wanted = match wanted {
        "locked" => Reason::Locked,
        "not regular" => Reason::NotRegular,
        _ => Reason::SameAs(FileName::Flows),
    };
    reason == Some(wanted)
}

impl<C: OnDisk + Drop> World for CalledSite<C, Unknown> {
    fn is_right(&mut self, host: &HostRuntime, line: Line) -> bool {
        match line.verb {
            "come" => fs::create_dir(host, DIRECTORY).is_ok(),
            "go" => fs::remove_dir_all(host, DIRECTORY).is_ok(),
            "file" => does_to_file(host, line.text),
            "reason" => is_for(self.calls().why(), line.text),
            "faults" => self.disk_faults() == line.first && self.say_faults() == line.second,
            _ => answers(self, line, 8),
        }
    }
}

/// A new site is called behind each visit. Each section has a new directory, which goes at its end.
const SITES: &str =
    "# keeps what was written. A file that isn't there reads nothing, and none of this makes it;
    come;
    length 17 0;
    read 17 0;
    sync 17;
    file absent trial/p00.log1;
    write 17 netherite;
    inside 17 6 ra;
    length 17 9;
    sync 17;
    sync 17;
    say kept\n;
    faults 0 0;
    visit;
    read 17 2 therrae;
    read 17 9;
    read 17 100;
    length 16 0;
    faults 0 0;
    go;
    visit;
# makes several files safe at once, those that are there;
    come;
    write 16 a;
    write 17 b;
    write 20 c;
    write 21 d;
    write 24 e;
    together 16,17,20,21,24;
    together 16,24;
    write 20 x;
    together 16,19,20,21,24;
    together 16,17,20,21,24,16,17,20,21,24;
    faults 0 0;
    fails together 16,3;
    faults 1 0;
    visit;
    read 16 0 a;
    read 20 0 x;
    read 24 0 e;
    length 19 0;
    go;
    visit;
# names its files;
    come;
    write 16 p00.log0;
    file holds trial/p00.log0 p00.log0;
    write 21 p01.log1;
    file holds trial/p01.log1 p01.log1;
    write 58 p10.ck0;
    file holds trial/p10.ck0 p10.ck0;
    write 143 p31.ck1;
    file holds trial/p31.ck1 p31.ck1;
    faults 0 0;
    go;
    visit;
# reads its inputs alone. No input is written or made;
    come;
    fails write 0 x;
    fails write 1 x;
    fails write 2 x;
    file absent trial/flows.json;
    file put trial/flows.json flows;
    file put trial/requests.jsonl requests;
    file put trial/plan.json plan;
    read 0 0 flows;
    read 1 0 requests;
    read 2 0 plan;
    sync 2;
    fails write 0 x;
    fails write 1 x;
    fails write 2 x;
    read 0 0 flows;
    read 1 0 requests;
    read 2 0 plan;
    sync 2;
    faults 6 0;
    go;
    visit;
# refuses one file under two names. A log that is a link to an input is refused, and the input stays as it was;
    come;
    file put trial/flows.json flows;
    file link trial/p00.log0 trial/flows.json;
    read 0 0 flows;
    fails length 16;
    reason flows;
    fails write 16 x;
    fails sync 16;
    read 0 0 flows;
    go;
    visit;
# makes no directory. One that comes later is looked for at each call;
    come;
    go;
    length 16 0;
    read 0 0;
    sync 16;
    fails write 16 x;
    faults 1 0;
    come;
    write 16 x;
    go;
    visit;
# counts each fault. Numbers that are no files, a directory where the file should be, and a directory that is gone;
    come;
    fails length 3;
    fails read 3;
    fails write 3 x;
    fails sync 3;
    fails length 15;
    fails read 15;
    fails write 15 x;
    fails sync 15;
    fails length 144;
    fails read 144;
    fails write 144 x;
    fails sync 144;
    fails length 4294967295;
    fails read 4294967295;
    fails write 4294967295 x;
    fails sync 4294967295;
    faults 16 0;
    file directory trial/plan.json;
    fails length 2;
    reason not regular;
    fails write 2 x;
    fails sync 2;
    go;
    length 16 0;
    fails write 16 x;
    faults 20 0;
    visit;
# reads what may not be written;
    come;
    file put trial/flows.json {};
    file protect trial/flows.json;
    read 0 0 {};
    sync 0;
    go;";

const HOLDS: &str = "
    come;
    length 16 0;";

const LOCKED: &str = "
    fails length 16;
    reason locked;
    fails write 16 x;
    fails sync 16;
    faults 3 0;";

const WRITES: &str = "
    write 16 held;";

const HELD: &str = "
    read 16 0 held;
    faults 0 0;
    go;";

/// What stands between two visits is right, each time of a new site.
fn check_visits<R>(rt: R, host: &HostRuntime, transcript: &'static str)
where
    R: Files<File = File> + Print + Clock + Threads + Wait + Copy + Send + Drop + 'static + Abort,
{
    for visit in transcript.split("visit;") {
        let mut site = new_site(rt, host.alloc()).expect(&rt, "memory");
        check(&rt, host, &mut site, visit.trim_end());
    }
}

/// While one run holds the directory another fails. A run of the tests that failed may have left it.
#[test]
fn sites_over_a_directory(rt: HostRuntime) {
    let _ = fs::remove_dir_all(&rt, DIRECTORY);
    check_visits(rt, &rt, SITES);
    let mut site = new_site(rt, rt.alloc()).expect(&rt, "memory");
    check(&rt, &rt, &mut site, HOLDS);
    let mut other = new_site(rt, rt.alloc()).expect(&rt, "memory");
    check(&rt, &rt, &mut other, LOCKED);
    check(&rt, &rt, &mut site, WRITES);
    drop(site);
    check_visits(rt, &rt, HELD);
}
