// The files and the tape.
ghost use Rattle.std.specs.Prelude.{◌≡◌, true, ◌<◌, ◌≤◌, ℕ, List, length, IfOk, OnOk};
ghost use Rattle.site_model.specs.History.{Step, changes_of, content_of, writes_inside};
ghost use Rattle.site_model.specs.Calls.{HasCause, Reads, Writes, Syncs, SyncsAll, Says};

use std::fmt;

/// The outside failed. The count of the faults of its kind says so too.
#[derive(Clone, Copy, Debug, PartialEq, Eq)]
pub struct Failed;

impl fmt::Display for Failed {
    fn fmt<W: fmt::Write>(&self, f: &mut fmt::Formatter<W>) -> fmt::Result {
        f.write_str("the outside failed")
    }
}

impl std::error::Error for Failed {}

/// Numbered files and one output tape. A file that isn't there has length 0, reads nothing, syncs with Ok, and is
/// made by its first write. No call takes memory.
///
/// What was asked for is the history, whatever the device makes of it. Only what an answer says of the disk, the length
/// and the bytes read, rests on `tells`, which each call can only bring to fall.
pub trait Site {
    /// Whether each answer so far is what the history says. It holds of every site in memory. Of a real directory it
    /// says that the disk answered so, and that nobody else wrote its files. Once it has fallen it never holds again.
    ghost tells: { Self → Type 0 };

    /// What has happened so far, the newest step first.
    ghost history: { Self → List Step };

    /// How often a length, a read, a write or a sync has failed.
    ghost disk_faults: { Self → ℕ };

    /// How often saying a line has failed.
    ghost say_faults: { Self → ℕ };

    /// The present moment: the number of steps so far, where the site tells.
    fn moment(&self) -> u64
        ensures { tells self.now → result ≡ length (history self.now) };

    /// How many bytes a file has.
    fn length(&mut self, file: u32) -> Result<u64, Failed>
        ensures tells { tells self.new → tells self.old }
        ensures value { tells self.new → IfOk result
            (λ n. n ≡ length (content_of file (history self.old))) }
        ensures unchanged { history self.new ≡ history self.old }
        ensures cause { HasCause (disk_faults self.old) (disk_faults self.new) result }
        ensures say_faults { say_faults self.new ≡ say_faults self.old };

    /// Reads from offset `at` on, as many bytes as there are and as `out` holds, and says how many. One that gives
    /// fewer than `out` holds has come to the file's end. Past that number, and at an error, `out` may hold anything.
    fn read(&mut self, file: u32, at: u64, out: &mut [u8]) -> Result<usize, Failed>
        ensures tells { tells self.new → tells self.old }
        ensures count { IfOk result (λ n. n ≤ length out.old) }
        ensures value { tells self.new → IfOk result
            (Reads (content_of file (history self.old)) at out.old out.new) }
        ensures unchanged { history self.new ≡ history self.old }
        ensures cause { HasCause (disk_faults self.old) (disk_faults self.new) result }
        ensures say_faults { say_faults self.new ≡ say_faults self.old };

    /// Writes from offset `at` on, over what is there and past the end. Until a sync, a crash may leave any bytes
    /// in the range. A write that failed leaves its range as if written and not synced.
    fn write(&mut self, file: u32, at: u64, bytes: &[u8]) -> Result<(), Failed>
        requires { tells self.old → at ≤ length (content_of file (history self.old)) }
        ensures tells { tells self.new → tells self.old }
        ensures done { Writes file at bytes.now (history self.old) (history self.new) result }
        ensures cause { HasCause (disk_faults self.old) (disk_faults self.new) result }
        ensures say_faults { say_faults self.new ≡ say_faults self.old };

    /// After it, a crash leaves of the file what a read gives.
    fn sync(&mut self, file: u32) -> Result<(), Failed>
        ensures tells { tells self.new → tells self.old }
        ensures done { Syncs file (history self.old) (history self.new) result }
        ensures cause { HasCause (disk_faults self.old) (disk_faults self.new) result }
        ensures say_faults { say_faults self.new ≡ say_faults self.old };

    /// Makes several files safe by one wait, in which the disk may take them in any order. After it, a crash leaves of
    /// each what a read gives. One that failed may have made safe a prefix of them.
    fn sync_files(&mut self, files: &[u32]) -> Result<(), Failed>
        ensures tells { tells self.new → tells self.old }
        ensures done { SyncsAll files.now (history self.old) (history self.new) result }
        ensures cause { HasCause (disk_faults self.old) (disk_faults self.new) result }
        ensures say_faults { say_faults self.new ≡ say_faults self.old };

    /// Puts a line, which isn't empty, on the tape. What was said can't be unsaid. One that failed leaves a front of
    /// its line.
    fn say(&mut self, line: &[u8]) -> Result<(), Failed>
        requires { 0 < length line.now }
        ensures tells { tells self.new → tells self.old }
        ensures done { Says line.now (history self.old) (history self.new) result }
        ensures cause { HasCause (say_faults self.old) (say_faults self.new) result }
        ensures disk_faults { disk_faults self.new ≡ disk_faults self.old };

    /// Each write began inside its file, so what a read gives is one of the crash images.
    ghost inside: { (site : Self) (file : ℕ) → tells site
        → writes_inside (changes_of file (history site)) ≡ true };
}
