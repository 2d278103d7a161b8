//! The calls of the system that a site makes, each of which is noted with its answer.

ghost use Rattle.std.specs.Prelude.{◌≡◌, ◌+◌, ◌<◌, ◌≤◌, ◌∷◌, List, length, take, drop, false, true, is_ok, IfOk, MatchResult};
ghost use Rattle.site_calls.specs.Events.{Event, Unseen, replay, found, made, measured, got, begun, put, lost, flushed, flushing, named, absent, printed, failed, unprinted};

use std::io;

/// The calls of a directory's files and of standard output. A file's number says which it is.
///
/// Each method but `flush_files` makes at most one call of the system and notes it with its answer. It goes on after no
/// short answer and after no signal: that is for the caller.
pub trait Calls {
    /// The calls so far with their answers, the newest first.
    ghost events: { Self → List Event };

    /// Looks whether a file is there, and opens it if it is. What it holds is safe then, and so is its name. Only where
    /// the system says that there is no such file it isn't there.
    fn find(&mut self, file: u32) -> io::Result<bool>
        ensures noted { MatchResult result (λ is_there. events self.new
            ≡ found file is_there ∷ events self.old)
            (λ _. events self.new ≡ failed file ∷ events self.old) };

    /// Makes a file that isn't there.
    fn make(&mut self, file: u32) -> io::Result<()>
        ensures noted { MatchResult result (λ _. events self.new ≡ made file ∷ events self.old)
            (λ _. events self.new ≡ failed file ∷ events self.old) };

    /// How many bytes a file has that was found or made.
    fn measure(&mut self, file: u32) -> io::Result<u64>
        ensures noted { MatchResult result (λ size. events self.new
            ≡ measured file size ∷ events self.old)
            (λ _. events self.new ≡ failed file ∷ events self.old) };

    /// Goes on with a read of `out.len()` bytes from offset `at` on, of which `done` have come.
    fn read_some(&mut self, file: u32, at: u64, done: usize, out: &mut [u8]) -> io::Result<usize>
        requires { done < length out.old }
        ensures front { take done out.new ≡ take done out.old }
        ensures count { IfOk result (λ count. done + count ≤ length out.old) }
        ensures noted { MatchResult result (λ count. events self.new
            ≡ got file at (length out.old) count (take (done + count) out.new) ∷ events self.old)
            (λ _. events self.new ≡ failed file ∷ events self.old) };

    /// Notes that a write of so many bytes at this offset begins. It makes no call.
    fn begin_write(&mut self, file: u32, at: u64, size: usize)
        ensures { events self.new ≡ begun file at size ∷ events self.old };

    /// Goes on with the write that began, of which `done` bytes are written. A call that failed may have left anything. One
    /// that wrote nothing failed.
    fn write_some(&mut self, file: u32, at: u64, done: usize, bytes: &[u8]) -> io::Result<usize>
        requires { done < length bytes.now }
        ensures some { IfOk result (λ count. 0 < count) }
        ensures count { IfOk result (λ count. done + count ≤ length bytes.now) }
        ensures noted { MatchResult result (λ count. events self.new
            ≡ put (take (done + count) bytes.now) ∷ events self.old)
            (λ _. events self.new ≡ lost (take done bytes.now) ∷ events self.old) };

    /// Makes safe what a file holds that was found or made.
    fn flush(&mut self, file: u32) -> io::Result<()>
        ensures { events self.new ≡ flushed file (is_ok result) ∷ events self.old };

    /// Makes safe what several files hold that were found or made, by a call for each, in any order and some at once. It
    /// comes back when all these calls did. Where one failed, this one alone is noted, so that none of the others counts.
    fn flush_files(&mut self, files: &[u32]) -> Result<(), (u32, io::Error)>
        ensures noted { MatchResult result
            (λ _. events self.new ≡ flushing files.now (events self.old))
            (λ failed. events self.new ≡ flushed failed.0 false ∷ events self.old) };

    /// Makes safe the names in the directory.
    fn flush_names(&mut self) -> io::Result<()>
        ensures { events self.new ≡ named (is_ok result) ∷ events self.old };

    /// Notes that a file that isn't there was to be made safe, right after it wasn't found. It makes no call.
    fn pass_over(&mut self, file: u32)
        requires { (before : List Event) × (events self.old ≡ found file false ∷ before) }
        ensures { events self.new ≡ absent file ∷ events self.old };

    /// Notes that a file isn't made safe, since a call that was to make safe has failed before. It makes no call.
    fn give_up(&mut self, file: u32)
        requires { (unseen : Unseen) × ((replay unseen (events self.old)).broken ≡ true) }
        ensures { events self.new ≡ flushed file false ∷ events self.old };

    /// Goes on printing a line, of which `done` bytes are printed. A call that printed nothing failed.
    fn print_some(&mut self, done: usize, line: &[u8]) -> io::Result<usize>
        requires { done < length line.now }
        ensures some { IfOk result (λ count. 0 < count) }
        ensures count { IfOk result (λ count. done + count ≤ length line.now) }
        ensures noted { MatchResult result (λ count. events self.new
            ≡ printed (take count (drop done line.now)) ∷ events self.old)
            (λ _. events self.new ≡ unprinted ∷ events self.old) };
}

/// What no answer of the system tells, as a ghost member of a type. No code can read it, so a function over any `Start`
/// is proved for all contents of the files.
pub trait Start: Drop {
    /// What each file held at the start, and what a failed write left.
    ghost unseen: { Unseen };
}

/// The start of a program that knows nothing of its files.
#[derive(Drop)]
pub struct Unknown;

impl Start for Unknown {
    ghost use Rattle.std.specs.Prelude.{[]};

    ghost unseen = { record { files = λ _. []; left = λ _. [] } };
}
