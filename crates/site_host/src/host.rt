// Each method makes its call of the system, and then notes it with its answer.
ghost use Rattle.std.specs.Prelude.{◌≡◌, [], true, All, IfOk, OnOk};
ghost use Rattle.site_host.specs.Flush.{is_safe};
ghost use Rattle.site_host.specs.Host.{events_of};

use crate::directory::{Directory, unless_nothing};
use crate::helpers::FlushMany;
use crate::pace::Pace;
use site_calls::{Calls, Reason, Record};
use std::alloc::{AllocError, Global};
use std::fs::File;
use std::io;
use std::rt::{Clock, Files};

/// A fast disk takes fewer files than these no slower in turn than at once.
const AT_ONCE: usize = 4;

/// The files of a directory, which is locked for the life of this value, and standard output. `H` makes several files
/// safe at once.
#[derive(Drop)]
pub struct Host<R, H> {
    directory: Directory<R>,
    record: Record,
    helpers: H,
    // how often files were made safe
    round: u64,
    pace: Pace,
}

impl<R, H> Host<R, H> {
    /// The directory with this path. Nothing is opened before the first call, and no call takes memory of its own.
    pub fn open(rt: R, alloc: Global, directory: &str, helpers: H) -> Result<Host<R, H>, AllocError>
    where
        R: Drop,
        H: Drop,
        ensures { IfOk result (λ host. events_of host ≡ []) }
    {
        Ok(Host {
            directory: Directory::new(rt, alloc, directory)?,
            record: Record::new(),
            helpers,
            round: 0,
            pace: Pace::unknown(),
        })
    }

    /// Why the last call failed, where the system's error doesn't tell it.
    pub fn reason(&self) -> Option<Reason> {
        self.directory.reason
    }

    // Makes files safe in this round: few of them one after another where the disk is fast, else at once.
    fn sync_all(&self, round: u64, files: &[u32]) -> Result<(), (u32, io::Error)>
    where
        H: FlushMany,
        ensures { OnOk result (All (λ file. is_safe round file ≡ true) files.now) }
    {
        if files.len() < AT_ONCE && self.pace.is_fast() {
            return self.sync_in_turn(round, files);
        }
        let directory = &self.directory;
        self.helpers
            .flush_many(round, files, |file| directory.to_flush(file))
    }

    fn sync_in_turn(&self, round: u64, files: &[u32]) -> Result<(), (u32, io::Error)>
        ensures { OnOk result (All (λ file. is_safe round file ≡ true) files.now) }
    {
        for file in files {
            match self.directory.sync(round, *file) {
                Ok(()) => {}
                Err(error) => return Err((*file, error)),
            }
        }
        Ok(())
    }
}

impl<R: Files<File = File> + Print + Clock, H: FlushMany> Calls for Host<R, H> {
    ghost events = { λ host. events_of host };

    fn find(&mut self, file: u32) -> io::Result<bool> {
        let answer = self.directory.find(file);
        match answer {
            Ok(is_there) => self.record.found(file, is_there),
            Err(_) => self.record.failed(file),
        }
        answer
    }

    fn make(&mut self, file: u32) -> io::Result<()> {
        let answer = self.directory.make(file);
        match answer {
            Ok(()) => self.record.made(file),
            Err(_) => self.record.failed(file),
        }
        answer
    }

    fn measure(&mut self, file: u32) -> io::Result<u64> {
        let answer = self.directory.measure(file);
        match answer {
            Ok(size) => self.record.measured(file, size),
            Err(_) => self.record.failed(file),
        }
        answer
    }

    fn read_some(&mut self, file: u32, at: u64, done: usize, out: &mut [u8]) -> io::Result<usize> {
        let from = at.saturating_add(done as u64);
        let answer = self.directory.read(file, from, &mut out[done..]);
        let size = out.len();
        match answer {
            Ok(count) => self.record.got(file, at, size, count, &out[..done + count]),
            Err(_) => self.record.failed(file),
        }
        answer
    }

    fn begin_write(&mut self, file: u32, at: u64, size: usize) {
        self.record.begun(file, at, size);
    }

    fn write_some(&mut self, file: u32, at: u64, done: usize, bytes: &[u8]) -> io::Result<usize> {
        let from = at.saturating_add(done as u64);
        let answer = self.directory.write(file, from, &bytes[done..]);
        self.pace.wrote();
        match answer {
            Ok(count) => self.record.put(&bytes[..done + count]),
            Err(_) => self.record.lost(&bytes[..done]),
        }
        answer
    }

    fn flush(&mut self, file: u32) -> io::Result<()> {
        let begun = self.pace.begin(&self.directory.rt);
        self.round = self.round.wrapping_add(1);
        let answer = self.directory.sync(self.round, file);
        self.pace.end(&self.directory.rt, begun);
        self.record.flushed(file, answer.is_ok());
        answer
    }

    fn flush_files(&mut self, files: &[u32]) -> Result<(), (u32, io::Error)> {
        self.round = self.round.wrapping_add(1);
        let answer = self.sync_all(self.round, files);
        match answer {
            Ok(()) => self.record.flushed_all(files),
            Err((file, _)) => self.record.flushed(file, false),
        }
        answer
    }

    fn flush_names(&mut self) -> io::Result<()> {
        let answer = self.directory.sync_names();
        self.record.named(answer.is_ok());
        answer
    }

    fn pass_over(&mut self, file: u32) {
        self.record.absent(file);
    }

    fn give_up(&mut self, file: u32) {
        self.record.flushed(file, false);
    }

    fn print_some(&mut self, done: usize, line: &[u8]) -> io::Result<usize> {
        let answer = unless_nothing(self.directory.rt.write_some(&line[done..]));
        match answer {
            Ok(count) => self.record.printed(&line[done..done + count]),
            Err(_) => self.record.unprinted(),
        }
        answer
    }
}
