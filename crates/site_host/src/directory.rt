// A directory that is held for the run, and its files, each opened once and kept open.
ghost use Rattle.std.specs.Prelude.{◌≡◌, ◌<◌, ◌≤◌, length, true, IfOk, OnOk, Ok};
ghost use Rattle.site_host.specs.Flush.{is_safe};

use crate::flush::{FileSlot, Flush};
use site_calls::{FileName, Reason};
use std::alloc::{AllocError, Global};
use std::fmt::Display;
use std::fs::{File, Metadata, OpenOptions, TryLockError};
use std::io::ErrorKind;
use std::os::fd::AsRawFd;
use std::os::unix::fs::{FileExt, MetadataExt};
use std::rt::Files;
use std::sync::{Arc, OnceLock};
use std::{fs, io};
use task_pool::Task;

/// Room for the longest name of a file and the slash before it.
const NAME_ROOM: usize = 16;

/// As many files as there are names.
pub(crate) const FILES_LIMIT: usize = 131;

/// A directory, with its lock and those of its files that were found or made.
#[derive(Drop)]
pub(crate) struct Directory<R> {
    pub(crate) rt: R,
    path: String,
    // the path of what is being opened, in memory that was set aside when the directory was
    file_path: String,
    files: Vec<OpenFile>,
    // one for each file that isn't open yet
    slots: Vec<FileSlot>,
    // what stands in for the standard streams that are closed
    stand_ins: Vec<File>,
    // open and locked, once it was there
    pub(crate) folder: Option<File>,
    // the names of the files that were there are safe
    names_are_safe: bool,
    // why a file that was there couldn't be made safe
    failed_sync: Option<io::Error>,
    // why the last search or making of a file failed, where its error doesn't tell it
    pub(crate) reason: Option<Reason>,
}

#[derive(Drop)]
struct OpenFile {
    name: FileName,
    // with the file, since it was opened
    slot: FileSlot,
    // the device and the file's number there, of a file that was found
    identity: Option<(u64, u64)>,
    // why the file can't be written
    refusal: Option<io::Error>,
}

impl<R> Directory<R> {
    /// The directory with this path, of which nothing is open yet. All the memory that is ever needed is taken here.
    pub(crate) fn new(rt: R, alloc: Global, path: &str) -> Result<Directory<R>, AllocError>
    where
        R: Drop,
    {
        let path = if path.is_empty() { "." } else { path };
        Ok(Directory {
            rt,
            path: String::from_str(alloc, path)?,
            file_path: String::with_capacity(alloc, path.len() + NAME_ROOM)?,
            files: Vec::with_capacity(alloc, FILES_LIMIT)?,
            slots: empty_slots(alloc)?,
            stand_ins: Vec::with_capacity(alloc, 3)?,
            folder: None,
            names_are_safe: false,
            failed_sync: None,
            reason: None,
        })
    }

    /// The file with this number, which was found or made.
    fn file(&self, number: u32) -> io::Result<&OpenFile> {
        let name = name_of(number)?;
        let found = self.files.iter().find(|file| file.name == name);
        found.ok_or(io::Error::from(ErrorKind::NotFound))
    }

    fn opened(&self, number: u32) -> io::Result<&File> {
        let OpenFile { slot, .. } = self.file(number)?;
        slot.get().ok_or(io::Error::from(ErrorKind::NotFound))
    }

    // Keeps a file that was opened.
    fn keep(
        &mut self,
        name: FileName,
        file: File,
        identity: Option<(u64, u64)>,
        refusal: Option<io::Error>,
    ) -> io::Result<()> {
        let Some(slot) = self.slots.pop() else {
            return Err(io::Error::from(ErrorKind::OutOfMemory));
        };
        let _ = slot.try_set(file);
        self.files.push(OpenFile {
            name,
            slot,
            identity,
            refusal,
        })?;
        Ok(())
    }

    pub(crate) fn measure(&self, number: u32) -> io::Result<u64> {
        Ok(self.opened(number)?.metadata()?.len())
    }

    /// Reads some bytes, and says how many.
    pub(crate) fn read(&self, number: u32, at: u64, out: &mut [u8]) -> io::Result<usize>
        ensures { IfOk result (λ count. count ≤ length out.old) }
    {
        self.opened(number)?.read_at(out, at)
    }

    /// Writes some of the bytes, and says how many.
    pub(crate) fn write(&self, number: u32, at: u64, bytes: &[u8]) -> io::Result<usize>
        ensures some { IfOk result (λ count. 0 < count) }
        ensures count { IfOk result (λ count. count ≤ length bytes.now) }
    {
        if let Some(refusal) = self.file(number)?.refusal {
            return Err(refusal);
        }
        unless_nothing(self.opened(number)?.write_at(bytes, at))
    }

    /// Makes a file safe in this round.
    pub(crate) fn sync(&self, round: u64, number: u32) -> io::Result<()>
        ensures { OnOk result (is_safe round number ≡ true) }
    {
        match self.to_flush(number) {
            Ok(flush) => flush.run(round),
            Err(error) => Err(error),
        }
    }

    /// The file, for a thread that is to make it safe.
    pub(crate) fn to_flush(&self, number: u32) -> io::Result<Flush>
        ensures { IfOk result (λ flush. flush.number ≡ number) }
    {
        let slot = Arc::try_clone(&self.file(number)?.slot)?;
        Ok(Flush { number, slot })
    }

    pub(crate) fn sync_names(&self) -> io::Result<()> {
        let folder = self.folder.as_ref();
        folder
            .ok_or(io::Error::from(ErrorKind::NotFound))?
            .sync_all()
    }

    // Makes safe what a file that was there holds, and its name: an earlier run may have crashed and left them in the
    // system's memory alone. After one that failed the system may take what is lost for safe, so none is tried again.
    fn make_safe(&mut self, file: &File) -> io::Result<()> {
        if let Some(error) = self.failed_sync {
            return Err(error);
        }
        let answer = match file.sync_all() {
            Ok(()) if !self.names_are_safe => self.sync_names(),
            answer => answer,
        };
        match answer {
            Ok(()) => self.names_are_safe = true,
            Err(error) => self.failed_sync = Some(error),
        }
        answer
    }

    // Sets the path to that of a name in the directory.
    fn point_to<D: Display + Drop>(&mut self, name: D) -> io::Result<()> {
        self.file_path.clear();
        write!(self.file_path, "{}/{name}", self.path)?;
        Ok(())
    }

    fn because(&mut self, reason: Reason, error: io::Error) -> io::Error {
        self.reason = Some(reason);
        error
    }
}

impl<R: Files<File = File>> Directory<R> {
    /// Looks for a file. One that is there is opened and made safe.
    pub(crate) fn find(&mut self, number: u32) -> io::Result<bool> {
        self.reason = None;
        let name = name_of(number)?;
        if self.file(number).is_ok() {
            return Ok(true);
        }
        if !self.open_folder()? {
            return Ok(false);
        }
        self.point_to(name)?;
        match self.open_there(name) {
            Err(error) if error.kind() == ErrorKind::NotFound => Ok(false),
            answer => answer.and(Ok(true)),
        }
    }

    /// Makes a file that isn't there. An input is never made.
    pub(crate) fn make(&mut self, number: u32) -> io::Result<()> {
        let name = name_of(number)?;
        if name.is_input() {
            return Err(io::Error::from(ErrorKind::PermissionDenied));
        }
        if !self.open_folder()? {
            return Err(io::Error::from(ErrorKind::NotFound));
        }
        self.point_to(name)?;
        let file = File::create_new(&self.rt, self.file_path.as_str())?;
        self.hold(&file)?;
        self.keep(name, file, None, None)
    }

    // Opens and locks the directory, if it is there.
    fn open_folder(&mut self) -> io::Result<bool> {
        if self.folder.is_some() {
            return Ok(true);
        }
        self.take_streams()?;
        self.point_to(".")?;
        let folder = match File::open(&self.rt, self.file_path.as_str()) {
            Ok(folder) => folder,
            Err(error) if error.kind() == ErrorKind::NotFound => return Ok(false),
            Err(error) => return Err(self.because(Reason::Directory, error)),
        };
        if let Err(refused) = folder.try_lock() {
            let reason = match refused {
                TryLockError::WouldBlock => Reason::Locked,
                TryLockError::Error(_) => Reason::Directory,
            };
            return Err(self.because(reason, io::Error::from(refused)));
        }
        self.folder = Some(folder);
        Ok(true)
    }

    // Locks a log. The lock of the directory doesn't keep out a run that has the same log in another one, by a link.
    fn hold(&mut self, file: &File) -> io::Result<()> {
        match file.try_lock() {
            Ok(()) => Ok(()),
            Err(TryLockError::WouldBlock) => {
                let error = io::Error::from(ErrorKind::WouldBlock);
                Err(self.because(Reason::HeldFile, error))
            }
            Err(TryLockError::Error(error)) => Err(error),
        }
    }

    // Opens the null device for reading until descriptors 0 to 2 are taken. So no file gets one of them, and a standard
    // output that is closed stays one that can't be written.
    fn take_streams(&mut self) -> io::Result<()> {
        for _ in 0..4 {
            let stand_in = match File::open(&self.rt, "/dev/null") {
                Ok(stand_in) => stand_in,
                Err(error) => return Err(self.because(Reason::NullDevice, error)),
            };
            if stand_in.as_raw_fd() > 2 {
                return Ok(());
            }
            self.stand_ins.push(stand_in)?;
        }
        Err(io::Error::from(ErrorKind::Unsupported))
    }

    // Opens the file that the path leads to. A pipe isn't opened, which might wait, nor the same file under two names.
    fn open_there(&mut self, name: FileName) -> io::Result<()> {
        let error = io::Error::from(ErrorKind::InvalidInput);
        if !looked_up(&self.rt, self.file_path.as_str())?.is_file() {
            return Err(self.because(Reason::NotRegular, error));
        }
        let (file, refusal) = open_named(&self.rt, self.file_path.as_str(), name)?;
        let metadata = looked_into(&file)?;
        let identity = Some((metadata.dev(), metadata.ino()));
        if let Some(other) = self.files.iter().find(|other| other.identity == identity) {
            let reason = Reason::SameAs(other.name);
            return Err(self.because(reason, error));
        }
        if !name.is_input() {
            self.hold(&file)?;
        }
        self.make_safe(&file)?;
        self.keep(name, file, identity, refusal)
    }
}

fn empty_slots(alloc: Global) -> Result<Vec<FileSlot>, AllocError> {
    let mut slots = Vec::with_capacity(alloc, FILES_LIMIT)?;
    for _ in 0..FILES_LIMIT {
        slots.push(Arc::new(alloc, OnceLock::new())?)?;
    }
    Ok(slots)
}

// What there is at a path. A call that a signal cuts off is made again.
fn looked_up(rt: &impl Files<File = File>, path: &str) -> io::Result<Metadata> {
    for _ in 0..u64::MAX {
        match fs::metadata(rt, path) {
            Err(error) if error.kind() == ErrorKind::Interrupted => {}
            answer => return answer,
        }
    }
    Err(io::Error::from(ErrorKind::Interrupted))
}

// The same of an open file.
fn looked_into(file: &File) -> io::Result<Metadata> {
    for _ in 0..u64::MAX {
        match file.metadata() {
            Err(error) if error.kind() == ErrorKind::Interrupted => {}
            answer => return answer,
        }
    }
    Err(io::Error::from(ErrorKind::Interrupted))
}

/// A call that moved no byte, and said so, failed.
pub(crate) fn unless_nothing(answer: io::Result<usize>) -> io::Result<usize>
    ensures some { IfOk result (λ count. 0 < count) }
    ensures same { IfOk result (λ count. answer ≡ Ok count) }
{
    let count = answer?;
    if count == 0 {
        return Err(io::Error::from(ErrorKind::WriteZero));
    }
    Ok(count)
}

// A number that is no file's is an error.
fn name_of(number: u32) -> io::Result<FileName> {
    FileName::from_number(number).ok_or(io::Error::from(ErrorKind::InvalidInput))
}

// Opens an input for reading alone. Another file is opened so too where it can't be written, and each write then gives
// the error that was given here.
fn open_named(
    rt: &impl Files<File = File>,
    path: &str,
    name: FileName,
) -> io::Result<(File, Option<io::Error>)> {
    let opened = if name.is_input() {
        Err(io::Error::from(ErrorKind::PermissionDenied))
    } else {
        OpenOptions::new().read(true).write(true).open(rt, path)
    };
    match opened {
        Ok(file) => Ok((file, None)),
        Err(refusal) => Ok((File::open(rt, path)?, Some(refusal))),
    }
}
