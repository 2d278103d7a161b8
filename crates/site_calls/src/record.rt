//! The list of calls of the system that an implementation made. Only clauses read it.
ghost use Rattle.std.specs.Prelude.{◌≡◌, List, [], ◌∷◌};
ghost use Rattle.std.specs.Borrow.{ftrue};
ghost use Rattle.site_calls.specs.Events.{Event, found, made, measured, got, begun, put, lost, flushed, flushing, named, absent, printed, failed, unprinted};
ghost use Rattle.site_calls.specs.Notes.{event_of};

use std::marker::{Model, PhantomData};

// The kinds of notes, as `event_of` reads them.
const FOUND: u64 = 0;

const MADE: u64 = 1;

const MEASURED: u64 = 2;

const GOT: u64 = 3;

const BEGUN: u64 = 4;

const PUT: u64 = 5;

const LOST: u64 = 6;

const FLUSHED: u64 = 7;

const NAMED: u64 = 8;

const ABSENT: u64 = 9;

const PRINTED: u64 = 10;

const FAILED: u64 = 11;

const UNPRINTED: u64 = 12;

/// The calls so far, the newest first. No memory holds them, and noting one does nothing when it runs.
#[derive(Drop)]
pub struct Record {
    marker: PhantomData<u8>,
    pub ghost events: { List Event },
}

impl Model for Record {
    ghost also_owns = { λ _. ftrue };
}

// It owns nothing.
unsafe impl Send for Record {}

impl Record {
    /// A record without calls.
    pub fn new() -> Record
        ensures { result.events ≡ [] }
    {
        Record {
            marker: PhantomData,
        }
    }

    // Notes a call: its kind, its numbers and its bytes, as `event_of` reads them.
    fn note(&mut self, _numbers: &[u64], _bytes: &[u8])
        ensures { self.new.events ≡ event_of _numbers.now _bytes.now ∷ self.old.events }
    {}

    /// A file was looked for.
    pub fn found(&mut self, file: u32, is_there: bool)
        ensures { self.new.events ≡ found file is_there ∷ self.old.events }
    {
        self.note(&[FOUND, file as u64, u64::from(is_there)], &[]);
    }

    /// A file was made.
    pub fn made(&mut self, file: u32)
        ensures { self.new.events ≡ made file ∷ self.old.events }
    {
        self.note(&[MADE, file as u64], &[]);
    }

    /// A file's length was asked.
    pub fn measured(&mut self, file: u32, size: u64)
        ensures { self.new.events ≡ measured file size ∷ self.old.events }
    {
        self.note(&[MEASURED, file as u64, size], &[]);
    }

    /// Of a read of so many bytes at this offset so many came with the last call, and these with all calls.
    pub fn got(&mut self, file: u32, at: u64, size: usize, count: usize, bytes: &[u8])
        ensures { self.new.events ≡ got file at size count bytes.now ∷ self.old.events }
    {
        self.note(&[GOT, file as u64, at, size as u64, count as u64], bytes);
    }

    /// A write of so many bytes at this offset begins.
    pub fn begun(&mut self, file: u32, at: u64, size: usize)
        ensures { self.new.events ≡ begun file at size ∷ self.old.events }
    {
        self.note(&[BEGUN, file as u64, at, size as u64], &[]);
    }

    /// So far these bytes of the write are written.
    pub fn put(&mut self, bytes: &[u8])
        ensures { self.new.events ≡ put bytes.now ∷ self.old.events }
    {
        self.note(&[PUT], bytes);
    }

    /// The write failed, behind these bytes.
    pub fn lost(&mut self, bytes: &[u8])
        ensures { self.new.events ≡ lost bytes.now ∷ self.old.events }
    {
        self.note(&[LOST], bytes);
    }

    /// A file's bytes were to be made safe, and are or are not.
    pub fn flushed(&mut self, file: u32, is_safe: bool)
        ensures { self.new.events ≡ flushed file is_safe ∷ self.old.events }
    {
        self.note(&[FLUSHED, file as u64, u64::from(is_safe)], &[]);
    }

    /// The bytes of each of these files were to be made safe, and are.
    pub fn flushed_all(&mut self, files: &[u32])
        ensures { self.new.events ≡ flushing files.now self.old.events }
    {
        for file in files {
            self.flushed(*file, true);
        }
    }

    /// The names in the directory were to be made safe, and are or are not.
    pub fn named(&mut self, are_safe: bool)
        ensures { self.new.events ≡ named are_safe ∷ self.old.events }
    {
        self.note(&[NAMED, u64::from(are_safe)], &[]);
    }

    /// A file that isn't there was to be made safe.
    pub fn absent(&mut self, file: u32)
        ensures { self.new.events ≡ absent file ∷ self.old.events }
    {
        self.note(&[ABSENT, file as u64], &[]);
    }

    /// These bytes were printed.
    pub fn printed(&mut self, bytes: &[u8])
        ensures { self.new.events ≡ printed bytes.now ∷ self.old.events }
    {
        self.note(&[PRINTED], bytes);
    }

    /// A call on a file failed, and changed nothing.
    pub fn failed(&mut self, file: u32)
        ensures { self.new.events ≡ failed file ∷ self.old.events }
    {
        self.note(&[FAILED, file as u64], &[]);
    }

    /// A call that prints failed.
    pub fn unprinted(&mut self)
        ensures { self.new.events ≡ unprinted ∷ self.old.events }
    {
        self.note(&[UNPRINTED], &[]);
    }
}
