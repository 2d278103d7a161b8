//! A log that is read entry by entry.

ghost use Rattle.std.specs.Prelude.{◌≡◌, ◌≤◌, ◌<◌, ◌^◌, ℕ, List, [], Err};
ghost use Rattle.site_model.specs.History.{Step, changes_of, IsKept};
ghost use Rattle.site_model.specs.Calls.{HasRisen};
ghost use Rattle.commit_log.specs.declared.reader.OpenedLog.{OpenedLog as Opened};
ghost use Rattle.dura_value.specs.Items.{Entry as PlainEntry};
ghost use Rattle.log_files.specs.Entries.{fault_behind, IsFaultBefore, IsOpenedLog, Reads, Turns, Gives, StaysNumbered, GivesNumbered, next_in};

use commit_log::{FrameError, LogReader, Next as Gate, OpenedLog, Resting};
use dura_value::ReadError;
use log_items::Entry;
use part_items::{FrameReader, Next};
use site_model::Site;
use std::alloc::Global;

/// A log that is read entry by entry.
#[derive(Drop)]
pub enum EntryReader {
    /// Before the next frame, whose entries are numbered on from here.
    Before(LogReader, Next),
    /// Before the log behind a frame that is being read, whose payload begins at this offset of the file.
    Inside(LogReader, u64, FrameReader),
}

/// What comes of one step.
#[derive(Drop)]
pub(crate) enum Turn {
    /// An entry, and the log behind it.
    Entry(Entry, EntryReader),
    /// No entry yet: a frame begins or ends here.
    On(EntryReader),
    /// There are no more entries, and the log rests here.
    End(Resting),
}

/// What comes next in a log.
#[derive(Drop)]
pub enum Ahead {
    /// An entry, and the log behind it.
    Entry(Entry, EntryReader),
    /// There are no more entries, and the log rests here.
    End(Resting),
}

/// Why a payload that begins at this offset of its file can't be read. A file's offsets are far below the greatest number.
fn unread(start: u64, error: ReadError) -> FrameError
    ensures told { (end : ℕ) → IsFaultBefore start end error → end < 2 ^ 64
        → result ≡ fault_behind start error }
    ensures no_fault { result ≡ FrameError.SiteFault → ⊥ }
{
    match error {
        ReadError::Bad { offset } => FrameError::Damaged {
            offset: start.checked_add(offset as u64).unwrap_or(start),
        },
        ReadError::Memory => FrameError::Memory,
    }
}

/// The next frame is begun, if there is one.
fn begin_frame<V: Site>(
    alloc: Global,
    site: &mut V,
    reader: LogReader,
    next: Next,
) -> Result<Turn, FrameError>
    ensures tells { V.tells site.new → V.tells site.old }
    ensures turns { V.tells site.new → (log : Opened) (done : List PlainEntry)
        → IsKept (changes_of log.file (V.history site.old))
        → Reads (V.history site.old) log done (EntryReader.Before reader next)
        → Turns (V.history site.old) log done result }
    ensures numbered { StaysNumbered (EntryReader.Before reader next) result }
    ensures unchanged { V.history site.new ≡ V.history site.old }
    ensures fault { result ≡ Err FrameError.SiteFault
        → HasRisen (V.disk_faults site.old) (V.disk_faults site.new) }
    ensures later { V.disk_faults site.old ≤ V.disk_faults site.new }
    ensures say_faults { V.say_faults site.new ≡ V.say_faults site.old }
{
    let start = reader.gate + 5;
    let (payload, behind) = match reader.next(alloc, site) {
        Ok(Gate::Frame(payload, behind)) => (payload, behind),
        Ok(Gate::End(log)) => return Ok(Turn::End(log)),
        Err(error) => return Err(error),
    };
    match FrameReader::begin(next, payload) {
        Ok(frame) => Ok(Turn::On(EntryReader::Inside(behind, start, frame))),
        Err(error) => Err(unread(start, error)),
    }
}

/// The next entry of a frame, if there is one.
fn next_in_frame(
    alloc: Global,
    reader: LogReader,
    start: u64,
    frame: FrameReader,
) -> Result<Turn, FrameError>
    ensures turns { (steps : List Step) (log : Opened) (done : List PlainEntry)
        → Reads steps log done (EntryReader.Inside reader start frame)
        → Turns steps log done result }
    ensures numbered { StaysNumbered (EntryReader.Inside reader start frame) result }
    ensures no_fault { result ≡ Err FrameError.SiteFault → ⊥ }
{
    let mut frame = frame;
    match frame.next(alloc) {
        Ok(Some(entry)) => Ok(Turn::Entry(entry, EntryReader::Inside(reader, start, frame))),
        Ok(None) => Ok(Turn::On(EntryReader::Before(reader, frame.place()))),
        Err(error) => Err(unread(start, error)),
    }
}

impl EntryReader {
    /// Before the first entry of a log that was opened.
    pub fn begin(alloc: Global, log: OpenedLog) -> EntryReader
        ensures begins { (steps : List Step) → IsOpenedLog steps log
            → Reads steps log [] result }
        ensures first { next_in result ≡ record { position = log.header.base; incarnation = 0 } }
    {
        let next = Next {
            position: log.header.base,
            incarnation: 0,
        };
        EntryReader::Before(log.frames(alloc), next)
    }

    /// One step towards the next entry.
    fn turn<V: Site>(self, alloc: Global, site: &mut V) -> Result<Turn, FrameError>
        ensures tells { V.tells site.new → V.tells site.old }
        ensures turns { V.tells site.new → (log : Opened) (done : List PlainEntry)
            → IsKept (changes_of log.file (V.history site.old))
            → Reads (V.history site.old) log done self
            → Turns (V.history site.old) log done result }
        ensures numbered { StaysNumbered self result }
        ensures unchanged { V.history site.new ≡ V.history site.old }
        ensures fault { result ≡ Err FrameError.SiteFault
            → HasRisen (V.disk_faults site.old) (V.disk_faults site.new) }
        ensures later { V.disk_faults site.old ≤ V.disk_faults site.new }
        ensures say_faults { V.say_faults site.new ≡ V.say_faults site.old }
    {
        match self {
            EntryReader::Before(reader, next) => begin_frame(alloc, site, reader, next),
            EntryReader::Inside(reader, start, frame) => next_in_frame(alloc, reader, start, frame),
        }
    }

    /// The next entry of the log, or its end.
    pub fn next<V: Site>(self, alloc: Global, site: &mut V) -> Result<Ahead, FrameError>
        ensures tells { V.tells site.new → V.tells site.old }
        ensures gives { V.tells site.new → (log : Opened) (done : List PlainEntry)
            → IsKept (changes_of log.file (V.history site.old))
            → Reads (V.history site.old) log done self
            → Gives (V.history site.old) log done result }
        ensures numbered { GivesNumbered self result }
        ensures unchanged { V.history site.new ≡ V.history site.old }
        ensures fault { result ≡ Err FrameError.SiteFault
            → HasRisen (V.disk_faults site.old) (V.disk_faults site.new) }
        ensures later { V.disk_faults site.old ≤ V.disk_faults site.new }
        ensures say_faults { V.say_faults site.new ≡ V.say_faults site.old }
    {
        let mut reader = self;
        'steps: loop {
            match reader.turn(alloc, site)? {
                Turn::Entry(entry, behind) => return Ok(Ahead::Entry(entry, behind)),
                Turn::On(more) => reader = more,
                Turn::End(log) => return Ok(Ahead::End(log)),
            }
        }
    }
}
