// The site in memory.
ghost use Rattle.std.specs.Prelude.{◌≡◌, ◌⊎◌, ◌+◌, ◌≤◌, ◌<◌, ◌∷◌, [], ℕ, length, IfOk, OnOk, OnErr};
ghost use Rattle.site_model.specs.History.{IsImage, IsKept, on, wrote, synced, changes_of, content_of, tape, back_to};
ghost use Rattle.site_model.specs.Calls.{HasCause, Syncs};
ghost use Rattle.site_memory.specs.Picked.{picked};
ghost use Rattle.site_memory.specs.Record.{history_of};
ghost use Rattle.site_memory.specs.declared.plan.Kind.{Kind};
ghost use Rattle.site_memory.specs.Memory.{memory_history, memory_disk_faults, memory_say_faults, bytes_left, calls_left, bytes_at_first, calls_at_first, calls_of};

use crate::faults::raised;
use crate::image::{cut, image_of};
use crate::plan::Plan;
use crate::record::Record;
use crate::replay::replay;
use crate::walks::{content_in, count_steps, tape_in};
use crate::{Kept, Kind, Pick};
use site_model::{Failed, Site};
use std::alloc::{AllocError, Global};

/// Files and a tape in memory, which fail where they are told to.
///
/// A listed call fails and is counted as a fault. A listed write is kept as if written and not synced, a listed line
/// leaves its first half on the tape, and a listed sync does nothing. A call past the room fails too, and keeps
/// nothing. A read goes through the whole record.
///
/// A call that syncs several files counts as one sync for each, one after another, and ends at the first that fails. So
/// a test that lists a sync finds each prefix of the files synced.
#[derive(Drop)]
pub struct MemorySite {
    record: Record,
    // The room that it was made with.
    bytes: u64,
    calls: u64,
    plan: Plan,
    disk_faults: u64,
    say_faults: u64,
}

impl MemorySite {
    /// A site with no files, with room for so many bytes, written and said, and so many writes, syncs and lines.
    /// Of each kind in `fails` the call with that number fails, counted from 0.
    pub fn new(
        alloc: Global,
        bytes: u64,
        calls: u64,
        fails: Vec<(Kind, u64)>,
    ) -> Result<MemorySite, AllocError>
        ensures history { IfOk result (λ site. memory_history site ≡ []) }
        ensures disk_faults { IfOk result (λ site. memory_disk_faults site ≡ 0) }
        ensures say_faults { IfOk result (λ site. memory_say_faults site ≡ 0) }
        ensures bytes { IfOk result (λ site. bytes_left site ≡ bytes) }
        ensures calls { IfOk result (λ site. calls_left site ≡ calls) }
        ensures bytes_at_first { IfOk result (λ site. bytes_at_first site ≡ bytes) }
        ensures calls_at_first { IfOk result (λ site. calls_at_first site ≡ calls) }
        ensures no_calls { IfOk result (λ site. (kind : Kind) → calls_of kind site ≡ 0) }
    {
        let record = Record::new(alloc, bytes, calls)?;
        Ok(MemorySite {
            record,
            bytes,
            calls,
            plan: Plan::new(fails),
            disk_faults: 0,
            say_faults: 0,
        })
    }

    /// Writes and syncs what was there before the program started. It is no call of any kind, and fails only without
    /// room for the bytes and two calls.
    pub fn prepare(&mut self, file: u32, at: u64, bytes: &[u8]) -> Result<(), Failed>
        requires { at ≤ length (content_of file (memory_history self.old)) }
        ensures done { OnOk result (memory_history self.new
            ≡ on file synced ∷ on file (wrote at (length bytes.now) bytes.now)
            ∷ memory_history self.old) }
        ensures bytes { OnOk result (bytes_left self.new + length bytes.now ≡ bytes_left self.old) }
        ensures calls { OnOk result (calls_left self.new + 2 ≡ calls_left self.old) }
        ensures disk_faults { memory_disk_faults self.new ≡ memory_disk_faults self.old }
        ensures say_faults { memory_say_faults self.new ≡ memory_say_faults self.old }
        ensures no_calls { (kind : Kind) → calls_of kind self.new ≡ calls_of kind self.old }
        ensures no_room { OnErr result ((bytes_left self.old < length bytes.now)
            ⊎ (calls_left self.old < 2)) }
        ensures unchanged { OnErr result (self.new ≡ self.old) }
    {
        self.record.prepare(file, at, bytes)
    }

    /// What has been said.
    pub fn tape(&self, alloc: Global) -> Result<Vec<u8>, AllocError>
        ensures { IfOk result (λ bytes. bytes.items ≡ tape (memory_history self.now)) }
    {
        tape_in(alloc, &self.record.kept)
    }

    /// What a read of the whole file gives.
    pub fn content(&self, alloc: Global, file: u32) -> Result<Vec<u8>, AllocError>
        ensures { IfOk result (λ bytes. bytes.items ≡ content_of file (memory_history self.now)) }
    {
        content_in(alloc, &self.record.kept, file)
    }

    /// A site that starts from what a crash at this moment may leave, with the tape of that moment. It has as much
    /// room behind that as this one was made with, and no call of it fails.
    pub fn image(&self, alloc: Global, moment: u64, pick: Pick) -> Result<MemorySite, AllocError>
        ensures picked { IfOk result (λ site. (file : ℕ)
            → content_of file (memory_history site)
            ≡ picked pick (changes_of file (back_to moment (memory_history self.now)))) }
        ensures image { IfOk result (λ site.
            IsImage (back_to moment (memory_history self.now))
            (λ file. content_of file (memory_history site))) }
        ensures kept { IfOk result (λ site. (file : ℕ)
            → IsKept (changes_of file (memory_history site))) }
        ensures tape { IfOk result (λ site. tape (memory_history site)
            ≡ tape (back_to moment (memory_history self.now))) }
        ensures disk_faults { IfOk result (λ site. memory_disk_faults site ≡ 0) }
        ensures say_faults { IfOk result (λ site. memory_say_faults site ≡ 0) }
        ensures bytes { IfOk result (λ site. bytes_left site ≡ bytes_at_first self.now) }
        ensures calls { IfOk result (λ site. calls_left site ≡ calls_at_first self.now) }
        ensures no_calls { IfOk result (λ site. (kind : Kind) → calls_of kind site ≡ 0) }
    {
        let end = cut(&self.record.kept, moment);
        let kept = image_of(alloc, &self.record.kept[..end], pick)?;
        Ok(MemorySite {
            record: Record::behind(kept, self.bytes, self.calls)?,
            bytes: self.bytes,
            calls: self.calls,
            plan: Plan::new(Vec::new(alloc)),
            disk_faults: 0,
            say_faults: 0,
        })
    }

    /// What was kept of each call, the oldest first.
    pub fn record(&self) -> &[Kept]
        ensures { history_of result.now ≡ memory_history self.now }
    {
        &self.record.kept
    }

    pub fn disk_faults(&self) -> u64
        ensures { result ≡ memory_disk_faults self.now }
    {
        self.disk_faults
    }

    pub fn say_faults(&self) -> u64
        ensures { result ≡ memory_say_faults self.now }
    {
        self.say_faults
    }

    /// How many calls of this kind there were, up to the last `u64`.
    pub fn calls(&self, kind: Kind) -> u64
        ensures { result ≡ calls_of kind self.now }
    {
        self.plan.calls(kind)
    }

    // Syncs a file, unless this call is listed or there is no room.
    fn sync_one(&mut self, file: u32) -> Result<(), Failed>
        ensures done { Syncs file (memory_history self.old) (memory_history self.new) result }
        ensures cause { HasCause (memory_disk_faults self.old) (memory_disk_faults self.new) result }
        ensures say_faults { memory_say_faults self.new ≡ memory_say_faults self.old }
    {
        if self.plan.call(Kind::Sync) {
            self.disk_faults = raised(self.disk_faults);
            return Err(Failed);
        }
        match self.record.sync(file) {
            Ok(()) => Ok(()),
            Err(failed) => {
                self.disk_faults = raised(self.disk_faults);
                Err(failed)
            }
        }
    }
}

impl Site for MemorySite {
    ghost tells = { λ _. Unit {0} };

    ghost history = { memory_history };

    ghost disk_faults = { memory_disk_faults };

    ghost say_faults = { memory_say_faults };

    ghost inside = { λ site file told. site.record.inside file };

    fn moment(&self) -> u64 {
        count_steps(&self.record.kept)
    }

    fn length(&mut self, file: u32) -> Result<u64, Failed> {
        if self.plan.call(Kind::Length) {
            self.disk_faults = raised(self.disk_faults);
            return Err(Failed);
        }
        Ok(replay(&self.record.kept, file, 0, &mut []))
    }

    fn read(&mut self, file: u32, at: u64, out: &mut [u8]) -> Result<usize, Failed> {
        if self.plan.call(Kind::Read) {
            self.disk_faults = raised(self.disk_faults);
            return Err(Failed);
        }
        let length = replay(&self.record.kept, file, at, out);
        Ok(length.saturating_sub(at).min(out.len() as u64) as usize)
    }

    fn write(&mut self, file: u32, at: u64, bytes: &[u8]) -> Result<(), Failed> {
        let listed = self.plan.call(Kind::Write);
        let kept = self.record.write(file, at, bytes);
        if listed {
            self.disk_faults = raised(self.disk_faults);
            return Err(Failed);
        }
        match kept {
            Ok(()) => Ok(()),
            Err(failed) => {
                self.disk_faults = raised(self.disk_faults);
                Err(failed)
            }
        }
    }

    fn sync(&mut self, file: u32) -> Result<(), Failed> {
        self.sync_one(file)
    }

    fn sync_files(&mut self, files: &[u32]) -> Result<(), Failed> {
        for file in files {
            match self.sync_one(*file) {
                Ok(()) => {}
                Err(failed) => return Err(failed),
            }
        }
        Ok(())
    }

    fn say(&mut self, line: &[u8]) -> Result<(), Failed> {
        if self.plan.call(Kind::Say) {
            self.say_faults = raised(self.say_faults);
            let _ = self.record.say(&line[..line.len() / 2]);
            return Err(Failed);
        }
        match self.record.say(line) {
            Ok(()) => Ok(()),
            Err(failed) => {
                self.say_faults = raised(self.say_faults);
                Err(failed)
            }
        }
    }
}
