// A site over calls of the system.
ghost use Rattle.std.specs.Prelude.{◌≡◌, ◌≤◌, true, ℕ};
ghost use Rattle.std.proofs.Props.{props};
ghost use Rattle.site_model.specs.History.{changes_of, writes_inside};
ghost use Rattle.site_calls.specs.Events.{replay, Tells};
ghost use Rattle.site_calls.specs.Failures.{disk_failures, say_failures};
ghost use Rattle.site_calls.specs.Known.{Knows};

use crate::fault::{Fault, FaultPlace, noted, placed};
use crate::known::Known;
use crate::printing::print_line;
use crate::reading::{length_of, read_file};
use crate::syncing::sync_file;
use crate::syncing_files::sync_files;
use crate::writing::write_file;
use crate::{Calls, Start};
use site_model::{Failed, Site};
use std::marker::PhantomData;

/// Numbered files and a tape by calls of the system. `S` says what no answer tells, and no code depends on it.
///
/// A call that is cut short or cut off by a signal goes on. After a sync that failed each later one of a file that is
/// there fails.
#[derive(Drop)]
pub struct CalledSite<C: Calls, S: Start> {
    calls: C,
    known: Known,
    disk_faults: u64,
    say_faults: u64,
    fault: Option<Fault>,
    start: PhantomData<S>,
    ghost knows: { Knows known (replay S.unseen (C.events calls)) } by { Prim.hlevel props },
    ghost inside: { Tells S.unseen (C.events calls) → (file : ℕ)
        → writes_inside (changes_of file (replay S.unseen (C.events calls)).steps) ≡ true } by { Prim.hlevel props },
    // each fault has a call of its own that failed
    pub ghost disk_calls: { disk_faults ≤ disk_failures (C.events calls) } by { Prim.hlevel props },
    pub ghost say_calls: { say_faults ≤ say_failures (C.events calls) } by { Prim.hlevel props },
}

impl<C: Calls, S: Start> CalledSite<C, S> {
    ghost use Rattle.std.specs.Prelude.{[], None};
    ghost use Rattle.site_calls.specs.Site.{calls_of, disk_faults_of, say_faults_of, fault_of};

    /// A site over calls of which none was made yet.
    pub fn new(calls: C, _start: S) -> CalledSite<C, S>
        requires { C.events calls ≡ [] }
        ensures calls { calls_of result ≡ calls }
        ensures disk_faults { disk_faults_of result ≡ 0 }
        ensures say_faults { say_faults_of result ≡ 0 }
        ensures fault { fault_of result ≡ None }
    {
        CalledSite {
            calls,
            known: Known::at_start(),
            disk_faults: 0,
            say_faults: 0,
            fault: None,
            start: PhantomData,
        }
    }

    pub fn calls(&self) -> &C
        ensures { result.now ≡ calls_of self.now }
    {
        &self.calls
    }

    pub fn disk_faults(&self) -> u64
        ensures { result ≡ disk_faults_of self.now }
    {
        self.disk_faults
    }

    pub fn say_faults(&self) -> u64
        ensures { result ≡ say_faults_of self.now }
    {
        self.say_faults
    }

    /// What failed last, for people.
    pub fn fault(&self) -> Option<Fault>
        ensures { result ≡ fault_of self.now }
    {
        self.fault
    }
}

impl<C: Calls, S: Start> Site for CalledSite<C, S> {
    ghost use Rattle.site_calls.specs.Site.{calls_of, disk_faults_of, say_faults_of};

    ghost tells = { λ site. Tells S.unseen (C.events (calls_of site)) };

    ghost history = { λ site. (replay S.unseen (C.events (calls_of site))).steps };

    ghost disk_faults = { disk_faults_of };

    ghost say_faults = { say_faults_of };

    ghost inside = { λ site file tells. site.inside tells file };

    fn moment(&self) -> u64 {
        self.known.moment
    }

    fn length(&mut self, file: u32) -> Result<u64, Failed> {
        let outcome = length_of(&mut self.calls, file);
        let outcome = placed(FaultPlace::File(file), outcome);
        noted(outcome, &mut self.disk_faults, &mut self.fault)
    }

    fn read(&mut self, file: u32, at: u64, out: &mut [u8]) -> Result<usize, Failed> {
        let outcome = read_file(&mut self.calls, file, at, out);
        let outcome = placed(FaultPlace::File(file), outcome);
        noted(outcome, &mut self.disk_faults, &mut self.fault)
    }

    fn write(&mut self, file: u32, at: u64, bytes: &[u8]) -> Result<(), Failed> {
        let outcome = write_file(&mut self.calls, &mut self.known, file, at, bytes);
        let outcome = placed(FaultPlace::File(file), outcome);
        noted(outcome, &mut self.disk_faults, &mut self.fault)
    }

    fn sync(&mut self, file: u32) -> Result<(), Failed> {
        let outcome = sync_file(&mut self.calls, &mut self.known, file);
        noted(outcome, &mut self.disk_faults, &mut self.fault)
    }

    fn sync_files(&mut self, files: &[u32]) -> Result<(), Failed> {
        let outcome = sync_files(&mut self.calls, &mut self.known, files);
        noted(outcome, &mut self.disk_faults, &mut self.fault)
    }

    fn say(&mut self, line: &[u8]) -> Result<(), Failed> {
        let outcome = print_line(&mut self.calls, &mut self.known, line);
        let outcome = placed(FaultPlace::Output, outcome);
        noted(outcome, &mut self.say_faults, &mut self.fault)
    }
}
