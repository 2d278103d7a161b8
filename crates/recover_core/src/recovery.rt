//! What the log files of many partitions stand for.

ghost use Rattle.std.specs.Prelude.{◌≡◌, ◌⊎◌, ◌≤◌, ◌<◌, Err, OnOk, OnErr, IfOk, length};
ghost use Rattle.site_model.specs.History.{content_of};
ghost use Rattle.site_model.specs.Calls.{HasRisen};
ghost use Rattle.log_files.specs.Checked.{AllOpen, FitAll};
ghost use Rattle.log_files.specs.Fronts.{synced_to, AreSyncs};
ghost use Rattle.part_steps.specs.States.{AreStatesOfAll, parts_in};
ghost use Rattle.recover_core.specs.Begun.{AllBegun, AllFromFresh, AllUnplaced};
ghost use Rattle.recover_core.specs.Ended.{EndsBelow, AreEndsOf};
ghost use Rattle.recover_core.specs.Recovering.{Opens, CanGoOn, WerePlaced, AllRest};
ghost use Rattle.recover_core.specs.Told.{error_of, ChecksAll, RefusesAll, WhyBroken, TellsLeft, TellsWhy};

use crate::beginning::{begin_courses, fresh_states};
use crate::course::{Comes, Course};
use crate::ending::{Life, ends_of, first_left};
use crate::error::RecoverError;
use crate::reasons::why;
use crate::rounds::place_all;
use log_files::{FilesError, LogFiles, check_files, open_files};
use log_items::Entry;
use part_rows::Reactions;
use part_steps::PartState;
use site_model::Site;
use std::alloc::Global;

/// What was recovered: the states of all partitions, and what is kept of their logs, in the order of the partitions.
#[derive(Drop)]
pub struct Opened {
    /// The states that the logs' entries make.
    pub states: Vec<PartState>,
    /// What is kept of each partition's log.
    pub lives: Vec<Life>,
}

/// Why files are refused.
fn refusal_of(error: FilesError) -> RecoverError
    ensures { result ≡ error_of error }
{
    match error {
        FilesError::Damaged { file, offset } => RecoverError::Damaged { file, offset },
        FilesError::OtherShape { found, asked } => RecoverError::OtherShape { found, asked },
        FilesError::OtherFlows { found, given } => RecoverError::OtherFlows { found, given },
        FilesError::SiteFault => RecoverError::SiteFault,
        FilesError::Memory => RecoverError::Memory,
    }
}

/// Reads all files to their ends, and names the first fault in them.
fn check<V: Site>(
    alloc: Global,
    site: &mut V,
    digest: u64,
    fronts: &[LogFiles],
) -> Result<(), RecoverError>
    requires { length fronts.now ≤ 32 }
    ensures tells { V.tells site.new → V.tells site.old }
    ensures says { V.tells site.new → AllOpen (V.history site.old) fronts.now
        → ChecksAll (length fronts.now) digest (λ file. content_of file (V.history site.old))
        result }
    ensures fits { OnOk result (FitAll (length fronts.now) digest fronts.now) }
    ensures unchanged { V.history site.new ≡ V.history site.old }
    ensures fault { result ≡ Err RecoverError.SiteFault
        → HasRisen (V.disk_faults site.old) (V.disk_faults site.new) }
    ensures later { V.disk_faults site.old ≤ V.disk_faults site.new }
    ensures say_faults { V.say_faults site.new ≡ V.say_faults site.old }
{
    match check_files(alloc, site, digest, fronts) {
        Ok(()) => Ok(()),
        Err(error) => Err(refusal_of(error)),
    }
}

/// Why files are refused whose fronts don't fit.
fn why_unfit<V: Site>(alloc: Global, site: &mut V, digest: u64, fronts: &[LogFiles]) -> RecoverError
    requires few { length fronts.now ≤ 32 }
    requires unfit { FitAll (length fronts.now) digest fronts.now → ⊥ }
    ensures tells { V.tells site.new → V.tells site.old }
    ensures says { V.tells site.new → AllOpen (V.history site.old) fronts.now
        → RefusesAll (length fronts.now) digest (λ file. content_of file (V.history site.old))
        result }
    ensures unchanged { V.history site.new ≡ V.history site.old }
    ensures fault { result ≡ RecoverError.SiteFault
        → HasRisen (V.disk_faults site.old) (V.disk_faults site.new) }
    ensures later { V.disk_faults site.old ≤ V.disk_faults site.new }
    ensures say_faults { V.say_faults site.new ≡ V.say_faults site.old }
{
    match check(alloc, site, digest, fronts) {
        Err(error) => error,
        Ok(()) => unreachable!(),
    }
}

/// Why nothing is recovered where a log couldn't be read for this.
fn why_broken<V: Site>(
    alloc: Global,
    site: &mut V,
    digest: u64,
    fronts: &[LogFiles],
    broken: RecoverError,
) -> RecoverError
    requires { length fronts.now ≤ 32 }
    ensures tells { V.tells site.new → V.tells site.old }
    ensures says { V.tells site.new → AllOpen (V.history site.old) fronts.now
        → WhyBroken (length fronts.now) digest (λ file. content_of file (V.history site.old))
        broken result }
    ensures unchanged { V.history site.new ≡ V.history site.old }
    ensures fault { result ≡ RecoverError.SiteFault → (broken ≡ RecoverError.SiteFault)
        ⊎ HasRisen (V.disk_faults site.old) (V.disk_faults site.new) }
    ensures later { V.disk_faults site.old ≤ V.disk_faults site.new }
    ensures say_faults { V.say_faults site.new ≡ V.say_faults site.old }
{
    match broken {
        RecoverError::SiteFault => return RecoverError::SiteFault,
        RecoverError::Memory => return RecoverError::Memory,
        _ => {}
    }
    match check(alloc, site, digest, fronts) {
        Err(error) => error,
        Ok(()) => broken,
    }
}

/// Why an entry of a partition isn't placed, unless memory runs out.
fn why_entry<R: Reactions>(
    alloc: Global,
    reactions: &R,
    states: &[PartState],
    place: usize,
    entry: &Entry,
) -> RecoverError
    requires all { AreStatesOfAll states.now }
    requires place { place < length states.now }
    requires few { length states.now ≤ 32 }
    ensures says { TellsWhy (R.flows reactions.now) (length states.now) (parts_in states.now) place
        entry.now result }
    ensures no_fault { result ≡ RecoverError.SiteFault → ⊥ }
{
    match why(alloc, reactions, states, place, entry) {
        Ok(reason) => reason,
        Err(_) => RecoverError::Memory,
    }
}

/// Why the next entry of a partition isn't placed, unless memory runs out.
fn why_next<R: Reactions>(
    alloc: Global,
    reactions: &R,
    states: &[PartState],
    place: usize,
    comes: &Comes,
) -> RecoverError
    requires all { AreStatesOfAll states.now }
    requires place { place < length states.now }
    requires few { length states.now ≤ 32 }
    ensures says { TellsLeft (R.flows reactions.now) (length states.now) (parts_in states.now) place
        comes.now result }
    ensures no_fault { result ≡ RecoverError.SiteFault → ⊥ }
{
    match comes {
        Comes::Waits(entry, _) => why_entry(alloc, reactions, states, place, entry),
        Comes::Refused(entry, _) => why_entry(alloc, reactions, states, place, entry),
        // No log is like this that has something left: where none could be read on, its entry was read.
        Comes::More(_) | Comes::End(_) => RecoverError::Memory,
    }
}

/// What was recovered where all logs ended.
fn with_lives(
    alloc: Global,
    states: Vec<PartState>,
    courses: Vec<Course>,
) -> Result<Opened, RecoverError>
    requires ended { EndsBelow (length courses.items) courses.items }
    ensures ends { IfOk result (λ opened. (opened.states.items ≡ states.items)
        × AreEndsOf courses.items opened.lives.items) }
    ensures want { OnErr result (result ≡ Err RecoverError.Memory) }
{
    match ends_of(alloc, courses) {
        Ok(lives) => Ok(Opened { states, lives }),
        Err(_) => Err(RecoverError::Memory),
    }
}

/// What the log files stand for whose fronts are these, and of whose logs nothing was placed.
fn recover_from<V: Site, R: Reactions>(
    alloc: Global,
    site: &mut V,
    reactions: &R,
    digest: u64,
    fronts: &[LogFiles],
    courses: Vec<Course>,
) -> Result<Opened, RecoverError>
    requires some { 0 < length fronts.now }
    requires few { length fronts.now ≤ 32 }
    requires many { length courses.items ≡ length fronts.now }
    requires fits { AllFromFresh courses.items }
    ensures tells { V.tells site.new → V.tells site.old }
    ensures opens { V.tells site.new → AllOpen (V.history site.old) fronts.now
        → AllBegun (length fronts.now) digest (V.history site.old) courses.items
        → Opens (R.flows reactions.now) (length fronts.now) digest
        (λ file. content_of file (V.history site.old)) result }
    ensures begins { IfOk result (CanGoOn (length fronts.now)) }
    ensures placed { AllUnplaced courses.items
        → (V.tells site.old
        → AllBegun (length fronts.now) digest (V.history site.old) courses.items)
        → IfOk result (WerePlaced (R.flows reactions.now) (length fronts.now) digest
        (V.tells site.new) (λ file. content_of file (V.history site.old))) }
    ensures rests { V.tells site.new
        → AllBegun (length fronts.now) digest (V.history site.old) courses.items
        → IfOk result (λ opened. AllRest (V.history site.old) (length fronts.now) digest
        (λ file. content_of file (V.history site.old)) opened.lives.items) }
    ensures unchanged { V.history site.new ≡ V.history site.old }
    ensures fault { result ≡ Err RecoverError.SiteFault
        → HasRisen (V.disk_faults site.old) (V.disk_faults site.new) }
    ensures later { V.disk_faults site.old ≤ V.disk_faults site.new }
    ensures say_faults { V.say_faults site.new ≡ V.say_faults site.old }
{
    let mut courses = courses;
    let mut states = match fresh_states(alloc, fronts.len() as u32) {
        Ok(states) => states,
        Err(_) => return Err(RecoverError::Memory),
    };
    match place_all(alloc, site, reactions, &mut states, &mut courses) {
        Ok(()) => {}
        Err(error) => return Err(why_broken(alloc, site, digest, fronts, error)),
    }
    let Some(place) = first_left(&courses) else {
        return with_lives(alloc, states, courses);
    };
    match check(alloc, site, digest, fronts) {
        Ok(()) => Err(why_next(alloc, reactions, &states, place, &courses[place].comes)),
        Err(error) => Err(error),
    }
}

/// Opens the logs of so many partitions, and says what their files stand for. A file is synced before it is read, and nothing is
/// written. The files of partition 0 come first, then those of partition 1, and so on: of each the bytes are looked at first, then of how
/// many partitions and of which flows it is; then whether both can stand. Where no file is refused the entries are placed, and where one
/// can't be, the lowest partition that has one left is named.
pub fn recover<V: Site, R: Reactions>(
    alloc: Global,
    site: &mut V,
    reactions: &R,
    digest: u64,
    count: u32,
) -> Result<Opened, RecoverError>
    requires some { 0 < count }
    requires few { count ≤ 32 }
    ensures tells { V.tells site.new → V.tells site.old }
    ensures opens { V.tells site.new → Opens (R.flows reactions.now) count digest
        (λ file. content_of file (V.history site.old)) result }
    ensures begins { IfOk result (CanGoOn count) }
    ensures placed { IfOk result (WerePlaced (R.flows reactions.now) count digest
        (V.tells site.new) (λ file. content_of file (V.history site.old))) }
    ensures syncs { AreSyncs count (V.history site.old) (V.history site.new) }
    ensures synced { OnOk result (V.history site.new ≡ synced_to count (V.history site.old)) }
    ensures rests { V.tells site.new → IfOk result
        (λ opened. AllRest (V.history site.new) count digest
        (λ file. content_of file (V.history site.old)) opened.lives.items) }
    ensures fault { result ≡ Err RecoverError.SiteFault
        → HasRisen (V.disk_faults site.old) (V.disk_faults site.new) }
    ensures later { V.disk_faults site.old ≤ V.disk_faults site.new }
    ensures say_faults { V.say_faults site.new ≡ V.say_faults site.old }
{
    let fronts = match open_files(alloc, site, count) {
        Ok(fronts) => fronts,
        Err(error) => return Err(refusal_of(error)),
    };
    let courses = match begin_courses(alloc, digest, &fronts) {
        Ok(Some(courses)) => courses,
        Ok(None) => return Err(why_unfit(alloc, site, digest, &fronts)),
        Err(_) => return Err(RecoverError::Memory),
    };
    recover_from(alloc, site, reactions, digest, &fronts, courses)
}
