//! The logs of all partitions are placed, in rounds: in each every partition goes on as far as it can.

ghost use Rattle.std.specs.Prelude.{◌≡◌, ◌≤◌, ◌<◌, ℕ, Option, Err, OnOk, IfOk, length, slice_index_or, slice_set};
ghost use Rattle.site_model.specs.Calls.{HasRisen};
ghost use Rattle.commit_log.specs.declared.reader.OpenedLog.{OpenedLog as Opened};
ghost use Rattle.part_steps.specs.States.{parts_in};
ghost use Rattle.recover_core.specs.Rounds.{error_in, AreReady, AllRead, AllWhole, ArePlaced, HavePlaced, HasLess, Turns, GoesRound, PlacesAll};

use crate::course::Course;
use crate::error::RecoverError;
use crate::trying::go_on;
use commit_log::FrameError;
use part_rows::Reactions;
use part_steps::PartState;
use site_model::Site;
use std::alloc::Global;
use std::mem;

/// Another course is put in, and the one that was there given.
fn swap(courses: &mut Vec<Course>, place: usize, course: Course) -> Course
    requires { place < length courses.old.items }
    ensures was { result ≡ slice_index_or courses.old.items place result }
    ensures now { courses.new.items ≡ slice_set courses.old.items place course }
{
    mem::replace(&mut courses[place], course)
}

/// Why a log can't be read, by its file.
fn unread(file: u32, error: FrameError) -> RecoverError
    ensures { result ≡ error_in file error }
{
    match error {
        FrameError::Damaged { offset } => RecoverError::Damaged { file, offset },
        FrameError::SiteFault => RecoverError::SiteFault,
        FrameError::Memory => RecoverError::Memory,
    }
}

/// A partition goes on as far as it can, and whether it did.
fn turn<V: Site, R: Reactions>(
    alloc: Global,
    site: &mut V,
    reactions: &R,
    states: &mut Vec<PartState>,
    courses: &mut Vec<Course>,
    place: usize,
) -> Result<bool, RecoverError>
    requires ready { AreReady states.old.items courses.old.items }
    requires few { length states.old.items ≤ 32 }
    requires place { place < length states.old.items }
    ensures tells { V.tells site.new → V.tells site.old }
    ensures ready { OnOk result (AreReady states.new.items courses.new.items) }
    ensures many { OnOk result (length states.new.items ≡ length states.old.items) }
    ensures less { IfOk result (HasLess courses.old.items courses.new.items) }
    ensures reads { V.tells site.new → (logs : ℕ → Option Opened)
        → AllRead (V.history site.old) logs courses.old.items
        → OnOk result (AllRead (V.history site.old) logs courses.new.items) }
    ensures keeps { HavePlaced (R.flows reactions.now) (length states.old.items)
        (V.tells site.old) (V.history site.old) (parts_in states.old.items) courses.old.items
        → OnOk result (HavePlaced (R.flows reactions.now) (length states.old.items)
        (V.tells site.new) (V.history site.old) (parts_in states.new.items)
        courses.new.items) }
    ensures turns { V.tells site.new → (logs : ℕ → Option Opened)
        → AllRead (V.history site.old) logs courses.old.items
        → AllWhole (V.history site.old) logs
        → ArePlaced (R.flows reactions.now) (length states.old.items) (V.history site.old)
        (parts_in states.old.items) courses.old.items
        → Turns (R.flows reactions.now) (length states.old.items) (V.history site.old) place
        (parts_in states.old.items) (parts_in states.new.items) courses.old.items
        courses.new.items result }
    ensures unchanged { V.history site.new ≡ V.history site.old }
    ensures fault { result ≡ Err RecoverError.SiteFault
        → HasRisen (V.disk_faults site.old) (V.disk_faults site.new) }
    ensures later { V.disk_faults site.old ≤ V.disk_faults site.new }
    ensures say_faults { V.say_faults site.new ≡ V.say_faults site.old }
{
    let course = swap(courses, place, Course::begin(alloc, None));
    let file = match course.log {
        Some(log) => log.file,
        None => 0,
    };
    let (next, moved) = match go_on(alloc, site, reactions, states, place, course) {
        Ok(gone) => gone,
        Err(error) => return Err(unread(file, error)),
    };
    swap(courses, place, next).let_go();
    Ok(moved)
}

/// Every partition goes on as far as it can, one after the other, and whether any did.
fn round<V: Site, R: Reactions>(
    alloc: Global,
    site: &mut V,
    reactions: &R,
    states: &mut Vec<PartState>,
    courses: &mut Vec<Course>,
) -> Result<bool, RecoverError>
    requires ready { AreReady states.old.items courses.old.items }
    requires few { length states.old.items ≤ 32 }
    ensures tells { V.tells site.new → V.tells site.old }
    ensures ready { OnOk result (AreReady states.new.items courses.new.items) }
    ensures many { OnOk result (length states.new.items ≡ length states.old.items) }
    ensures less { IfOk result (HasLess courses.old.items courses.new.items) }
    ensures reads { V.tells site.new → (logs : ℕ → Option Opened)
        → AllRead (V.history site.old) logs courses.old.items
        → OnOk result (AllRead (V.history site.old) logs courses.new.items) }
    ensures keeps { HavePlaced (R.flows reactions.now) (length states.old.items)
        (V.tells site.old) (V.history site.old) (parts_in states.old.items) courses.old.items
        → OnOk result (HavePlaced (R.flows reactions.now) (length states.old.items)
        (V.tells site.new) (V.history site.old) (parts_in states.new.items)
        courses.new.items) }
    ensures rounds { V.tells site.new → (logs : ℕ → Option Opened)
        → AllRead (V.history site.old) logs courses.old.items
        → AllWhole (V.history site.old) logs
        → ArePlaced (R.flows reactions.now) (length states.old.items) (V.history site.old)
        (parts_in states.old.items) courses.old.items
        → GoesRound (R.flows reactions.now) (length states.old.items) (V.history site.old)
        (parts_in states.new.items) courses.new.items result }
    ensures unchanged { V.history site.new ≡ V.history site.old }
    ensures fault { result ≡ Err RecoverError.SiteFault
        → HasRisen (V.disk_faults site.old) (V.disk_faults site.new) }
    ensures later { V.disk_faults site.old ≤ V.disk_faults site.new }
    ensures say_faults { V.say_faults site.new ≡ V.say_faults site.old }
{
    let mut moved = false;
    'places: for place in 0..courses.len() {
        let gone = match turn(alloc, site, reactions, states, courses, place) {
            Ok(gone) => gone,
            Err(error) => return Err(error),
        };
        moved = moved | gone;
    }
    Ok(moved)
}

/// Round after round, until no partition can go on.
pub(crate) fn place_all<V: Site, R: Reactions>(
    alloc: Global,
    site: &mut V,
    reactions: &R,
    states: &mut Vec<PartState>,
    courses: &mut Vec<Course>,
) -> Result<(), RecoverError>
    requires ready { AreReady states.old.items courses.old.items }
    requires few { length states.old.items ≤ 32 }
    ensures tells { V.tells site.new → V.tells site.old }
    ensures ready { OnOk result (AreReady states.new.items courses.new.items) }
    ensures many { OnOk result (length states.new.items ≡ length states.old.items) }
    ensures reads { V.tells site.new → (logs : ℕ → Option Opened)
        → AllRead (V.history site.old) logs courses.old.items
        → OnOk result (AllRead (V.history site.old) logs courses.new.items) }
    ensures keeps { HavePlaced (R.flows reactions.now) (length states.old.items)
        (V.tells site.old) (V.history site.old) (parts_in states.old.items) courses.old.items
        → OnOk result (HavePlaced (R.flows reactions.now) (length states.old.items)
        (V.tells site.new) (V.history site.old) (parts_in states.new.items)
        courses.new.items) }
    ensures placed { V.tells site.new → (logs : ℕ → Option Opened)
        → AllRead (V.history site.old) logs courses.old.items
        → AllWhole (V.history site.old) logs
        → ArePlaced (R.flows reactions.now) (length states.old.items) (V.history site.old)
        (parts_in states.old.items) courses.old.items
        → PlacesAll (R.flows reactions.now) (length states.old.items) (V.history site.old)
        (parts_in states.new.items) courses.new.items result }
    ensures unchanged { V.history site.new ≡ V.history site.old }
    ensures fault { result ≡ Err RecoverError.SiteFault
        → HasRisen (V.disk_faults site.old) (V.disk_faults site.new) }
    ensures later { V.disk_faults site.old ≤ V.disk_faults site.new }
    ensures say_faults { V.say_faults site.new ≡ V.say_faults site.old }
{
    'rounds: loop {
        let moved = match round(alloc, site, reactions, states, courses) {
            Ok(moved) => moved,
            Err(error) => return Err(error),
        };
        if !moved {
            return Ok(());
        }
    }
}
