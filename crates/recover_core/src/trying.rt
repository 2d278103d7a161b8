//! The next entries of a partition are placed on its state, as long as each is accepted.

ghost use Rattle.std.specs.Prelude.{◌≡◌, ◌≤◌, ◌<◌, ◌+◌, ◌++◌, ◌∷◌, [], List, Err, IfOk, OnErr, length, slice_index_or, slice_set};
ghost use Rattle.dura_value.specs.Limits.{number_limit};
ghost use Rattle.site_model.specs.Calls.{HasRisen};
ghost use Rattle.dura_value.specs.Items.{Entry as PlainEntry};
ghost use Rattle.log_files.specs.Entries.{IsOpenedLog};
ghost use Rattle.log_items.specs.Plain.{entry_of};
ghost use Rattle.part_steps.specs.States.{AreStatesOfAll, parts_in};
ghost use Rattle.recover_core.specs.Courses.{IsCourse, ReadsFurther, IsWhole, IsChain, IsStill, IsRead, FitsCourse, StandsNext, PlacesAt, SaysRefused, GoesFitting, GoesUnrefused, Tries, GoesOn};
ghost use Rattle.recover_core.specs.Restored.{IsFront};

use crate::course::{Comes, Course};
use crate::placing::place_on;
use crate::ready::are_items_ready;
use crate::restoring::restore;
use commit_gate::Past;
use commit_log::{FrameError, OpenedLog};
use log_files::EntryReader;
use log_items::Entry;
use part_rows::Reactions;
use part_steps::PartState;
use site_model::Site;
use std::alloc::Global;
use std::mem;

/// Another state of a partition is put in, and the one that was there given.
fn swap(states: &mut Vec<PartState>, place: usize, state: PartState) -> PartState
    requires { place < length states.old.items }
    ensures was { result ≡ slice_index_or states.old.items place result }
    ensures now { states.new.items ≡ slice_set states.old.items place state }
{
    mem::replace(&mut states[place], state)
}

/// An entry is placed on the state of its partition, if it is accepted there. Else it spoiled the state, which is made again.
fn place_at<V: Site, R: Reactions>(
    alloc: Global,
    site: &mut V,
    reactions: &R,
    states: &mut Vec<PartState>,
    place: usize,
    log: OpenedLog,
    entry: &Entry,
) -> Result<bool, FrameError>
    requires all { AreStatesOfAll states.old.items }
    requires few { length states.old.items ≤ 32 }
    requires place { place < length states.old.items }
    requires base { log.header.base ≡ 0 }
    requires fits { StandsNext (parts_in states.old.items place) entry.now }
    ensures tells { V.tells site.new → V.tells site.old }
    ensures states { IfOk result
        (PlacesAt (R.flows reactions.now) place (entry_of entry.now) states.old.items
        states.new.items) }
    ensures refused { V.tells site.new → (done : List PlainEntry)
        → IsOpenedLog (V.history site.old) log
        → IsFront (R.flows reactions.now) (V.history site.old) log (length states.old.items) place
        entry.now.position done (parts_in states.old.items place)
        → SaysRefused (R.flows reactions.now) (V.history site.old) log place (entry_of entry.now)
        states.old.items states.new.items result }
    ensures unchanged { V.history site.new ≡ V.history site.old }
    ensures fault { result ≡ Err FrameError.SiteFault
        → HasRisen (V.disk_faults site.old) (V.disk_faults site.new) }
    ensures later { V.disk_faults site.old ≤ V.disk_faults site.new }
    ensures say_faults { V.say_faults site.new ≡ V.say_faults site.old }
{
    let count = states.len() as u32;
    let partition = place as u32;
    let state = swap(states, place, PartState::new(alloc, count, partition));
    match place_on(alloc, reactions, state, entry) {
        Ok(Some(made)) => {
            swap(states, place, made).let_go();
            Ok(true)
        }
        Ok(None) => match restore(
            alloc,
            site,
            reactions,
            log,
            count,
            partition,
            entry.position,
        ) {
            Ok(again) => {
                swap(states, place, again).let_go();
                Ok(false)
            }
            Err(error) => Err(error),
        },
        Err(_) => Err(FrameError::Memory),
    }
}

/// A partition that doesn't go on now.
fn halted(log: Option<OpenedLog>, comes: Comes, past: Past, incarnation: u64) -> Course
    ensures { result ≡ record { log = log; comes = comes; past = past; incarnation = incarnation } }
{
    Course {
        log,
        comes,
        past,
        incarnation,
    }
}

/// A partition whose next entry was placed, which is let go of.
fn taken(
    log: Option<OpenedLog>,
    entry: Entry,
    behind: EntryReader,
    past: Past,
) -> Result<Course, FrameError>
    requires { entry.incarnation < number_limit }
    ensures taken { IfOk result (λ course. course ≡ record {
      log = log;
      comes = Comes.More behind;
      past = past ++ entry.incarnation ∷ [];
      incarnation = entry.incarnation + 1;
    }) }
    ensures want { OnErr result (result ≡ Err FrameError.Memory) }
{
    let incarnation = entry.incarnation;
    entry.let_go();
    let mut past = past;
    if past.push(incarnation).is_err() {
        return Err(FrameError::Memory);
    }
    Ok(Course {
        log,
        comes: Comes::More(behind),
        past,
        incarnation: incarnation + 1,
    })
}

/// The next entry of a partition is placed, if the other partitions are as far as it needs and its own accepts it.
fn try_next<V: Site, R: Reactions>(
    alloc: Global,
    site: &mut V,
    reactions: &R,
    states: &mut Vec<PartState>,
    place: usize,
    course: Course,
) -> Result<(Course, bool), FrameError>
    requires all { AreStatesOfAll states.old.items }
    requires few { length states.old.items ≤ 32 }
    requires place { place < length states.old.items }
    requires fits { FitsCourse (parts_in states.old.items place) course }
    requires read { IsRead course.comes }
    ensures tells { V.tells site.new → V.tells site.old }
    ensures fits { IfOk result (λ end.
        GoesFitting place states.old.items states.new.items course end.0 end.1) }
    ensures unrefused { IfOk result (λ end.
        GoesUnrefused (R.flows reactions.now) place (V.tells site.new) (V.history site.old)
        states.old.items states.new.items course end.0) }
    // Whatever the logs of the others are: what was placed are entries of this log.
    ensures reads { V.tells site.new → (done : List PlainEntry)
        → IsCourse (V.history site.old) done course
        → IfOk result (λ end. ReadsFurther (V.history site.old) done end.0) }
    ensures tries { V.tells site.new → (done : List PlainEntry)
        → IsCourse (V.history site.old) done course
        → IsWhole (V.history site.old) course.log
        → IsChain (R.flows reactions.now) (length states.old.items) place done
        (parts_in states.old.items)
        → IsStill (R.flows reactions.now) (length states.old.items)
        (parts_in states.old.items place) course.comes
        → Tries (R.flows reactions.now) (length states.old.items) (V.history site.old) place done
        course.log (parts_in states.old.items) (parts_in states.new.items) result }
    ensures unchanged { V.history site.new ≡ V.history site.old }
    ensures fault { result ≡ Err FrameError.SiteFault
        → HasRisen (V.disk_faults site.old) (V.disk_faults site.new) }
    ensures later { V.disk_faults site.old ≤ V.disk_faults site.new }
    ensures say_faults { V.say_faults site.new ≡ V.say_faults site.old }
{
    let Course {
        log,
        comes,
        past,
        incarnation: next,
    } = course;
    let (entry, behind) = match comes {
        Comes::Waits(entry, behind) => (entry, behind),
        Comes::More(reader) => return Ok((halted(log, Comes::More(reader), past, next), false)),
        Comes::Refused(entry, behind) => {
            return Ok((
                halted(log, Comes::Refused(entry, behind), past, next),
                false,
            ));
        }
        Comes::End(end) => return Ok((halted(log, Comes::End(end), past, next), false)),
    };
    let Some(opened) = log else {
        return Ok((halted(log, Comes::Waits(entry, behind), past, next), false));
    };
    if !are_items_ready(states, place as u32, entry.items.as_slice()) {
        return Ok((halted(log, Comes::Waits(entry, behind), past, next), false));
    }
    let placed = match place_at(alloc, site, reactions, states, place, opened, &entry) {
        Ok(placed) => placed,
        Err(error) => return Err(error),
    };
    if !placed {
        return Ok((
            halted(log, Comes::Refused(entry, behind), past, next),
            false,
        ));
    }
    Ok((taken(log, entry, behind, past)?, true))
}

/// A partition goes on as far as it can, beside others that stay: whether it did, and how far it came.
pub(crate) fn go_on<V: Site, R: Reactions>(
    alloc: Global,
    site: &mut V,
    reactions: &R,
    states: &mut Vec<PartState>,
    place: usize,
    course: Course,
) -> Result<(Course, bool), FrameError>
    requires all { AreStatesOfAll states.old.items }
    requires few { length states.old.items ≤ 32 }
    requires place { place < length states.old.items }
    requires fits { FitsCourse (parts_in states.old.items place) course }
    ensures tells { V.tells site.new → V.tells site.old }
    ensures fits { IfOk result (λ end.
        GoesFitting place states.old.items states.new.items course end.0 end.1) }
    ensures unrefused { IfOk result (λ end.
        GoesUnrefused (R.flows reactions.now) place (V.tells site.new) (V.history site.old)
        states.old.items states.new.items course end.0) }
    // Whatever the logs of the others are: what was placed are entries of this log.
    ensures reads { V.tells site.new → (done : List PlainEntry)
        → IsCourse (V.history site.old) done course
        → IfOk result (λ end. ReadsFurther (V.history site.old) done end.0) }
    ensures goes { V.tells site.new → (done : List PlainEntry)
        → IsCourse (V.history site.old) done course
        → IsWhole (V.history site.old) course.log
        → IsChain (R.flows reactions.now) (length states.old.items) place done
        (parts_in states.old.items)
        → IsStill (R.flows reactions.now) (length states.old.items)
        (parts_in states.old.items place) course.comes
        → GoesOn (R.flows reactions.now) (length states.old.items) (V.history site.old) place done
        course.log (parts_in states.old.items) (parts_in states.new.items) result }
    ensures unchanged { V.history site.new ≡ V.history site.old }
    ensures fault { result ≡ Err FrameError.SiteFault
        → HasRisen (V.disk_faults site.old) (V.disk_faults site.new) }
    ensures later { V.disk_faults site.old ≤ V.disk_faults site.new }
    ensures say_faults { V.say_faults site.new ≡ V.say_faults site.old }
{
    let mut course = course;
    let mut moved = false;
    'entries: loop {
        let read = match course.read_on(alloc, site) {
            Ok(read) => read,
            Err(error) => return Err(error),
        };
        let (next, placed) = match try_next(alloc, site, reactions, states, place, read) {
            Ok(tried) => tried,
            Err(error) => return Err(error),
        };
        if !placed {
            return Ok((next, moved));
        }
        course = next;
        moved = true;
    }
}
