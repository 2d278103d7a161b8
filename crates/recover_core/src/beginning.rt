//! What recovery begins with: states in which nothing happened, and logs of which nothing was placed.

ghost use Rattle.std.specs.Prelude.{◌≡◌, ◌≤◌, ◌<◌, [], List, Ok, None, IfOk, IfSome, length};
ghost use Rattle.site_model.specs.History.{Step};
ghost use Rattle.dura_model.specs.Partition.{fresh};
ghost use Rattle.log_files.specs.Checked.{AreOpen, AllOpen, FitAll};
ghost use Rattle.log_files.specs.Fitting.{plain, FitsFiles};
ghost use Rattle.part_steps.specs.States.{AreStatesOfAll, parts_in};
ghost use Rattle.recover_core.specs.Begun.{IsBegun, AllBegun, AllFromFresh, AllUnplaced};
ghost use Rattle.recover_core.specs.Courses.{FitsCourse, HasCome};

use crate::course::Course;
use log_files::{Asked, LogFiles, choose};
use part_steps::PartState;
use std::alloc::{AllocError, Global};

/// The states of so many partitions in which nothing happened.
pub(crate) fn fresh_states(alloc: Global, count: u32) -> Result<Vec<PartState>, AllocError>
    requires { 0 < count }
    ensures all { IfOk result (λ states. AreStatesOfAll states.items) }
    ensures many { IfOk result (λ states. length states.items ≡ count) }
    ensures fresh { IfOk result (λ states. parts_in states.items ≡ fresh) }
{
    let mut states = Vec::new(alloc);
    'partitions: for partition in 0..count {
        if states
            .push(PartState::new(alloc, count, partition))
            .is_err()
        {
            return Err(AllocError);
        }
    }
    Ok(states)
}

/// The log that a partition has by the fronts of its files, of which nothing was placed; or none where these are refused.
fn begin_course(alloc: Global, asked: Asked, both: LogFiles) -> Option<Course>
    ensures begun { (steps : List Step) → AreOpen steps asked.partition both
        → IfSome result (IsBegun (plain asked) steps) }
    ensures fits { IfSome result (FitsCourse (fresh asked.partition)) }
    ensures none { IfSome result (HasCome []) }
    ensures refused { result ≡ None → FitsFiles (plain asked) both → ⊥ }
{
    match choose(asked, both) {
        Ok(log) => Some(Course::begin(alloc, log)),
        Err(_) => None,
    }
}

/// The logs that all partitions have by the fronts of their files, of which nothing was placed; or none where some are refused.
pub(crate) fn begin_courses(
    alloc: Global,
    digest: u64,
    fronts: &[LogFiles],
) -> Result<Option<Vec<Course>>, AllocError>
    requires { length fronts.now ≤ 32 }
    ensures many { IfOk result (λ found. IfSome found
        (λ courses. length courses.items ≡ length fronts.now)) }
    ensures begun { (steps : List Step) → AllOpen steps fronts.now
        → IfOk result (λ found. IfSome found
        (λ courses. AllBegun (length fronts.now) digest steps courses.items)) }
    ensures fits { IfOk result (λ found. IfSome found (λ courses. AllFromFresh courses.items)) }
    ensures none { IfOk result (λ found. IfSome found (λ courses. AllUnplaced courses.items)) }
    ensures refused { result ≡ Ok None → FitAll (length fronts.now) digest fronts.now → ⊥ }
{
    let mut courses = Vec::new(alloc);
    'partitions: for place in 0..fronts.len() {
        let asked = Asked {
            partition: place as u32,
            count: fronts.len() as u32,
            digest,
        };
        let Some(course) = begin_course(alloc, asked, fronts[place]) else {
            return Ok(None);
        };
        if courses.push(course).is_err() {
            return Err(AllocError);
        }
    }
    Ok(Some(courses))
}
