//! What is kept of logs that ended.

ghost use Rattle.std.specs.Prelude.{◌≡◌, true, IfOk, length};
ghost use Rattle.recover_core.specs.Ended.{has_ended, EndsBelow, IsFirstLeft, IsEndOf, AreEndsOf};

use crate::course::{Comes, Course};
use commit_gate::Past;
use commit_log::Resting;
use std::alloc::{AllocError, Global};

/// What is kept of a partition's log, all of whose entries were placed.
#[derive(Drop)]
pub struct Life {
    /// The log at rest, or none where there is none yet.
    pub log: Option<Resting>,
    /// The incarnation that begins now: one more than that of the last entry, 0 where there is none.
    pub incarnation: u64,
    /// The incarnation of each entry.
    pub past: Past,
}

/// Whether a log has nothing left.
fn has_ended(comes: &Comes) -> bool
    ensures { result ≡ has_ended comes.now }
{
    match comes {
        Comes::End(_) => true,
        Comes::More(_) | Comes::Waits(_, _) | Comes::Refused(_, _) => false,
    }
}

/// The first partition whose log has something left.
pub(crate) fn first_left(courses: &[Course]) -> Option<usize>
    ensures { IsFirstLeft courses.now result }
{
    'places: for place in 0..courses.len() {
        if !has_ended(&courses[place].comes) {
            return Some(place);
        }
    }
    None
}

/// What is kept of a log that ended.
fn end_of(course: Course) -> Life
    requires { has_ended course.comes ≡ true }
    ensures { IsEndOf course result }
{
    let Course {
        log: _,
        comes,
        past,
        incarnation,
    } = course;
    match comes {
        Comes::End(log) => Life {
            log,
            incarnation,
            past,
        },
        Comes::More(_) | Comes::Waits(_, _) | Comes::Refused(_, _) => unreachable!(),
    }
}

/// What is kept of all logs, which ended.
pub(crate) fn ends_of(alloc: Global, courses: Vec<Course>) -> Result<Vec<Life>, AllocError>
    requires { EndsBelow (length courses.items) courses.items }
    ensures { IfOk result (λ lives. AreEndsOf courses.items lives.items) }
{
    let mut lives = Vec::new(alloc);
    'courses: for course in courses {
        if lives.push(end_of(course)).is_err() {
            return Err(AllocError);
        }
    }
    Ok(lives)
}
