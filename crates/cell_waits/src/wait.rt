//! What waits, and what it is looked for by.

ghost use Rattle.std.specs.Prelude.{◌≡◌, Some, option_map};
ghost use Rattle.dura_value.specs.Views.{id_of, message_of};
ghost use Rattle.part_rows.specs.Views.{activity_of};
ghost use Rattle.spec_tracker.specs.Marks.{identity_of};
ghost use Rattle.cell_waits.specs.Waits.{wait_of, source_of, sender_of, target_of, asker_of, task_of, message_in, lasting, is_activity, is_outcome_of};

use dura_value::{Id, Message, Outcome};
use log_items::Item;
use part_rows::{Activity, number_in};
use spec_tracker::Dep;

/// An outcome of an activity.
#[derive(Drop)]
pub struct Ended {
    /// Whose activity it is.
    pub id: Id,
    /// The number of the task.
    pub task: u32,
    /// The activity.
    pub activity: Activity,
    /// What it came to.
    pub outcome: Outcome,
}

/// What waits at a cell.
#[derive(Drop)]
pub enum Wait {
    /// A request, a packet of a stream from another partition, or the trim of a stream to one.
    Outside(Item),
    /// An outcome.
    Ended(Ended),
}

/// The partition whose stream a packet is of.
pub(crate) fn source_of(wait: &Wait) -> Option<u32>
    ensures { result ≡ source_of (wait_of wait.now).item }
{
    match wait {
        Wait::Outside(Item::Got(source, _, _, _, _)) => Some(*source),
        _ => None,
    }
}

/// The entry that sent a packet.
pub(crate) fn sender_of(wait: &Wait) -> Option<Dep>
    ensures { option_map identity_of result ≡ sender_of (wait_of wait.now).item }
{
    match wait {
        Wait::Outside(Item::Got(src, inc, pos, seq, _)) => Some(Dep {
            src: *src,
            inc: *inc,
            pos: *pos,
            seq: *seq,
        }),
        _ => None,
    }
}

/// The partition whose stream is trimmed.
pub(crate) fn target_of(wait: &Wait) -> Option<u32>
    ensures { result ≡ target_of (wait_of wait.now).item }
{
    match wait {
        Wait::Outside(Item::Trim(target, _, _, _)) => Some(*target),
        _ => None,
    }
}

/// The client of a request, and the request's number.
pub(crate) fn asker_of(wait: &Wait) -> Option<(&Id, u32)>
    ensures { option_map (λ k. (id_of k.0.now, k.1)) result ≡ asker_of (wait_of wait.now).item }
{
    match wait {
        Wait::Outside(Item::Took(message)) => Some((&message.from, number_in(&message.body))),
        _ => None,
    }
}

/// Whose outcome it is, and of which task.
pub(crate) fn task_of(wait: &Wait) -> Option<(&Id, u32)>
    ensures { option_map (λ k. (id_of k.0.now, k.1)) result ≡ task_of (wait_of wait.now).item }
{
    match wait {
        Wait::Outside(Item::Done(id, task, _)) => Some((id, *task)),
        Wait::Outside(_) => None,
        Wait::Ended(ended) => Some((&ended.id, ended.task)),
    }
}

/// The message of a request.
pub(crate) fn message_in(wait: &Wait) -> Option<&Message>
    ensures { option_map (λ m. message_of m.now) result ≡ message_in (wait_of wait.now).item }
{
    match wait {
        Wait::Outside(Item::Took(message)) => Some(message),
        _ => None,
    }
}

/// Whether it goes on to wait where entries are given up.
pub(crate) fn is_lasting(wait: &Wait) -> bool
    ensures { result ≡ lasting (wait_of wait.now) }
{
    match wait {
        Wait::Outside(Item::Took(_) | Item::Trim(_, _, _, _)) => true,
        _ => false,
    }
}

/// Whether two activities are the same.
#[tactic(auto, using(dura_value::proofs::SameViews::value_eq_is))]
fn is_same_activity(one: &Activity, other: &Activity) -> bool
    ensures { result ≡ is_activity (activity_of other.now) (Some (activity_of one.now)) }
{
    one.name == other.name && one.argument == other.argument
}

/// Whether it is an outcome of this task of this activity.
#[tactic(auto, using(dura_value::proofs::Ids::derived_id_eq))]
pub(crate) fn is_outcome(wait: &Wait, id: &Id, task: u32, activity: &Activity) -> bool
    ensures { result ≡ is_outcome_of (id_of id.now) task (activity_of activity.now)
        (wait_of wait.now) }
{
    match wait {
        Wait::Outside(_) => false,
        Wait::Ended(ended) => {
            (ended.id == *id && ended.task == task) && is_same_activity(&ended.activity, activity)
        }
    }
}
