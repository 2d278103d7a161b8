//! What the engine reads off the state of a partition.

ghost use Rattle.std.specs.Prelude.{◌≡◌, ◌-◌, ◌^◌, ℕ, List, true, false, length, min, is_some, IsSome, IfSome, IfNone, option_map};
ghost use Rattle.dura_value.specs.Ids.{Id as PlainId};
ghost use Rattle.dura_value.specs.Views.{id_of, answer_of, message_of, posted_of, identity_of};
ghost use Rattle.std.specs.List.{slice_get};
ghost use Rattle.shared_maps.specs.Maps.{by_task};
ghost use Rattle.shared_maps.specs.Order.{IsFirst, IsNextBehind, NoneBehind};
ghost use Rattle.part_rows.specs.Timers.{AreDue, IsNext, NoTimer};
ghost use Rattle.part_rows.specs.Views.{activity_of, outboxes_of, AreSentBy};
ghost use Rattle.part_steps.specs.Quiet.{NoActivity, IsQuiet};
ghost use Rattle.part_steps.specs.States.{IsSound, state_of, count_of};

use crate::state::PartState;
use dura_value::{Answer, Id, Identity, Message, Posted};
use part_rows::{Activity, Outboxes};
use shared_maps::TaskMap;

impl PartState {
    /// Which of the partitions it is.
    pub fn number(&self) -> u32
        ensures { result ≡ (state_of self.now).number }
    {
        self.rows.number
    }

    /// How many partitions there are.
    pub fn partitions(&self) -> u32
        ensures { result ≡ count_of self.now }
    {
        self.rows.partitions
    }

    /// The number of the first message that is left of the stream to a partition.
    pub fn first_left(&self, target: u32) -> u64
        ensures { result ≡ ((state_of self.now).outboxes target).first }
    {
        self.rows.outboxes.first(target)
    }

    /// How many messages are left of the stream to a partition.
    pub fn left_len(&self, target: u32) -> usize
        ensures { result ≡ length ((state_of self.now).outboxes target).messages }
    {
        self.rows.outboxes.left_len(target)
    }

    /// The message at this place of what is left of the stream to a partition.
    pub fn left(&self, target: u32, place: u64) -> Option<&Posted>
        ensures { option_map (λ posted. posted_of posted.now) result
            ≡ slice_get ((state_of self.now).outboxes target).messages place }
    {
        self.rows.outboxes.left(target, place)
    }

    /// The streams to other partitions, which its own entries sent.
    #[tactic(auto, using(crate::proofs::Sending::are_sent_here))]
    pub fn outboxes(&self) -> &Outboxes
        requires { IsSound self.now }
        ensures streams { outboxes_of result.now ≡ (state_of self.now).outboxes }
        ensures own { AreSentBy (state_of self.now).number (outboxes_of result.now) }
    {
        &self.rows.outboxes
    }

    /// How far the stream from a partition was taken in: the number of its next message.
    pub fn taken_in(&self, source: u32) -> u64
        ensures { result ≡ ((state_of self.now).inboxes source).next }
    {
        self.rows.inboxes.next(source)
    }

    /// The entry that took in the last message of the stream from a partition.
    pub fn taken_by(&self, source: u32) -> Identity
        ensures { identity_of result ≡ ((state_of self.now).inboxes source).reader }
    {
        self.rows.inboxes.reader(source)
    }

    /// Its incarnation: that of its last entry.
    pub fn incarnation(&self) -> u64
        ensures { result ≡ (state_of self.now).incarnation }
    {
        self.rows.incarnation
    }

    /// The position of its next entry.
    pub fn position(&self) -> u64
        ensures { result ≡ (state_of self.now).position }
    {
        self.rows.position
    }

    /// Whether a request of a client was taken.
    pub fn has_taken(&self, client: &Id, number: u32) -> bool
        ensures { result ≡ is_some ((state_of self.now).taken (id_of client.now) number) }
    {
        self.rows.has_taken(client, number)
    }

    /// The request of a client that was taken under a number, if one was.
    #[tactic(auto, using(crate::proofs::Looking::seen_through))]
    pub fn taken(&self, client: &Id, number: u32) -> Option<&Message>
        ensures { option_map (λ message. message_of message.now) result
            ≡ (state_of self.now).taken (id_of client.now) number }
    {
        self.rows.taken.get(client, number)
    }

    /// The answer to a request of a client, if it came.
    #[tactic(auto, using(crate::proofs::Looking::seen_through))]
    pub fn answer(&self, client: &Id, number: u32) -> Option<&Answer>
        ensures { option_map (λ answer. answer_of answer.now) result
            ≡ (state_of self.now).answers (id_of client.now) number }
    {
        self.rows.answers.get(client, number)
    }

    /// The activity of an instance's task, if it is pending.
    #[tactic(auto, using(crate::proofs::Looking::seen_through))]
    pub fn activity(&self, id: &Id, task: u32) -> Option<&Activity>
        ensures { option_map (λ activity. activity_of activity.now) result
            ≡ (state_of self.now).activities (id_of id.now) task }
    {
        self.rows.activities.get(id, task)
    }

    /// The activities that are pending.
    #[tactic(auto, using(crate::proofs::Looking::test_seen))]
    pub fn activities(&self) -> &TaskMap<Activity>
        ensures { (id : PlainId) (task : ℕ) → is_some (by_task result.now id task)
            ≡ is_some ((state_of self.now).activities id task) }
    {
        &self.rows.activities
    }

    /// The first instance that has a pending activity, and the least of its tasks that have one.
    #[tactic(auto, using(crate::proofs::Looking::seen_there, crate::proofs::Looking::seen_first, crate::proofs::Looking::seen_nowhere))]
    pub fn pending_task(&self) -> Option<(&Id, u32)>
        ensures there { IfSome result (λ one.
            IsSome ((state_of self.now).activities (id_of one.0.now) one.1)) }
        ensures first { IfSome result (λ one.
            IsFirst (λ id task. is_some ((state_of self.now).activities id task)) (id_of one.0.now)
            one.1) }
        ensures none { IfNone result (NoActivity (state_of self.now)) }
    {
        self.rows.activities.first()
    }

    /// The first instance and task behind the last ones, or of all, that have a pending activity: in the order of ids, and of one
    /// instance in that of its tasks.
    #[tactic(auto, using(crate::proofs::Looking::seen_next, crate::proofs::Looking::seen_none_behind))]
    pub fn next_pending(&self, last: Option<(&Id, u32)>) -> Option<(&Id, u32)>
        ensures next { IfSome result (λ one.
            IsNextBehind (λ id task. is_some ((state_of self.now).activities id task))
            (option_map (λ task. (id_of task.0.now, task.1)) last.entry)
            (id_of one.0.now, one.1)) }
        ensures none { IfNone result (NoneBehind
            (λ id task. is_some ((state_of self.now).activities id task))
            (option_map (λ task. (id_of task.0.now, task.1)) last.entry)) }
    {
        self.rows.activities.next(last)
    }

    /// The stamp at which the first timer is due.
    pub fn next_timer(&self) -> Option<u64>
        requires { IsSound self.now }
        ensures next { IfSome result (λ due. IsNext (state_of self.now).timers due) }
        ensures none { IfNone result (NoTimer (state_of self.now).timers) }
    {
        self.rows.timers.next()
    }

    /// How many timers are due by now, counted up to the greatest number that there is. It takes no memory.
    pub fn due_count(&self, now: u64) -> usize
        requires { IsSound self.now }
        ensures { (due : List (PlainId × ℕ)) × AreDue (state_of self.now).timers now due
            × (result ≡ min (length due) (2 ^ 64 - 1)) }
    {
        self.rows.timers.due_count(now)
    }

    /// Whether nothing is possible without a request: no message that its receiver takes, no activity and no timer.
    #[tactic(auto, using(crate::proofs::Looking::is_open_somewhere, crate::proofs::Looking::nothing_anywhere))]
    pub fn is_quiet(&self) -> bool
        requires { IsSound self.now }
        ensures quiet { result ≡ true → IsQuiet (state_of self.now) }
        ensures stirs { result ≡ false → IsQuiet (state_of self.now) → ⊥ }
    {
        if let Some(_) = self.rows.first_open() {
            return false;
        }
        if let Some(_) = self.pending_task() {
            return false;
        }
        match self.next_timer() {
            Some(_) => false,
            None => true,
        }
    }
}
