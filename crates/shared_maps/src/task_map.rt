//! What is kept for each id and number, in the order of ids.

ghost use Rattle.std.specs.Prelude.{◌≡◌, ◌≤◌, ℕ, Some, None, is_some, IsSome, IfSome, IfNone, IfOk, OnOk, OnErr, option_map};
ghost use Rattle.dura_value.specs.ById.{at_number, cleared};
ghost use Rattle.dura_value.specs.Ids.{Id as PlainId};
ghost use Rattle.dura_value.specs.Views.{id_of};
ghost use Rattle.shared_maps.specs.Digests.{behind_task};
ghost use Rattle.shared_trees.specs.Entries.{AreExact};
ghost use Rattle.shared_maps.specs.Maps.{by_task, no_number};
ghost use Rattle.shared_maps.specs.Order.{IsFirst, IsNextBehind, NoneBehind};
ghost use Rattle.shared_trees.specs.Places.{place_sought};

use crate::digests::{task_key, task_sought};
use dura_value::Id;
use shared_trees::{Sorted, Sought};
use std::alloc::{AllocError, Global};
use std::marker::Model;

/// What is kept for each id and number, in the order of ids and then of numbers. A contract sees it as a function. Copies share
/// what they hold.
#[derive(Drop)]
pub struct TaskMap<V> {
    entries: Sorted<V>,
}

impl<V> Model for TaskMap<V> {
    ghost use Rattle.std.specs.Prelude.{List, Option};
    ghost use Rattle.shared_trees.specs.Places.{Place};

    ghost Value = { List (Place × Option V) };

    ghost use Rattle.shared_trees.specs.Entries.{AllPlaces};
    ghost use Rattle.shared_maps.specs.Digests.{is_task_place};

    ghost view = { λ a. a.entries };

    ghost invariant = { λ a. AllPlaces is_task_place a.entries };
}

/// What finds the first behind the last.
fn behind<'a>(last: Option<(&'a Id, u32)>) -> Sought<'a>
    ensures { place_sought result
        ≡ behind_task (option_map (λ task. (id_of task.0.now, task.1)) last.entry) }
{
    match last {
        Some((id, number)) => task_sought(id, number as u64 + 1),
        None => Sought {
            lead: 0,
            id: None,
            number: 0,
        },
    }
}

impl<V> TaskMap<V> {
    /// A map without numbers.
    pub fn new(_alloc: Global) -> TaskMap<V>
        ensures { by_task result ≡ no_number }
    {
        TaskMap {
            entries: Sorted::new(),
        }
    }

    /// The same, shared: that costs a pointer copy. Without memory an Err.
    pub fn copy(&self) -> Result<TaskMap<V>, AllocError>
        ensures { IfOk result (λ copy. by_task copy ≡ by_task self.now) }
    {
        let entries = self.entries.copy()?;
        Ok(TaskMap { entries })
    }

    /// What is kept for this id and number.
    pub fn get(&self, id: &Id, number: u32) -> Option<&V>
        ensures { option_map (λ x. x.now) result ≡ by_task self.now (id_of id.now) number }
    {
        self.entries.get(&task_sought(id, number as u64))
    }

    /// The first id that something is kept for, and its least number.
    pub fn first(&self) -> Option<(&Id, u32)>
        ensures there { IfSome result (λ one. IsSome (by_task self.now (id_of one.0.now) one.1)) }
        ensures first { IfSome result (λ one.
            IsFirst (λ id number. is_some (by_task self.now id number)) (id_of one.0.now) one.1) }
        ensures none { IfNone result ((id : PlainId) (number : ℕ)
            → by_task self.now id number ≡ None) }
    {
        self.next(None)
    }

    /// The first id and number behind the last ones, or of all, that something is kept for.
    pub fn next(&self, last: Option<(&Id, u32)>) -> Option<(&Id, u32)>
        ensures next { IfSome result (λ one.
            IsNextBehind (λ id number. is_some (by_task self.now id number))
            (option_map (λ task. (id_of task.0.now, task.1)) last.entry)
            (id_of one.0.now, one.1)) }
        ensures none { IfNone result (NoneBehind (λ id number. is_some (by_task self.now id number))
            (option_map (λ task. (id_of task.0.now, task.1)) last.entry)) }
    {
        let from = behind(last);
        let Some((key, _)) = self.entries.first_from(&from) else {
            return None;
        };
        let Some(id) = key.id() else {
            return None;
        };
        Some((id, key.number))
    }

    /// The least number of this id, from one on, that something is kept for.
    fn next_of(&self, id: &Id, from: u64) -> Option<u32>
        ensures there { IfSome result (λ number. IsSome (by_task self.now (id_of id.now) number)) }
        ensures behind { IfSome result (λ number. from ≤ number) }
        ensures least { IfSome result (λ number. (other : ℕ)
            → IsSome (by_task self.now (id_of id.now) other) → from ≤ other → number ≤ other) }
        ensures none { IfNone result ((number : ℕ) → from ≤ number
            → by_task self.now (id_of id.now) number ≡ None) }
    {
        let sought = task_sought(id, from);
        let Some((key, _)) = self.entries.first_from(&sought) else {
            return None;
        };
        if sought.is_beside(key) {
            Some(key.number)
        } else {
            None
        }
    }

    /// Keeps this for the id and the number, in place of what was kept for both. Without memory an Err, and the map is as it was.
    pub fn put(&mut self, alloc: Global, id: Id, number: u32, value: V) -> Result<(), AllocError>
    where
        V: Drop,
        ensures put { OnOk result (by_task self.new
            ≡ at_number (by_task self.old) (id_of id) number (Some value)) }
        ensures same { OnErr result (by_task self.new ≡ by_task self.old) }
    {
        let key = task_key(alloc, id, number)?;
        self.entries.put(alloc, key, value)
    }

    /// Takes out what is kept for this id and number: moved out where no copy shares it, and else cloned. Without memory an Err,
    /// and the map is as it was.
    pub fn take(&mut self, alloc: Global, id: &Id, number: u32) -> Result<Option<V>, AllocError>
    where
        V: Clone,
        requires exact { AreExact V.is_clone }
        ensures value { IfOk result (λ value. value ≡ by_task self.old (id_of id.now) number) }
        ensures taken { OnOk result (by_task self.new
            ≡ at_number (by_task self.old) (id_of id.now) number None) }
        ensures same { OnErr result (by_task self.new ≡ by_task self.old) }
    {
        self.entries
            .take(alloc, &task_sought(id, number as u64), true)
    }

    /// Lets go of what is kept for this id and number.
    fn remove(&mut self, alloc: Global, id: &Id, number: u32) -> Result<(), AllocError>
    where
        V: Clone,
        requires exact { AreExact V.is_clone }
        ensures { OnOk result (by_task self.new
            ≡ at_number (by_task self.old) (id_of id.now) number None) }
    {
        let gone = self
            .entries
            .take(alloc, &task_sought(id, number as u64), false)?;
        drop(gone);
        Ok(())
    }

    /// Takes out what is kept for this id. Without memory an Err, and the map is as it was.
    pub fn clear(&mut self, alloc: Global, id: &Id) -> Result<(), AllocError>
    where
        V: Clone,
        requires exact { AreExact V.is_clone }
        ensures cleared { OnOk result (by_task self.new
            ≡ cleared (by_task self.old) (id_of id.now)) }
        ensures same { OnErr result (by_task self.new ≡ by_task self.old) }
    {
        let mut left = self.copy()?;
        let mut from: u64 = 0;
        while let Some(number) = left.next_of(id, from) {
            left.remove(alloc, id, number)?;
            from = number as u64 + 1;
        }
        *self = left;
        Ok(())
    }
}
