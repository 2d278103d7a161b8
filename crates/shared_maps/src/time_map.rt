//! What is kept for each stamp, id and number.

ghost use Rattle.std.specs.Prelude.{◌≡◌, ℕ, Some, None, is_some, IfSome, IfNone, IfOk, OnOk, OnErr, option_map};
ghost use Rattle.dura_value.specs.Ids.{Id as PlainId};
ghost use Rattle.dura_value.specs.Views.{id_of};
ghost use Rattle.shared_maps.specs.Digests.{behind_time, time_place};
ghost use Rattle.shared_trees.specs.Entries.{AreExact};
ghost use Rattle.shared_maps.specs.Maps.{at_time, by_time, no_time};
ghost use Rattle.shared_maps.specs.Order.{IsFirstTime, IsNextTime, NoTimeBehind};
ghost use Rattle.shared_trees.specs.Places.{place_of, place_sought};

use dura_value::Id;
use shared_trees::{Key, Sorted, Sought};
use std::alloc::{AllocError, Global};
use std::marker::Model;
use std::sync::Arc;

/// What is kept for each stamp, id and number, in the order of stamps, then of ids and of numbers. A contract sees it as a
/// function. Copies share what they hold.
#[derive(Drop)]
pub struct TimeMap<V> {
    entries: Sorted<V>,
}

impl<V> Model for TimeMap<V> {
    ghost use Rattle.std.specs.Prelude.{List, Option};
    ghost use Rattle.shared_trees.specs.Places.{Place};

    ghost Value = { List (Place × Option V) };

    ghost use Rattle.shared_trees.specs.Entries.{AllPlaces};
    ghost use Rattle.shared_maps.specs.Digests.{is_time_place};

    ghost view = { λ a. a.entries };

    ghost invariant = { λ a. AllPlaces is_time_place a.entries };
}

/// What an id and a number are kept under at a stamp.
fn time_key(alloc: Global, time: u64, id: Id, number: u32) -> Result<Key, AllocError>
    ensures { IfOk result (λ key. place_of key ≡ time_place time (id_of id) number) }
{
    let id = Arc::new(alloc, id)?;
    Ok(Key {
        lead: time,
        id: Some(id),
        number,
    })
}

/// What finds an id and a number at a stamp.
fn time_sought(time: u64, id: &Id, number: u64) -> Sought<'_>
    ensures { place_sought result ≡ time_place time (id_of id.now) number }
{
    Sought {
        lead: time,
        id: Some(id),
        number,
    }
}

/// What finds the first behind the last.
fn behind<'a>(last: Option<(u64, &'a Id, u32)>) -> Sought<'a>
    ensures { place_sought result
        ≡ behind_time (option_map (λ at. (at.0, id_of at.1.now, at.2)) last.entry) }
{
    match last {
        Some((time, id, number)) => time_sought(time, id, number as u64 + 1),
        None => Sought {
            lead: 0,
            id: None,
            number: 0,
        },
    }
}

impl<V> TimeMap<V> {
    /// A map without stamps.
    pub fn new(_alloc: Global) -> TimeMap<V>
        ensures { by_time result ≡ no_time }
    {
        TimeMap {
            entries: Sorted::new(),
        }
    }

    /// The same, shared: that costs a pointer copy. Without memory an Err.
    pub fn copy(&self) -> Result<TimeMap<V>, AllocError>
        ensures { IfOk result (λ copy. by_time copy ≡ by_time self.now) }
    {
        let entries = self.entries.copy()?;
        Ok(TimeMap { entries })
    }

    /// What is kept for the first stamp, id and number of all.
    pub fn first(&self) -> Option<&V>
        ensures first { IfSome result (λ value. (time : ℕ) × (id : PlainId) × (number : ℕ)
            × (by_time self.now time id number ≡ Some value.now)
            × IsFirstTime (λ t i n. is_some (by_time self.now t i n)) time id number) }
        ensures none { IfNone result ((time : ℕ) (id : PlainId) (number : ℕ)
            → by_time self.now time id number ≡ None) }
    {
        let from = behind(None);
        let Some((_, value)) = self.entries.first_from(&from) else {
            return None;
        };
        Some(value)
    }

    /// The first stamp, id and number behind the last ones, or of all, that something is kept for.
    pub fn next(&self, last: Option<(u64, &Id, u32)>) -> Option<(u64, &Id, u32)>
        ensures next { IfSome result (λ one.
            IsNextTime (λ time id number. is_some (by_time self.now time id number))
            (option_map (λ at. (at.0, id_of at.1.now, at.2)) last.entry)
            (one.0, id_of one.1.now, one.2)) }
        ensures none { IfNone result (NoTimeBehind
            (λ time id number. is_some (by_time self.now time id number))
            (option_map (λ at. (at.0, id_of at.1.now, at.2)) last.entry)) }
    {
        let from = behind(last);
        let Some((key, _)) = self.entries.first_from(&from) else {
            return None;
        };
        let Some(id) = key.id() else {
            return None;
        };
        Some((key.lead, id, key.number))
    }

    /// Keeps this for the stamp, the id and the number, in place of what was kept for them. Without memory an Err, and the map is
    /// as it was.
    pub fn put(
        &mut self,
        alloc: Global,
        time: u64,
        id: Id,
        number: u32,
        value: V,
    ) -> Result<(), AllocError>
    where
        V: Drop,
        ensures put { OnOk result (by_time self.new
            ≡ at_time (by_time self.old) time (id_of id) number (Some value)) }
        ensures same { OnErr result (by_time self.new ≡ by_time self.old) }
    {
        let key = time_key(alloc, time, id, number)?;
        self.entries.put(alloc, key, value)
    }

    /// Lets go of what is kept for this stamp, id and number. Without memory an Err, and the map is as it was.
    pub fn remove(
        &mut self,
        alloc: Global,
        time: u64,
        id: &Id,
        number: u32,
    ) -> Result<(), AllocError>
    where
        V: Clone,
        requires exact { AreExact V.is_clone }
        ensures removed { OnOk result (by_time self.new
            ≡ at_time (by_time self.old) time (id_of id.now) number None) }
        ensures same { OnErr result (by_time self.new ≡ by_time self.old) }
    {
        let gone = self
            .entries
            .take(alloc, &time_sought(time, id, number as u64), false)?;
        drop(gone);
        Ok(())
    }
}
