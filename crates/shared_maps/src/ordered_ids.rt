//! Ids in their order.

ghost use Rattle.std.specs.Prelude.{◌≡◌, ◌||◌, false, IfOk, IfSome, IfNone, OnOk, is_some, option_map};
ghost use Rattle.dura_value.specs.Ids.{Id as PlainId};
ghost use Rattle.dura_value.specs.Views.{id_of};
ghost use Rattle.shared_maps.specs.Digests.{behind_id, hashed_place, next_place, task_place};
ghost use Rattle.shared_trees.specs.Entries.{find};
ghost use Rattle.shared_maps.specs.IdOrder.{IsNextBehind, NoneBehind};
ghost use Rattle.shared_maps.specs.Maps.{has_id};
ghost use Rattle.shared_trees.specs.Places.{is_same, place_of, place_sought};

use crate::digests::{hashed_sought, task_sought};
use dura_value::Id;
use shared_trees::{Key, Sorted, Sought};
use std::alloc::{AllocError, Global};
use std::marker::Model;
use std::sync::Arc;

/// Ids in their order. A contract sees which are there.
#[derive(Drop)]
pub struct OrderedIds {
    entries: Sorted<()>,
}

impl Model for OrderedIds {
    ghost use Rattle.std.specs.Prelude.{List, Option};
    ghost use Rattle.shared_trees.specs.Places.{Place};

    ghost Value = { List (Place × Option (Unit {0})) };

    ghost use Rattle.shared_trees.specs.Entries.{AllPlaces};
    ghost use Rattle.shared_maps.specs.Digests.{is_id_place};

    ghost view = { λ a. a.entries };

    ghost invariant = { λ a. AllPlaces is_id_place a.entries };
}

/// What finds the first id behind the last.
fn behind(last: Option<&Id>) -> Sought<'_>
    ensures { place_sought result ≡ behind_id (option_map (λ id. id_of id.now) last.entry) }
{
    match last {
        Some(id) => task_sought(id, 1),
        None => Sought {
            lead: 0,
            id: None,
            number: 0,
        },
    }
}

/// What finds the first key behind this one.
fn behind_key(key: &Key) -> Sought<'_>
    ensures { place_sought result ≡ next_place (place_of key.now) }
{
    Sought {
        lead: key.lead,
        id: key.id(),
        number: key.number as u64 + 1,
    }
}

/// The key of an id in the order of ids, if this is the key of the id by its digest.
fn id_key(key: &Key) -> Result<Option<Key>, AllocError>
    ensures some { IfOk result (λ found. IfSome found (λ one. (id : PlainId)
        × (place_of one ≡ task_place id 0) × (place_of key.now ≡ hashed_place id 0))) }
    ensures none { IfOk result (λ found. IfNone found
        ((id : PlainId) → is_same (place_of key.now) (hashed_place id 0) ≡ false)) }
{
    let Some(arc) = &key.id else {
        return Ok(None);
    };
    let id: &Id = arc;
    if !hashed_sought(id, 0).compare(key).is_eq() {
        return Ok(None);
    }
    Ok(Some(Key {
        lead: 0,
        id: Some(Arc::try_clone(arc)?),
        number: 0,
    }))
}

impl OrderedIds {
    /// No ids.
    fn new() -> OrderedIds
        ensures { (id : PlainId) → has_id result id ≡ false }
    {
        OrderedIds {
            entries: Sorted::new(),
        }
    }

    /// The ids that something is kept for by their digests.
    pub(crate) fn of<V>(alloc: Global, entries: &Sorted<V>) -> Result<OrderedIds, AllocError>
        ensures { IfOk result (λ ids. (id : PlainId)
            → has_id ids id ≡ is_some (find entries.now (hashed_place id 0))) }
    {
        let mut ids = OrderedIds::new();
        let mut from = behind(None);
        while let Some((key, _)) = entries.first_from(&from) {
            ids.add(alloc, key)?;
            from = behind_key(key);
        }
        Ok(ids)
    }

    /// The first id behind the last one, or of all.
    pub fn next(&self, last: Option<&Id>) -> Option<&Id>
        ensures next { IfSome result (λ id.
            IsNextBehind (has_id self.now) (option_map (λ id. id_of id.now) last.entry) (id_of id.now)) }
        ensures none { IfNone result (NoneBehind (has_id self.now)
            (option_map (λ id. id_of id.now) last.entry)) }
    {
        let from = behind(last);
        let Some((key, _)) = self.entries.first_from(&from) else {
            return None;
        };
        let Some(id) = key.id() else {
            return None;
        };
        Some(id)
    }

    /// The id of a key that has it by its digest joins the others.
    fn add(&mut self, alloc: Global, key: &Key) -> Result<(), AllocError>
        ensures { OnOk result ((id : PlainId)
            → has_id self.new id ≡ (is_same (place_of key.now) (hashed_place id 0) || has_id self.old id)) }
    {
        let Some(key) = id_key(key)? else {
            return Ok(());
        };
        self.entries.put(alloc, key, ())?;
        Ok(())
    }
}
