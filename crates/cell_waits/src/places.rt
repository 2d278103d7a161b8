//! Where there is something for an id and a number.

ghost use Rattle.std.specs.Prelude.{◌≡◌, ◌++◌, ◌∷◌, [], ℕ, Some, None, IfOk, OnOk, option_map, drop, if◌then◌else◌, slice_get};
ghost use Rattle.dura_value.specs.ById.{at_number};
ghost use Rattle.dura_value.specs.Ids.{Id as PlainId};
ghost use Rattle.dura_value.specs.Views.{id_of};
ghost use Rattle.shared_maps.specs.Maps.{by_number};
ghost use Rattle.cell_waits.specs.Keys.{places_in, no_place, is_same, is_key};

use crate::line::Line;
use dura_value::Id;
use flow_messages::copy_id;
use shared_maps::NumberMap;
use std::alloc::{AllocError, Global};

/// The places at which there is something for an id and a number, the first one first. A contract sees it as a function.
///
/// After an Err, which is want of memory, they are only dropped.
#[derive(Drop)]
pub(crate) struct Places {
    places: NumberMap<Line>,
}

impl Places {
    /// Nothing is anywhere.
    pub(crate) fn new(alloc: Global) -> Places
        ensures { places_in result ≡ no_place }
    {
        Places {
            places: NumberMap::new(alloc),
        }
    }

    /// The first place for this id and number.
    pub(crate) fn first(&self, id: &Id, number: u32) -> Option<u64>
        ensures { result ≡ slice_get (places_in self.now (id_of id.now) number) 0 }
    {
        match self.places.get(id, number) {
            Some(line) => line.first(),
            None => None,
        }
    }

    /// The places for this id and number, which are taken out.
    fn lift(&mut self, alloc: Global, id: &Id, number: u32) -> Result<Line, AllocError>
        ensures places { IfOk result (λ line. line ≡ places_in self.old (id_of id.now) number) }
        ensures lifted { OnOk result (by_number self.new.places
            ≡ at_number (by_number self.old.places) (id_of id.now) number None) }
    {
        match self.places.take(alloc, id, number)? {
            Some(line) => Ok(line),
            None => Ok(Line::new(alloc)),
        }
    }

    /// Something is at this place for the id and the number, behind all others.
    fn push_at(&mut self, alloc: Global, id: &Id, number: u32, place: u64) -> Result<(), AllocError>
        ensures { OnOk result ((other : PlainId) (q : ℕ) → places_in self.new other q
            ≡ places_in self.old other q
            ++ (if is_same (id_of id.now) number other q then place ∷ [] else [])) }
    {
        let mut line = self.lift(alloc, id, number)?;
        line.push(place)?;
        self.places.put(alloc, copy_id(id)?, number, line)
    }

    /// Nothing is at the first place for the id and the number any more.
    fn pop_at(&mut self, alloc: Global, id: &Id, number: u32) -> Result<(), AllocError>
        ensures { OnOk result ((other : PlainId) (q : ℕ) → places_in self.new other q
            ≡ drop (if is_same (id_of id.now) number other q then 1 else 0)
            (places_in self.old other q)) }
    {
        let mut line = self.lift(alloc, id, number)?;
        line.pop();
        if line.is_empty() {
            return Ok(());
        }
        self.places.put(alloc, copy_id(id)?, number, line)
    }

    /// Something is at this place for an id and a number, behind all others, if they are given.
    pub(crate) fn push(
        &mut self,
        alloc: Global,
        key: Option<(&Id, u32)>,
        place: u64,
    ) -> Result<(), AllocError>
        ensures { OnOk result ((other : PlainId) (q : ℕ) → places_in self.new other q
            ≡ places_in self.old other q
            ++ (if is_key (option_map (λ k. (id_of k.0.now, k.1)) key.entry) other q
            then place ∷ [] else [])) }
    {
        match key {
            Some((id, number)) => self.push_at(alloc, id, number, place),
            None => Ok(()),
        }
    }

    /// Nothing is at the first place for an id and a number any more, if they are given.
    pub(crate) fn pop(&mut self, alloc: Global, key: Option<(&Id, u32)>) -> Result<(), AllocError>
        ensures { OnOk result ((other : PlainId) (q : ℕ) → places_in self.new other q
            ≡ drop (if is_key (option_map (λ k. (id_of k.0.now, k.1)) key.entry) other q
            then 1 else 0) (places_in self.old other q)) }
    {
        match key {
            Some((id, number)) => self.pop_at(alloc, id, number),
            None => Ok(()),
        }
    }
}
