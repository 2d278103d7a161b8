//! What is kept for each id.

ghost use Rattle.std.specs.Prelude.{◌≡◌, Some, None, IfOk, OnOk, OnErr, is_some, option_map};
ghost use Rattle.dura_value.specs.ById.{at_id};
ghost use Rattle.dura_value.specs.Views.{id_of};
ghost use Rattle.shared_trees.specs.Entries.{AreExact};
ghost use Rattle.shared_maps.specs.Maps.{by_id, has_id, nothing};

use crate::digests::{hashed_key, hashed_sought};
use crate::ordered_ids::OrderedIds;
use dura_value::Id;
use shared_trees::Sorted;
use std::alloc::{AllocError, Global};

/// What is kept for each id, which a contract sees as a function. Copies share what they hold.
#[derive(Drop)]
pub struct IdMap<V> {
    entries: Sorted<V>,
}

impl<V> IdMap<V> {
    /// A map without ids.
    pub fn new(_alloc: Global) -> IdMap<V>
        ensures { by_id result ≡ nothing }
    {
        IdMap {
            entries: Sorted::new(),
        }
    }

    /// The same, shared: that costs a pointer copy. Without memory an Err.
    pub fn copy(&self) -> Result<IdMap<V>, AllocError>
        ensures { IfOk result (λ copy. by_id copy ≡ by_id self.now) }
    {
        let entries = self.entries.copy()?;
        Ok(IdMap { entries })
    }

    /// What is kept for this id.
    pub fn get(&self, id: &Id) -> Option<&V>
        ensures { option_map (λ x. x.now) result ≡ by_id self.now (id_of id.now) }
    {
        self.entries.get(&hashed_sought(id, 0))
    }

    /// The ids that something is kept for, in their order.
    pub fn ids(&self, alloc: Global) -> Result<OrderedIds, AllocError>
        ensures { IfOk result (λ ids. has_id ids ≡ (λ id. is_some (by_id self.now id))) }
    {
        OrderedIds::of(alloc, &self.entries)
    }

    /// Keeps this for the id, in place of what was kept for it. Without memory an Err, and the map is as it was.
    pub fn put(&mut self, alloc: Global, id: Id, value: V) -> Result<(), AllocError>
    where
        V: Drop,
        ensures put { OnOk result (by_id self.new
            ≡ at_id (by_id self.old) (id_of id) (Some value)) }
        ensures same { OnErr result (by_id self.new ≡ by_id self.old) }
    {
        let key = hashed_key(alloc, id, 0)?;
        self.entries.put(alloc, key, value)
    }

    /// Takes out what is kept for this id: moved out where no copy shares it, and else cloned. Without memory an Err, and the map
    /// is as it was.
    pub fn take(&mut self, alloc: Global, id: &Id) -> Result<Option<V>, AllocError>
    where
        V: Clone,
        requires exact { AreExact V.is_clone }
        ensures value { IfOk result (λ value. value ≡ by_id self.old (id_of id.now)) }
        ensures taken { OnOk result (by_id self.new
            ≡ at_id (by_id self.old) (id_of id.now) None) }
        ensures same { OnErr result (by_id self.new ≡ by_id self.old) }
    {
        self.entries.take(alloc, &hashed_sought(id, 0), true)
    }
}
