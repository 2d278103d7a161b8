//! What is kept for each id and number.

ghost use Rattle.std.specs.Prelude.{◌≡◌, ◌≤◌, ℕ, Some, None, IsSome, IfSome, IfNone, IfOk, OnOk, OnErr, option_map};
ghost use Rattle.dura_value.specs.ById.{at_number, cleared};
ghost use Rattle.dura_value.specs.Views.{id_of};
ghost use Rattle.shared_trees.specs.Entries.{AreExact};
ghost use Rattle.shared_maps.specs.Maps.{by_number, no_number};

use crate::digests::{hashed_key, hashed_sought};
use dura_value::Id;
use shared_trees::Sorted;
use std::alloc::{AllocError, Global};

/// What is kept for each id and number, which a contract sees as a function. Copies share what they hold.
#[derive(Drop)]
pub struct NumberMap<V> {
    entries: Sorted<V>,
}

impl<V> NumberMap<V> {
    /// A map without numbers.
    pub fn new(_alloc: Global) -> NumberMap<V>
        ensures { by_number result ≡ no_number }
    {
        NumberMap {
            entries: Sorted::new(),
        }
    }

    /// The same, shared: that costs a pointer copy. Without memory an Err.
    pub fn copy(&self) -> Result<NumberMap<V>, AllocError>
        ensures { IfOk result (λ copy. by_number copy ≡ by_number self.now) }
    {
        let entries = self.entries.copy()?;
        Ok(NumberMap { entries })
    }

    /// What is kept for this id and number.
    pub fn get(&self, id: &Id, number: u32) -> Option<&V>
        ensures { option_map (λ x. x.now) result ≡ by_number self.now (id_of id.now) number }
    {
        self.entries.get(&hashed_sought(id, number as u64))
    }

    /// The least number of this id, from one on, that something is kept for.
    pub fn next_of(&self, id: &Id, from: u64) -> Option<u32>
        ensures there { IfSome result (λ number.
            IsSome (by_number self.now (id_of id.now) number)) }
        ensures behind { IfSome result (λ number. from ≤ number) }
        ensures least { IfSome result (λ number. (other : ℕ)
            → IsSome (by_number self.now (id_of id.now) other) → from ≤ other → number ≤ other) }
        ensures none { IfNone result ((number : ℕ) → from ≤ number
            → by_number self.now (id_of id.now) number ≡ None) }
    {
        let sought = hashed_sought(id, from);
        let Some((key, _)) = self.entries.first_from(&sought) else {
            return None;
        };
        if sought.is_beside(key) {
            Some(key.number)
        } else {
            None
        }
    }

    /// The least number of this id that something is kept for.
    pub fn first_of(&self, id: &Id) -> Option<u32>
        ensures there { IfSome result (λ number.
            IsSome (by_number self.now (id_of id.now) number)) }
        ensures least { IfSome result (λ number. (other : ℕ)
            → IsSome (by_number self.now (id_of id.now) other) → number ≤ other) }
        ensures none { IfNone result ((number : ℕ)
            → by_number self.now (id_of id.now) number ≡ None) }
    {
        self.next_of(id, 0)
    }

    /// Keeps this for the id and the number, in place of what was kept for both. Without memory an Err, and the map is as it was.
    pub fn put(&mut self, alloc: Global, id: Id, number: u32, value: V) -> Result<(), AllocError>
    where
        V: Drop,
        ensures put { OnOk result (by_number self.new
            ≡ at_number (by_number self.old) (id_of id) number (Some value)) }
        ensures same { OnErr result (by_number self.new ≡ by_number self.old) }
    {
        let key = hashed_key(alloc, id, number)?;
        self.entries.put(alloc, key, value)
    }

    /// Takes out what is kept for this id and number: moved out where no copy shares it, and else cloned. Without memory an Err,
    /// and the map is as it was.
    pub fn take(&mut self, alloc: Global, id: &Id, number: u32) -> Result<Option<V>, AllocError>
    where
        V: Clone,
        requires exact { AreExact V.is_clone }
        ensures value { IfOk result (λ value. value ≡ by_number self.old (id_of id.now) number) }
        ensures taken { OnOk result (by_number self.new
            ≡ at_number (by_number self.old) (id_of id.now) number None) }
        ensures same { OnErr result (by_number self.new ≡ by_number self.old) }
    {
        self.entries
            .take(alloc, &hashed_sought(id, number as u64), true)
    }

    /// Lets go of what is kept for this id and number.
    fn remove(&mut self, alloc: Global, id: &Id, number: u32) -> Result<(), AllocError>
    where
        V: Clone,
        requires exact { AreExact V.is_clone }
        ensures { OnOk result (by_number self.new
            ≡ at_number (by_number self.old) (id_of id.now) number None) }
    {
        match self
            .entries
            .take(alloc, &hashed_sought(id, number as u64), false)
        {
            Ok(value) => {
                drop(value);
                Ok(())
            }
            Err(refused) => Err(refused),
        }
    }

    /// Takes out what is kept for this id. Without memory an Err, and the map is as it was.
    pub fn clear(&mut self, alloc: Global, id: &Id) -> Result<(), AllocError>
    where
        V: Clone,
        requires exact { AreExact V.is_clone }
        ensures cleared { OnOk result (by_number self.new
            ≡ cleared (by_number self.old) (id_of id.now)) }
        ensures same { OnErr result (by_number self.new ≡ by_number self.old) }
    {
        let mut left = self.copy()?;
        let mut from: u64 = 0;
        while let Some(number) = left.next_of(id, from) {
            left.remove(alloc, id, number)?;
            from = number as u64 + 1;
        }
        *self = left;
        Ok(())
    }
}
