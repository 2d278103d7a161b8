//! What is kept under each number.

ghost use Rattle.std.specs.Prelude.{◌≡◌, ◌≤◌, ℕ, Some, None, IsSome, IfOk, IfSome, IfNone, OnOk, OnErr, option_map};
ghost use Rattle.shared_trees.specs.Entries.{AreExact};
ghost use Rattle.shared_maps.specs.Maps.{at_key, by_key, no_key};
ghost use Rattle.shared_trees.specs.Places.{place_of, place_sought, key_place};

use shared_trees::{Key, Sorted, Sought};
use std::alloc::{AllocError, Global};
use std::marker::Model;

/// What is kept under each number, which a contract sees as a function. Copies share what they hold.
#[derive(Drop)]
pub struct NumberTree<V> {
    entries: Sorted<V>,
}

/// What finds a number.
fn sought(key: u64) -> Sought<'static>
    ensures { place_sought result ≡ key_place key }
{
    Sought {
        lead: key,
        id: None,
        number: 0,
    }
}

impl<V> Model for NumberTree<V> {
    ghost use Rattle.std.specs.Prelude.{List, Option};
    ghost use Rattle.shared_trees.specs.Places.{Place};

    ghost Value = { List (Place × Option V) };

    ghost use Rattle.shared_trees.specs.Entries.{AllPlaces};
    ghost use Rattle.shared_trees.specs.Places.{is_key_place};

    ghost view = { λ a. a.entries };

    ghost invariant = { λ a. AllPlaces is_key_place a.entries };
}

impl<V> NumberTree<V> {
    /// Nothing under any number.
    pub fn new(_alloc: Global) -> NumberTree<V>
        ensures { by_key result ≡ no_key }
    {
        NumberTree {
            entries: Sorted::new(),
        }
    }

    /// The same, shared: that costs a pointer copy. Without memory an Err.
    pub fn copy(&self) -> Result<NumberTree<V>, AllocError>
        ensures { IfOk result (λ copy. by_key copy ≡ by_key self.now) }
    {
        let entries = self.entries.copy()?;
        Ok(NumberTree { entries })
    }

    /// What is kept under this number.
    pub fn get(&self, key: u64) -> Option<&V>
        ensures { option_map (λ x. x.now) result ≡ by_key self.now key }
    {
        self.entries.get(&sought(key))
    }

    /// The least number that something is kept under, and what.
    pub fn first(&self) -> Option<(u64, &V)>
        ensures there { IfSome result (λ one. by_key self.now one.0 ≡ Some one.1.now) }
        ensures least { IfSome result (λ one. (other : ℕ) → IsSome (by_key self.now other)
            → one.0 ≤ other) }
        ensures none { IfNone result ((other : ℕ) → by_key self.now other ≡ None) }
    {
        self.next(0)
    }

    /// The least number from this one on that something is kept under, and what.
    pub fn next(&self, from: u64) -> Option<(u64, &V)>
        ensures there { IfSome result (λ one. by_key self.now one.0 ≡ Some one.1.now) }
        ensures behind { IfSome result (λ one. from ≤ one.0) }
        ensures least { IfSome result (λ one. (other : ℕ) → IsSome (by_key self.now other)
            → from ≤ other → one.0 ≤ other) }
        ensures none { IfNone result ((other : ℕ) → from ≤ other → by_key self.now other ≡ None) }
    {
        match self.entries.first_from(&sought(from)) {
            Some((key, value)) => Some((key.lead, value)),
            None => None,
        }
    }

    /// Keeps this under the number, in place of what was kept there. Without memory an Err, and the map is as it was.
    pub fn put(&mut self, alloc: Global, key: u64, value: V) -> Result<(), AllocError>
    where
        V: Drop,
        ensures put { OnOk result (by_key self.new ≡ at_key (by_key self.old) key (Some value)) }
        ensures same { OnErr result (by_key self.new ≡ by_key self.old) }
    {
        let key = Key {
            lead: key,
            id: None,
            number: 0,
        };
        self.entries.put(alloc, key, value)
    }

    /// Takes out what is kept under this number: moved out where no copy shares it, and else cloned. Without memory an Err, and
    /// the map is as it was.
    pub fn take(&mut self, alloc: Global, key: u64) -> Result<Option<V>, AllocError>
    where
        V: Clone,
        requires exact { AreExact V.is_clone }
        ensures value { IfOk result (λ value. value ≡ by_key self.old key) }
        ensures taken { OnOk result (by_key self.new ≡ at_key (by_key self.old) key None) }
        ensures same { OnErr result (by_key self.new ≡ by_key self.old) }
    {
        self.entries.take(alloc, &sought(key), true)
    }
}
