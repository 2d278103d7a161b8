//! A tree whose entries are in order.

ghost use Rattle.std.specs.Prelude.{◌≡◌, [], ◌∷◌, Bool, true, ℕ, Some, None, IfOk, IfSome, IfNone, OnOk, OnErr, option_map, if◌then◌else◌};
ghost use Rattle.shared_trees.specs.Entries.{find, at_place, AreExact, IsFirstFrom, NoneFrom, StayAmong};
ghost use Rattle.shared_trees.specs.Places.{place_of, place_sought};

use crate::keys::{Key, Sought};
use crate::tree::Tree;
use std::alloc::{AllocError, Global};
use std::marker::Model;
use std::sync::Arc;

/// Entries in the order of their keys. A contract sees the list of them.
#[derive(Drop)]
pub struct Sorted<V> {
    tree: Tree<V>,
}

impl<V> Model for Sorted<V> {
    ghost use Rattle.std.specs.Prelude.{List, Option};
    ghost use Rattle.shared_trees.specs.Places.{Place};

    ghost Value = { List (Place × Option V) };

    ghost use Rattle.shared_trees.specs.Entries.{IsSorted};

    ghost view = { λ a. a.tree };

    ghost invariant = { λ a. IsSorted a.tree };
}

impl<V> Sorted<V> {
    /// No entries.
    pub fn new() -> Sorted<V>
        ensures { result ≡ [] }
    {
        Sorted { tree: Tree::new() }
    }

    /// The same entries, which both share.
    pub fn copy(&self) -> Result<Sorted<V>, AllocError>
        ensures { IfOk result (λ copy. copy ≡ self.now) }
    {
        let tree = self.tree.copy()?;
        Ok(Sorted { tree })
    }

    /// What is kept under this key.
    pub fn get(&self, sought: &Sought) -> Option<&V>
        ensures { option_map (λ x. x.now) result ≡ find self.now (place_sought sought.now) }
    {
        self.tree.get(sought)
    }

    /// The first entry from this key on that has a value.
    pub fn first_from(&self, from: &Sought) -> Option<(&Key, &V)>
        ensures first { IfSome result (λ one. IsFirstFrom (find self.now) (place_sought from.now)
            (place_of one.0.now) one.1.now) }
        ensures none { IfNone result (NoneFrom (find self.now) (place_sought from.now)) }
    {
        self.tree.first_from(from)
    }

    /// Keeps this under the key, in place of what was kept there.
    pub fn put(&mut self, alloc: Global, key: Key, value: V) -> Result<(), AllocError>
    where
        V: Drop,
        ensures put { OnOk result (find self.new
            ≡ at_place (find self.old) (place_of key) (Some value)) }
        ensures same { OnErr result (find self.new ≡ find self.old) }
        ensures among { StayAmong self.old self.new (place_of key) }
    {
        let value = Arc::new(alloc, value)?;
        self.tree.put(alloc, key, value)
    }

    /// Takes out what is kept under this key, and answers with it where it is wanted.
    pub fn take(
        &mut self,
        alloc: Global,
        sought: &Sought,
        wanted: bool,
    ) -> Result<Option<V>, AllocError>
    where
        V: Clone,
        requires exact { AreExact V.is_clone }
        ensures value { IfOk result (λ value. value
            ≡ (if wanted then find self.old (place_sought sought.now) else None)) }
        ensures taken { OnOk result (find self.new
            ≡ at_place (find self.old) (place_sought sought.now) None) }
        ensures same { OnErr result (find self.new ≡ find self.old) }
        ensures among { StayAmong self.old self.new (place_sought sought.now) }
    {
        if self.tree.get(sought).is_none() {
            return Ok(None);
        }
        self.tree.take(alloc, sought, wanted)
    }
}
