//! A search tree whose parts other trees may share.

ghost use Rattle.std.specs.Prelude.{◌≡◌, [], IfOk, option_map};
ghost use Rattle.std.specs.Arc.{arc_value};
ghost use Rattle.shared_trees.specs.Entries.{find, first_from, IsSorted};
ghost use Rattle.shared_trees.specs.Places.{place_of, place_sought};
ghost use Rattle.shared_trees.specs.Tree.{fork_entries, kept_value};

use crate::keys::{Key, Sought};
use std::alloc::{AllocError, Global};
use std::cmp::Ordering;
use std::marker::Model;
use std::sync::Arc;

/// Entries in the order of their keys. A contract sees the list of them.
#[cycle(tree)]
#[derive(Drop)]
pub(crate) struct Tree<V> {
    pub(crate) root: Option<Arc<Fork<V>>>,
}

/// An entry, those before it and those behind it. An entry without a value is as good as none: it was taken, and there was no
/// memory to close the gap.
#[cycle(tree)]
#[derive(Drop)]
pub(crate) struct Fork<V> {
    pub(crate) key: Key,
    pub(crate) value: Option<Arc<V>>,
    pub(crate) height: u8,
    pub(crate) left: Tree<V>,
    pub(crate) right: Tree<V>,
}

impl<V> Model for Tree<V> {
    ghost use Rattle.std.specs.Prelude.{List, Option, length};
    ghost use Rattle.shared_trees.specs.Places.{Place};

    ghost Value = { List (Place × Option V) };

    ghost use Rattle.shared_trees.specs.Tree.{entries};

    ghost view = { λ a. entries a.root };

    ghost size = { length };

    ghost use Rattle.std.proofs.Common.{arith, length-append};

    ghost size_decreases = { λ a h. Prim.grind (arith, length-append) };
}

/// The same value, shared.
pub(crate) fn copy_value<V>(value: &Option<Arc<V>>) -> Result<Option<Arc<V>>, AllocError>
    ensures { IfOk result (λ copy. kept_value copy ≡ kept_value value.now) }
{
    match value {
        Some(value) => Ok(Some(Arc::try_clone(value)?)),
        None => Ok(None),
    }
}

impl<V> Tree<V> {
    /// No entries.
    pub(crate) fn new() -> Tree<V>
        ensures { result ≡ [] }
    {
        Tree { root: None }
    }

    /// The same entries, which both share.
    pub(crate) fn copy(&self) -> Result<Tree<V>, AllocError>
        ensures { IfOk result (λ copy. copy ≡ self.now) }
    {
        let Some(fork) = &self.root else {
            return Ok(Tree { root: None });
        };
        let fork = Arc::try_clone(fork)?;
        Ok(Tree { root: Some(fork) })
    }

    /// What is kept under this key.
    pub(crate) fn get(&self, sought: &Sought) -> Option<&V>
        requires sorted { IsSorted self.now }
        ensures { option_map (λ x. x.now) result ≡ find self.now (place_sought sought.now) }
    {
        let Some(arc) = &self.root else {
            return None;
        };
        let fork: &Fork<V> = arc;
        match sought.compare(&fork.key) {
            Ordering::Less => fork.left.get(sought),
            Ordering::Greater => fork.right.get(sought),
            Ordering::Equal => fork.value(),
        }
    }

    /// The first entry from this key on that has a value.
    pub(crate) fn first_from(&self, from: &Sought) -> Option<(&Key, &V)>
        requires sorted { IsSorted self.now }
        ensures { option_map (λ one. (place_of one.0.now, one.1.now)) result
            ≡ first_from self.now (place_sought from.now) }
    {
        let Some(arc) = &self.root else {
            return None;
        };
        let fork: &Fork<V> = arc;
        if from.is_behind(&fork.key) {
            return fork.right.first_from(from);
        }
        if let Some(first) = fork.left.first_from(from) {
            return Some(first);
        }
        match &fork.value {
            Some(value) => Some((&fork.key, value)),
            None => fork.right.first_from(from),
        }
    }

    /// The most forks on a way to the end.
    pub(crate) fn height(&self) -> u8 {
        match &self.root {
            None => 0,
            Some(fork) => fork.height,
        }
    }
}

impl<V> Fork<V> {
    /// The value of the entry.
    pub(crate) fn value(&self) -> Option<&V>
        ensures { option_map (λ x. x.now) result ≡ kept_value self.now.value }
    {
        match &self.value {
            Some(value) => Some(value),
            None => None,
        }
    }
}
