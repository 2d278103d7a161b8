//! Puts into a tree, and takes out of it. Forks that other trees share are copied on the way, the others are written in place.

ghost use Rattle.std.specs.Prelude.{◌≡◌, ◌∷◌, [], true, IfOk, IfSome, IfNone, OnOk, OnErr, Some, None, is_ok, if◌then◌else◌};
ghost use Rattle.std.specs.Arc.{arc_value};
ghost use Rattle.shared_trees.specs.Entries.{find, AreExact, IsSorted, Changes};
ghost use Rattle.shared_trees.specs.Places.{place_of, place_sought};
ghost use Rattle.shared_trees.specs.Tree.{fork_entries, kept_value};

use crate::keys::{Key, Sought};
use crate::tree::{Fork, Tree};
use std::alloc::{AllocError, Global};
use std::cmp::Ordering;
use std::mem;
use std::sync::Arc;

/// A fork with the same entries that no other tree shares.
fn unshare<V: Drop>(alloc: Global, arc: &mut Arc<Fork<V>>) -> Result<(), AllocError>
    ensures { fork_entries (arc_value arc.new) ≡ fork_entries (arc_value arc.old) }
{
    if Arc::strong_count(arc) != 1 {
        let fork = arc.copy()?;
        *arc = Arc::new(alloc, fork)?;
    }
    Ok(())
}

impl<V: Drop> Tree<V> {
    /// Keeps this under the key, in place of what was kept there.
    pub(crate) fn put(&mut self, alloc: Global, key: Key, value: Arc<V>) -> Result<(), AllocError>
        requires sorted { IsSorted self.old }
        ensures changes { Changes self.old self.new (is_ok result) (place_of key)
            (Some (arc_value value)) }
    {
        let Some(arc) = &mut self.root else {
            let fork = Fork::between(key, Some(value), Tree::new(), Tree::new());
            *self = Tree::of(alloc, fork)?;
            return Ok(());
        };
        unshare(alloc, arc)?;
        let Some(fork) = Arc::get_mut(arc) else {
            return Err(AllocError);
        };
        match key.sought().compare(&fork.key) {
            Ordering::Less => {
                let done = fork.left.put(alloc, key, value);
                fork.level(alloc);
                done
            }
            Ordering::Greater => {
                let done = fork.right.put(alloc, key, value);
                fork.level(alloc);
                done
            }
            Ordering::Equal => {
                fork.value = Some(value);
                Ok(())
            }
        }
    }
}

/// Takes the value out of an entry: moved where nobody shares it, and else a copy. Where it isn't wanted, it is let go of.
fn vacate<V: Clone>(kept: &mut Option<Arc<V>>, wanted: bool) -> Result<Option<V>, AllocError>
    requires exact { AreExact V.is_clone }
    ensures value { IfOk result (λ value. value
        ≡ (if wanted then kept_value kept.old else None)) }
    ensures taken { OnOk result (kept_value kept.new ≡ None) }
    ensures same { OnErr result (kept_value kept.new ≡ kept_value kept.old) }
{
    let Some(arc) = kept.take() else {
        return Ok(None);
    };
    if !wanted {
        return Ok(None);
    }
    let arc = match Arc::try_unwrap(arc) {
        Ok(value) => return Ok(Some(value)),
        Err(arc) => arc,
    };
    let shared: &V = &arc;
    match shared.clone() {
        Ok(value) => Ok(Some(value)),
        Err(refused) => {
            *kept = Some(arc);
            Err(refused)
        }
    }
}

impl<V: Drop> Tree<V> {
    /// Takes out the first entry.
    fn take_first(&mut self, alloc: Global) -> Result<Option<(Key, Option<Arc<V>>)>, AllocError>
        ensures some { IfOk result (λ found. IfSome found (λ first.
            self.old ≡ (place_of first.0, kept_value first.1) ∷ self.new)) }
        ensures none { IfOk result (λ found. IfNone found
            ((self.old ≡ []) × (self.new ≡ []))) }
        ensures same { OnErr result (self.new ≡ self.old) }
    {
        let Some(arc) = &mut self.root else {
            return Ok(None);
        };
        unshare(alloc, arc)?;
        let Some(fork) = Arc::get_mut(arc) else {
            return Err(AllocError);
        };
        if let Some(first) = fork.left.take_first(alloc)? {
            fork.level(alloc);
            return Ok(Some(first));
        }
        let key = fork.key.copy()?;
        let value = fork.value.take();
        let right = mem::replace(&mut fork.right, Tree::new());
        *self = right;
        Ok(Some((key, value)))
    }
}

impl<V: Drop> Fork<V> {
    /// Closes the gap of an entry without a value: the first entry of the right side takes its place, or the answer is the left
    /// side, which takes the place of the fork. Without memory for it the gap stays.
    fn close(&mut self, alloc: Global) -> Option<Tree<V>>
        requires sorted { IsSorted (fork_entries self.old) }
        requires empty { kept_value self.old.value ≡ None }
        ensures inside { IfNone result (Changes (fork_entries self.old) (fork_entries self.new) true
            (place_of self.old.key) None) }
        ensures left { IfSome result (λ left. Changes (fork_entries self.old) left true
            (place_of self.old.key) None) }
    {
        match self.right.take_first(alloc) {
            Ok(Some((key, value))) => {
                self.key = key;
                self.value = value;
                self.level(alloc);
                None
            }
            Ok(None) => Some(mem::replace(&mut self.left, Tree::new())),
            Err(_) => None,
        }
    }
}

impl<V: Clone> Tree<V> {
    /// Takes out what is kept under this key, and answers with it where it is wanted.
    pub(crate) fn take(
        &mut self,
        alloc: Global,
        sought: &Sought,
        wanted: bool,
    ) -> Result<Option<V>, AllocError>
        requires sorted { IsSorted self.old }
        requires exact { AreExact V.is_clone }
        ensures changes { Changes self.old self.new (is_ok result) (place_sought sought.now) None }
        ensures value { IfOk result (λ value. value
            ≡ (if wanted then find self.old (place_sought sought.now) else None)) }
    {
        let Some(arc) = &mut self.root else {
            return Ok(None);
        };
        unshare(alloc, arc)?;
        let Some(fork) = Arc::get_mut(arc) else {
            return Err(AllocError);
        };
        match sought.compare(&fork.key) {
            Ordering::Less => {
                let taken = fork.left.take(alloc, sought, wanted);
                fork.level(alloc);
                taken
            }
            Ordering::Greater => {
                let taken = fork.right.take(alloc, sought, wanted);
                fork.level(alloc);
                taken
            }
            Ordering::Equal => {
                let value = vacate(&mut fork.value, wanted)?;
                if let Some(left) = fork.close(alloc) {
                    *self = left;
                }
                Ok(value)
            }
        }
    }
}
