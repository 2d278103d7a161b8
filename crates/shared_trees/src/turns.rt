//! A tree is kept balanced by turns, which leave its entries as they are. Where there is no memory for a turn, it is left out:
//! balance is for speed alone.

ghost use Rattle.std.specs.Prelude.{◌≡◌, ◌++◌, ◌∷◌, IfOk};
ghost use Rattle.std.specs.Arc.{arc_value};
ghost use Rattle.shared_trees.specs.Places.{place_of};
ghost use Rattle.shared_trees.specs.Tree.{fork_entries, kept_value};

use crate::keys::Key;
use crate::tree::{Fork, Tree, copy_value};
use std::alloc::{AllocError, Global};
use std::sync::Arc;

impl<V> Tree<V> {
    /// The tree of this fork.
    pub(crate) fn of(alloc: Global, fork: Fork<V>) -> Result<Tree<V>, AllocError>
    where
        V: Drop,
        ensures { IfOk result (λ tree. tree ≡ fork_entries fork) }
    {
        let arc = Arc::new(alloc, fork)?;
        Ok(Tree { root: Some(arc) })
    }
}

impl<V: Drop> Fork<V> {
    /// An entry between two trees.
    pub(crate) fn between(key: Key, value: Option<Arc<V>>, left: Tree<V>, right: Tree<V>) -> Fork<V>
        ensures { fork_entries result ≡ left ++ (place_of key, kept_value value) ∷ right }
    {
        let height = left.height().max(right.height()).saturating_add(1);
        Fork {
            key,
            value,
            height,
            left,
            right,
        }
    }

    /// The same fork, which shares its parts.
    pub(crate) fn copy(&self) -> Result<Fork<V>, AllocError>
        ensures { IfOk result (λ copy. fork_entries copy ≡ fork_entries self.now) }
    {
        let key = self.key.copy()?;
        let value = copy_value(&self.value)?;
        let left = self.left.copy()?;
        let right = self.right.copy()?;
        Ok(Fork {
            key,
            value,
            height: self.height,
            left,
            right,
        })
    }

    /// The entry of the fork between these trees.
    fn entry_between(&self, left: Tree<V>, right: Tree<V>) -> Result<Fork<V>, AllocError>
        ensures { IfOk result (λ fork. fork_entries fork
            ≡ left ++ (place_of self.now.key, kept_value self.now.value) ∷ right) }
    {
        let key = self.key.copy()?;
        let value = copy_value(&self.value)?;
        Ok(Fork::between(key, value, left, right))
    }

    /// The same entries with the first of the left side on top.
    fn turned_right(&self, alloc: Global) -> Result<Fork<V>, AllocError>
        ensures { IfOk result (λ turned. fork_entries turned ≡ fork_entries self.now) }
    {
        let Some(arc) = &self.left.root else {
            return self.copy();
        };
        let top: &Fork<V> = arc;
        let right = self.entry_between(top.right.copy()?, self.right.copy()?)?;
        let right = Tree::of(alloc, right)?;
        top.entry_between(top.left.copy()?, right)
    }

    /// The same entries with the first of the right side on top.
    fn turned_left(&self, alloc: Global) -> Result<Fork<V>, AllocError>
        ensures { IfOk result (λ turned. fork_entries turned ≡ fork_entries self.now) }
    {
        let Some(arc) = &self.right.root else {
            return self.copy();
        };
        let top: &Fork<V> = arc;
        let left = self.entry_between(self.left.copy()?, top.left.copy()?)?;
        let left = Tree::of(alloc, left)?;
        top.entry_between(left, top.right.copy()?)
    }

    /// Turns right where the left side is too high.
    fn lean_right(&mut self, alloc: Global)
        ensures { fork_entries self.new ≡ fork_entries self.old }
    {
        self.left.lean_left(alloc);
        if let Ok(turned) = self.turned_right(alloc) {
            *self = turned;
        }
    }

    /// Turns left where the right side is too high.
    fn lean_left(&mut self, alloc: Global)
        ensures { fork_entries self.new ≡ fork_entries self.old }
    {
        self.right.lean_right(alloc);
        if let Ok(turned) = self.turned_left(alloc) {
            *self = turned;
        }
    }

    /// Balances the fork, one side of which has changed by an entry.
    pub(crate) fn level(&mut self, alloc: Global)
        ensures { fork_entries self.new ≡ fork_entries self.old }
    {
        let left = self.left.height();
        let right = self.right.height();
        self.height = left.max(right).saturating_add(1);
        if left > right.saturating_add(1) {
            self.lean_right(alloc);
        } else if right > left.saturating_add(1) {
            self.lean_left(alloc);
        }
    }
}

impl<V: Drop> Tree<V> {
    /// Turns left where the right side is the higher one.
    fn lean_left(&mut self, alloc: Global)
        ensures { self.new ≡ self.old }
    {
        let Some(arc) = &self.root else {
            return;
        };
        let fork: &Fork<V> = arc;
        if fork.right.height() <= fork.left.height() {
            return;
        }
        let Ok(turned) = fork.turned_left(alloc) else {
            return;
        };
        if let Ok(tree) = Tree::of(alloc, turned) {
            *self = tree;
        }
    }

    /// Turns right where the left side is the higher one.
    fn lean_right(&mut self, alloc: Global)
        ensures { self.new ≡ self.old }
    {
        let Some(arc) = &self.root else {
            return;
        };
        let fork: &Fork<V> = arc;
        if fork.left.height() <= fork.right.height() {
            return;
        }
        let Ok(turned) = fork.turned_right(alloc) else {
            return;
        };
        if let Ok(tree) = Tree::of(alloc, turned) {
            *self = tree;
        }
    }
}
