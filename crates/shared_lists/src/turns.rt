//! A sequence is kept balanced by turns, which leave its items as they are. Where there is no memory for a turn, it is left out:
//! balance is for speed alone.

ghost use Rattle.std.specs.Prelude.{◌≡◌, ◌++◌, ◌∷◌, length, IfOk, IfSome};
ghost use Rattle.std.specs.Arc.{arc_value};
ghost use Rattle.shared_lists.specs.Sequences.{fork_items};

use crate::sequence::{Fork, SharedSequence};
use std::alloc::{AllocError, Global};
use std::sync::Arc;

impl<T> SharedSequence<T> {
    /// The most forks on a way to the end.
    pub(crate) fn height(&self) -> u8 {
        match &self.root {
            None => 0,
            Some(fork) => fork.height,
        }
    }

    /// The sequence of this fork. More items than a number can count are refused; no memory holds so many.
    pub(crate) fn of(alloc: Global, fork: Fork<T>) -> Result<SharedSequence<T>, AllocError>
    where
        T: Drop,
        ensures { IfOk result (λ sequence. sequence ≡ fork_items fork) }
    {
        let Some(len) = fork.len() else {
            drop(fork);
            return Err(AllocError);
        };
        let arc = Arc::new(alloc, fork)?;
        Ok(SharedSequence {
            root: Some(arc),
            len,
        })
    }
}

impl<T: Drop> Fork<T> {
    /// How many items the fork has, where a number can count them.
    fn len(&self) -> Option<usize>
        ensures { IfSome result (λ len. len ≡ length (fork_items self.now)) }
    {
        self.left
            .len()
            .checked_add(1)?
            .checked_add(self.right.len())
    }

    /// An item between two sequences.
    pub(crate) fn between(
        item: Arc<T>,
        left: SharedSequence<T>,
        right: SharedSequence<T>,
    ) -> Fork<T>
        ensures { fork_items result ≡ left ++ arc_value item ∷ right }
    {
        let height = left.height().max(right.height()).saturating_add(1);
        Fork {
            item,
            height,
            left,
            right,
        }
    }

    /// The same fork, which shares its parts.
    pub(crate) fn copy(&self) -> Result<Fork<T>, AllocError>
        ensures { IfOk result (λ copy. fork_items copy ≡ fork_items self.now) }
    {
        let item = Arc::try_clone(&self.item)?;
        let left = self.left.copy()?;
        let right = self.right.copy()?;
        Ok(Fork {
            item,
            height: self.height,
            left,
            right,
        })
    }

    /// The item of the fork between these sequences.
    fn item_between(
        &self,
        left: SharedSequence<T>,
        right: SharedSequence<T>,
    ) -> Result<Fork<T>, AllocError>
        ensures { IfOk result (λ fork. fork_items fork ≡ left ++ arc_value self.now.item ∷ right) }
    {
        let item = Arc::try_clone(&self.item)?;
        Ok(Fork::between(item, left, right))
    }

    /// The same items with the root of the left side on top.
    fn turned_right(&self, alloc: Global) -> Result<Fork<T>, AllocError>
        ensures { IfOk result (λ turned. fork_items turned ≡ fork_items self.now) }
    {
        let Some(arc) = &self.left.root else {
            return self.copy();
        };
        let top: &Fork<T> = arc;
        let right = self.item_between(top.right.copy()?, self.right.copy()?)?;
        let right = SharedSequence::of(alloc, right)?;
        top.item_between(top.left.copy()?, right)
    }

    /// The same items with the root of the right side on top.
    fn turned_left(&self, alloc: Global) -> Result<Fork<T>, AllocError>
        ensures { IfOk result (λ turned. fork_items turned ≡ fork_items self.now) }
    {
        let Some(arc) = &self.right.root else {
            return self.copy();
        };
        let top: &Fork<T> = arc;
        let left = self.item_between(self.left.copy()?, top.left.copy()?)?;
        let left = SharedSequence::of(alloc, left)?;
        top.item_between(left, top.right.copy()?)
    }

    /// Turns right where the left side is too high.
    fn lean_right(&mut self, alloc: Global)
        ensures { fork_items self.new ≡ fork_items self.old }
    {
        self.left.lean_left(alloc);
        if let Ok(turned) = self.turned_right(alloc) {
            *self = turned;
        }
    }

    /// Turns left where the right side is too high.
    fn lean_left(&mut self, alloc: Global)
        ensures { fork_items self.new ≡ fork_items self.old }
    {
        self.right.lean_right(alloc);
        if let Ok(turned) = self.turned_left(alloc) {
            *self = turned;
        }
    }

    /// Balances the fork, one side of which has changed by an item.
    pub(crate) fn level(&mut self, alloc: Global)
        ensures { fork_items self.new ≡ fork_items self.old }
    {
        let left = self.left.height();
        let right = self.right.height();
        self.height = left.max(right).saturating_add(1);
        if left > right.saturating_add(1) {
            self.lean_right(alloc);
        } else if right > left.saturating_add(1) {
            self.lean_left(alloc);
        }
    }
}

impl<T: Drop> SharedSequence<T> {
    /// Turns left where the right side is the higher one.
    fn lean_left(&mut self, alloc: Global)
        ensures { self.new ≡ self.old }
    {
        let Some(arc) = &self.root else {
            return;
        };
        let fork: &Fork<T> = arc;
        if fork.right.height() <= fork.left.height() {
            return;
        }
        let Ok(turned) = fork.turned_left(alloc) else {
            return;
        };
        if let Ok(sequence) = SharedSequence::of(alloc, turned) {
            *self = sequence;
        }
    }

    /// Turns right where the left side is the higher one.
    fn lean_right(&mut self, alloc: Global)
        ensures { self.new ≡ self.old }
    {
        let Some(arc) = &self.root else {
            return;
        };
        let fork: &Fork<T> = arc;
        if fork.left.height() <= fork.right.height() {
            return;
        }
        let Ok(turned) = fork.turned_right(alloc) else {
            return;
        };
        if let Ok(sequence) = SharedSequence::of(alloc, turned) {
            *self = sequence;
        }
    }
}
