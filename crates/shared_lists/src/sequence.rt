//! A list that is read at any place, grows at its end and loses items anywhere, and whose copies share its items.

ghost use Rattle.std.specs.Prelude.{◌≡◌, ◌<◌, ◌++◌, ◌∷◌, [], Some, length, option_map, slice_get, remove, IfOk, IfSome, IfNone, OnOk, OnErr};
ghost use Rattle.std.specs.Arc.{arc_value};
ghost use Rattle.shared_lists.specs.Sequences.{fork_items};

use crate::shared::Shared;
use std::alloc::{AllocError, Global};
use std::marker::Model;
use std::mem;
use std::sync::Arc;

/// Items in order. A contract sees the list of them. Copies share the items, and a change copies the path to it alone.
#[cycle(sequence)]
#[derive(Drop)]
pub struct SharedSequence<T> {
    pub(crate) root: Option<Arc<Fork<T>>>,
    pub(crate) len: usize,
}

/// An item, those before it and those behind it.
#[cycle(sequence)]
#[derive(Drop)]
pub(crate) struct Fork<T> {
    pub(crate) item: Arc<T>,
    pub(crate) height: u8,
    pub(crate) left: SharedSequence<T>,
    pub(crate) right: SharedSequence<T>,
}

impl<T> Model for SharedSequence<T> {
    ghost use Rattle.std.specs.Prelude.{◌≡◌, List, length};

    ghost Value = { List T };

    ghost use Rattle.shared_lists.specs.Sequences.{sequence_items};

    ghost view = { λ a. sequence_items a.root };

    ghost invariant = { λ a. a.len ≡ length (sequence_items a.root) };

    ghost size = { length };

    ghost use Rattle.std.proofs.Common.{arith, length-append};

    ghost size_decreases = { λ a h. Prim.grind (arith, length-append) };
}

/// A fork with the same items that no other sequence shares.
fn unshare<T: Drop>(alloc: Global, arc: &mut Arc<Fork<T>>) -> Result<(), AllocError>
    ensures { fork_items (arc_value arc.new) ≡ fork_items (arc_value arc.old) }
{
    if Arc::strong_count(arc) != 1 {
        let fork = arc.copy()?;
        *arc = Arc::new(alloc, fork)?;
    }
    Ok(())
}

impl<T> SharedSequence<T> {
    /// No items.
    pub fn new() -> SharedSequence<T>
        ensures { result ≡ [] }
    {
        SharedSequence { root: None, len: 0 }
    }

    /// The same items, which both share.
    pub fn copy(&self) -> Result<SharedSequence<T>, AllocError>
        ensures { IfOk result (λ copy. copy ≡ self.now) }
    {
        let root = match &self.root {
            Some(fork) => Some(Arc::try_clone(fork)?),
            None => None,
        };
        Ok(SharedSequence {
            root,
            len: self.len,
        })
    }

    /// How many items there are.
    pub fn len(&self) -> usize
        ensures { result ≡ length self.now }
    {
        self.len
    }

    /// The item at a place.
    pub fn get(&self, place: usize) -> Option<&T>
        ensures { option_map (λ x. x.now) result ≡ slice_get self.now place }
    {
        let Some(arc) = &self.root else {
            return None;
        };
        let fork: &Fork<T> = arc;
        let before = fork.left.len();
        if place < before {
            return fork.left.get(place);
        }
        if place == before {
            return Some(&fork.item);
        }
        fork.right.get(place - before - 1)
    }
}

impl<T: Drop> SharedSequence<T> {
    /// An item comes behind the others. After an Err, which is want of memory, the items are as they were.
    pub fn push(&mut self, alloc: Global, item: T) -> Result<(), AllocError>
        ensures pushed { OnOk result (self.new ≡ self.old ++ item ∷ []) }
        ensures same { OnErr result (self.new ≡ self.old) }
    {
        let item = Arc::new(alloc, item)?;
        self.add_last(alloc, item)
    }

    /// An item that is shared comes behind the others.
    fn add_last(&mut self, alloc: Global, item: Arc<T>) -> Result<(), AllocError>
        ensures pushed { OnOk result (self.new ≡ self.old ++ arc_value item ∷ []) }
        ensures same { OnErr result (self.new ≡ self.old) }
    {
        let Some(arc) = &mut self.root else {
            let fork = Fork::between(item, SharedSequence::new(), SharedSequence::new());
            *self = SharedSequence::of(alloc, fork)?;
            return Ok(());
        };
        let Some(len) = self.len.checked_add(1) else {
            return Err(AllocError);
        };
        unshare(alloc, arc)?;
        let Some(fork) = Arc::get_mut(arc) else {
            return Err(AllocError);
        };
        fork.right.add_last(alloc, item)?;
        fork.level(alloc);
        self.len = len;
        Ok(())
    }

    /// Takes out the first item.
    fn take_first(&mut self, alloc: Global) -> Result<Option<Arc<T>>, AllocError>
        ensures some { IfOk result (λ found. IfSome found (λ first.
            self.old ≡ arc_value first ∷ self.new)) }
        ensures none { IfOk result (λ found. IfNone found
            ((self.old ≡ []) × (self.new ≡ []))) }
        ensures same { OnErr result (self.new ≡ self.old) }
    {
        let Some(arc) = &mut self.root else {
            return Ok(None);
        };
        unshare(alloc, arc)?;
        let Some(fork) = Arc::get_mut(arc) else {
            return Err(AllocError);
        };
        if let Some(first) = fork.left.take_first(alloc)? {
            fork.level(alloc);
            self.len -= 1;
            return Ok(Some(first));
        }
        let first = Arc::try_clone(&fork.item)?;
        let right = mem::replace(&mut fork.right, SharedSequence::new());
        *self = right;
        Ok(Some(first))
    }

    /// Takes out the item at a place. After an Err, which is want of memory, the items are as they were.
    #[tactic(auto, using(crate::proofs::Ropes::get_middle, crate::proofs::Ropes::remove_middle, crate::proofs::Ropes::remove_behind))]
    pub fn remove(&mut self, alloc: Global, place: usize) -> Result<Shared<T>, AllocError>
        requires { place < length self.old }
        ensures item { IfOk result (λ item. slice_get self.old place ≡ Some item) }
        ensures rest { OnOk result (self.new ≡ remove self.old place) }
        ensures same { OnErr result (self.new ≡ self.old) }
    {
        let Some(arc) = &mut self.root else {
            return Err(AllocError);
        };
        unshare(alloc, arc)?;
        let Some(fork) = Arc::get_mut(arc) else {
            return Err(AllocError);
        };
        let before = fork.left.len();
        if place < before {
            let item = fork.left.remove(alloc, place)?;
            fork.level(alloc);
            self.len -= 1;
            return Ok(item);
        }
        if place > before {
            let item = fork.right.remove(alloc, place - before - 1)?;
            fork.level(alloc);
            self.len -= 1;
            return Ok(item);
        }
        let item = Arc::try_clone(&fork.item)?;
        if let Some(left) = fork.close(alloc)? {
            *self = left;
            return Ok(Shared::of(item));
        }
        self.len -= 1;
        Ok(Shared::of(item))
    }
}

impl<T: Drop> Fork<T> {
    /// Takes out the item of the fork: the first item of the right side takes its place, or the answer is the left side, which
    /// takes the place of the fork.
    fn close(&mut self, alloc: Global) -> Result<Option<SharedSequence<T>>, AllocError>
        ensures inside { IfOk result (λ found. IfNone found
            (fork_items self.new ≡ self.old.left ++ self.old.right)) }
        ensures left { IfOk result (λ found. IfSome found (λ left.
            left ≡ self.old.left ++ self.old.right)) }
        ensures same { OnErr result (fork_items self.new ≡ fork_items self.old) }
    {
        match self.right.take_first(alloc)? {
            Some(first) => {
                self.item = first;
                self.level(alloc);
                Ok(None)
            }
            None => Ok(Some(mem::replace(&mut self.left, SharedSequence::new()))),
        }
    }
}

impl<T: Drop> Clone for SharedSequence<T> {
    ghost is_clone = { λ sequence copy. copy ≡ sequence };

    fn clone(&self) -> Result<Self, AllocError> {
        self.copy()
    }
}
