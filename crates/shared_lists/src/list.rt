//! A list that grows at its end, whose copies share its items.

ghost use Rattle.std.specs.Prelude.{◌≡◌, ◌++◌, ◌∷◌, [], List, map, IfOk, OnOk};
ghost use Rattle.std.specs.Arc.{arc_value};
ghost use Rattle.shared_lists.specs.Lists.{chunk_items, lent_items, shared_items};

use std::alloc::{AllocError, Global};
use std::marker::Model;
use std::sync::Arc;

/// How many items a chunk has at most behind its first. A shared chunk is copied before it grows, and a list is dropped a chunk
/// within another.
const MOST: usize = 31;

/// Items in order, the first of which came first. A contract sees the list of them. Copies share the items.
#[cycle(list)]
#[derive(Drop)]
pub struct SharedList<T> {
    last: Option<Arc<Chunk<T>>>,
}

/// Some items behind those before.
#[cycle(list)]
#[derive(Drop)]
pub(crate) struct Chunk<T> {
    before: SharedList<T>,
    first: Arc<T>,
    more: Vec<Arc<T>>,
}

impl<T> Model for SharedList<T> {
    ghost use Rattle.std.specs.Prelude.{List, length};

    ghost Value = { List T };

    ghost use Rattle.shared_lists.specs.Lists.{items_of};

    ghost view = { λ a. items_of a.last };

    ghost size = { length };

    ghost use Rattle.std.proofs.Common.{arith, length-append};

    ghost size_decreases = { λ a h. Prim.grind (arith, length-append) };
}

/// The same items, which both share.
#[tactic(auto, using(crate::proofs::Listed::one_copied))]
fn copy_items<T: Drop>(alloc: Global, items: &[Arc<T>]) -> Result<Vec<Arc<T>>, AllocError>
    ensures { IfOk result (λ copies. shared_items copies.items ≡ shared_items items.now) }
{
    let mut copies = Vec::with_capacity(alloc, MOST)?;
    for item in items {
        copies.push(Arc::try_clone(item)?)?;
    }
    Ok(copies)
}

/// These items come behind the others.
#[tactic(auto, using(crate::proofs::Listed::one_seen))]
fn add_items<'a, T>(all: &mut Vec<&'a T>, items: &'a [Arc<T>]) -> Result<(), AllocError>
    ensures { OnOk result (lent_items all.new.items
        ≡ lent_items all.old.items ++ shared_items items.now) }
{
    for item in items {
        let item: &T = item;
        all.push(item)?;
    }
    Ok(())
}

impl<T: Drop> Chunk<T> {
    /// The same chunk, which shares its items.
    fn copy(&self, alloc: Global) -> Result<Chunk<T>, AllocError>
        ensures { IfOk result (λ copy. chunk_items copy ≡ chunk_items self.now) }
    {
        let before = self.before.copy()?;
        let first = Arc::try_clone(&self.first)?;
        let more = copy_items(alloc, &self.more)?;
        Ok(Chunk {
            before,
            first,
            more,
        })
    }

    /// Whether another item doesn't fit.
    fn is_full(&self) -> bool {
        self.more.len() >= MOST
    }
}

/// A chunk with the same items that no other list shares.
fn unshare<T: Drop>(alloc: Global, arc: &mut Arc<Chunk<T>>) -> Result<(), AllocError>
    ensures { chunk_items (arc_value arc.new) ≡ chunk_items (arc_value arc.old) }
{
    if Arc::strong_count(arc) != 1 {
        let chunk = arc.copy(alloc)?;
        *arc = Arc::new(alloc, chunk)?;
    }
    Ok(())
}

impl<T> SharedList<T> {
    /// No items.
    pub fn new() -> SharedList<T>
        ensures { result ≡ [] }
    {
        SharedList { last: None }
    }

    /// The same items, which both share.
    pub fn copy(&self) -> Result<SharedList<T>, AllocError>
        ensures { IfOk result (λ copy. copy ≡ self.now) }
    {
        let Some(chunk) = &self.last else {
            return Ok(SharedList { last: None });
        };
        let chunk = Arc::try_clone(chunk)?;
        Ok(SharedList { last: Some(chunk) })
    }

    /// An item in a chunk of its own behind these.
    fn begin(
        alloc: Global,
        before: SharedList<T>,
        first: Arc<T>,
    ) -> Result<SharedList<T>, AllocError>
    where
        T: Drop,
        ensures { IfOk result (λ list. list ≡ before ++ arc_value first ∷ []) }
    {
        let chunk = Chunk {
            before,
            first,
            more: Vec::new(alloc),
        };
        let chunk = Arc::new(alloc, chunk)?;
        Ok(SharedList { last: Some(chunk) })
    }

    /// An item comes behind the others. After an Err, which is want of memory, the items are as they were.
    pub fn push(&mut self, alloc: Global, item: T) -> Result<(), AllocError>
    where
        T: Drop,
        ensures { OnOk result (self.new ≡ self.old ++ item ∷ []) }
    {
        let item = Arc::new(alloc, item)?;
        let Some(arc) = &mut self.last else {
            *self = SharedList::begin(alloc, SharedList::new(), item)?;
            return Ok(());
        };
        if arc.is_full() {
            let before = self.copy()?;
            *self = SharedList::begin(alloc, before, item)?;
            return Ok(());
        }
        unshare(alloc, arc)?;
        let Some(chunk) = Arc::get_mut(arc) else {
            return Err(AllocError);
        };
        chunk.more.push(item)?;
        Ok(())
    }

    /// These items come behind the others.
    fn add_to<'a>(&'a self, all: &mut Vec<&'a T>) -> Result<(), AllocError>
        ensures { OnOk result (lent_items all.new.items ≡ lent_items all.old.items ++ self.now) }
    {
        let Some(arc) = &self.last else {
            return Ok(());
        };
        let chunk: &Chunk<T> = arc;
        chunk.before.add_to(all)?;
        let first: &T = &chunk.first;
        all.push(first)?;
        add_items(all, &chunk.more)
    }

    /// All items, lent.
    pub fn all(&self, alloc: Global) -> Result<Vec<&T>, AllocError>
        ensures { IfOk result (λ all. lent_items all.items ≡ self.now) }
    {
        let mut all = Vec::new(alloc);
        self.add_to(&mut all)?;
        Ok(all)
    }
}

impl<T: Drop> Clone for SharedList<T> {
    ghost is_clone = { λ list copy. copy ≡ list };

    fn clone(&self) -> Result<Self, AllocError> {
        self.copy()
    }
}
