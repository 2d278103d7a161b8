//! What a tree keeps things under: a number that is compared first, an id, and a second number.

ghost use Rattle.std.specs.Prelude.{◌≡◌, IfOk, option_map};
ghost use Rattle.std.specs.Arc.{arc_value};
ghost use Rattle.std.specs.Option.{option_cmp};
ghost use Rattle.shared_trees.specs.Ids.{id_cmp};
ghost use Rattle.shared_trees.specs.Places.{is_before, is_beside, place_cmp, place_of, place_sought, shared_id};

use dura_value::Id;
use std::alloc::AllocError;
use std::cmp::Ordering;
use std::sync::Arc;

/// What something is kept under. The id is shared, so that a copy of the key copies no name.
#[derive(Drop)]
pub struct Key {
    pub lead: u64,
    pub id: Option<Arc<Id>>,
    pub number: u32,
}

/// What is looked for: the parts of a key, the id only lent. The number may be one above the greatest of a key.
#[derive(Clone, Copy)]
pub struct Sought<'a> {
    pub lead: u64,
    pub id: Option<&'a Id>,
    pub number: u64,
}

/// How an id that is looked for stands to that of a key.
fn compare_ids(sought: Option<&Id>, kept: &Option<Arc<Id>>) -> Ordering
    ensures { result ≡ option_cmp id_cmp (option_map (λ id. id.now) sought.entry) (shared_id kept.now) }
{
    match (sought, kept) {
        (None, None) => Ordering::Equal,
        (None, Some(_)) => Ordering::Less,
        (Some(_), None) => Ordering::Greater,
        (Some(id), Some(kept)) => {
            let kept: &Id = kept;
            id.cmp(kept)
        }
    }
}

impl Sought<'_> {
    /// How this stands to a key. Mostly the first numbers tell.
    pub fn compare(&self, key: &Key) -> Ordering
        ensures { result ≡ place_cmp (place_sought self.now) (place_of key.now) }
    {
        match self.lead.cmp(&key.lead) {
            Ordering::Equal => compare_ids(self.id, &key.id).then(
                self.number.cmp(&(key.number as u64)),
            ),
            order => order,
        }
    }

    /// Whether this comes behind a key.
    #[tactic(auto, using(crate::proofs::Orders::greater_is_behind))]
    pub(crate) fn is_behind(&self, key: &Key) -> bool
        ensures { result ≡ is_before (place_of key.now) (place_sought self.now) }
    {
        self.compare(key).is_gt()
    }

    /// Whether a key has this id, and this number that is compared first.
    pub fn is_beside(&self, key: &Key) -> bool
        ensures { result ≡ is_beside (place_sought self.now) (place_of key.now) }
    {
        let leads = self.lead.cmp(&key.lead);
        leads.then(compare_ids(self.id, &key.id)).is_eq()
    }
}

impl Key {
    /// The same key.
    pub(crate) fn copy(&self) -> Result<Key, AllocError>
        ensures { IfOk result (λ copy. place_of copy ≡ place_of self.now) }
    {
        let id = match &self.id {
            Some(id) => Some(Arc::try_clone(id)?),
            None => None,
        };
        Ok(Key {
            lead: self.lead,
            id,
            number: self.number,
        })
    }

    /// The id of the key.
    pub fn id(&self) -> Option<&Id>
        ensures { option_map (λ id. id.now) result ≡ shared_id self.now.id }
    {
        match &self.id {
            Some(id) => {
                let id: &Id = id;
                Some(id)
            }
            None => None,
        }
    }

    /// What finds this key.
    pub(crate) fn sought(&self) -> Sought<'_>
        ensures { place_sought result ≡ place_of self.now }
    {
        Sought {
            lead: self.lead,
            id: self.id(),
            number: self.number as u64,
        }
    }
}
