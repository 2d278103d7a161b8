//! Keys that begin with a digest of their id, so that most of them are told apart by one number.

ghost use Rattle.std.specs.Prelude.{◌≡◌, IfOk};
ghost use Rattle.dura_value.specs.Views.{id_of};
ghost use Rattle.shared_maps.specs.Digests.{digest_of, hashed_place, task_place};
ghost use Rattle.shared_trees.specs.Places.{place_of, place_sought};

use dura_value::{Id, fnv1a_64};
use shared_trees::{Key, Sought};
use std::alloc::{AllocError, Global};
use std::sync::Arc;

/// What the digests of the two parts of an id are multiplied by, so that their order tells.
const OF_ENTITY: u64 = 31;

const OF_FLOW: u64 = 37;

/// A digest of an id. Two ids may have the same.
pub(crate) fn digest_of(id: &Id) -> u64
    ensures { result ≡ digest_of (id_of id.now) }
{
    match id {
        Id::Client(name) => fnv1a_64(name.as_bytes()),
        Id::Entity(class, key) => {
            fnv1a_64(class.as_bytes()).wrapping_mul(OF_ENTITY) ^ fnv1a_64(key.as_bytes())
        }
        Id::Flow(flow, key) => {
            fnv1a_64(flow.as_bytes()).wrapping_mul(OF_FLOW) ^ fnv1a_64(key.as_bytes())
        }
    }
}

/// What an id and a number are kept under.
pub(crate) fn hashed_key(alloc: Global, id: Id, number: u32) -> Result<Key, AllocError>
    ensures { IfOk result (λ key. place_of key ≡ hashed_place (id_of id) number) }
{
    let lead = digest_of(&id);
    let id = Arc::new(alloc, id)?;
    Ok(Key {
        lead,
        id: Some(id),
        number,
    })
}

/// What finds an id and a number.
pub(crate) fn hashed_sought(id: &Id, number: u64) -> Sought<'_>
    ensures { place_sought result ≡ hashed_place (id_of id.now) number }
{
    Sought {
        lead: digest_of(id),
        id: Some(id),
        number,
    }
}

/// What an id and a number are kept under in the order of ids.
pub(crate) fn task_key(alloc: Global, id: Id, number: u32) -> Result<Key, AllocError>
    ensures { IfOk result (λ key. place_of key ≡ task_place (id_of id) number) }
{
    let id = Arc::new(alloc, id)?;
    Ok(Key {
        lead: 0,
        id: Some(id),
        number,
    })
}

/// What finds an id and a number in the order of ids.
pub(crate) fn task_sought(id: &Id, number: u64) -> Sought<'_>
    ensures { place_sought result ≡ task_place (id_of id.now) number }
{
    Sought {
        lead: 0,
        id: Some(id),
        number,
    }
}
