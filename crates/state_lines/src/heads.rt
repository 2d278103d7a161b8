//! The ids of states, and how far they were listed: of each state the first id behind the last one that was said.

ghost use Rattle.std.specs.Prelude.{◌≡◌, ◌++◌, ℕ, Bool, List, [], ◌∷◌, Option, None, length, vec_len, IfOk};
ghost use Rattle.dura_value.specs.Ids.{Id as PlainId};
ghost use Rattle.dura_value.specs.Views.{id_of};
ghost use Rattle.shared_maps.specs.IdOrder.{is_before};
ghost use Rattle.part_steps.specs.States.{parts_in};
ghost use Rattle.shared_maps.specs.Maps.{has_id};
ghost use Rattle.state_lines.specs.Heads.{AreHeads, AreListed, IsHead, IsLeastOf, head_of, heads_of, least_of};
ghost use Rattle.state_lines.specs.Kinds.{keeps};

use crate::kind::Kind;
use dura_value::Id;
use part_steps::PartState;
use shared_maps::OrderedIds;
use std::alloc::{AllocError, Global};

/// How far states were listed.
#[derive(Drop)]
pub(crate) struct Heads<'a> {
    /// The id that was said last, if one was.
    pub(crate) last: Option<&'a Id>,
    /// Of each state the first id behind it, if there is any.
    pub(crate) next: Vec<Option<&'a Id>>,
}

/// The ids that each state keeps something of this kind for, in their order.
pub(crate) fn all_ids(
    alloc: Global,
    kind: Kind,
    states: &[PartState],
) -> Result<Vec<OrderedIds>, AllocError>
    ensures length { IfOk result (λ lists. vec_len lists ≡ length states.now) }
    ensures lists { IfOk result (λ lists.
        AreListed (λ place. keeps kind (parts_in states.now place)) lists.items) }
{
    let mut lists = Vec::new(alloc);
    for state in states {
        lists.push(kind.ids(alloc, state)?)?;
    }
    Ok(lists)
}

/// The first id of a list behind the last one, or of all.
#[tactic(auto, using(crate::proofs::Least::is_head))]
pub(crate) fn head<'a>(ids: &'a OrderedIds, last: Option<&Id>) -> Option<&'a Id>
    ensures { IsHead (has_id ids.now) (head_of last.entry) (head_of result) }
{
    ids.next(last)
}

/// The first id of each list.
pub(crate) fn first_ids<'a>(
    alloc: Global,
    lists: &'a [OrderedIds],
) -> Result<Vec<Option<&'a Id>>, AllocError>
    ensures length { IfOk result (λ heads. vec_len heads ≡ length lists.now) }
    ensures heads { IfOk result (λ heads. (there : ℕ → PlainId → Bool) → AreListed there lists.now
        → AreHeads there None (heads_of heads.items)) }
{
    let mut heads = Vec::new(alloc);
    for ids in lists {
        heads.push(head(ids, None))?;
    }
    Ok(heads)
}

/// Whether an id comes before another.
#[tactic(auto, using(crate::proofs::Order::before_as_keys))]
fn comes_before(a: &Id, b: &Id) -> bool
    ensures { result ≡ is_before (id_of a.now) (id_of b.now) }
{
    *a < *b
}

/// The least of the heads so far, and of the one at the next place.
#[tactic(auto, using(crate::proofs::Least::no_more))]
fn lesser<'a>(
    least: Option<(usize, &'a Id)>,
    place: usize,
    head: Option<&'a Id>,
) -> Option<(usize, &'a Id)>
    ensures { (heads : List (Option PlainId)) → length heads ≡ place
        → IsLeastOf heads (least_of least.entry)
        → IsLeastOf (heads ++ head_of head.entry ∷ []) (least_of result) }
{
    match head {
        None => least,
        Some(id) => match least {
            None => Some((place, id)),
            Some((at, first)) => {
                if comes_before(id, first) {
                    Some((place, id))
                } else {
                    Some((at, first))
                }
            }
        },
    }
}

/// The place and the id of the least head, if there is any.
pub(crate) fn least<'a>(heads: &[Option<&'a Id>]) -> Option<(usize, &'a Id)>
    ensures { IsLeastOf (heads_of heads.now) (least_of result) }
{
    let mut least = None;
    for (place, head) in heads.iter().enumerate() {
        least = lesser(least, place, *head);
    }
    least
}
