//! Whether what items name is settled or lost.

ghost use Rattle.std.specs.Prelude.{◌≡◌, [], ◌∷◌, true, false, option_map, option_to_list, IfSome, IfNone};
ghost use Rattle.std.specs.List.{All, Contains};
ghost use Rattle.dura_value.specs.Dependencies.{named_by, Lost, Ready};
ghost use Rattle.log_items.specs.Plain.{item_of, items_of};
ghost use Rattle.spec_tracker.specs.Marks.{identity_of, floors_of, length_in};

use log_items::Item;
use spec_tracker::{Dep, Marks, Verdict};

/// The entry that an item names, if it names one: the one whose message came in, or the one that has what is let go.
fn named_in(item: &Item) -> Option<Dep>
    ensures { named_by (item_of item.now ∷ []) ≡ option_to_list (option_map identity_of result) }
{
    match item {
        Item::Got(src, inc, pos, seq, _) => Some(Dep {
            src: *src,
            inc: *inc,
            pos: *pos,
            seq: *seq,
        }),
        Item::Trim(dst, upto, inc, pos) => Some(Dep {
            src: *dst,
            inc: *inc,
            pos: *pos,
            seq: *upto,
        }),
        _ => None,
    }
}

/// Whether an entry is settled and wasn't given up.
fn is_ready(marks: &Marks, dep: &Dep) -> bool
    ensures ready { result ≡ true → Ready (length_in marks.now) (floors_of marks.now)
        (identity_of dep.now) }
    ensures not { result ≡ false → Ready (length_in marks.now) (floors_of marks.now)
        (identity_of dep.now) → ⊥ }
{
    match marks.verdict(dep) {
        Verdict::Ready => true,
        Verdict::Undecided | Verdict::Lost => false,
    }
}

/// Whether an entry was given up.
fn is_lost(marks: &Marks, dep: &Dep) -> bool
    ensures lost { result ≡ true → Lost (floors_of marks.now) (identity_of dep.now) }
    ensures kept { result ≡ false → Lost (floors_of marks.now) (identity_of dep.now) → ⊥ }
{
    match marks.verdict(dep) {
        Verdict::Lost => true,
        Verdict::Undecided | Verdict::Ready => false,
    }
}

/// Whether what an item names, if it names anything, is settled and wasn't given up.
#[tactic(auto, using(crate::proofs::Naming::names_nothing, crate::proofs::Naming::names_one))]
fn is_item_ready(marks: &Marks, item: &Item) -> bool
    ensures ready { result ≡ true → All (Ready (length_in marks.now) (floors_of marks.now))
        (named_by (item_of item.now ∷ [])) }
    ensures not { result ≡ false → All (Ready (length_in marks.now) (floors_of marks.now))
        (named_by (item_of item.now ∷ [])) → ⊥ }
{
    match named_in(item) {
        Some(dep) => is_ready(marks, &dep),
        None => true,
    }
}

/// What was given up of what an item names, if it was.
#[tactic(auto, using(crate::proofs::Naming::names_nothing, crate::proofs::Naming::names_one, crate::proofs::Naming::found_in))]
fn lost_in(marks: &Marks, item: &Item) -> Option<Dep>
    ensures named { IfSome result (λ dep. Contains (named_by (item_of item.now ∷ []))
        (identity_of dep)) }
    ensures lost { IfSome result (λ dep. Lost (floors_of marks.now) (identity_of dep)) }
    ensures none { IfNone result (All (λ e. Lost (floors_of marks.now) e → ⊥)
        (named_by (item_of item.now ∷ []))) }
{
    let Some(dep) = named_in(item) else {
        return None;
    };
    if is_lost(marks, &dep) {
        return Some(dep);
    }
    None
}

/// Whether all that items name is settled and wasn't given up.
pub fn are_ready(marks: &Marks, items: &[Item]) -> bool
    ensures ready { result ≡ true → All (Ready (length_in marks.now) (floors_of marks.now))
        (named_by (items_of items.now)) }
    ensures not { result ≡ false → All (Ready (length_in marks.now) (floors_of marks.now))
        (named_by (items_of items.now)) → ⊥ }
{
    for item in items {
        if !is_item_ready(marks, item) {
            return false;
        }
    }
    true
}

/// An entry that items name and that was given up, if there is one: that of the first item that names one.
pub fn lost_of(marks: &Marks, items: &[Item]) -> Option<Dep>
    ensures some { IfSome result (λ dep. Contains (named_by (items_of items.now)) (identity_of dep)
        × Lost (floors_of marks.now) (identity_of dep)) }
    ensures none { IfNone result (All (λ e. Lost (floors_of marks.now) e → ⊥)
        (named_by (items_of items.now))) }
{
    for item in items {
        if let Some(dep) = lost_in(marks, item) {
            return Some(dep);
        }
    }
    None
}
