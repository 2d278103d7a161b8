//! What steps depend on, and whether it is settled or was given up.

ghost use Rattle.std.specs.Prelude.{◌≡◌, ◌<◌, true, false, drop, length, option_map, IfSome, IfNone};
ghost use Rattle.std.specs.List.{All, Contains};
ghost use Rattle.dura_value.specs.Dependencies.{Lost};
ghost use Rattle.log_items.specs.Plain.{entry_of};
ghost use Rattle.part_steps.specs.States.{state_of};
ghost use Rattle.cell_steps.specs.Depends.{identity_in, last_made, depends_on, dependencies, AreKept, IsFirstLost};
ghost use Rattle.cell_steps.specs.Steps.{entries_in};
ghost use Rattle.spec_tracker.specs.Marks.{identity_of, floors_of};

use crate::step::Step;
use entry_verdicts::lost_of;
use log_items::Entry;
use part_steps::PartState;
use spec_tracker::{Dep, Marks, Verdict};

/// The last entry that made a state, if any did.
pub fn last_made(state: &PartState) -> Option<Dep>
    ensures { option_map identity_of result ≡ last_made (state_of state.now) }
{
    let position = state.position();
    if position == 0 {
        return None;
    }
    Some(Dep {
        src: state.number(),
        inc: state.incarnation(),
        pos: position - 1,
        seq: 0,
    })
}

/// An entry of this partition.
fn name_of(number: u32, entry: &Entry) -> Dep
    ensures { identity_of result ≡ identity_in number (entry_of entry.now) }
{
    Dep {
        src: number,
        inc: entry.incarnation,
        pos: entry.position,
        seq: 0,
    }
}

/// Whether an entry was given up.
fn is_lost(marks: &Marks, dep: &Dep) -> bool
    ensures lost { result ≡ true → Lost (floors_of marks.now) (identity_of dep.now) }
    ensures kept { result ≡ false → Lost (floors_of marks.now) (identity_of dep.now) → ⊥ }
{
    match marks.verdict(dep) {
        Verdict::Lost => true,
        Verdict::Undecided | Verdict::Ready => false,
    }
}

/// What an entry depends on that was given up, if something was: the entry right before it, or one that its items name.
fn lost_in(marks: &Marks, before: Option<Dep>, entry: &Entry) -> Option<Dep>
    ensures some { IfSome result (λ dep.
        Contains (depends_on (option_map identity_of before) (entry_of entry.now)) (identity_of dep)
        × Lost (floors_of marks.now) (identity_of dep)) }
    ensures none { IfNone result
        (AreKept marks.now (depends_on (option_map identity_of before) (entry_of entry.now))) }
{
    let Some(before) = before else {
        return lost_of(marks, entry.items.as_slice());
    };
    if is_lost(marks, &before) {
        return Some(before);
    }
    lost_of(marks, entry.items.as_slice())
}

/// The same of an entry that is looked at, and nothing of another.
fn lost_where(marks: &Marks, is_looked_at: bool, before: Option<Dep>, entry: &Entry) -> Option<Dep>
    ensures looks { IfSome result (λ _. is_looked_at ≡ true) }
    ensures some { IfSome result (λ dep.
        Contains (depends_on (option_map identity_of before) (entry_of entry.now)) (identity_of dep)
        × Lost (floors_of marks.now) (identity_of dep)) }
    ensures none { is_looked_at ≡ true → IfNone result
        (AreKept marks.now (depends_on (option_map identity_of before) (entry_of entry.now))) }
{
    if is_looked_at {
        lost_in(marks, before, entry)
    } else {
        None
    }
}

/// The first step from a place on that depends on what was given up, with what that is.
pub fn first_lost(
    marks: &Marks,
    number: u32,
    before: Option<Dep>,
    steps: &[Step],
    from: usize,
) -> Option<(usize, Dep)>
    ensures some { IfSome result (λ found. IsFirstLost marks.now
        (dependencies number (option_map identity_of before) (entries_in steps.now)) from found.0
        (identity_of found.1)) }
    ensures inside { IfSome result (λ found. found.0 < length steps.now) }
    ensures none { IfNone result (All (AreKept marks.now)
        (drop from (dependencies number (option_map identity_of before) (entries_in steps.now)))) }
{
    let mut before = before;
    for (place, step) in steps.iter().enumerate() {
        if let Some(dep) = lost_where(marks, from <= place, before, &step.entry) {
            return Some((place, dep));
        }
        before = Some(name_of(number, &step.entry));
    }
    None
}
