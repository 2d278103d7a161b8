//! What was settled: how many labels, and which clients they reached.

ghost use Rattle.std.specs.Prelude.{◌≡◌, ◌+◌, is_some, drop, length, if◌then◌else◌, IfErr, IfOk, OnOk};
ghost use Rattle.dura_model.specs.Entries.{labels_of};
ghost use Rattle.dura_model.specs.Partition.{label_in};
ghost use Rattle.hub_store.specs.Changes.{trail_in};
ghost use Rattle.hub_store.specs.Plain.{trail_of};
ghost use Rattle.log_items.specs.Plain.{item_of, items_of};
ghost use Rattle.round_steps.specs.Labels.{settled_labels};

use crate::course::{Course, Seen};
use dura_value::{Id, Name};
use flow_messages::copy_name;
use gated_store::GatedStore;
use hub_store::Settled;
use log_items::Item;
use many_rules::{ByRules, Picked};
use node_core::Halt;
use site_model::Site;
use std::alloc::AllocError;

/// Whether an item is a label.
fn is_label(item: &Item) -> bool
    ensures { result ≡ is_some (label_in (item_of item.now)) }
{
    match item {
        Item::Got(_, _, _, _, _) | Item::Trim(_, _, _, _) => false,
        _ => true,
    }
}

/// One, where an item is a label.
fn label_count(item: &Item) -> u64
    ensures { result ≡ (if is_some (label_in (item_of item.now)) then 1 else 0) }
{
    if is_label(item) { 1 } else { 0 }
}

/// How many of these items are labels.
fn labels_among(items: &[Item]) -> Result<u64, AllocError>
    ensures { IfOk result (λ n. n ≡ length (labels_of (items_of items.now))) }
{
    let mut labels: u64 = 0;
    'items: for item in items {
        let Some(more) = labels.checked_add(label_count(item)) else {
            return Err(AllocError);
        };
        labels = more;
    }
    Ok(labels)
}

/// How many labels these entries are.
fn labels_of_all(trail: &[Settled]) -> Result<u64, AllocError>
    ensures { IfOk result (λ n. n ≡ settled_labels (trail_of trail.now)) }
{
    let mut labels: u64 = 0;
    'entries: for settled in trail {
        let more = labels_among(settled.items.as_slice())?;
        let Some(all) = labels.checked_add(more) else {
            return Err(AllocError);
        };
        labels = all;
    }
    Ok(labels)
}

/// The clients that the items of an entry reached come behind others.
fn note_reached(items: &[Item], reached: &mut Vec<Name>) -> Result<(), AllocError> {
    'items: for item in items {
        if let Item::Ran(_, Id::Client(name), _) = item {
            let name = copy_name(name)?;
            if reached.push(name).is_err() {
                return Err(AllocError);
            }
        }
    }
    Ok(())
}

/// The clients that these entries reached come behind others.
fn note_all_reached(entries: &[Settled], reached: &mut Vec<Name>) -> Result<(), AllocError> {
    'entries: for settled in entries {
        note_reached(settled.items.as_slice(), reached)?;
    }
    Ok(())
}

/// How many labels were settled since so many entries.
fn labels_since(trail: &[Settled], seen: usize) -> Result<u64, AllocError>
    ensures { IfOk result (λ n. n ≡ settled_labels (drop seen (trail_of trail.now))) }
{
    let from = seen.min(trail.len());
    let labels = labels_of_all(&trail[from..])?;
    Ok(labels)
}

/// All that was settled since is looked at: its labels are counted, and the clients that it reached are noted.
pub(crate) fn look<V: Site, M: Picked>(
    store: &GatedStore<V, ByRules<M>>,
    course: &mut Course,
) -> Result<(), Halt>
    ensures port { course.new.port ≡ course.old.port }
    ensures entries { OnOk result (course.new.seen.entries ≡ length (trail_in store.now.logs)) }
    ensures labels { OnOk result (course.new.seen.labels ≡ course.old.seen.labels
        + settled_labels (drop course.old.seen.entries (trail_in store.now.logs))) }
    ensures memory { IfErr result (λ halt. halt ≡ Halt.Memory) }
{
    let trail = store.settled();
    let seen = course.seen;
    let Ok(more) = labels_since(trail, seen.entries) else {
        return Err(Halt::Memory);
    };
    let Some(labels) = seen.labels.checked_add(more) else {
        return Err(Halt::Memory);
    };
    let from = seen.entries.min(trail.len());
    if note_all_reached(&trail[from..], &mut course.reached).is_err() {
        return Err(Halt::Memory);
    }
    course.seen = Seen {
        entries: trail.len(),
        labels,
    };
    Ok(())
}
