//! What becomes of a partition's frame without its cell: it is made safe, and its gate is opened.

ghost use Rattle.std.specs.Prelude.{◌≡◌, ◌≢◌, ◌↔◌, ◌<◌, ℕ, List, false, true, Some, Err, OnOk, OnErr};
ghost use Rattle.std.specs.List.{All};
ghost use Rattle.cell_frames.specs.Joined.{view_of};
ghost use Rattle.commit_gate.specs.Refused.{Passes, RefusesFirst};
ghost use Rattle.commit_gate.specs.Views.{floors_of};
ghost use Rattle.commit_gate.specs.declared.unmet.Unmet.{Unmet as WhyUnmet};
ghost use Rattle.dura_value.specs.Items.{Entry};
ghost use Rattle.gated_store.specs.Follows.{ledgers_at};
ghost use Rattle.gated_store.specs.Keeps.{KeepsGate};
ghost use Rattle.gated_store.specs.Kept.{IsKept};
ghost use Rattle.hub_store.specs.Changes.{KeepsAll, stage_at, going_at, trail_in};
ghost use Rattle.hub_store.specs.Waiting.{stage_behind, waits};
ghost use Rattle.log_items.specs.Entries.{items_in};
ghost use Rattle.many_rules.specs.Ledgers.{ledgers, readers};
ghost use Rattle.many_rules.specs.Makes.{Makes};
ghost use Rattle.site_model.specs.Calls.{HasRisen};
ghost use Rattle.spec_cell.specs.Views.{CellView};
ghost use Rattle.world_steps.specs.Cells.{AllJoined};

use gated_store::{GateRefusal, GatedStore};
use hub_store::{Refusal, Stage, SyncRefusal};
use many_rules::{ByRules, Picked};
use site_model::Site;
use std::alloc::Global;

/// Makes the written frame of a partition safe on the disk.
pub fn sync_frame<V: Site, M: Picked>(
    store: &mut GatedStore<V, ByRules<M>>,
    part: u32,
) -> Result<(), Refusal>
    requires kept { IsKept M.origin.count (ledgers M.rules) (readers M.rules) (Makes M.rules)
        store.old }
    requires going { store.old.logs.halted ≡ false }
    requires place { part < M.rules.count }
    ensures kept { IsKept M.origin.count (ledgers M.rules) (readers M.rules) (Makes M.rules)
        store.new }
    ensures keeps { KeepsGate part store.old store.new }
    ensures joined { OnOk result ((cells : List CellView)
        → AllJoined M.rules (view_of store.old) cells
        → AllJoined M.rules (view_of store.new) cells) }
    ensures ok { OnOk result (stage_at store.new.logs part ≡ Stage.Synced) }
    ensures frame { going_at store.new.logs part ≡ going_at store.old.logs part }
    ensures trail { trail_in store.new.logs ≡ trail_in store.old.logs }
    ensures no_frame { result ≡ Err Refusal.NoFrame
        ↔ stage_at store.old.logs part ≢ Stage.Bodied }
    ensures same { result ≡ Err Refusal.NoFrame → store.new ≡ store.old }
    ensures bodied { result ≢ Err Refusal.NoFrame → stage_at store.old.logs part ≡ Stage.Bodied }
    ensures still { OnOk result (store.new.logs.halted ≡ false) }
    ensures fault { result ≡ Err Refusal.SiteFault → HasRisen
        (V.disk_faults store.old.logs.site) (V.disk_faults store.new.logs.site) }
{
    store.sync_body(part)
}

/// Opens the gate before the safe frame of a partition, if it is what it claims.
pub fn open_gate<V: Site, M: Picked>(
    store: &mut GatedStore<V, ByRules<M>>,
    part: u32,
) -> Result<(), GateRefusal>
    requires kept { IsKept M.origin.count (ledgers M.rules) (readers M.rules) (Makes M.rules)
        store.old }
    requires going { store.old.logs.halted ≡ false }
    requires place { part < M.rules.count }
    ensures kept { IsKept M.origin.count (ledgers M.rules) (readers M.rules) (Makes M.rules)
        store.new }
    ensures keeps { KeepsGate part store.old store.new }
    ensures joined { OnOk result ((cells : List CellView)
        → AllJoined M.rules (view_of store.old) cells
        → AllJoined M.rules (view_of store.new) cells) }
    ensures ok { OnOk result (stage_at store.new.logs part ≡ Stage.Gated) }
    ensures passes { OnOk result ((going : List Entry)
        → going_at store.old.logs part ≡ Some going
        → All (Passes (ledgers_at (ledgers M.rules) (trail_in store.old.logs))
        (floors_of store.old.ledgers.items) part) (items_in going)) }
    ensures unmet { (why : WhyUnmet) → result ≡ Err (GateRefusal.Unmet why)
        → (going : List Entry) × (going_at store.old.logs part ≡ Some going)
        × RefusesFirst (ledgers_at (ledgers M.rules) (trail_in store.old.logs))
        (floors_of store.old.ledgers.items) part (items_in going) why }
    ensures unchanged { (why : WhyUnmet) → result ≡ Err (GateRefusal.Unmet why)
        → store.new ≡ store.old }
    ensures frame { going_at store.new.logs part ≡ going_at store.old.logs part }
    ensures trail { trail_in store.new.logs ≡ trail_in store.old.logs }
    ensures no_frame { result ≡ Err GateRefusal.NoFrame
        ↔ stage_at store.old.logs part ≢ Stage.Synced }
    ensures same { result ≡ Err GateRefusal.NoFrame → store.new ≡ store.old }
    ensures synced { result ≢ Err GateRefusal.NoFrame
        → stage_at store.old.logs part ≡ Stage.Synced }
    ensures still { OnOk result (store.new.logs.halted ≡ false) }
    ensures fault { result ≡ Err GateRefusal.SiteFault → HasRisen
        (V.disk_faults store.old.logs.site) (V.disk_faults store.new.logs.site) }
{
    store.gate(part)
}

/// Makes safe, by one device call, the files of all partitions whose frame is written and not yet safe, or its open gate.
pub fn sync_frames<V: Site, M: Picked>(
    alloc: Global,
    store: &mut GatedStore<V, ByRules<M>>,
) -> Result<(), SyncRefusal>
    requires kept { IsKept M.origin.count (ledgers M.rules) (readers M.rules) (Makes M.rules)
        store.old }
    requires going { store.old.logs.halted ≡ false }
    ensures keeps { KeepsAll store.old.logs store.new.logs }
    ensures kept { IsKept M.origin.count (ledgers M.rules) (readers M.rules) (Makes M.rules)
        store.new }
    ensures joined { result ≢ Err SyncRefusal.SiteFault → (cells : List CellView)
        → AllJoined M.rules (view_of store.old) cells
        → AllJoined M.rules (view_of store.new) cells }
    ensures ok { OnOk result ((part : ℕ) → stage_at store.new.logs part
        ≡ stage_behind true (stage_at store.old.logs part)) }
    ensures frames { (part : ℕ) → going_at store.new.logs part ≡ going_at store.old.logs part }
    ensures trail { trail_in store.new.logs ≡ trail_in store.old.logs }
    ensures no_frame { result ≡ Err SyncRefusal.NoFrame
        → (part : ℕ) → waits (stage_at store.old.logs part) ≡ false }
    ensures same { result ≢ Err SyncRefusal.SiteFault → OnErr result (store.new ≡ store.old) }
    ensures still { result ≢ Err SyncRefusal.SiteFault → store.new.logs.halted ≡ false }
    ensures fault { result ≡ Err SyncRefusal.SiteFault → HasRisen
        (V.disk_faults store.old.logs.site) (V.disk_faults store.new.logs.site) }
{
    store.sync_all(alloc)
}
