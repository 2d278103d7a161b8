//! An event happens.

ghost use Rattle.std.specs.Prelude.{◌≡◌, ◌≤◌, ◌<◌, false, true, length};
ghost use Rattle.cell_frames.specs.Begun.{HasBegun};
ghost use Rattle.gated_store.specs.Kept.{IsKept};
ghost use Rattle.many_rules.specs.Ledgers.{ledgers, readers};
ghost use Rattle.many_rules.specs.Makes.{Makes};
ghost use Rattle.site_model.specs.Calls.{HasRisen};
ghost use Rattle.world_core.specs.Happens.{Happens, Makes as MakesOf};
ghost use Rattle.world_core.specs.Unmet.{names_nothing};
ghost use Rattle.world_core.specs.World.{Stands, world};

use crate::answer::Answer;
use crate::coming::{arrive, fire, record, submit, trim};
use crate::event::Event;
use crate::life::Life;
use crate::meeting::names_nothing;
use crate::saying::say;
use crate::working::{body, gate, judge, out_of_memory, own, settle, sync_body, turn};
use gated_store::GatedStore;
use many_rules::{ByRules, Picked};
use part_rows::Reactions;
use site_model::Site;
use std::alloc::Global;

/// An event happens that can.
fn make<V: Site, M: Picked, R: Reactions>(
    alloc: Global,
    reactions: &R,
    store: &mut GatedStore<V, ByRules<M>>,
    life: &mut Life<M>,
    event: Event,
) -> Answer
    requires begun { HasBegun M.origin M.rules }
    requires silent { M.rules.serves ≡ false }
    requires flows { R.flows reactions.now ≡ M.rules.flows }
    requires kept { IsKept M.origin.count (ledgers M.rules) (readers M.rules) (Makes M.rules)
        store.old }
    requires stands { Stands M.rules (world store.old life.old.cells.items
        life.old.packets.items life.old.marks.items life.old.ended) }
    requires going { life.old.ended ≡ false }
    requires met { names_nothing M.rules.count life.old.nodes (world store.old life.old.cells.items
        life.old.packets.items life.old.marks.items life.old.ended) event
        ≡ false }
    ensures tells { V.tells store.new.logs.site → V.tells store.old.logs.site }
    ensures kept { IsKept M.origin.count (ledgers M.rules) (readers M.rules) (Makes M.rules)
        store.new }
    ensures stands { Stands M.rules (world store.new life.new.cells.items
        life.new.packets.items life.new.marks.items life.new.ended) }
    ensures makes { MakesOf M.rules life.old.mode (world store.old life.old.cells.items
        life.old.packets.items life.old.marks.items life.old.ended) event result
        (world store.new life.new.cells.items
        life.new.packets.items life.new.marks.items life.new.ended) }
    ensures fixed { (life.new.mode ≡ life.old.mode) × (life.new.nodes ≡ life.old.nodes) }
    ensures fault { result ≡ Answer.SiteFault → HasRisen
        (V.disk_faults store.old.logs.site) (V.disk_faults store.new.logs.site) }
    ensures say_fault { result ≡ Answer.SayFault → HasRisen
        (V.say_faults store.old.logs.site) (V.say_faults store.new.logs.site) }
{
    match event {
        Event::Submit { request } => submit(alloc, store, life, request),
        Event::Arrive { partition, packet } => arrive(alloc, store, life, partition, packet),
        Event::Turn { partition, limit } => turn(alloc, reactions, store, life, partition, limit),
        Event::Body { partition, ago } => {
            let place = life.marks.len() - 1 - ago;
            body(alloc, store, life, partition, place)
        }
        Event::SyncBody { partition } => sync_body(store, life, partition),
        Event::Gate { partition } => gate(store, life, partition),
        Event::Settle { partition } => settle(alloc, store, life, partition),
        Event::Judge { partition, ago } => {
            let place = life.marks.len() - 1 - ago;
            judge(alloc, store, life, partition, place)
        }
        Event::Outcome { partition, ended } => record(alloc, store, life, partition, ended),
        Event::Fire { partition, now } => fire(store, life, partition, now),
        Event::Trim { partition, ago } => {
            let place = life.marks.len() - 1 - ago;
            trim(alloc, store, life, partition, place)
        }
        Event::Own { partition, node } => own(alloc, store, life, partition, node),
        Event::Say { client, number } => say(alloc, store, life, client, number),
        Event::Stop { node: _ } | Event::Image => Answer::Seen,
    }
}

/// An event happens, by the calls of a cell and of the store that it stands for, and says what came of it. One that can't is Unmet, and
/// changes nothing; so is each once the life is over. What is committed by it may be committed, so that at each moment a crash leaves files
/// that stand for a run, whatever packets came again or late.
pub fn happen<V: Site, M: Picked, R: Reactions>(
    alloc: Global,
    reactions: &R,
    store: &mut GatedStore<V, ByRules<M>>,
    life: &mut Life<M>,
    event: Event,
) -> Answer
    requires begun { HasBegun M.origin M.rules }
    requires silent { M.rules.serves ≡ false }
    requires flows { R.flows reactions.now ≡ M.rules.flows }
    requires kept { IsKept M.origin.count (ledgers M.rules) (readers M.rules) (Makes M.rules)
        store.old }
    requires stands { Stands M.rules (world store.old life.old.cells.items
        life.old.packets.items life.old.marks.items life.old.ended) }
    ensures tells { V.tells store.new.logs.site → V.tells store.old.logs.site }
    ensures kept { IsKept M.origin.count (ledgers M.rules) (readers M.rules) (Makes M.rules)
        store.new }
    ensures stands { Stands M.rules (world store.new life.new.cells.items
        life.new.packets.items life.new.marks.items life.new.ended) }
    ensures happens { Happens M.rules life.old.mode life.old.nodes (world store.old life.old.cells.items
        life.old.packets.items life.old.marks.items life.old.ended) event result
        (world store.new life.new.cells.items
        life.new.packets.items life.new.marks.items life.new.ended) }
    ensures fixed { (life.new.mode ≡ life.old.mode) × (life.new.nodes ≡ life.old.nodes) }
    ensures fault { result ≡ Answer.SiteFault → HasRisen
        (V.disk_faults store.old.logs.site) (V.disk_faults store.new.logs.site) }
    ensures say_fault { result ≡ Answer.SayFault → HasRisen
        (V.say_faults store.old.logs.site) (V.say_faults store.new.logs.site) }
{
    if life.ended {
        drop(event);
        return Answer::Unmet;
    }
    match names_nothing(alloc, store, life, &event) {
        Ok(false) => make(alloc, reactions, store, life, event),
        Ok(true) => {
            drop(event);
            Answer::Unmet
        }
        Err(_) => {
            drop(event);
            out_of_memory(life)
        }
    }
}
