//! The answer to a client's request is said.

ghost use Rattle.std.specs.Prelude.{◌≡◌, ◌<◌, ◌≤◌, [], false, length, Err, IfOk, IfSome};
ghost use Rattle.cell_frames.specs.Begun.{HasBegun};
ghost use Rattle.gated_store.specs.Kept.{IsKept};
ghost use Rattle.many_rules.specs.Ledgers.{ledgers, readers};
ghost use Rattle.many_rules.specs.Makes.{Makes};
ghost use Rattle.site_model.specs.Calls.{HasRisen};
ghost use Rattle.world_core.specs.Happens.{HasSaid};
ghost use Rattle.world_core.specs.World.{Stands, world};

use crate::answer::Answer;
use crate::life::Life;
use dura_value::Name;
use gated_store::{GatedStore, SayRefusal};
use many_rules::{ByRules, Picked};
use site_model::Site;
use std::alloc::Global;
use world_steps::say_answer;

/// Says the answer to a client's request, if what is settled has one.
pub(crate) fn say<V: Site, M: Picked>(
    alloc: Global,
    store: &mut GatedStore<V, ByRules<M>>,
    life: &mut Life<M>,
    client: Name,
    number: u32,
) -> Answer
    requires begun { HasBegun M.origin M.rules }
    requires silent { M.rules.serves ≡ false }
    requires stands { Stands M.rules (world store.old life.old.cells.items
        life.old.packets.items life.old.marks.items life.old.ended) }
    requires going { life.old.ended ≡ false }
    requires kept { IsKept M.origin.count (ledgers M.rules) (readers M.rules) (Makes M.rules)
        store.old }
    ensures tells { V.tells store.new.logs.site → V.tells store.old.logs.site }
    ensures kept { IsKept M.origin.count (ledgers M.rules) (readers M.rules) (Makes M.rules)
        store.new }
    ensures stands { Stands M.rules (world store.new life.new.cells.items
        life.new.packets.items life.new.marks.items life.new.ended) }
    ensures makes { HasSaid M.rules client number
        (world store.old life.old.cells.items
        life.old.packets.items life.old.marks.items life.old.ended)
        (world store.new life.new.cells.items
        life.new.packets.items life.new.marks.items life.new.ended) result }
    ensures fixed { (life.new.mode ≡ life.old.mode) × (life.new.nodes ≡ life.old.nodes) }
    ensures fault { result ≡ Answer.SayFault → HasRisen
        (V.say_faults store.old.logs.site) (V.say_faults store.new.logs.site) }
{
    let said = say_answer(alloc, store, &life.cells, &client, number);
    drop(client);
    let refusal = match said {
        Ok(()) => return Answer::Said,
        Err(refusal) => refusal,
    };
    match refusal {
        SayRefusal::NotAnswered => Answer::NotAnswered,
        SayRefusal::Memory => {
            life.ended = true;
            Answer::Memory
        }
        SayRefusal::SayFault => {
            life.ended = true;
            Answer::SayFault
        }
    }
}
