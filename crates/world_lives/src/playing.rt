//! Deeds are done, one after another.

ghost use Rattle.std.specs.Prelude.{◌≡◌, ◌≤◌, [], false, length};
ghost use Rattle.std.specs.Vec.{vec_capacity};
ghost use Rattle.cell_frames.specs.Begun.{HasBegun};
ghost use Rattle.gated_store.specs.Kept.{IsKept};
ghost use Rattle.many_rules.specs.Ledgers.{ledgers, readers};
ghost use Rattle.many_rules.specs.Makes.{Makes};
ghost use Rattle.world_core.specs.World.{Stands, world};
ghost use Rattle.world_lives.specs.Lives.{Lives};

use crate::deed::Deed;
use crate::doing::do_deed;
use gated_store::GatedStore;
use many_rules::{ByRules, Picked};
use part_rows::Reactions;
use site_model::Site;
use std::alloc::Global;
use world_core::{Answer, Life};
use world_steps::look_at;

/// Each deed is done, one after another, and there is room for what they come to.
pub(crate) fn play<V: Site, M: Picked, R: Reactions>(
    alloc: Global,
    reactions: &R,
    store: &mut GatedStore<V, ByRules<M>>,
    life: &mut Life<M>,
    deeds: Vec<Deed>,
    answers: Vec<Answer>,
) -> Vec<Answer>
    requires begun { HasBegun M.origin M.rules }
    requires silent { M.rules.serves ≡ false }
    requires flows { R.flows reactions.now ≡ M.rules.flows }
    requires kept { IsKept M.origin.count (ledgers M.rules) (readers M.rules) (Makes M.rules)
        store.old }
    requires stands { Stands M.rules (world store.old life.old.cells.items
        life.old.packets.items life.old.marks.items life.old.ended) }
    requires none { answers.items ≡ [] }
    requires room { length deeds.items ≤ vec_capacity answers }
    ensures tells { V.tells store.new.logs.site → V.tells store.old.logs.site }
    ensures kept { IsKept M.origin.count (ledgers M.rules) (readers M.rules) (Makes M.rules)
        store.new }
    ensures lives { Lives M.rules life.old.mode life.old.nodes (world store.old life.old.cells.items
        life.old.packets.items life.old.marks.items life.old.ended) deeds.items result.items
        (world store.new life.new.cells.items
        life.new.packets.items life.new.marks.items life.new.ended) }
{
    let mut answers = answers;
    'deeds: for deed in deeds {
        let answer = do_deed(alloc, reactions, store, life, deed);
        look_at(&life.cells);
        if answers.push(answer).is_err() {
            unreachable!();
        }
    }
    answers
}
