//! A deed is done.

ghost use Rattle.std.specs.Prelude.{◌≡◌, false};
ghost use Rattle.cell_frames.specs.Begun.{HasBegun};
ghost use Rattle.gated_store.specs.Kept.{IsKept};
ghost use Rattle.many_rules.specs.Ledgers.{ledgers, readers};
ghost use Rattle.many_rules.specs.Makes.{Makes};
ghost use Rattle.world_core.specs.World.{Stands, world};
ghost use Rattle.world_lives.specs.Lives.{Does};

use crate::deed::Deed;
use gated_store::GatedStore;
use many_rules::{ByRules, Picked};
use part_rows::Reactions;
use site_model::Site;
use std::alloc::Global;
use world_core::{Answer, Life, happen};
use world_judges::judge_all;

/// Does a deed, and says what came of it: of an event what it comes to; of judging all cells Kept where that could be done, else what one
/// that could not be judged came to.
pub(crate) fn do_deed<V: Site, M: Picked, R: Reactions>(
    alloc: Global,
    reactions: &R,
    store: &mut GatedStore<V, ByRules<M>>,
    life: &mut Life<M>,
    deed: Deed,
) -> Answer
    requires begun { HasBegun M.origin M.rules }
    requires silent { M.rules.serves ≡ false }
    requires flows { R.flows reactions.now ≡ M.rules.flows }
    requires kept { IsKept M.origin.count (ledgers M.rules) (readers M.rules) (Makes M.rules)
        store.old }
    requires stands { Stands M.rules (world store.old life.old.cells.items
        life.old.packets.items life.old.marks.items life.old.ended) }
    ensures tells { V.tells store.new.logs.site → V.tells store.old.logs.site }
    ensures kept { IsKept M.origin.count (ledgers M.rules) (readers M.rules) (Makes M.rules)
        store.new }
    ensures stands { Stands M.rules (world store.new life.new.cells.items
        life.new.packets.items life.new.marks.items life.new.ended) }
    ensures does { Does M.rules life.old.mode life.old.nodes (world store.old life.old.cells.items
        life.old.packets.items life.old.marks.items life.old.ended) deed result
        (world store.new life.new.cells.items
        life.new.packets.items life.new.marks.items life.new.ended) }
    ensures fixed { (life.new.mode ≡ life.old.mode) × (life.new.nodes ≡ life.old.nodes) }
{
    match deed {
        Deed::Happen(event) => happen(alloc, reactions, store, life, event),
        Deed::JudgeAll => match judge_all(alloc, reactions, store, life) {
            Ok(()) => Answer::Kept,
            Err(answer) => answer,
        },
    }
}
