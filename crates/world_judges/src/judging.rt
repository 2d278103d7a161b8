//! All cells are judged.

ghost use Rattle.std.specs.Prelude.{◌≡◌, false, IfOk, Ok, Err, Result};
ghost use Rattle.cell_frames.specs.Begun.{HasBegun};
ghost use Rattle.gated_store.specs.Kept.{IsKept};
ghost use Rattle.many_rules.specs.Ledgers.{ledgers, readers};
ghost use Rattle.many_rules.specs.Makes.{Makes};
ghost use Rattle.world_core.specs.World.{Stands, world};
ghost use Rattle.world_judges.specs.Judging.{JudgesOnce, JudgesAll};

use gated_store::GatedStore;
use many_rules::{ByRules, Picked};
use part_rows::Reactions;
use site_model::Site;
use std::alloc::Global;
use world_core::{Answer, Event, Life, happen};
use world_steps::look_at;

/// Judges each cell in turn, by what is known of the logs by then. It says whether nothing was given up, or what a Judge answers that is
/// neither Kept nor Rewound, which ends it.
fn judge_each<V: Site, M: Picked, R: Reactions>(
    alloc: Global,
    reactions: &R,
    store: &mut GatedStore<V, ByRules<M>>,
    life: &mut Life<M>,
) -> Result<bool, Answer>
    requires begun { HasBegun M.origin M.rules }
    requires silent { M.rules.serves ≡ false }
    requires flows { R.flows reactions.now ≡ M.rules.flows }
    requires kept { IsKept M.origin.count (ledgers M.rules) (readers M.rules) (Makes M.rules)
        store.old }
    requires stands { Stands M.rules (world store.old life.old.cells.items
        life.old.packets.items life.old.marks.items life.old.ended) }
    ensures tells { V.tells store.new.logs.site → V.tells store.old.logs.site }
    ensures kept { IsKept M.origin.count (ledgers M.rules) (readers M.rules) (Makes M.rules)
        store.new }
    ensures stands { Stands M.rules (world store.new life.new.cells.items
        life.new.packets.items life.new.marks.items life.new.ended) }
    ensures judges { JudgesOnce M.rules life.old.mode life.old.nodes (world store.old life.old.cells.items
        life.old.packets.items life.old.marks.items life.old.ended) result
        (world store.new life.new.cells.items
        life.new.packets.items life.new.marks.items life.new.ended) }
    ensures fixed { (life.new.mode ≡ life.old.mode) × (life.new.nodes ≡ life.old.nodes) }
{
    let count = life.cells.len() as u32;
    let mut kept = true;
    'parts: for partition in 0..count {
        let answer = happen(
            alloc,
            reactions,
            store,
            life,
            Event::Judge { partition, ago: 0 },
        );
        look_at(&life.cells);
        match answer {
            Answer::Kept => {}
            Answer::Rewound(_, _) => kept = false,
            other => return Err(other),
        }
    }
    Ok(kept)
}

/// Judges all cells in turn, again and again, until nothing more is given up: then nothing that a cell holds depends on an entry that was
/// given up. Where a Judge answers what is neither Kept nor Rewound, it ends with that.
pub fn judge_all<V: Site, M: Picked, R: Reactions>(
    alloc: Global,
    reactions: &R,
    store: &mut GatedStore<V, ByRules<M>>,
    life: &mut Life<M>,
) -> Result<(), Answer>
    requires begun { HasBegun M.origin M.rules }
    requires silent { M.rules.serves ≡ false }
    requires flows { R.flows reactions.now ≡ M.rules.flows }
    requires kept { IsKept M.origin.count (ledgers M.rules) (readers M.rules) (Makes M.rules)
        store.old }
    requires stands { Stands M.rules (world store.old life.old.cells.items
        life.old.packets.items life.old.marks.items life.old.ended) }
    ensures tells { V.tells store.new.logs.site → V.tells store.old.logs.site }
    ensures kept { IsKept M.origin.count (ledgers M.rules) (readers M.rules) (Makes M.rules)
        store.new }
    ensures stands { Stands M.rules (world store.new life.new.cells.items
        life.new.packets.items life.new.marks.items life.new.ended) }
    ensures judges { JudgesAll M.rules life.old.mode life.old.nodes (world store.old life.old.cells.items
        life.old.packets.items life.old.marks.items life.old.ended) result
        (world store.new life.new.cells.items
        life.new.packets.items life.new.marks.items life.new.ended) }
    ensures fixed { (life.new.mode ≡ life.old.mode) × (life.new.nodes ≡ life.old.nodes) }
{
    'passes: loop {
        match judge_each(alloc, reactions, store, life) {
            Ok(true) => return Ok(()),
            Ok(false) => {}
            Err(answer) => return Err(answer),
        }
    }
}
