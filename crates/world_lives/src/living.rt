//! A life of the world.

ghost use Rattle.std.specs.Prelude.{◌≡◌, ◌≤◌, ◌<◌, ◌^◌, ◌≢◌, ℕ, [], false, None, Some, length, IfSome};
ghost use Rattle.std.specs.Vec.{vec_capacity};
ghost use Rattle.call_begins.specs.Begins.{BeginsWith, IsUntouched};
ghost use Rattle.cell_frames.specs.Begun.{HasBegun};
ghost use Rattle.gated_store.specs.Kept.{IsKept};
ghost use Rattle.hub_store.specs.Opened.{IsOrigin, HasBegun as StoreBegun};
ghost use Rattle.hub_store.specs.Trail.{settled_at};
ghost use Rattle.many_rules.specs.Leaves.{Begins};
ghost use Rattle.many_rules.specs.Ledgers.{ledgers, readers};
ghost use Rattle.many_rules.specs.Makes.{Makes};
ghost use Rattle.open_logs.specs.Begun.{CanBegin, MadeBy};
ghost use Rattle.open_logs.specs.Moments.{OpensOnly};
ghost use Rattle.open_logs.specs.Spent.{WhyUnopened};
ghost use Rattle.site_model.specs.Calls.{HasRisen};
ghost use Rattle.site_model.specs.History.{content_of};
ghost use Rattle.site_model.specs.Moments.{Always};
ghost use Rattle.world_lives.specs.Begins.{rules_of};
ghost use Rattle.world_lives.specs.Lives.{WasLived, LeavesRuns, IsLife};

use crate::beginning::begin_life;
use crate::deed::Deed;
use crate::ending::end_life;
use crate::lived::{Lived, out_of_memory, refused_by};
use crate::playing::play;
use crate::shape::Shape;
use call_begins::{Named, Of, PlacedMark, Since, ledgers_of, placed_by};
use gated_store::GatedStore;
use hub_store::Ended;
use many_rules::{ByRules, Picked, end_call};
use open_logs::{Begun, OpenError, open_logs};
use part_rows::Reactions;
use part_steps::PartState;
use recover_core::RecoverError;
use site_model::Site;
use std::alloc::Global;
use std::marker::Brand;
use world_core::Answer;
use world_steps::look_at;

/// A life over a new store.
fn live_over<V: Site, M: Picked, R: Reactions>(
    alloc: Global,
    reactions: &R,
    store: GatedStore<V, ByRules<M>>,
    states: Vec<PartState>,
    incarnations: &[u64],
    shape: Shape,
    deeds: Vec<Deed>,
    answers: Vec<Answer>,
) -> Lived<V>
    requires begun { HasBegun M.origin M.rules }
    requires silent { M.rules.serves ≡ false }
    requires flows { R.flows reactions.now ≡ M.rules.flows }
    requires kept { IsKept M.origin.count (ledgers M.rules) (readers M.rules) (Makes M.rules)
        store }
    requires untouched { IsUntouched M.rules.count store }
    requires begins { BeginsWith M.rules states.items incarnations.now }
    requires count { M.rules.count ≡ shape.count }
    requires since { M.rules.since ≡ 0 }
    requires most { 64 ≤ M.rules.most }
    requires latest { store.logs.latest ≡ 0 }
    requires none { answers.items ≡ [] }
    requires room { length deeds.items ≤ vec_capacity answers }
    ensures tells { V.tells result.site → V.tells store.logs.site }
    ensures same { result.refused ≢ None → result.site ≡ store.logs.site }
    ensures nothing { result.refused ≢ None → (result.trail ≡ []) × (result.answers.items ≡ []) }
    ensures memory { IfSome result.refused (λ e. e ≡ OpenError.Refused RecoverError.Memory) }
    ensures answers { result.refused ≡ None
        → length result.answers.items ≡ length deeds.items }
    ensures was { result.refused ≡ None → WasLived M.rules shape.mode shape.nodes
        (V.tells result.site) M.origin.steps (V.history result.site) deeds.items
        result.answers.items result.trail }
    ensures further { V.tells result.site → result.refused ≡ None
        → Always (λ moment. Unit {0}) M.origin.steps (V.history result.site) }
    ensures unsettled { V.tells result.site → result.refused ≡ None → (moment : ℕ)
        → moment < length M.origin.steps → settled_at moment result.trail ≡ [] }
    ensures crash { V.tells result.site → result.refused ≡ None → (digest : ℕ)
        → Begins M.origin M.rules digest
        → LeavesRuns M.rules digest M.origin (V.history result.site) result.trail }
{
    let mut store = store;
    let Ok(mut life) = begin_life(alloc, &mut store, states, incarnations, shape) else {
        let Ended { site, trail: _ } = end_call(store);
        return out_of_memory(alloc, site);
    };
    look_at(&life.cells);
    let answers = play(alloc, reactions, &mut store, &mut life, deeds, answers);
    end_life(life);
    let Ended { site, trail } = end_call(store);
    Lived {
        site,
        trail,
        answers,
        refused: None,
    }
}

/// A life from what was recovered on. The caller picks by what it begins.
fn live_named<V: Site, N: Named, R: Reactions>(
    alloc: Global,
    site: V,
    reactions: &R,
    begun: Begun,
    placed: PlacedMark,
    shape: Shape,
    deeds: Vec<Deed>,
) -> Lived<V>
    requires some { 0 < shape.count }
    requires few { shape.count ≤ 32 }
    requires short { shape.segment ≤ 2 ^ 31 }
    requires can { CanBegin shape.count begun }
    requires made { MadeBy (R.flows reactions.now) shape.count begun placed.run }
    requires rules { N.rules ≡ rules_of (R.flows reactions.now) shape.count begun placed.run }
    requires origin { IsOrigin N.origin }
    requires goes { HasBegun N.origin N.rules }
    requires begun { V.tells site → StoreBegun N.origin (V.history site) begun.logs.items }
    ensures tells { V.tells result.site → V.tells site }
    ensures same { result.refused ≢ None → result.site ≡ site }
    ensures nothing { result.refused ≢ None → (result.trail ≡ []) × (result.answers.items ≡ []) }
    ensures memory { IfSome result.refused (λ e. e ≡ OpenError.Refused RecoverError.Memory) }
    ensures answers { result.refused ≡ None
        → length result.answers.items ≡ length deeds.items }
    ensures was { result.refused ≡ None → WasLived N.rules shape.mode shape.nodes
        (V.tells result.site) N.origin.steps (V.history result.site) deeds.items
        result.answers.items result.trail }
    ensures further { V.tells result.site → result.refused ≡ None
        → Always (λ moment. Unit {0}) N.origin.steps (V.history result.site) }
    ensures unsettled { V.tells result.site → result.refused ≡ None → (moment : ℕ)
        → moment < length N.origin.steps → settled_at moment result.trail ≡ [] }
    ensures crash { V.tells result.site → result.refused ≡ None → (digest : ℕ)
        → Begins N.origin N.rules digest
        → LeavesRuns N.rules digest N.origin (V.history result.site) result.trail }
{
    let Begun {
        states,
        logs,
        pasts,
        incarnations,
    } = begun;
    let Ok(answers) = Vec::with_capacity(alloc, deeds.len()) else {
        return out_of_memory(alloc, site);
    };
    let Ok(ledgers) = ledgers_of(alloc, &states, pasts, shape.count) else {
        return out_of_memory(alloc, site);
    };
    match GatedStore::<V, ByRules<Of<N>>>::begin(alloc, site, logs, ledgers, shape.segment) {
        Ok(store) => live_over(
            alloc,
            reactions,
            store,
            states,
            &incarnations,
            shape,
            deeds,
            answers,
        ),
        Err(site) => out_of_memory(alloc, site),
    }
}

/// A life after what happened. The caller picks that.
fn live_since<V: Site, S: Since, R: Reactions>(
    alloc: Global,
    site: V,
    reactions: &R,
    shape: Shape,
    deeds: Vec<Deed>,
) -> Lived<V>
    requires since { S.steps ≡ V.history site }
    requires some { 0 < shape.count }
    requires few { shape.count ≤ 32 }
    requires short { shape.segment ≤ 2 ^ 31 }
    ensures tells { V.tells result.site → V.tells site }
    ensures nothing { result.refused ≢ None → (result.trail ≡ []) × (result.answers.items ≡ []) }
    ensures during { V.tells result.site → result.refused ≢ None
        → OpensOnly (R.flows reactions.now) shape.count shape.digest (V.history site)
        (V.history result.site) }
    ensures refused { V.tells result.site → IfSome result.refused (WhyUnopened
        (R.flows reactions.now) shape.count shape.digest (λ file. content_of file (V.history site)) []) }
    ensures fault { result.refused ≡ Some (OpenError.Refused RecoverError.SiteFault)
        → HasRisen (V.disk_faults site) (V.disk_faults result.site) }
    ensures answers { result.refused ≡ None
        → length result.answers.items ≡ length deeds.items }
    ensures lived { result.refused ≡ None → IsLife (R.flows reactions.now) shape.count shape.digest
        shape.mode shape.nodes (V.tells result.site) (V.history site) (V.history result.site)
        deeds.items result.answers.items result.trail }
{
    let mut site = site;
    match open_logs(alloc, &mut site, reactions, &[], shape.digest, shape.count) {
        Ok(begun) => {
            let placed = placed_by::<Brand, V, R>(
                &site,
                reactions,
                shape.digest,
                shape.count,
                &begun,
            );
            live_named::<V, Brand, R>(alloc, site, reactions, begun, placed, shape, deeds)
        }
        Err(error) => refused_by(alloc, site, error),
    }
}

/// Does these deeds, one after another, from what the site's files keep on until they are used up: recovers all partitions, opens their
/// logs, begins a cell for each, and says what each deed comes to. The world is left as it is by then, as a crash would leave
/// it. Where no life begins it says why, and nothing is settled.
pub fn live<V: Site, R: Reactions>(
    alloc: Global,
    site: V,
    reactions: &R,
    shape: Shape,
    deeds: Vec<Deed>,
) -> Lived<V>
    requires some { 0 < shape.count }
    requires few { shape.count ≤ 32 }
    requires short { shape.segment ≤ 2 ^ 31 }
    ensures tells { V.tells result.site → V.tells site }
    ensures nothing { result.refused ≢ None → (result.trail ≡ []) × (result.answers.items ≡ []) }
    ensures during { V.tells result.site → result.refused ≢ None
        → OpensOnly (R.flows reactions.now) shape.count shape.digest (V.history site)
        (V.history result.site) }
    ensures refused { V.tells result.site → IfSome result.refused (WhyUnopened
        (R.flows reactions.now) shape.count shape.digest (λ file. content_of file (V.history site)) []) }
    ensures fault { result.refused ≡ Some (OpenError.Refused RecoverError.SiteFault)
        → HasRisen (V.disk_faults site) (V.disk_faults result.site) }
    ensures answers { result.refused ≡ None
        → length result.answers.items ≡ length deeds.items }
    ensures lived { result.refused ≡ None → IsLife (R.flows reactions.now) shape.count shape.digest
        shape.mode shape.nodes (V.tells result.site) (V.history site) (V.history result.site)
        deeds.items result.answers.items result.trail }
{
    live_since::<V, Brand, R>(alloc, site, reactions, shape, deeds)
}
