//! The table of all states.

ghost use Rattle.std.specs.Prelude.{◌≡◌, ◌≤◌, ℕ, Err, length, IfErr, OnOk};
ghost use Rattle.dura_model.specs.Partition.{shown};
ghost use Rattle.part_steps.specs.States.{AreStatesOfAll, parts_in};
ghost use Rattle.site_model.specs.History.{changes_of, tape};
ghost use Rattle.site_model.specs.Calls.{HasRisen};
ghost use Rattle.state_lines.specs.Fronts.{SaysTable, StopsInTable};

use crate::error::ShowError;
use crate::kind::Kind;
use crate::lines::say_lines;
use part_rows::Reactions;
use part_steps::PartState;
use site_model::Site;
use std::alloc::Global;

/// Says the table of the world that the states of all partitions show: a line for each entity that was delivered to, then one for
/// each instance of an orchestration, each in the order of their written ids, whatever partition they live in: the id, a blank,
/// and the answer that a query of it would get.
#[tactic(auto, using(crate::proofs::Saying::stops_in_entities))]
pub fn say_table<V: Site, R: Reactions>(
    alloc: Global,
    site: &mut V,
    reactions: &R,
    states: &[PartState],
) -> Result<(), ShowError>
    // They are the states of all partitions, each at its place.
    requires { AreStatesOfAll states.now }

    ensures tells { V.tells site.new → V.tells site.old }

    // The table was said, or its first lines and, where the tape failed, a part of the next one.
    ensures said { let flows = R.flows reactions.now in
        OnOk result (SaysTable flows (shown flows (length states.now) (parts_in states.now))
        (tape (V.history site.old)) (tape (V.history site.new))) }
    ensures part { let flows = R.flows reactions.now in
        IfErr result (λ error.
        StopsInTable flows (shown flows (length states.now) (parts_in states.now)) error
        (tape (V.history site.old)) (tape (V.history site.new))) }

    // Nothing happened but to the tape.
    ensures files { (file : ℕ) → changes_of file (V.history site.new)
        ≡ changes_of file (V.history site.old) }

    ensures fault { result ≡ Err ShowError.SayFault
        → HasRisen (V.say_faults site.old) (V.say_faults site.new) }
    ensures later { V.say_faults site.old ≤ V.say_faults site.new }
    ensures disk_faults { V.disk_faults site.new ≡ V.disk_faults site.old }
{
    say_lines(alloc, site, reactions, Kind::Entity, states)?;
    say_lines(alloc, site, reactions, Kind::Instance, states)
}
