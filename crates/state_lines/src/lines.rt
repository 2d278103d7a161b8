//! The lines of a kind, of all states.

ghost use Rattle.std.specs.Prelude.{◌≡◌, ◌≤◌, ◌++◌, ℕ, Err, length, IfErr, OnOk};
ghost use Rattle.dura_model.specs.Partition.{shown};
ghost use Rattle.dura_value.specs.Views.{id_of};
ghost use Rattle.part_steps.specs.States.{AreStatesOfAll, parts_in, state_of};
ghost use Rattle.site_model.specs.History.{changes_of, tape};
ghost use Rattle.site_model.specs.Calls.{HasRisen};
ghost use Rattle.state_lines.specs.Kinds.{has_line, kept_answer, line_answer};
ghost use Rattle.state_lines.specs.Steps.{SaysPart, SaysAll, StopsAt};
ghost use Rattle.state_lines.specs.Table.{table_line};

use crate::error::ShowError;
use crate::heads::{Heads, all_ids, first_ids, head, least};
use crate::kind::Kind;
use crate::row::say_line;
use dura_value::Id;
use part_rows::Reactions;
use part_steps::PartState;
use site_model::Site;
use std::alloc::Global;

/// Says the line of an id that a state keeps something of this kind for.
fn say_one<V: Site, R: Reactions>(
    alloc: Global,
    site: &mut V,
    reactions: &R,
    kind: Kind,
    state: &PartState,
    id: &Id,
) -> Result<(), ShowError>
    ensures tells { V.tells site.new → V.tells site.old }
    ensures said { OnOk result (tape (V.history site.new)
        ≡ tape (V.history site.old) ++ table_line (id_of id.now)
        (kept_answer kind (R.flows reactions.now) (state_of state.now) (id_of id.now))) }
    ensures part { IfErr result (λ error.
        SaysPart (table_line (id_of id.now) (kept_answer kind (R.flows reactions.now)
        (state_of state.now) (id_of id.now))) error (tape (V.history site.old))
        (tape (V.history site.new))) }
    ensures files { (file : ℕ) → changes_of file (V.history site.new)
        ≡ changes_of file (V.history site.old) }
    ensures fault { result ≡ Err ShowError.SayFault
        → HasRisen (V.say_faults site.old) (V.say_faults site.new) }
    ensures later { V.say_faults site.old ≤ V.say_faults site.new }
    ensures disk_faults { V.disk_faults site.new ≡ V.disk_faults site.old }
{
    match kind.answer(alloc, reactions, state, id)? {
        Some(answer) => {
            let said = say_line(alloc, site, id, &answer);
            drop(answer);
            said
        }
        None => Ok(()),
    }
}

/// Says the lines of a kind for all ids, in their order. The ids of each state are listed once; a state answers where the next of
/// its ids is the least.
pub(crate) fn say_lines<V: Site, R: Reactions>(
    alloc: Global,
    site: &mut V,
    reactions: &R,
    kind: Kind,
    states: &[PartState],
) -> Result<(), ShowError>
    requires { AreStatesOfAll states.now }
    ensures tells { V.tells site.new → V.tells site.old }
    ensures said { let flows = R.flows reactions.now in
        let world = shown flows (length states.now) (parts_in states.now) in
        OnOk result (SaysAll (has_line kind world) (line_answer kind flows world)
        (tape (V.history site.old)) (tape (V.history site.new))) }
    ensures part { let flows = R.flows reactions.now in
        let world = shown flows (length states.now) (parts_in states.now) in
        IfErr result (λ error. StopsAt (has_line kind world) (line_answer kind flows world) error
        (tape (V.history site.old)) (tape (V.history site.new))) }
    ensures files { (file : ℕ) → changes_of file (V.history site.new)
        ≡ changes_of file (V.history site.old) }
    ensures fault { result ≡ Err ShowError.SayFault
        → HasRisen (V.say_faults site.old) (V.say_faults site.new) }
    ensures later { V.say_faults site.old ≤ V.say_faults site.new }
    ensures disk_faults { V.disk_faults site.new ≡ V.disk_faults site.old }
{
    let lists = all_ids(alloc, kind, states)?;
    let next = first_ids(alloc, &lists)?;
    let mut heads = Heads { last: None, next };
    'lines: while let Some((place, id)) = least(&heads.next) {
        say_one(alloc, site, reactions, kind, &states[place], id)?;
        heads.last = Some(id);
        heads.next[place] = head(&lists[place], heads.last);
    }
    Ok(())
}
