//! The plan of a file.

ghost use Rattle.std.specs.Prelude.{◌≡◌, ◌==◌, [], IfOk, position};
ghost use Rattle.serde_json.specs.View.{view, items_view};
ghost use Rattle.move_plan.specs.declared.error.Place.TheVariants as places;
ghost use Rattle.move_plan.specs.Entries.{move_in, stop_in};
ghost use Rattle.move_plan.specs.Plans.{at_place, all_in, all_stopped_at, plan_of, plan_of_lists, plan_from, plan_in, FitsRun};
ghost use Rattle.move_plan.specs.Reading.{PlanGives};

use crate::entries::{Move, Stop, move_in, stop_in};
use crate::error::{Place, PlanError};
use crate::json;
use dura_value::with;
use serde_json::Value;
use std::alloc::Global;

/// What happens in a run besides its requests: partitions that move, and nodes that stop.
#[derive(Clone, Debug, Drop, PartialEq, Eq)]
pub struct Plan {
    /// The moves in the order of the file.
    pub moves: Vec<Move>,
    /// The stops in the order of the file.
    pub stops: Vec<Stop>,
}

/// The moves of a list.
fn moves_in(
    alloc: Global,
    partitions: u32,
    nodes: u32,
    entries: &[Value],
) -> Result<Vec<Move>, PlanError>
    ensures { PlanGives (λ moves. moves.items) result
        (at_place places.Move (all_in (move_in partitions nodes) (items_view entries.now))) }
{
    let mut moves = Vec::new(alloc);
    for entry in entries {
        match move_in(partitions, nodes, entry) {
            Some(found) => moves.push(found)?,
            None => return Err(PlanError::BadPlan(Place::Move(moves.len()))),
        }
    }
    Ok(moves)
}

/// The stops of a list.
fn stops_in(alloc: Global, nodes: u32, entries: &[Value]) -> Result<Vec<Stop>, PlanError>
    ensures { PlanGives (λ stops. stops.items) result
        (at_place places.Stop (all_in (stop_in nodes) (items_view entries.now))) }
{
    let mut stops = Vec::new(alloc);
    for entry in entries {
        match stop_in(nodes, entry) {
            Some(found) => stops.push(found)?,
            None => return Err(PlanError::BadPlan(Place::Stop(stops.len()))),
        }
    }
    Ok(stops)
}

/// The place of the first stop of the node.
fn first_stop(stops: &[Stop], node: u32) -> Option<usize>
    ensures { result ≡ position (λ stop. stop.node == node) stops.now }
{
    stops.iter().position(|stop| stop.node == node)
}

/// The place of the first stop after which every node is stopped: the last of the nodes' first stops.
fn all_stopped_at(stops: &[Stop], nodes: u32) -> Option<usize>
    ensures { result ≡ all_stopped_at nodes [] stops.now }
{
    if stops.is_empty() {
        return None;
    }
    let mut last = 0;
    for node in 0..nodes {
        match first_stop(stops, node) {
            Some(place) => last = last.max(place),
            None => return None,
        }
    }
    Some(last)
}

/// The plan of a list of moves and one of stops.
fn plan_of_lists(
    alloc: Global,
    partitions: u32,
    nodes: u32,
    moves: &[Value],
    stops: &[Value],
) -> Result<Plan, PlanError>
    ensures { PlanGives plan_of result
        (plan_of_lists partitions nodes (items_view moves.now) (items_view stops.now)) }
{
    let moves = moves_in(alloc, partitions, nodes, moves)?;
    let (stops, moves) = with(stops_in(alloc, nodes, stops), moves)?;
    match all_stopped_at(&stops, nodes) {
        Some(place) => Err(PlanError::BadPlan(Place::Stop(place))),
        None => Ok(Plan { moves, stops }),
    }
}

/// The plan of an object.
fn plan_from(alloc: Global, partitions: u32, nodes: u32, value: &Value) -> Result<Plan, PlanError>
    ensures { PlanGives plan_of result (plan_from partitions nodes (view value.now)) }
{
    let count = json::one_if_at(value, "moves") + json::one_if_at(value, "stops");
    if !json::has_members(value, count) {
        return Err(PlanError::BadPlan(Place::Whole));
    }
    match (
        json::items_at(value, "moves"),
        json::items_at(value, "stops"),
    ) {
        (Some(moves), Some(stops)) => plan_of_lists(alloc, partitions, nodes, moves, stops),
        _ => Err(PlanError::BadPlan(Place::Whole)),
    }
}

/// Reads the plan of a run of so many partitions and nodes: a JSON object with the lists `moves` and `stops`, each of which may lack, and
/// no other member. Of doubled members the last counts. A move is `{"turn":t,"partition":p,"node":i}` and a stop `{"turn":t,"node":i}`,
/// of integers, with a turn from 1, a partition and a node of the run, and no other member.
///
/// It is `BadPlan` at `Whole` where there are no such lists, else at the first entry that is no move, else at the first that is no stop,
/// else at the first stop after which every node is stopped. Where no memory is left, it may be `Memory` in place of any answer.
pub fn read_plan(
    alloc: Global,
    bytes: &[u8],
    partitions: u32,
    nodes: u32,
) -> Result<Plan, PlanError>
    ensures read { PlanGives plan_of result (plan_in partitions nodes bytes.now) }
    ensures fits { IfOk result (λ plan. FitsRun partitions nodes (plan_of plan)) }
{
    let value = json::data_of(alloc, bytes)?;
    plan_from(alloc, partitions, nodes, &value)
}
