//! A move and a stop.

ghost use Rattle.std.specs.Prelude.{◌≡◌};
ghost use Rattle.serde_json.specs.View.{view};
ghost use Rattle.move_plan.specs.Entries.{turn_in, number_below, move_in, stop_in};

use crate::json::{has_members, number_at};
use serde_json::Value;

/// A partition goes to a node.
#[derive(Clone, Copy, Debug, PartialEq, Eq)]
pub struct Move {
    /// The turn at which it goes, from 1.
    pub turn: u64,
    /// The partition, from 0.
    pub partition: u32,
    /// The node that it goes to, from 0.
    pub node: u32,
}

/// A node stops.
#[derive(Clone, Copy, Debug, PartialEq, Eq)]
pub struct Stop {
    /// The turn at which it stops, from 1.
    pub turn: u64,
    /// The node, from 0.
    pub node: u32,
}

/// The turn of an entry.
fn turn_in(entry: &Value) -> Option<u64>
    ensures { result ≡ turn_in (view entry.now) }
{
    match number_at(entry, "turn") {
        Some(turn) if turn >= 1 => Some(turn),
        _ => None,
    }
}

/// The integer under the key, if it is below the limit.
fn number_below(entry: &Value, key: &str, limit: u32) -> Option<u32>
    ensures { result ≡ number_below key.now limit (view entry.now) }
{
    match number_at(entry, key) {
        Some(number) if number < limit as u64 => Some(number as u32),
        _ => None,
    }
}

/// The move that an entry is, of so many partitions and nodes.
pub(crate) fn move_in(partitions: u32, nodes: u32, entry: &Value) -> Option<Move>
    ensures { result ≡ move_in partitions nodes (view entry.now) }
{
    if !has_members(entry, 3) {
        return None;
    }
    let turn = turn_in(entry)?;
    let partition = number_below(entry, "partition", partitions)?;
    let node = number_below(entry, "node", nodes)?;
    Some(Move {
        turn,
        partition,
        node,
    })
}

/// The stop that an entry is, of so many nodes.
pub(crate) fn stop_in(nodes: u32, entry: &Value) -> Option<Stop>
    ensures { result ≡ stop_in nodes (view entry.now) }
{
    if !has_members(entry, 2) {
        return None;
    }
    let turn = turn_in(entry)?;
    let node = number_below(entry, "node", nodes)?;
    Some(Stop { turn, node })
}
