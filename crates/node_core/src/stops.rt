//! Nodes stop.

ghost use Rattle.std.specs.Prelude.{◌≡◌};
ghost use Rattle.node_core.specs.Stops.{has_stopped};

use move_plan::Stop;

/// Whether a node has stopped by so many turns of the store.
pub fn has_stopped(stops: &[Stop], node: u32, turns: u64) -> bool
    ensures { result ≡ has_stopped stops.now node turns }
{
    stops
        .iter()
        .any(|stop| stop.node == node && stop.turn <= turns)
}
