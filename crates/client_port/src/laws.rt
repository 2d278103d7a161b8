//! The law of queues. It is said of the definitions alone: the function does nothing.

ghost use Rattle.std.specs.Prelude.{◌≡◌, List, map};
ghost use Rattle.std.specs.List.{IsDistinct};
ghost use Rattle.std.specs.Str.{bytes_eq};
ghost use Rattle.client_port.specs.Clients.{clients_of, queue_for};
ghost use Rattle.client_port.specs.Ports.{queues_of};
ghost use Rattle.request_reader.specs.Line.{Request};

/// Each client has one queue, in the order of their first requests, and a queue is just its client's requests in their order.
#[tactic(auto, using(crate::proofs::Clients::each_its_own, crate::proofs::Clients::all_once))]
pub fn queues_are_of_clients()
    ensures each { (requests : List Request)
        → queues_of requests ≡ map (queue_for requests) (clients_of requests) }
    ensures once { (requests : List Request) → IsDistinct bytes_eq (clients_of requests) }
{}
