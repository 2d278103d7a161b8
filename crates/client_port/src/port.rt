//! What is due.

ghost use Rattle.std.specs.Prelude.{◌≡◌, map, option_map, IfOk};
ghost use Rattle.client_port.specs.Ports.{all_due, at_client, due_of, queues_of, with_said};
ghost use Rattle.request_reader.specs.Line.{request_of};

use crate::queues::{Queues, all_clients, all_due, first_due, queues_of};
use dura_value::{Name, Request};
use std::alloc::{AllocError, Global};
use std::marker::Model;

/// What clients may send next. A contract sees each client's queue.
#[derive(Drop)]
pub struct Port {
    queues: Queues,
}

impl Model for Port {
    ghost use Rattle.std.specs.Prelude.{List};
    ghost use Rattle.client_port.specs.Places.{all_of, PlacesStand};
    ghost use Rattle.client_port.specs.Ports.{Queue};

    ghost Value = { List Queue };

    ghost view = { λ p. all_of p.queues };

    ghost invariant = { λ p. PlacesStand p.queues };
}

impl Port {
    /// Nothing of the requests was said.
    pub fn new(alloc: Global, requests: Vec<Request>) -> Result<Port, AllocError>
        ensures { IfOk result (λ p. p ≡ queues_of (map request_of requests.items)) }
    {
        let queues = queues_of(alloc, requests)?;
        Ok(Port { queues })
    }

    /// The clients, in the order of their first requests.
    pub fn clients(&self, alloc: Global) -> Result<Vec<Name>, AllocError>
        ensures { IfOk result (λ names. names.items ≡ map (λ q. q.client) self.now) }
    {
        all_clients(alloc, &self.queues.all)
    }

    /// Each client's first request that wasn't said.
    pub fn due(&self, alloc: Global) -> Result<Vec<&Request>, AllocError>
        ensures { IfOk result (λ due. map (λ r. request_of r.now) due.items ≡ all_due self.now) }
    {
        all_due(alloc, &self.queues.all)
    }

    /// What is due of one client, found without a look at the others.
    #[tactic(auto, using(crate::proofs::Changes::due_at, crate::proofs::Changes::undue))]
    pub fn next_of(&self, client: &Name) -> Option<&Request>
        ensures { option_map (λ r. request_of r.now) result ≡ due_of client.now self.now }
    {
        match self.queues.place_of(client) {
            Some(place) => first_due(&self.queues.all[place]),
            None => None,
        }
    }

    /// The client's next request, where there is one, counts as said: the one behind it is due.
    #[tactic(auto, using(crate::proofs::Changes::unchanged))]
    pub fn said(&mut self, client: &Name)
        ensures { self.new ≡ at_client with_said client.now self.old }
    {
        if let Some(place) = self.queues.place_of(client) {
            self.queues.count_said(client, place);
        }
    }
}
