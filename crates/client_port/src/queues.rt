//! Each client's requests.

ghost use Rattle.std.specs.Prelude.{◌≡◌, ◌<◌, [], ◌∷◌, ◌++◌, length, map, option_map, Some, None, IfOk, OnOk, IfSome};
ghost use Rattle.std.specs.List.{position_from};
ghost use Rattle.client_port.specs.Places.{all_of, PlacesStand};
ghost use Rattle.client_port.specs.Ports.{all_due, at_client, first_due, is_of, queues_of, with_request, with_said};
ghost use Rattle.client_port.specs.Views.{queue_of};
ghost use Rattle.request_reader.specs.Line.{request_of};

use dura_value::{Name, Request, with};
use std::alloc::{AllocError, Global};
use std::collections::BTreeMap;

/// A client's requests in their order.
#[derive(Drop)]
pub(crate) struct Queue {
    /// Whose they are.
    pub(crate) client: Name,
    /// All of them.
    pub(crate) requests: Vec<Request>,
    /// How many of the first were said.
    pub(crate) said: usize,
}

/// The queues of a file, and what finds a client's.
#[derive(Drop)]
pub(crate) struct Queues {
    /// The queues in the order of their clients' first requests.
    pub(crate) all: Vec<Queue>,
    /// The place of each client's.
    pub(crate) places: BTreeMap<Name, usize>,
}

/// The first request that wasn't said.
#[tactic(auto, using(crate::proofs::Dues::got))]
pub(crate) fn first_due(queue: &Queue) -> Option<&Request>
    ensures { option_map (λ r. request_of r.now) result ≡ first_due (queue_of queue.now) }
{
    queue.requests.get(queue.said)
}

/// The first request of each client that wasn't said.
pub(crate) fn all_due(alloc: Global, queues: &[Queue]) -> Result<Vec<&Request>, AllocError>
    ensures { IfOk result (λ due. map (λ r. request_of r.now) due.items
        ≡ all_due (map queue_of queues.now)) }
{
    let mut due = Vec::new(alloc);
    for queue in queues {
        if let Some(request) = first_due(queue) {
            due.push(request)?;
        }
    }
    Ok(due)
}

/// The clients of the queues.
pub(crate) fn all_clients(alloc: Global, queues: &[Queue]) -> Result<Vec<Name>, AllocError>
    ensures { IfOk result (λ names. names.items ≡ map (λ q. q.client) (map queue_of queues.now)) }
{
    let mut names = Vec::new(alloc);
    let added = add_clients(&mut names, queues);
    let (_, names) = with(added, names)?;
    Ok(names)
}

/// The clients of the queues come behind the others.
fn add_clients(names: &mut Vec<Name>, queues: &[Queue]) -> Result<(), AllocError>
    ensures { OnOk result (names.new.items
        ≡ names.old.items ++ map (λ q. q.client) (map queue_of queues.now)) }
{
    for queue in queues {
        let name = copy_of(&queue.client)?;
        names.push(name)?;
    }
    Ok(())
}

/// One more was said, where there is one.
#[tactic(auto, using(crate::proofs::Dues::counted, crate::proofs::Dues::all_said))]
fn count_said(queue: &mut Queue)
    ensures { queue_of queue.new ≡ with_said (queue_of queue.old) }
{
    if queue.said < queue.requests.as_slice().len() {
        queue.said += 1;
    }
}

/// A copy with memory of its own.
fn copy_of(name: &Name) -> Result<Name, AllocError>
    ensures { IfOk result (λ n. n ≡ name.now) }
{
    name.clone()
}

/// A queue with one request.
fn queue_with(alloc: Global, client: Name, request: Request) -> Result<Queue, AllocError>
    ensures { IfOk result (λ q. queue_of q
        ≡ record { client = client; requests = request_of request ∷ []; said = 0 }) }
{
    let mut requests = Vec::new(alloc);
    requests.push(request)?;
    Ok(Queue {
        client,
        requests,
        said: 0,
    })
}

impl Queues {
    /// There is no queue.
    fn new(alloc: Global) -> Queues
        ensures nothing { all_of result ≡ [] }
        ensures stands { PlacesStand result }
    {
        Queues {
            all: Vec::new(alloc),
            places: BTreeMap::new(alloc),
        }
    }

    /// The place of the client's queue.
    #[tactic(auto, using(crate::proofs::Stays::within))]
    pub(crate) fn place_of(&self, client: &Name) -> Option<usize>
        requires { PlacesStand self.now }
        ensures place { result ≡ position_from (is_of client.now) 0 (all_of self.now) }
        ensures within { IfSome result (λ i. i < length self.now.all.items) }
    {
        match self.places.get(client) {
            Some(place) => Some(*place),
            None => None,
        }
    }

    /// The request comes behind its client's others.
    fn join(&mut self, place: usize, request: Request) -> Result<(), AllocError>
        requires stands { PlacesStand self.old }
        requires there { Some place ≡ position_from (is_of request.client) 0 (all_of self.old) }
        requires within { place < length self.old.all.items }
        ensures joined { OnOk result (all_of self.new
            ≡ with_request (all_of self.old) (request_of request)) }
        ensures stands { OnOk result (PlacesStand self.new) }
    {
        let queue = &mut self.all[place];
        queue.requests.push(request)?;
        Ok(())
    }

    /// The client's first request opens its queue.
    fn open(&mut self, alloc: Global, request: Request) -> Result<(), AllocError>
        requires stands { PlacesStand self.old }
        requires new { None ≡ position_from (is_of request.client) 0 (all_of self.old) }
        ensures opened { OnOk result (all_of self.new
            ≡ with_request (all_of self.old) (request_of request)) }
        ensures stands { OnOk result (PlacesStand self.new) }
    {
        let place = self.all.as_slice().len();
        let (client, request) = with(copy_of(&request.client), request)?;
        let (_, request) = with(self.places.insert(client, place), request)?;
        let (client, request) = with(copy_of(&request.client), request)?;
        let queue = queue_with(alloc, client, request)?;
        self.all.push(queue)?;
        Ok(())
    }

    /// The request goes to its client's queue.
    fn add(&mut self, alloc: Global, request: Request) -> Result<(), AllocError>
        requires { PlacesStand self.old }
        ensures added { OnOk result (all_of self.new
            ≡ with_request (all_of self.old) (request_of request)) }
        ensures stands { OnOk result (PlacesStand self.new) }
    {
        match self.place_of(&request.client) {
            Some(place) => self.join(place, request),
            None => self.open(alloc, request),
        }
    }

    /// One more of the client's was said, where there is one.
    pub(crate) fn count_said(&mut self, client: &Name, place: usize)
        requires stands { PlacesStand self.old }
        requires there { Some place ≡ position_from (is_of client.now) 0 (all_of self.old) }
        requires within { place < length self.old.all.items }
        ensures counted { all_of self.new ≡ at_client with_said client.now (all_of self.old) }
        ensures stands { PlacesStand self.new }
    {
        count_said(&mut self.all[place]);
    }
}

/// The requests of a file by client.
pub(crate) fn queues_of(alloc: Global, requests: Vec<Request>) -> Result<Queues, AllocError>
    ensures queues { IfOk result (λ queues. all_of queues
        ≡ queues_of (map request_of requests.items)) }
    ensures stands { IfOk result PlacesStand }
{
    let mut queues = Queues::new(alloc);
    for request in requests {
        queues.add(alloc, request)?;
    }
    Ok(queues)
}
