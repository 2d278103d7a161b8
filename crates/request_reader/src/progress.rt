//! What was read so far.

ghost use Rattle.std.specs.Prelude.{◌≡◌, ℕ, List, [], ◌∷◌, ◌++◌, None, Some, cond, IfOk, OnOk, option_map};
ghost use Rattle.std.specs.BTreeMap.{get};
ghost use Rattle.std.specs.Cmp.Lexicographic.{slice_cmp};
ghost use Rattle.std.specs.List.{find};
ghost use Rattle.std.specs.Ordering.{nat_cmp, is_eq};
ghost use Rattle.request_reader.specs.Line.{request_of};
ghost use Rattle.request_reader.specs.Progress.{pair_cmp, seen, RequestsStand};
ghost use Rattle.request_reader.specs.Requests.{is_by, latest};

use dura_value::{Name, Request, with};
use std::alloc::{AllocError, Global};
use std::collections::BTreeMap;

/// What was read so far, and what finds a request of it by its client and number.
#[derive(Drop)]
pub(crate) struct Progress {
    /// The requests in the order of the file.
    pub(crate) requests: Vec<Request>,
    /// The place of each of them.
    pub(crate) places: BTreeMap<(Name, u32), usize>,
    /// The number of each client's latest request.
    pub(crate) latest: BTreeMap<Name, u32>,
}

/// A copy with memory of its own.
pub(crate) fn copy_of(name: &Name) -> Result<Name, AllocError>
    ensures { IfOk result (λ n. n ≡ name.now) }
{
    name.clone()
}

/// The request is its client's latest.
fn note_latest(latest: &mut BTreeMap<Name, u32>, request: &Request) -> Result<(), AllocError>
    ensures { OnOk result ((name : List ℕ)
        → get (slice_cmp nat_cmp) latest.new name
        ≡ cond (is_eq (slice_cmp nat_cmp request.now.client name)) (Some request.now.number)
        (get (slice_cmp nat_cmp) latest.old name)) }
{
    let client = copy_of(&request.client)?;
    latest.insert(client, request.number)?;
    Ok(())
}

/// The request stands at the place.
fn note_place(
    places: &mut BTreeMap<(Name, u32), usize>,
    request: &Request,
    place: usize,
) -> Result<(), AllocError>
    ensures { OnOk result ((name : List ℕ) (n : ℕ)
        → get pair_cmp places.new (name, n)
        ≡ cond (is_eq (pair_cmp (request.now.client, request.now.number) (name, n))) (Some place)
        (get pair_cmp places.old (name, n))) }
{
    let client = copy_of(&request.client)?;
    places.insert((client, request.number), place)?;
    Ok(())
}

impl Progress {
    /// Nothing was read.
    pub(crate) fn new(alloc: Global) -> Progress
        ensures nothing { seen result ≡ [] }
        ensures stands { RequestsStand result }
    {
        Progress {
            requests: Vec::new(alloc),
            places: BTreeMap::new(alloc),
            latest: BTreeMap::new(alloc),
        }
    }

    /// The request of this client and number.
    pub(crate) fn earlier(&self, pair: &(Name, u32)) -> Option<&Request>
        requires { RequestsStand self.now }
        ensures { option_map (λ r. request_of r.now) result
            ≡ find (is_by pair.now.0 pair.now.1) (seen self.now) }
    {
        match self.places.get(pair) {
            Some(place) => self.requests.get(*place),
            None => None,
        }
    }

    /// The number of the client's latest request, 0 where it has none.
    pub(crate) fn latest_of(&self, client: &Name) -> u32
        requires { RequestsStand self.now }
        ensures { result ≡ latest client.now (seen self.now) }
    {
        match self.latest.get(client) {
            Some(number) => *number,
            None => 0,
        }
    }

    /// The request goes behind the others.
    pub(crate) fn push(&mut self, request: Request) -> Result<(), AllocError>
        requires stands { RequestsStand self.old }
        requires unused { find (is_by request.client request.number) (seen self.old) ≡ None }
        ensures pushed { OnOk result (seen self.new ≡ seen self.old ++ request_of request ∷ []) }
        ensures stands { OnOk result (RequestsStand self.new) }
    {
        let place = self.requests.as_slice().len();
        let (_, request) = with(note_latest(&mut self.latest, &request), request)?;
        let (_, request) = with(note_place(&mut self.places, &request, place), request)?;
        self.requests.push(request)?;
        Ok(())
    }
}
