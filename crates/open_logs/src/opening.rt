//! What a life begins with, from the files of all partitions.

ghost use Rattle.std.specs.Prelude.{◌≡◌, ◌≤◌, ◌<◌, map, length, Err, IfOk, IfErr, OnOk};
ghost use Rattle.client_order.specs.Clashes.{taken_in, NoClash};
ghost use Rattle.log_files.specs.Fronts.{AreSyncs};
ghost use Rattle.open_logs.specs.Begun.{CanBegin, IsMade};
ghost use Rattle.open_logs.specs.Moments.{OpensOnly};
ghost use Rattle.open_logs.specs.Opened.{AllOpened};
ghost use Rattle.open_logs.specs.Spent.{AreRefused, IsFirstSpent, OnlySynced, RefusesTaken, WhyUnopened};
ghost use Rattle.part_steps.specs.States.{parts_in};
ghost use Rattle.request_reader.specs.Line.{request_of};
ghost use Rattle.site_model.specs.Calls.{HasRisen};
ghost use Rattle.site_model.specs.History.{content_of};

use crate::begun::Begun;
use crate::error::OpenError;
use crate::formatting::{Ready, open_each};
use client_order::first_clash;
use dura_value::Request;
use part_rows::Reactions;
use part_steps::PartState;
use recover_core::{Life, Opened, RecoverError, recover};
use site_model::Site;
use std::alloc::Global;

/// The incarnations that no partition has.
const INCARNATION_LIMIT: u64 = 1 << 62;

/// The first partition whose incarnations are used up.
fn first_spent(lives: &[Life]) -> Option<usize>
    ensures { IsFirstSpent lives.now result }
{
    'places: for place in 0..lives.len() {
        if lives[place].incarnation >= INCARNATION_LIMIT {
            return Some(place);
        }
    }
    None
}

/// Refuses requests where another was taken under the client's name and the number of one of them.
fn refuse_clash(states: &[PartState], requests: &[Request]) -> Result<(), OpenError>
    requires some { 0 < length states.now }
    requires few { length states.now ≤ 32 }
    ensures ok { OnOk result (NoClash (taken_in (length states.now) (parts_in states.now))
        (map request_of requests.now)) }
    ensures err { IfErr result (RefusesTaken (taken_in (length states.now) (parts_in states.now))
        (map request_of requests.now)) }
{
    match first_clash(states, requests) {
        Ok(None) => Ok(()),
        Ok(Some(request)) => match request.client.clone() {
            Ok(client) => Err(OpenError::Clash {
                client,
                number: request.number,
            }),
            Err(_) => Err(OpenError::Refused(RecoverError::Memory)),
        },
        Err(_) => Err(OpenError::Refused(RecoverError::Memory)),
    }
}

/// Opens the logs of so many partitions for a call that serves these requests: recovers them, and makes a log for each partition that has
/// none. Where nothing is recovered, a partition's incarnations are used up, or another request was taken under the client's name and the
/// number of one of these, no log is made.
pub fn open_logs<V: Site, R: Reactions>(
    alloc: Global,
    site: &mut V,
    reactions: &R,
    requests: &[Request],
    digest: u64,
    count: u32,
) -> Result<Begun, OpenError>
    requires some { 0 < count }
    requires few { count ≤ 32 }
    ensures tells { V.tells site.new → V.tells site.old }
    ensures begins { IfOk result (CanBegin count) }
    ensures placed { IfOk result (IsMade (R.flows reactions.now) count digest (V.tells site.new)
        (λ file. content_of file (V.history site.old))) }
    ensures opened { V.tells site.new → IfOk result (AllOpened (R.flows reactions.now) count digest
        (λ file. content_of file (V.history site.old)) (V.history site.new)) }
    ensures during { V.tells site.new → OpensOnly (R.flows reactions.now) count digest
        (V.history site.old) (V.history site.new) }
    ensures refuses { V.tells site.new → IfErr result (WhyUnopened (R.flows reactions.now) count
        digest (λ file. content_of file (V.history site.old)) (map request_of requests.now)) }
    ensures no_clash { IfOk result (λ begun. NoClash (taken_in count (parts_in begun.states.items))
        (map request_of requests.now)) }
    ensures accepts { V.tells site.new → IfOk result (λ begun. AreRefused (R.flows reactions.now)
        count digest (λ file. content_of file (V.history site.old)) (map request_of requests.now) → ⊥) }
    ensures clean { V.tells site.new → AreRefused (R.flows reactions.now) count digest
        (λ file. content_of file (V.history site.old)) (map request_of requests.now)
        → AreSyncs count (V.history site.old) (V.history site.new) }
    ensures synced { IfErr result (OnlySynced count (V.history site.old) (V.history site.new)) }
    ensures fault { result ≡ Err (OpenError.Refused RecoverError.SiteFault)
        → HasRisen (V.disk_faults site.old) (V.disk_faults site.new) }
    ensures later { V.disk_faults site.old ≤ V.disk_faults site.new }
    ensures say_faults { V.say_faults site.new ≡ V.say_faults site.old }
{
    let Opened { states, lives } = match recover(alloc, site, reactions, digest, count) {
        Ok(opened) => opened,
        Err(error) => return Err(OpenError::Refused(error)),
    };
    if let Some(place) = first_spent(&lives) {
        return Err(OpenError::Spent {
            partition: place as u32,
            number: lives[place].incarnation,
        });
    }
    refuse_clash(&states, requests)?;
    let ready = match open_each(alloc, site, lives, digest, count) {
        Ok(ready) => ready,
        Err(error) => return Err(OpenError::Refused(error)),
    };
    let Ready {
        logs,
        pasts,
        incarnations,
    } = ready;
    Ok(Begun {
        states,
        logs,
        pasts,
        incarnations,
    })
}
