//! A message to an instance, and an instance by its history.

ghost use Rattle.std.specs.Prelude.{◌≡◌, IfOk, option_map};
ghost use Rattle.dura_value.specs.Views.{id_of, body_of as said_of};
ghost use Rattle.flow_syntax.specs.Views.{flows_of};
ghost use Rattle.dura_model.specs.Deliveries.{at_stamp, to_instance};
ghost use Rattle.dura_model.specs.Partition.{instance_in};
ghost use Rattle.part_rows.specs.Views.{row_of};
ghost use Rattle.flow_steps.specs.Views.{instance_of, effect_of};

use crate::absent::{flow_in, to_nothing};
use crate::instance::{Effect, Instance};
use crate::present::to_it;
use dura_value::{Id, Message, with};
use flow_replay::replay;
use flow_syntax::Flows;
use part_rows::{Row, Waiting};
use std::alloc::{AllocError, Global};

/// An instance has a new last stamp.
fn at<'f>(mut instance: Instance<'f>, stamp: u64) -> Instance<'f>
    ensures { instance_of result ≡ at_stamp (instance_of instance.entry) stamp }
{
    instance.machine.last = stamp;
    instance
}

/// What a message to an instance makes at this stamp.
pub(crate) fn to_instance<'f>(
    alloc: Global,
    flows: &'f Flows,
    instance: Option<Instance<'f>>,
    message: &Message,
    stamp: u64,
) -> Result<Effect<'f>, AllocError>
    ensures { IfOk result (λ e. effect_of e
        ≡ to_instance (flows_of flows.now) (option_map instance_of instance.entry)
        (id_of message.now.from) (id_of message.now.to) stamp (said_of message.now.body)) }
{
    match instance {
        Some(instance) => to_it(alloc, at(instance, stamp), message, stamp),
        None => to_nothing(alloc, flows, message, stamp),
    }
}

/// A copy of those who wait.
fn copy_waiting(waiting: &Vec<Waiting>) -> Result<Vec<Waiting>, AllocError>
    ensures { IfOk result (λ copy. copy.items ≡ waiting.now.items) }
{
    waiting.clone()
}

/// The instance that a row stands for.
pub(crate) fn instance_of_row<'f>(
    alloc: Global,
    flows: &'f Flows,
    id: &Id,
    row: &Row,
) -> Result<Instance<'f>, AllocError>
    ensures { IfOk result (λ o. instance_of o
        ≡ instance_in (flows_of flows.now) (id_of id.now) (row_of row.now)) }
{
    let history = row.history.all(alloc)?;
    let machine = replay(alloc, id, flow_in(flows, id), &history)?;
    let (waiting, mut machine) = with(copy_waiting(row.waiting.get()), machine)?;
    machine.last = row.stamp;
    Ok(Instance { machine, waiting })
}
