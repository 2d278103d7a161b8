//! Which activities a cell gives out.

ghost use Rattle.std.specs.Prelude.{◌≡◌};
ghost use Rattle.flow_syntax.specs.Views.{flows_of};

use crate::calls::{TestCell, id_of};
use crate::cell_tests::FLOWS;
use crate::seat::{Named, leave, new_cell};
use crate::settle_tests::{ask, settle, turn_once};
use flow_reader::read_flows;
use flow_syntax::Flows;
use spec_cell::Mode;
use std::alloc::Global;
use std::marker::Brand;
use std::process::Abort;

/// There is no activity that is to be run.
fn check_none<N: Named>(rt: &impl Abort, alloc: Global, cell: &mut TestCell<N>)
    ensures number { cell.new.number ≡ cell.old.number }
    ensures slot { cell.new.slot ≡ cell.old.slot }
{
    let found = cell.next_task(alloc).expect(rt, "memory");
    let is_none = found.is_none();
    drop(found);
    assert!(rt; is_none, "nothing is to be run");
}

/// The first activity that is to be run is that of the first task of this instance, and adds.
fn check_first<N: Named>(rt: &impl Abort, alloc: Global, cell: &mut TestCell<N>, instance: &str)
    ensures number { cell.new.number ≡ cell.old.number }
    ensures slot { cell.new.slot ≡ cell.old.slot }
{
    let found = cell.next_task(alloc).expect(rt, "memory");
    let task = found.expect(rt, "a task");
    let id = id_of(rt, alloc, instance);
    let is_so = task.id == id
        && task.task == 0
        && task.activity.name.as_bytes() == b"add".as_slice();
    drop(id);
    drop(task);
    assert!(rt; is_so, "not that of {instance}");
}

/// Activities are given out once their schedules are settled, in the order of instances, each once. The caller picks the flows.
fn give_named<N: Named, A: Abort>(rt: &A, alloc: Global, flows: &Flows)
    requires flows { flows_of flows.now ≡ N.flows }
    requires count { 1 ≡ N.count }
{
    let mut cell = new_cell::<N>(alloc, 1, 0);
    ask(rt, alloc, &mut cell, "Sum/y");
    drop(turn_once(rt, alloc, flows, &mut cell, Mode::Local));
    check_none(rt, alloc, &mut cell);
    drop(settle(rt, alloc, &mut cell, 0, Mode::Local));
    check_first(rt, alloc, &mut cell, "Sum/y");
    check_none(rt, alloc, &mut cell);
    leave(cell);
}

fn give(rt: &impl Abort, alloc: Global) {
    let flows = read_flows(alloc, FLOWS).expect(rt, "flows");
    give_named::<Brand, _>(rt, alloc, &flows);
    drop(flows);
}

#[test]
fn activities_that_are_given_out(rt: HostRuntime) {
    give(&rt, rt.alloc());
}
