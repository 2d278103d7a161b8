//! The shape of a whole file.

ghost use Rattle.serde_json.specs.Data.{member, no_members, object};
ghost use Rattle.json_tree.specs.View.{members_view, view};
ghost use Rattle.flow_values.specs.Answers.{PartGives};
ghost use Rattle.flow_reader.specs.Files.{bodies_in, classes_in, file_in};
ghost use Rattle.flow_syntax.specs.Views.{bodies_of, class_of, flows_of, named_by};

use crate::classes::{bodies_in, classes_in};
use dura_value::Name;
use flow_syntax::{Class, Flows, Stmt};
use flow_values::{PartError, Step, misshapen, under};
use json_tree::{Member, Tree};
use std::alloc::Global;
use std::collections::BTreeMap;

#[tactic(auto, using(flow_values::proofs::Parts::fails_under))]
fn classes_at(alloc: Global, value: &Tree<'_>) -> Result<BTreeMap<Name, Class>, PartError>
    ensures { PartGives (λ classes. named_by class_of classes.entries) result
        (classes_in (view value.now)) }
{
    match classes_in(alloc, value) {
        Ok(classes) => Ok(classes),
        Err(error) => Err(under(error, Step::Word("classes"))),
    }
}

#[tactic(auto, using(flow_values::proofs::Parts::fails_under))]
fn flows_at(alloc: Global, value: &Tree<'_>) -> Result<BTreeMap<Name, Vec<Stmt>>, PartError>
    ensures { PartGives bodies_of result (bodies_in (view value.now)) }
{
    match bodies_in(alloc, false, value) {
        Ok(flows) => Ok(flows),
        Err(error) => Err(under(error, Step::Word("flows"))),
    }
}

/// A file of one member.
#[tactic(auto, using(flow_values::proofs::Parts::ends_then))]
fn of_one(alloc: Global, key: &str, value: &Tree<'_>) -> Result<Flows, PartError>
    ensures { PartGives flows_of result
        (file_in (object (member key.now (view value.now) no_members))) }
{
    if key == "classes" {
        match classes_at(alloc, value) {
            Ok(classes) => Ok(Flows {
                flows: BTreeMap::new(alloc),
                classes,
            }),
            Err(error) => Err(error),
        }
    } else if key == "flows" {
        match flows_at(alloc, value) {
            Ok(flows) => Ok(Flows {
                flows,
                classes: BTreeMap::new(alloc),
            }),
            Err(error) => Err(error),
        }
    } else {
        Err(misshapen(alloc))
    }
}

/// A file of two members.
#[tactic(auto, using(flow_values::proofs::Parts::ends_then))]
fn of_two(
    alloc: Global,
    first: &str,
    classes: &Tree<'_>,
    second: &str,
    flows: &Tree<'_>,
) -> Result<Flows, PartError>
    ensures { PartGives flows_of result
        (file_in (object (member first.now (view classes.now)
        (member second.now (view flows.now) no_members)))) }
{
    if first == "classes" && second == "flows" {
        let classes = classes_at(alloc, classes)?;
        match flows_at(alloc, flows) {
            Ok(flows) => Ok(Flows { flows, classes }),
            Err(error) => Err(error),
        }
    } else {
        Err(misshapen(alloc))
    }
}

fn of_members(alloc: Global, members: &[Member<'_>]) -> Result<Flows, PartError>
    ensures { PartGives flows_of result (file_in (object (members_view members.now))) }
{
    match members {
        [] => Ok(Flows::new(alloc)),
        [one] => of_one(alloc, one.0, &one.1),
        [first, second] => of_two(alloc, first.0, &first.1, second.0, &second.1),
        _ => Err(misshapen(alloc)),
    }
}

/// An object with no members but `classes` and `flows`.
pub(crate) fn file_in(alloc: Global, value: &Tree<'_>) -> Result<Flows, PartError>
    ensures { PartGives flows_of result (file_in (view value.now)) }
{
    match value {
        Tree::Object(members) => of_members(alloc, members),
        _ => Err(misshapen(alloc)),
    }
}
