//! Bodies by names, and classes.

ghost use Rattle.std.specs.Prelude.{◌≡◌, [], codes, true};
ghost use Rattle.serde_json.specs.Data.{member, no_members, object};
ghost use Rattle.json_tree.specs.View.{members_view, view};
ghost use Rattle.flow_values.specs.Answers.{PartGives};
ghost use Rattle.flow_reader.specs.Classes.{class_in, have_names, named_after, named_in};
ghost use Rattle.flow_values.specs.Faults.{at, to_key};
ghost use Rattle.flow_reader.specs.Statements.{body_in};
ghost use Rattle.flow_values.specs.Values.{value_in};
ghost use Rattle.flow_syntax.specs.Views.{block_of, bodies_of, class_of, named_by};

use crate::bodies::body_in;
use dura_value::{Name, Value, is_name, with};
use flow_syntax::{Class, Stmt};
use flow_values::{PartError, Step, misshapen, under, value_in};
use json_tree::{Member, Tree};
use std::alloc::Global;
use std::collections::BTreeMap;

/// Whether all keys are names.
#[tactic(auto, using(crate::proofs::Members::name_here, crate::proofs::Members::no_name_here, crate::proofs::Members::all_names))]
pub(crate) fn have_names(members: &[Member<'_>]) -> bool
    ensures { result ≡ have_names (members_view members.now) }
{
    for member in members {
        if !is_name(member.0.as_bytes()) {
            return false;
        }
    }
    true
}

/// The body under a name.
#[tactic(auto, using(flow_values::proofs::Parts::fails_under))]
fn body_under(
    alloc: Global,
    inside: bool,
    name: &Name,
    value: &Tree<'_>,
) -> Result<Vec<Stmt>, PartError>
    ensures { PartGives (λ body. block_of body.items) result
        (at (to_key name.now) (body_in inside (view value.now))) }
{
    match body_in(alloc, inside, value) {
        Ok(body) => Ok(body),
        Err(error) => Err(under(error, Step::Name(name.clone()?))),
    }
}

/// The bodies of an object whose keys are names.
#[tactic(auto, using(crate::proofs::Members::put, crate::proofs::Members::ends, crate::proofs::Members::all, crate::proofs::Members::first_is_name, crate::proofs::Members::rest_are_names))]
fn bodies_from(
    alloc: Global,
    inside: bool,
    members: &[Member<'_>],
) -> Result<BTreeMap<Name, Vec<Stmt>>, PartError>
    requires { have_names (members_view members.now) ≡ true }
    ensures { PartGives bodies_of result
        (named_after (body_in inside) [] (members_view members.now)) }
{
    let mut bodies = BTreeMap::new(alloc);
    for member in members {
        let name = Name::of(alloc, member.0.as_bytes())?;
        match body_under(alloc, inside, &name, &member.1) {
            Ok(body) => drop(bodies.insert(name, body)?),
            Err(error) => return Err(error),
        }
    }
    Ok(bodies)
}

fn bodies_of_members(
    alloc: Global,
    inside: bool,
    members: &[Member<'_>],
) -> Result<BTreeMap<Name, Vec<Stmt>>, PartError>
    ensures { PartGives bodies_of result
        (named_in (body_in inside) (object (members_view members.now))) }
{
    if have_names(members) {
        bodies_from(alloc, inside, members)
    } else {
        Err(misshapen(alloc))
    }
}

/// An object of bodies by names.
pub(crate) fn bodies_in(
    alloc: Global,
    inside: bool,
    value: &Tree<'_>,
) -> Result<BTreeMap<Name, Vec<Stmt>>, PartError>
    ensures { PartGives bodies_of result (named_in (body_in inside) (view value.now)) }
{
    match value {
        Tree::Object(members) => bodies_of_members(alloc, inside, members),
        _ => Err(misshapen(alloc)),
    }
}

#[tactic(auto, using(flow_values::proofs::Parts::fails_under))]
fn init_at(alloc: Global, value: &Tree<'_>) -> Result<Value, PartError>
    ensures { PartGives (λ v. v) result (at (to_key (codes "init")) (value_in (view value.now))) }
{
    match value_in(alloc, value) {
        Ok(init) => Ok(init),
        Err(error) => Err(under(error, Step::Word("init"))),
    }
}

#[tactic(auto, using(flow_values::proofs::Parts::fails_under))]
fn operations_at(alloc: Global, value: &Tree<'_>) -> Result<BTreeMap<Name, Vec<Stmt>>, PartError>
    ensures { PartGives bodies_of result
        (at (to_key (codes "ops")) (named_in (body_in true) (view value.now))) }
{
    match bodies_in(alloc, true, value) {
        Ok(operations) => Ok(operations),
        Err(error) => Err(under(error, Step::Word("ops"))),
    }
}

/// A class of two members.
#[tactic(auto, using(flow_values::proofs::Parts::ends_then))]
fn class_of_two(
    alloc: Global,
    first: &str,
    init: &Tree<'_>,
    second: &str,
    operations: &Tree<'_>,
) -> Result<Class, PartError>
    ensures { PartGives class_of result
        (class_in (object (member first.now (view init.now)
        (member second.now (view operations.now) no_members)))) }
{
    if first == "init" && second == "ops" {
        let init = init_at(alloc, init)?;
        match with(operations_at(alloc, operations), init) {
            Ok((operations, init)) => Ok(Class { init, operations }),
            Err(error) => Err(error),
        }
    } else {
        Err(misshapen(alloc))
    }
}

fn class_of_members(alloc: Global, members: &[Member<'_>]) -> Result<Class, PartError>
    ensures { PartGives class_of result (class_in (object (members_view members.now))) }
{
    match members {
        [] => Err(misshapen(alloc)),
        [_] => Err(misshapen(alloc)),
        [first, second] => class_of_two(alloc, first.0, &first.1, second.0, &second.1),
        _ => Err(misshapen(alloc)),
    }
}

/// A class: its members are `init` and `ops`, no more and no less.
fn class_in(alloc: Global, value: &Tree<'_>) -> Result<Class, PartError>
    ensures { PartGives class_of result (class_in (view value.now)) }
{
    match value {
        Tree::Object(members) => class_of_members(alloc, members),
        _ => Err(misshapen(alloc)),
    }
}

/// The class under a name.
#[tactic(auto, using(flow_values::proofs::Parts::fails_under))]
fn class_under(alloc: Global, name: &Name, value: &Tree<'_>) -> Result<Class, PartError>
    ensures { PartGives class_of result (at (to_key name.now) (class_in (view value.now))) }
{
    match class_in(alloc, value) {
        Ok(class) => Ok(class),
        Err(error) => Err(under(error, Step::Name(name.clone()?))),
    }
}

/// The classes of an object whose keys are names.
#[tactic(auto, using(crate::proofs::Members::put, crate::proofs::Members::ends, crate::proofs::Members::all, crate::proofs::Members::first_is_name, crate::proofs::Members::rest_are_names))]
fn classes_from(alloc: Global, members: &[Member<'_>]) -> Result<BTreeMap<Name, Class>, PartError>
    requires { have_names (members_view members.now) ≡ true }
    ensures { PartGives (λ classes. named_by class_of classes.entries) result
        (named_after class_in [] (members_view members.now)) }
{
    let mut classes = BTreeMap::new(alloc);
    for member in members {
        let name = Name::of(alloc, member.0.as_bytes())?;
        match class_under(alloc, &name, &member.1) {
            Ok(class) => drop(classes.insert(name, class)?),
            Err(error) => return Err(error),
        }
    }
    Ok(classes)
}

fn classes_of_members(
    alloc: Global,
    members: &[Member<'_>],
) -> Result<BTreeMap<Name, Class>, PartError>
    ensures { PartGives (λ classes. named_by class_of classes.entries) result
        (named_in class_in (object (members_view members.now))) }
{
    if have_names(members) {
        classes_from(alloc, members)
    } else {
        Err(misshapen(alloc))
    }
}

/// An object of classes by names.
pub(crate) fn classes_in(
    alloc: Global,
    value: &Tree<'_>,
) -> Result<BTreeMap<Name, Class>, PartError>
    ensures { PartGives (λ classes. named_by class_of classes.entries) result
        (named_in class_in (view value.now)) }
{
    match value {
        Tree::Object(members) => classes_of_members(alloc, members),
        _ => Err(misshapen(alloc)),
    }
}
