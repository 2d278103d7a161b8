//! The first name of a flow that stands for nothing.

ghost use Rattle.std.specs.Prelude.{◌≡◌, codes, is_some, map};
ghost use Rattle.flow_values.specs.Answers.{PartGives};
ghost use Rattle.flow_values.specs.Faults.{at, to_key, to_part};
ghost use Rattle.flow_reader.specs.Names.{known_block, known_flows, known_if, known_in, known_pairs};
ghost use Rattle.flow_syntax.specs.Check.{has_operation};
ghost use Rattle.flow_syntax.specs.Syntax.{body_of, class_of};
ghost use Rattle.flow_syntax.specs.Views.{block_of, flows_of, locked_of, statement_of};

use dura_value::Name;
use flow_syntax::{Flows, Locked, Stmt};
use flow_values::{PartError, Step, misshapen, under};
use std::alloc::Global;

/// What is said of a name at a place, by whether it stands for something.
fn known_at(alloc: Global, index: usize, is_known: bool) -> Result<(), PartError>
    ensures { PartGives (λ known. tt) result (at (to_part index) (known_if is_known)) }
{
    if is_known {
        Ok(())
    } else {
        Err(under(misshapen(alloc), Step::Part(index)))
    }
}

fn has_class(file: &Flows, class: &Name) -> bool
    ensures { result ≡ is_some (class_of (flows_of file.now) class.now) }
{
    file.class_of(class).is_some()
}

fn has_operation(file: &Flows, class: &Name, operation: &Name) -> bool
    ensures { result ≡ has_operation (class_of (flows_of file.now) class.now) operation.now }
{
    match file.class_of(class) {
        Some(class) => class.operation(operation).is_some(),
        None => false,
    }
}

/// The classes of pairs, from the first on.
#[tactic(auto, using(crate::proofs::Known::pair_known, crate::proofs::Known::pair_unknown, crate::proofs::Known::no_pairs))]
fn known_pairs(alloc: Global, file: &Flows, pairs: &[Locked]) -> Result<(), PartError>
    ensures { PartGives (λ known. tt) result
        (known_pairs (flows_of file.now) 0 (map locked_of pairs.now)) }
{
    for (index, pair) in pairs.iter().enumerate() {
        match known_at(alloc, 0, has_class(file, &pair.class)) {
            Ok(()) => {}
            Err(error) => return Err(under(error, Step::Part(index))),
        }
    }
    Ok(())
}

#[tactic(auto, using(flow_values::proofs::Parts::fails_under))]
fn pairs_at(alloc: Global, file: &Flows, pairs: &[Locked], index: usize) -> Result<(), PartError>
    ensures { PartGives (λ known. tt) result
        (at (to_part index) (known_pairs (flows_of file.now) 0 (map locked_of pairs.now))) }
{
    match known_pairs(alloc, file, pairs) {
        Ok(()) => Ok(()),
        Err(error) => Err(under(error, Step::Part(index))),
    }
}

/// The names of a statement and of those in it.
#[cycle(names)]
#[tactic(auto, using(flow_values::proofs::Parts::ends_then))]
fn known_in(alloc: Global, file: &Flows, statement: &Stmt) -> Result<(), PartError>
    ensures { PartGives (λ known. tt) result
        (known_in (flows_of file.now) (statement_of statement.now)) }
{
    match statement {
        Stmt::Sub(_, flow, _, _) => known_at(alloc, 2, file.body_of(flow).is_some()),
        Stmt::Ask(_, class, _, operation, _) => {
            known_at(alloc, 2, has_class(file, class))?;
            known_at(alloc, 4, has_operation(file, class, operation))
        }
        Stmt::Signal(class, _, operation, _) => {
            known_at(alloc, 1, has_class(file, class))?;
            known_at(alloc, 3, has_operation(file, class, operation))
        }
        Stmt::Lock(entities, body) => {
            pairs_at(alloc, file, entities, 1)?;
            block_at(alloc, file, body, 2)
        }
        Stmt::If(_, yes, no) => {
            block_at(alloc, file, yes, 2)?;
            block_at(alloc, file, no, 3)
        }
        Stmt::While(_, body) => block_at(alloc, file, body, 2),
        Stmt::Try(body, _, handler) => {
            block_at(alloc, file, body, 1)?;
            block_at(alloc, file, handler, 3)
        }
        _ => Ok(()),
    }
}

/// The block at a place of a statement.
#[cycle(names)]
#[tactic(auto, using(flow_values::proofs::Parts::fails_under))]
fn block_at(alloc: Global, file: &Flows, block: &[Stmt], index: usize) -> Result<(), PartError>
    ensures { PartGives (λ known. tt) result
        (at (to_part index) (known_block (flows_of file.now) 0 (block_of block.now))) }
{
    match known_block(alloc, file, block) {
        Ok(()) => Ok(()),
        Err(error) => Err(under(error, Step::Part(index))),
    }
}

/// The names of a block's statements, from the first on.
#[cycle(names)]
#[tactic(auto, using(crate::proofs::Known::goes_on, crate::proofs::Known::ends, crate::proofs::Known::all))]
fn known_block(alloc: Global, file: &Flows, block: &[Stmt]) -> Result<(), PartError>
    ensures { PartGives (λ known. tt) result
        (known_block (flows_of file.now) 0 (block_of block.now)) }
{
    for (index, statement) in block.iter().enumerate() {
        match known_in(alloc, file, statement) {
            Ok(()) => {}
            Err(error) => return Err(under(error, Step::Part(index))),
        }
    }
    Ok(())
}

/// The names of a flow.
#[tactic(auto, using(flow_values::proofs::Parts::fails_under))]
fn known_under(alloc: Global, file: &Flows, name: &Name, block: &[Stmt]) -> Result<(), PartError>
    ensures { PartGives (λ known. tt) result
        (at (to_key name.now) (known_block (flows_of file.now) 0 (block_of block.now))) }
{
    match known_block(alloc, file, block) {
        Ok(()) => Ok(()),
        Err(error) => Err(under(error, Step::Name(name.clone()?))),
    }
}

/// The names of all flows.
#[tactic(auto, using(crate::proofs::Known::flow_known, crate::proofs::Known::flow_unknown))]
fn known_flows(alloc: Global, file: &Flows) -> Result<(), PartError>
    ensures { PartGives (λ known. tt) result
        (known_flows (flows_of file.now) (flows_of file.now).flows) }
{
    for (name, body) in file.flows.iter() {
        match known_under(alloc, file, name, body) {
            Ok(()) => {}
            Err(error) => return Err(error),
        }
    }
    Ok(())
}

/// The names of a whole file.
#[tactic(auto, using(flow_values::proofs::Parts::fails_under))]
pub(crate) fn known_file(alloc: Global, file: &Flows) -> Result<(), PartError>
    ensures { PartGives (λ known. tt) result
        (at (to_key (codes "flows")) (known_flows (flows_of file.now) (flows_of file.now).flows)) }
{
    match known_flows(alloc, file) {
        Ok(()) => Ok(()),
        Err(error) => Err(under(error, Step::Word("flows"))),
    }
}
