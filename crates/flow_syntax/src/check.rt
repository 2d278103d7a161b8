//! Which files are well formed.

ghost use Rattle.std.specs.Prelude.{◌≡◌, is_some};
ghost use Rattle.std.specs.List.{list_all};
ghost use Rattle.flow_syntax.specs.Check.{check, may_operate, has_count, has_shape, has_operation, knows, statements, within, in_blocks, all_statements};
ghost use Rattle.flow_syntax.specs.Syntax.{class_of as class_in};
ghost use Rattle.flow_syntax.specs.Views.{statement_of, block_of, bodies_of, flows_of};
ghost use Rattle.flow_syntax.specs.Walk.{walk, keeps, placed_in, verdict_of, in_64_bits};

use crate::flows::Flows;
use crate::syntax::{Locked, Stmt};
use dura_value::{Name, SPOTS_LIMIT};
use std::collections::BTreeMap;
use thiserror::Error;

/// Where a file breaks a rule: a statement's number, flows by name before operations by class and name, each from the top.
#[derive(Clone, Copy, Debug, Error)]
pub enum CheckError {
    /// The first statement of a wrong shape.
    #[error("statement {place} may not stand there")]
    BadShape { place: u64 },
    /// Every shape is right, and this is the first statement that names what isn't there.
    #[error("statement {place} names what isn't there")]
    UnknownName { place: u64 },
}

/// What a statement is asked for.
#[derive(Clone, Copy)]
enum Rule {
    /// That it may stand there.
    Shape,
    /// That what it names is there.
    Names,
}

/// What may stand in an operation.
fn may_operate(statement: &Stmt) -> bool
    ensures { result ≡ may_operate (statement_of statement.now) }
{
    matches!(
        statement,
        Stmt::Let(..)
            | Stmt::If(..)
            | Stmt::While(..)
            | Stmt::Try(..)
            | Stmt::Return(..)
            | Stmt::Fail(..)
    )
}

/// A lock names 1 to 16 entities.
fn has_count(statement: &Stmt) -> bool
    ensures { result ≡ has_count (statement_of statement.now) }
{
    match statement {
        Stmt::Lock(entities, _) => !entities.is_empty() && entities.len() <= SPOTS_LIMIT,
        _ => true,
    }
}

fn has_shape(statement: &Stmt, in_operation: bool) -> bool
    ensures { result ≡ has_shape (placed_in in_operation (statement_of statement.now)) }
{
    has_count(statement) && (!in_operation || may_operate(statement))
}

impl Flows {
    /// Whether each statement may stand where it does, and what it names is there. A place stops at the greatest number of 64
    /// bits.
    pub fn check(&self) -> Result<(), CheckError>
        ensures { verdict_of result ≡ in_64_bits (check (flows_of self.now)) }
    {
        match self.walk(Rule::Shape) {
            Err(place) => Err(CheckError::BadShape { place }),
            Ok(_) => match self.walk(Rule::Names) {
                Err(place) => Err(CheckError::UnknownName { place }),
                Ok(_) => Ok(()),
            },
        }
    }

    fn has_operation(&self, class: &Name, operation: &Name) -> bool
        ensures { result ≡ has_operation (class_in (flows_of self.now) class.now) operation.now }
    {
        match self.class_of(class) {
            Some(class) => class.operation(operation).is_some(),
            None => false,
        }
    }

    fn has_class(&self, one: &Locked) -> bool
        ensures { result ≡ is_some (class_in (flows_of self.now) one.now.class) }
    {
        self.class_of(&one.class).is_some()
    }

    fn has_classes(&self, entities: &[Locked]) -> bool
        ensures { result ≡ list_all (λ one. is_some (class_in (flows_of self.now) one.class))
            entities.now }
    {
        entities.iter().all(|one| self.has_class(one))
    }

    /// Whether the flows, classes and operations that it names are there.
    #[tactic(auto, using(crate::proofs::Walks::list_all_of_map))]
    fn knows(&self, statement: &Stmt) -> bool
        ensures { result ≡ knows (flows_of self.now) (statement_of statement.now) }
    {
        match statement {
            Stmt::Sub(_, flow, _, _) => self.body_of(flow).is_some(),
            Stmt::Ask(_, class, _, operation, _) => self.has_operation(class, operation),
            Stmt::Signal(class, _, operation, _) => self.has_operation(class, operation),
            Stmt::Lock(entities, _) => self.has_classes(entities),
            _ => true,
        }
    }

    fn keeps(&self, rule: Rule, in_operation: bool, statement: &Stmt) -> bool
        ensures { result ≡ keeps (flows_of self.now) rule
            (placed_in in_operation (statement_of statement.now)) }
    {
        match rule {
            Rule::Shape => has_shape(statement, in_operation),
            Rule::Names => self.knows(statement),
        }
    }

    /// The number behind a block's statements, the first of which has this number, or that of the first that breaks the rule.
    #[cycle(walk)]
    fn walk_block(
        &self,
        rule: Rule,
        in_operation: bool,
        block: &[Stmt],
        number: u64,
    ) -> Result<u64, u64>
        ensures { result ≡ walk (flows_of self.now) rule number
            (statements in_operation (block_of block.now)) }
    {
        let mut next = number;
        for statement in block {
            if !self.keeps(rule, in_operation, statement) {
                return Err(next);
            }
            match self.walk_within(rule, in_operation, statement, next.saturating_add(1)) {
                Ok(behind) => next = behind,
                Err(place) => return Err(place),
            }
        }
        Ok(next)
    }

    /// The same of the statements within a statement.
    #[cycle(walk)]
    fn walk_within(
        &self,
        rule: Rule,
        in_operation: bool,
        statement: &Stmt,
        number: u64,
    ) -> Result<u64, u64>
        ensures { result ≡ walk (flows_of self.now) rule number
            (within in_operation (statement_of statement.now)) }
    {
        match statement {
            Stmt::Lock(_, body) => self.walk_block(rule, in_operation, body, number),
            Stmt::While(_, body) => self.walk_block(rule, in_operation, body, number),
            Stmt::If(_, yes, no) => {
                let next = self.walk_block(rule, in_operation, yes, number)?;
                self.walk_block(rule, in_operation, no, next)
            }
            Stmt::Try(body, _, handler) => {
                let next = self.walk_block(rule, in_operation, body, number)?;
                self.walk_block(rule, in_operation, handler, next)
            }
            _ => Ok(number),
        }
    }

    /// The same of several bodies.
    #[tactic(auto, using(crate::proofs::Walks::in_bodies_of_values, crate::proofs::Walks::behind, crate::proofs::Walks::broken))]
    fn walk_bodies(
        &self,
        rule: Rule,
        in_operation: bool,
        bodies: &BTreeMap<Name, Vec<Stmt>>,
        number: u64,
    ) -> Result<u64, u64>
        ensures { result ≡ walk (flows_of self.now) rule number
            (in_blocks in_operation (bodies_of bodies.now)) }
    {
        let mut next = number;
        for body in bodies.values() {
            match self.walk_block(rule, in_operation, body, next) {
                Ok(behind) => next = behind,
                Err(place) => return Err(place),
            }
        }
        Ok(next)
    }

    /// The same of all statements of the file.
    #[tactic(auto, using(crate::proofs::Walks::in_operations_of_values, crate::proofs::Walks::behind, crate::proofs::Walks::broken))]
    fn walk(&self, rule: Rule) -> Result<u64, u64>
        ensures { result ≡ walk (flows_of self.now) rule 0 (all_statements (flows_of self.now)) }
    {
        let mut next = self.walk_bodies(rule, false, &self.flows, 0)?;
        for class in self.classes.values() {
            match self.walk_bodies(rule, true, &class.operations, next) {
                Ok(behind) => next = behind,
                Err(place) => return Err(place),
            }
        }
        Ok(next)
    }
}
