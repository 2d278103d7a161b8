//! Expressions.

ghost use Rattle.std.specs.Prelude.{◌≡◌, Ok, length, option_map};
ghost use Rattle.serde_json.specs.Data.{array, no_members, member, object};
ghost use Rattle.json_tree.specs.View.{items_view, members_view, view};
ghost use Rattle.flow_values.specs.Answers.{PartGives};
ghost use Rattle.flow_values.specs.Expressions.{binary_in, expression_in, expressions_from, is_word, list_in, operation_in, unary_in};
ghost use Rattle.flow_values.specs.Faults.{at, to_part, ◌>>=◌ as bind};
ghost use Rattle.flow_values.specs.Values.{scalar_in};
ghost use Rattle.flow_syntax.specs.Syntax.{scalar};
ghost use Rattle.flow_syntax.specs.Views.{binary_of, expression_of, parts_of, unary_of};

use crate::faults::{PartError, Step, under};
use crate::values::{misshapen, name_in, scalar_in};
use flow_syntax::{BinaryOp, Expr, UnaryOp};
use json_tree::{Member, Tree};
use std::alloc::Global;

/// Whether it is this text.
pub fn is_word(value: &Tree<'_>, word: &str) -> bool
    ensures { result ≡ is_word word.now (view value.now) }
{
    match value {
        Tree::String(text) => *text == word,
        Tree::Null => false,
        Tree::Bool(_) => false,
        Tree::Number(_) => false,
        Tree::Array(_) => false,
        Tree::Object(_) => false,
    }
}

fn unary_in(value: &Tree<'_>) -> Option<UnaryOp>
    ensures { option_map unary_of result ≡ unary_in (view value.now) }
{
    if is_word(value, "not") {
        Some(UnaryOp::Not)
    } else if is_word(value, "len") {
        Some(UnaryOp::Len)
    } else if is_word(value, "str") {
        Some(UnaryOp::Str)
    } else {
        None
    }
}

fn binary_in(value: &Tree<'_>) -> Option<BinaryOp>
    ensures { option_map binary_of result ≡ binary_in (view value.now) }
{
    if is_word(value, "add") {
        Some(BinaryOp::Add)
    } else if is_word(value, "sub") {
        Some(BinaryOp::Sub)
    } else if is_word(value, "mul") {
        Some(BinaryOp::Mul)
    } else if is_word(value, "div") {
        Some(BinaryOp::Div)
    } else if is_word(value, "rem") {
        Some(BinaryOp::Rem)
    } else if is_word(value, "eq") {
        Some(BinaryOp::Eq)
    } else if is_word(value, "lt") {
        Some(BinaryOp::Lt)
    } else if is_word(value, "and") {
        Some(BinaryOp::And)
    } else if is_word(value, "or") {
        Some(BinaryOp::Or)
    } else if is_word(value, "cat") {
        Some(BinaryOp::Cat)
    } else if is_word(value, "at") {
        Some(BinaryOp::At)
    } else if is_word(value, "push") {
        Some(BinaryOp::Push)
    } else {
        None
    }
}

fn scalar_of(alloc: Global, value: &Tree<'_>) -> Result<Expr, PartError>
    ensures { PartGives expression_of result
        (bind (scalar_in (view value.now)) (λ s. Ok (scalar s))) }
{
    match scalar_in(alloc, value) {
        Ok(scalar) => Ok(Expr::Scalar(scalar)),
        Err(error) => Err(error),
    }
}

/// An expression: a scalar is itself, and an object with one member is a variable, a list or an operation.
#[cycle(expressions)]
pub fn expression_in(alloc: Global, value: &Tree<'_>) -> Result<Expr, PartError>
    ensures { PartGives expression_of result (expression_in (view value.now)) }
{
    match value {
        Tree::Object(members) => object_in(alloc, members),
        Tree::Array(_) => Err(misshapen(alloc)),
        Tree::Null => scalar_of(alloc, value),
        Tree::Bool(_) => scalar_of(alloc, value),
        Tree::Number(_) => scalar_of(alloc, value),
        Tree::String(_) => scalar_of(alloc, value),
    }
}

/// An object that is an expression.
#[cycle(expressions)]
fn object_in(alloc: Global, members: &[Member<'_>]) -> Result<Expr, PartError>
    ensures { PartGives expression_of result (expression_in (object (members_view members.now))) }
{
    let mut entries = members.iter();
    match entries.next() {
        Some(member) => match entries.next() {
            Some(_) => Err(misshapen(alloc)),
            None => member_in(alloc, member.0, &member.1),
        },
        None => Err(misshapen(alloc)),
    }
}

/// The only member of an object that is an expression.
#[cycle(expressions)]
#[tactic(auto, using(crate::proofs::Parts::ends_under))]
fn member_in(alloc: Global, key: &str, inside: &Tree<'_>) -> Result<Expr, PartError>
    ensures { PartGives expression_of result
        (expression_in (object (member key.now (view inside.now) no_members))) }
{
    if key == "v" {
        match name_in(alloc, inside) {
            Ok(name) => Ok(Expr::Variable(name)),
            Err(error) => Err(under(error, Step::Word("v"))),
        }
    } else if key == "list" {
        match list_in(alloc, inside) {
            Ok(parts) => Ok(Expr::list(parts)),
            Err(error) => Err(under(error, Step::Word("list"))),
        }
    } else if key == "do" {
        match operation_in(alloc, inside) {
            Ok(operation) => Ok(operation),
            Err(error) => Err(under(error, Step::Word("do"))),
        }
    } else {
        Err(misshapen(alloc))
    }
}

/// An array of expressions.
#[cycle(expressions)]
fn list_in(alloc: Global, value: &Tree<'_>) -> Result<Vec<Expr>, PartError>
    ensures { PartGives (λ parts. parts_of parts.items) result (list_in (view value.now)) }
{
    match value {
        Tree::Array(items) => parts_in(alloc, items),
        Tree::Null => Err(misshapen(alloc)),
        Tree::Bool(_) => Err(misshapen(alloc)),
        Tree::Number(_) => Err(misshapen(alloc)),
        Tree::String(_) => Err(misshapen(alloc)),
        Tree::Object(_) => Err(misshapen(alloc)),
    }
}

/// The expressions of an array, from the first on.
#[cycle(expressions)]
#[tactic(auto, using(crate::proofs::Parts::goes_on, crate::proofs::Parts::ends, crate::proofs::Parts::begins, crate::proofs::Parts::all))]
fn parts_in(alloc: Global, items: &[Tree<'_>]) -> Result<Vec<Expr>, PartError>
    ensures { PartGives (λ parts. parts_of parts.items) result
        (expressions_from 0 (items_view items.now)) }
{
    let mut parts = Vec::with_capacity(alloc, items.len())?;
    for (index, item) in items.iter().enumerate() {
        match expression_in(alloc, item) {
            Ok(part) => parts.push(part)?,
            Err(error) => return Err(under(error, Step::Part(index))),
        }
    }
    Ok(parts)
}

/// An operation and its parts.
#[cycle(expressions)]
#[tactic(auto, using(crate::proofs::Parts::no_operation))]
fn operation_in(alloc: Global, value: &Tree<'_>) -> Result<Expr, PartError>
    ensures { PartGives expression_of result (operation_in (view value.now)) }
{
    match value {
        Tree::Array(items) => {
            if items.len() == 2 {
                unary_of(alloc, items)
            } else if items.len() == 3 {
                binary_of(alloc, items)
            } else {
                Err(misshapen(alloc))
            }
        }
        Tree::Null => Err(misshapen(alloc)),
        Tree::Bool(_) => Err(misshapen(alloc)),
        Tree::Number(_) => Err(misshapen(alloc)),
        Tree::String(_) => Err(misshapen(alloc)),
        Tree::Object(_) => Err(misshapen(alloc)),
    }
}

/// The expression at a place of an array.
#[cycle(expressions)]
#[tactic(auto, using(crate::proofs::Parts::fails_under))]
pub fn expression_at(alloc: Global, item: &Tree<'_>, index: usize) -> Result<Expr, PartError>
    ensures { PartGives expression_of result (at (to_part index) (expression_in (view item.now))) }
{
    match expression_in(alloc, item) {
        Ok(part) => Ok(part),
        Err(error) => Err(under(error, Step::Part(index))),
    }
}

/// An operation of one part.
#[cycle(expressions)]
#[tactic(auto, using(crate::proofs::Parts::unary_unknown, crate::proofs::Parts::unary_ends, crate::proofs::Parts::unary_read))]
fn unary_of(alloc: Global, items: &[Tree<'_>]) -> Result<Expr, PartError>
    requires { length items.now ≡ 2 }
    ensures { PartGives expression_of result (operation_in (array (items_view items.now))) }
{
    let (word, only) = (&items[0], &items[1]);
    match unary_in(word) {
        Some(operation) => {
            let only = expression_at(alloc, only, 1)?;
            Ok(Expr::Unary(operation, Box::new(alloc, only)?))
        }
        None => Err(misshapen(alloc)),
    }
}

/// An operation of two parts.
#[cycle(expressions)]
#[tactic(auto, using(crate::proofs::Parts::binary_unknown, crate::proofs::Parts::binary_ends, crate::proofs::Parts::binary_ends_second, crate::proofs::Parts::binary_read))]
fn binary_of(alloc: Global, items: &[Tree<'_>]) -> Result<Expr, PartError>
    requires { length items.now ≡ 3 }
    ensures { PartGives expression_of result (operation_in (array (items_view items.now))) }
{
    let (word, first, second) = (&items[0], &items[1], &items[2]);
    match binary_in(word) {
        Some(operation) => {
            // In its box the first part is let go by one call where the second is none.
            let first = expression_at(alloc, first, 1)?;
            let first = Box::new(alloc, first)?;
            let second = expression_at(alloc, second, 2)?;
            let second = Box::new(alloc, second)?;
            Ok(Expr::Binary(operation, first, second))
        }
        None => Err(misshapen(alloc)),
    }
}
