//! Statements and the bodies of flows.

ghost use Rattle.std.specs.Prelude.{◌≡◌, ◌≤◌, Ok, drop, length, map};
ghost use Rattle.serde_json.specs.Data.{array};
ghost use Rattle.json_tree.specs.View.{items_view, view};
ghost use Rattle.flow_values.specs.Answers.{PartGives};
ghost use Rattle.flow_values.specs.Faults.{at, to_part};
ghost use Rattle.flow_reader.specs.Statements.{body_in, locked_in, of_word, pairs_from, pairs_in, statement_in, statements_from};
ghost use Rattle.flow_reader.specs.declared.words.Word.TheVariants as words;
ghost use Rattle.flow_syntax.specs.Views.{block_of, locked_of, statement_of};

use crate::simple::{simple_in, two_parts};
use crate::words::{Word, word_in};
use dura_value::{SPOTS_LIMIT, with};
use flow_syntax::{Locked, Stmt};
use flow_values::{PartError, Step, expression_at, misshapen, name_at, under};
use json_tree::Tree;
use std::alloc::Global;

/// A class and what gives a key.
#[tactic(auto, using(flow_values::proofs::Parts::ends_then, crate::proofs::Pairs::locked_there, crate::proofs::Pairs::locked_not_there))]
fn pair_in(alloc: Global, parts: &[Tree<'_>]) -> Result<Locked, PartError>
    ensures { PartGives locked_of result (locked_in (array (items_view parts.now))) }
{
    match two_parts(parts) {
        Some((class, key)) => {
            let class = name_at(alloc, class, 0)?;
            match expression_at(alloc, key, 1) {
                Ok(key) => Ok(Locked { class, key }),
                Err(error) => Err(error),
            }
        }
        None => Err(misshapen(alloc)),
    }
}

fn locked_in(alloc: Global, value: &Tree<'_>) -> Result<Locked, PartError>
    ensures { PartGives locked_of result (locked_in (view value.now)) }
{
    match value {
        Tree::Array(parts) => pair_in(alloc, parts),
        _ => Err(misshapen(alloc)),
    }
}

/// The pairs of an array, from the first on.
#[tactic(auto, using(crate::proofs::Pairs::goes_on, crate::proofs::Pairs::ends, crate::proofs::Pairs::begins, crate::proofs::Pairs::all))]
fn pairs_from(alloc: Global, parts: &[Tree<'_>]) -> Result<Vec<Locked>, PartError>
    ensures { PartGives (λ pairs. map locked_of pairs.items) result
        (pairs_from 0 (items_view parts.now)) }
{
    let mut pairs = Vec::with_capacity(alloc, parts.len())?;
    for (index, part) in parts.iter().enumerate() {
        match locked_in(alloc, part) {
            Ok(pair) => pairs.push(pair)?,
            Err(error) => return Err(under(error, Step::Part(index))),
        }
    }
    Ok(pairs)
}

/// 1 to 16 pairs.
#[tactic(auto, using(flow_values::proofs::Scalars::count_of_items))]
fn few_pairs(alloc: Global, parts: &[Tree<'_>]) -> Result<Vec<Locked>, PartError>
    ensures { PartGives (λ pairs. map locked_of pairs.items) result
        (pairs_in (array (items_view parts.now))) }
{
    if parts.len() >= 1 && parts.len() <= SPOTS_LIMIT {
        pairs_from(alloc, parts)
    } else {
        Err(misshapen(alloc))
    }
}

fn pairs_in(alloc: Global, value: &Tree<'_>) -> Result<Vec<Locked>, PartError>
    ensures { PartGives (λ pairs. map locked_of pairs.items) result (pairs_in (view value.now)) }
{
    match value {
        Tree::Array(parts) => few_pairs(alloc, parts),
        _ => Err(misshapen(alloc)),
    }
}

/// The pairs at a place of a statement.
#[tactic(auto, using(flow_values::proofs::Parts::fails_under))]
fn pairs_at(alloc: Global, value: &Tree<'_>, index: usize) -> Result<Vec<Locked>, PartError>
    ensures { PartGives (λ pairs. map locked_of pairs.items) result
        (at (to_part index) (pairs_in (view value.now))) }
{
    match pairs_in(alloc, value) {
        Ok(pairs) => Ok(pairs),
        Err(error) => Err(under(error, Step::Part(index))),
    }
}

/// A body: an array of statements.
#[cycle(statements)]
pub(crate) fn body_in(alloc: Global, inside: bool, value: &Tree<'_>) -> Result<Vec<Stmt>, PartError>
    ensures { PartGives (λ body. block_of body.items) result (body_in inside (view value.now)) }
{
    match value {
        Tree::Array(items) => statements_in(alloc, inside, items),
        _ => Err(misshapen(alloc)),
    }
}

/// The statements of an array, from the first on.
#[cycle(statements)]
#[tactic(auto, using(crate::proofs::Blocks::goes_on, crate::proofs::Blocks::ends, crate::proofs::Blocks::begins, crate::proofs::Blocks::all))]
fn statements_in(alloc: Global, inside: bool, items: &[Tree<'_>]) -> Result<Vec<Stmt>, PartError>
    ensures { PartGives (λ body. block_of body.items) result
        (statements_from inside 0 (items_view items.now)) }
{
    let mut statements = Vec::with_capacity(alloc, items.len())?;
    for (index, item) in items.iter().enumerate() {
        match statement_in(alloc, inside, item) {
            Ok(statement) => statements.push(statement)?,
            Err(error) => return Err(under(error, Step::Part(index))),
        }
    }
    Ok(statements)
}

/// The body at a place of a statement.
#[cycle(statements)]
#[tactic(auto, using(flow_values::proofs::Parts::fails_under))]
fn body_at(
    alloc: Global,
    inside: bool,
    value: &Tree<'_>,
    index: usize,
) -> Result<Vec<Stmt>, PartError>
    ensures { PartGives (λ body. block_of body.items) result
        (at (to_part index) (body_in inside (view value.now))) }
{
    match body_in(alloc, inside, value) {
        Ok(body) => Ok(body),
        Err(error) => Err(under(error, Step::Part(index))),
    }
}

/// A statement: an array of a word and its parts.
#[cycle(statements)]
fn statement_in(alloc: Global, inside: bool, value: &Tree<'_>) -> Result<Stmt, PartError>
    ensures { PartGives statement_of result (statement_in inside (view value.now)) }
{
    match value {
        Tree::Array(items) => array_in(alloc, inside, items),
        _ => Err(misshapen(alloc)),
    }
}

#[cycle(statements)]
#[tactic(auto, using(crate::proofs::Blocks::no_word, crate::proofs::Blocks::unknown_word, crate::proofs::Blocks::known_word))]
fn array_in(alloc: Global, inside: bool, items: &[Tree<'_>]) -> Result<Stmt, PartError>
    ensures { PartGives statement_of result (statement_in inside (array (items_view items.now))) }
{
    if items.is_empty() {
        return Err(misshapen(alloc));
    }
    match word_in(inside, &items[0]) {
        Some(word) => of_word(alloc, inside, word, items),
        None => Err(misshapen(alloc)),
    }
}

/// The parts behind the word.
fn parts_of<'t, 'a>(items: &'t [Tree<'a>]) -> &'t [Tree<'a>]
    requires { 1 ≤ length items.now }
    ensures { result.now ≡ drop 1 items.now }
{
    &items[1..]
}

/// The statement of a word and the parts behind it.
#[cycle(statements)]
#[tactic(auto, using(crate::proofs::Blocks::no_lock, crate::proofs::Blocks::no_if, crate::proofs::Blocks::no_while, crate::proofs::Blocks::no_try))]
fn of_word(alloc: Global, inside: bool, word: Word, items: &[Tree<'_>]) -> Result<Stmt, PartError>
    requires { 1 ≤ length items.now }
    ensures { PartGives statement_of result (of_word inside word (items_view (drop 1 items.now))) }
{
    match word {
        Word::Lock => {
            if items.len() == 3 {
                lock_in(alloc, inside, items)
            } else {
                Err(misshapen(alloc))
            }
        }
        Word::If => {
            if items.len() == 4 {
                if_in(alloc, inside, items)
            } else {
                Err(misshapen(alloc))
            }
        }
        Word::While => {
            if items.len() == 3 {
                while_in(alloc, inside, items)
            } else {
                Err(misshapen(alloc))
            }
        }
        Word::Try => {
            if items.len() == 4 {
                try_in(alloc, inside, items)
            } else {
                Err(misshapen(alloc))
            }
        }
        _ => simple_in(alloc, word, parts_of(items)),
    }
}

/// A body that holds entities.
#[cycle(statements)]
#[tactic(auto, using(flow_values::proofs::Parts::ends_then, crate::proofs::Blocks::behind_two))]
fn lock_in(alloc: Global, inside: bool, items: &[Tree<'_>]) -> Result<Stmt, PartError>
    requires { length items.now ≡ 3 }
    ensures { PartGives statement_of result
        (of_word inside words.Lock (items_view (drop 1 items.now))) }
{
    let (entities, body) = (&items[1], &items[2]);
    let entities = pairs_at(alloc, entities, 1)?;
    let body = body_at(alloc, inside, body, 2)?;
    Ok(Stmt::lock(entities, body))
}

/// One of two bodies.
#[cycle(statements)]
#[tactic(auto, using(flow_values::proofs::Parts::ends_then, crate::proofs::Blocks::behind_three, crate::proofs::Blocks::if_ends, crate::proofs::Blocks::if_ends_yes))]
fn if_in(alloc: Global, inside: bool, items: &[Tree<'_>]) -> Result<Stmt, PartError>
    requires { length items.now ≡ 4 }
    ensures { PartGives statement_of result
        (of_word inside words.If (items_view (drop 1 items.now))) }
{
    let (test, yes, no) = (&items[1], &items[2], &items[3]);
    let test = expression_at(alloc, test, 1)?;
    let (yes, test) = with(body_at(alloc, inside, yes, 2), test)?;
    let (no, test) = with(body_at(alloc, inside, no, 3), test)?;
    Ok(Stmt::if_else(test, yes, no))
}

/// A body that is repeated.
#[cycle(statements)]
#[tactic(auto, using(flow_values::proofs::Parts::ends_then, crate::proofs::Blocks::behind_two, crate::proofs::Blocks::while_ends))]
fn while_in(alloc: Global, inside: bool, items: &[Tree<'_>]) -> Result<Stmt, PartError>
    requires { length items.now ≡ 3 }
    ensures { PartGives statement_of result
        (of_word inside words.While (items_view (drop 1 items.now))) }
{
    let (test, body) = (&items[1], &items[2]);
    let test = expression_at(alloc, test, 1)?;
    let (body, test) = with(body_at(alloc, inside, body, 2), test)?;
    Ok(Stmt::repeat(test, body))
}

/// A body and what follows a fault in it.
#[cycle(statements)]
#[tactic(auto, using(flow_values::proofs::Parts::ends_then, crate::proofs::Blocks::behind_three, crate::proofs::Blocks::try_ends, crate::proofs::Blocks::try_ends_variable))]
fn try_in(alloc: Global, inside: bool, items: &[Tree<'_>]) -> Result<Stmt, PartError>
    requires { length items.now ≡ 4 }
    ensures { PartGives statement_of result
        (of_word inside words.Try (items_view (drop 1 items.now))) }
{
    let (body, variable, handler) = (&items[1], &items[2], &items[3]);
    let body = body_at(alloc, inside, body, 1)?;
    let variable = name_at(alloc, variable, 2)?;
    let handler = body_at(alloc, inside, handler, 3)?;
    Ok(Stmt::catch(body, variable, handler))
}
