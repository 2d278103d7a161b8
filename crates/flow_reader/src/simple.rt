//! Statements with none in them.

ghost use Rattle.std.specs.Prelude.{◌≡◌, option_map};
ghost use Rattle.json_tree.specs.View.{items_view, view};
ghost use Rattle.flow_values.specs.Answers.{PartGives};
ghost use Rattle.flow_reader.specs.Statements.{ask_in, event_in, five_parts, four_parts, one_part, signal_in, simple_in, sub_in, three_parts, two_parts};
ghost use Rattle.flow_reader.specs.ByWord.{activity_statement, of_activity, of_value, of_variable, value_statement, variable_statement};
ghost use Rattle.flow_syntax.specs.Views.{expression_of, statement_of};

use crate::words::Word;
use dura_value::{Name, with};
use flow_syntax::{Expr, Stmt};
use flow_values::{PartError, expression_at, misshapen, name_at};
use json_tree::Tree;
use std::alloc::Global;

/// A part of a statement.
pub(crate) type Part<'t, 'a> = &'t Tree<'a>;

#[tactic(auto, using(crate::proofs::Counts::one_there, crate::proofs::Counts::one_not_there))]
fn one_part<'t, 'a>(parts: &'t [Tree<'a>]) -> Option<Part<'t, 'a>>
    ensures { option_map (λ p. view p.now) result ≡ one_part (items_view parts.now) }
{
    if parts.len() == 1 {
        Some(&parts[0])
    } else {
        None
    }
}

#[tactic(auto, using(crate::proofs::Counts::two_there, crate::proofs::Counts::two_not_there))]
pub(crate) fn two_parts<'t, 'a>(parts: &'t [Tree<'a>]) -> Option<(Part<'t, 'a>, Part<'t, 'a>)>
    ensures { option_map (λ p. (view p.0.now, view p.1.now)) result
        ≡ two_parts (items_view parts.now) }
{
    if parts.len() == 2 {
        Some((&parts[0], &parts[1]))
    } else {
        None
    }
}

#[tactic(auto, using(crate::proofs::Counts::three_there, crate::proofs::Counts::three_not_there))]
fn three_parts<'t, 'a>(parts: &'t [Tree<'a>]) -> Option<(Part<'t, 'a>, Part<'t, 'a>, Part<'t, 'a>)>
    ensures { option_map (λ p. (view p.0.now, view p.1.now, view p.2.now)) result
        ≡ three_parts (items_view parts.now) }
{
    if parts.len() == 3 {
        Some((&parts[0], &parts[1], &parts[2]))
    } else {
        None
    }
}

#[tactic(auto, using(crate::proofs::Counts::four_there, crate::proofs::Counts::four_not_there))]
fn four_parts<'t, 'a>(
    parts: &'t [Tree<'a>],
) -> Option<(Part<'t, 'a>, Part<'t, 'a>, Part<'t, 'a>, Part<'t, 'a>)>
    ensures { option_map (λ p. (view p.0.now, view p.1.now, view p.2.now, view p.3.now)) result
        ≡ four_parts (items_view parts.now) }
{
    if parts.len() == 4 {
        Some((&parts[0], &parts[1], &parts[2], &parts[3]))
    } else {
        None
    }
}

#[tactic(auto, using(crate::proofs::Counts::five_there, crate::proofs::Counts::five_not_there))]
fn five_parts<'t, 'a>(
    parts: &'t [Tree<'a>],
) -> Option<
    (
        Part<'t, 'a>,
        Part<'t, 'a>,
        Part<'t, 'a>,
        Part<'t, 'a>,
        Part<'t, 'a>,
    ),
>
    ensures { option_map (λ p. (
      view p.0.now,
      view p.1.now,
      view p.2.now,
      view p.3.now,
      view
          p.4.now,
    )) result ≡ five_parts (items_view parts.now) }
{
    if parts.len() == 5 {
        Some((&parts[0], &parts[1], &parts[2], &parts[3], &parts[4]))
    } else {
        None
    }
}

/// The statement of a word, of an expression alone.
fn of_value(word: Word, value: Expr) -> Stmt
    ensures { statement_of result ≡ of_value word (expression_of value) }
{
    match word {
        Word::Return => Stmt::Return(value),
        _ => Stmt::Fail(value),
    }
}

/// The statement of a word whose only part is an expression.
#[tactic(auto, using(flow_values::proofs::Parts::ends_then))]
fn value_statement(alloc: Global, word: Word, parts: &[Tree<'_>]) -> Result<Stmt, PartError>
    ensures { PartGives statement_of result (value_statement word (items_view parts.now)) }
{
    match one_part(parts) {
        Some(value) => match expression_at(alloc, value, 1) {
            Ok(value) => Ok(of_value(word, value)),
            Err(error) => Err(error),
        },
        None => Err(misshapen(alloc)),
    }
}

/// The statement of a word, of a variable and an expression.
fn of_variable(word: Word, variable: Name, value: Expr) -> Stmt
    ensures { statement_of result ≡ of_variable word variable (expression_of value) }
{
    match word {
        Word::Let => Stmt::Let(variable, value),
        Word::Timer => Stmt::Timer(variable, value),
        Word::Await => Stmt::Await(variable, value),
        Word::All => Stmt::All(variable, value),
        _ => Stmt::Any(variable, value),
    }
}

/// The statement of a word whose parts are a variable and an expression.
#[tactic(auto, using(flow_values::proofs::Parts::ends_then))]
fn variable_statement(alloc: Global, word: Word, parts: &[Tree<'_>]) -> Result<Stmt, PartError>
    ensures { PartGives statement_of result (variable_statement word (items_view parts.now)) }
{
    match two_parts(parts) {
        Some((variable, value)) => {
            let variable = name_at(alloc, variable, 1)?;
            match expression_at(alloc, value, 2) {
                Ok(value) => Ok(of_variable(word, variable, value)),
                Err(error) => Err(error),
            }
        }
        None => Err(misshapen(alloc)),
    }
}

/// The statement of a word, of a variable, an activity and its argument.
fn of_activity(word: Word, variable: Name, activity: Name, argument: Expr) -> Stmt
    ensures { statement_of result ≡ of_activity word variable activity (expression_of argument) }
{
    match word {
        Word::Spawn => Stmt::Spawn(variable, activity, argument),
        _ => Stmt::Call(variable, activity, argument),
    }
}

/// The statement of a word whose parts are a variable, an activity and its argument.
#[tactic(auto, using(flow_values::proofs::Parts::ends_then))]
fn activity_statement(alloc: Global, word: Word, parts: &[Tree<'_>]) -> Result<Stmt, PartError>
    ensures { PartGives statement_of result (activity_statement word (items_view parts.now)) }
{
    match three_parts(parts) {
        Some((variable, activity, argument)) => {
            let variable = name_at(alloc, variable, 1)?;
            let activity = name_at(alloc, activity, 2)?;
            match expression_at(alloc, argument, 3) {
                Ok(argument) => Ok(of_activity(word, variable, activity, argument)),
                Err(error) => Err(error),
            }
        }
        None => Err(misshapen(alloc)),
    }
}

/// The next event of a name.
#[tactic(auto, using(flow_values::proofs::Parts::ends_then))]
fn event_in(alloc: Global, parts: &[Tree<'_>]) -> Result<Stmt, PartError>
    ensures { PartGives statement_of result (event_in (items_view parts.now)) }
{
    match two_parts(parts) {
        Some((variable, name)) => {
            let variable = name_at(alloc, variable, 1)?;
            match name_at(alloc, name, 2) {
                Ok(name) => Ok(Stmt::Event(variable, name)),
                Err(error) => Err(error),
            }
        }
        None => Err(misshapen(alloc)),
    }
}

/// The start of an instance.
#[tactic(auto, using(flow_values::proofs::Parts::ends_then))]
fn sub_in(alloc: Global, parts: &[Tree<'_>]) -> Result<Stmt, PartError>
    ensures { PartGives statement_of result (sub_in (items_view parts.now)) }
{
    match four_parts(parts) {
        Some((variable, flow, key, argument)) => {
            let variable = name_at(alloc, variable, 1)?;
            let flow = name_at(alloc, flow, 2)?;
            let key = expression_at(alloc, key, 3)?;
            match with(expression_at(alloc, argument, 4), key) {
                Ok((argument, key)) => Ok(Stmt::Sub(variable, flow, key, argument)),
                Err(error) => Err(error),
            }
        }
        None => Err(misshapen(alloc)),
    }
}

/// A question to an entity.
#[tactic(auto, using(flow_values::proofs::Parts::ends_then))]
fn ask_in(alloc: Global, parts: &[Tree<'_>]) -> Result<Stmt, PartError>
    ensures { PartGives statement_of result (ask_in (items_view parts.now)) }
{
    match five_parts(parts) {
        Some((variable, class, key, operation, argument)) => {
            let variable = name_at(alloc, variable, 1)?;
            let class = name_at(alloc, class, 2)?;
            let key = expression_at(alloc, key, 3)?;
            let (operation, key) = with(name_at(alloc, operation, 4), key)?;
            match with(expression_at(alloc, argument, 5), key) {
                Ok((argument, key)) => Ok(Stmt::Ask(variable, class, key, operation, argument)),
                Err(error) => Err(error),
            }
        }
        None => Err(misshapen(alloc)),
    }
}

/// An operation that nobody waits for.
#[tactic(auto, using(flow_values::proofs::Parts::ends_then))]
fn signal_in(alloc: Global, parts: &[Tree<'_>]) -> Result<Stmt, PartError>
    ensures { PartGives statement_of result (signal_in (items_view parts.now)) }
{
    match four_parts(parts) {
        Some((class, key, operation, argument)) => {
            let class = name_at(alloc, class, 1)?;
            let key = expression_at(alloc, key, 2)?;
            let (operation, key) = with(name_at(alloc, operation, 3), key)?;
            match with(expression_at(alloc, argument, 4), key) {
                Ok((argument, key)) => Ok(Stmt::Signal(class, key, operation, argument)),
                Err(error) => Err(error),
            }
        }
        None => Err(misshapen(alloc)),
    }
}

/// A statement with none in it, of a word and the parts behind it.
pub(crate) fn simple_in(alloc: Global, word: Word, parts: &[Tree<'_>]) -> Result<Stmt, PartError>
    ensures { PartGives statement_of result (simple_in word (items_view parts.now)) }
{
    match word {
        Word::Let => variable_statement(alloc, word, parts),
        Word::Spawn => activity_statement(alloc, word, parts),
        Word::Call => activity_statement(alloc, word, parts),
        Word::Sub => sub_in(alloc, parts),
        Word::Ask => ask_in(alloc, parts),
        Word::Timer => variable_statement(alloc, word, parts),
        Word::Event => event_in(alloc, parts),
        Word::Await => variable_statement(alloc, word, parts),
        Word::All => variable_statement(alloc, word, parts),
        Word::Any => variable_statement(alloc, word, parts),
        Word::Signal => signal_in(alloc, parts),
        Word::Return => value_statement(alloc, word, parts),
        Word::Fail => value_statement(alloc, word, parts),
        Word::Lock | Word::If | Word::While | Word::Try => Err(misshapen(alloc)),
    }
}
