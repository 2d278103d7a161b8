//! The words of statements.

ghost use Rattle.std.specs.Prelude.{◌≡◌};
ghost use Rattle.json_tree.specs.View.{view};
ghost use Rattle.flow_reader.specs.Statements.{flow_word, inner_word, word_in};

use flow_values::is_word;
use json_tree::Tree;

/// The word that a statement begins with.
#[derive(Clone, Copy, PartialEq, Eq)]
pub(crate) enum Word {
    Let,
    Spawn,
    Call,
    Sub,
    Ask,
    Timer,
    Event,
    Await,
    All,
    Any,
    Signal,
    Lock,
    If,
    While,
    Try,
    Return,
    Fail,
}

/// A word that may stand in an operation.
fn inner_word(value: &Tree<'_>) -> Option<Word>
    ensures { result ≡ inner_word (view value.now) }
{
    if is_word(value, "let") {
        Some(Word::Let)
    } else if is_word(value, "if") {
        Some(Word::If)
    } else if is_word(value, "while") {
        Some(Word::While)
    } else if is_word(value, "try") {
        Some(Word::Try)
    } else if is_word(value, "return") {
        Some(Word::Return)
    } else if is_word(value, "fail") {
        Some(Word::Fail)
    } else {
        None
    }
}

/// A word that may stand in a flow alone.
fn flow_word(value: &Tree<'_>) -> Option<Word>
    ensures { result ≡ flow_word (view value.now) }
{
    if is_word(value, "spawn") {
        Some(Word::Spawn)
    } else if is_word(value, "call") {
        Some(Word::Call)
    } else if is_word(value, "sub") {
        Some(Word::Sub)
    } else if is_word(value, "ask") {
        Some(Word::Ask)
    } else if is_word(value, "timer") {
        Some(Word::Timer)
    } else if is_word(value, "event") {
        Some(Word::Event)
    } else if is_word(value, "await") {
        Some(Word::Await)
    } else if is_word(value, "all") {
        Some(Word::All)
    } else if is_word(value, "any") {
        Some(Word::Any)
    } else if is_word(value, "signal") {
        Some(Word::Signal)
    } else if is_word(value, "lock") {
        Some(Word::Lock)
    } else {
        None
    }
}

/// A word that may stand there.
pub(crate) fn word_in(inside: bool, value: &Tree<'_>) -> Option<Word>
    ensures { result ≡ word_in inside (view value.now) }
{
    match inner_word(value) {
        Some(word) => Some(word),
        None => { if inside { None } else { flow_word(value) } }
    }
}
