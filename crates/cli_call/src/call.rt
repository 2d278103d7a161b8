// The words that the program was called with.
ghost use Rattle.std.specs.Prelude.{◌≡◌, ◌≢◌, map, string_bytes, IfOk, IfErr, IsErrOf, MatchResult, Err};
ghost use Rattle.std.specs.IoError.{error_kind};
ghost use Rattle.std.specs.Vec.Iter.{into_iter_items};
ghost use Rattle.std.specs.List.{All};
ghost use Rattle.dura_value.specs.Text.{IsText};
ghost use Rattle.cli_call.specs.Call.{IsCall, Spells, cause_of};
ghost use Rattle.cli_call.specs.declared.call.CallError.TheVariants.{Memory};

use dura_value::{Text, TextError};
use run_causes::Cause;
use std::alloc::{AllocError, AllocFailed, Global};
use std::env::Args;
use std::io;
use std::io::ErrorKind;

/// A call `netherite DIRECTORY WORD..`.
#[derive(Drop)]
pub struct Call {
    /// The directory that holds the files.
    pub directory: String,
    /// The words of the command.
    pub words: Vec<Text>,
}

/// Why there is no call.
#[derive(Clone, Copy, PartialEq, Eq)]
pub enum CallError {
    /// There is no directory, or a word is longer than a text may be.
    Usage,
    /// A word isn't UTF-8.
    NotUtf8,
    /// Memory ran out.
    Memory,
}

impl CallError {
    /// Why the program ends.
    pub fn cause(self) -> Cause
        ensures { result ≡ cause_of self }
    {
        match self {
            CallError::Usage | CallError::NotUtf8 => Cause::Usage,
            CallError::Memory => Cause::Memory,
        }
    }
}

impl<T: Drop> From<AllocFailed<T>> for CallError {
    ghost from_gives = { λ _ error. error ≡ Memory };

    fn from(_error: AllocFailed<T>) -> CallError {
        CallError::Memory
    }
}

/// The call that the arguments of a process spell, as the system gave them or didn't.
pub fn call_from(alloc: Global, given: io::Result<Args>) -> Result<Call, CallError>
    ensures call { IfOk result (λ call. MatchResult given
        (λ arguments. Spells (into_iter_items arguments) call) (λ _. ⊥)) }
    ensures usage { IsErrOf result CallError.Usage
        → MatchResult given (λ arguments. ¬ IsCall (into_iter_items arguments)) (λ _. ⊥) }
    ensures not_utf8 { MatchResult given (λ _. ¬ IsErrOf result CallError.NotUtf8)
        (λ error. error_kind error ≢ ErrorKind.OutOfMemory → result ≡ Err CallError.NotUtf8) }
    ensures memory { IfErr given (λ error. error_kind error ≡ ErrorKind.OutOfMemory
        → result ≡ Err CallError.Memory) }
{
    match given {
        Ok(arguments) => match listed(alloc, arguments) {
            Ok(arguments) => call_of(alloc, &arguments),
            Err(_) => Err(CallError::Memory),
        },
        Err(error) if error.kind() == ErrorKind::OutOfMemory => Err(CallError::Memory),
        Err(_) => Err(CallError::NotUtf8),
    }
}

fn listed(alloc: Global, mut arguments: Args) -> Result<Vec<String>, AllocError>
    ensures { IfOk result (λ list. list.items ≡ into_iter_items arguments) }
{
    let mut list = Vec::new(alloc);
    while let Some(argument) = arguments.next() {
        list.push(argument)?;
    }
    Ok(list)
}

/// The call that these arguments spell.
pub fn call_of(alloc: Global, arguments: &[String]) -> Result<Call, CallError>
    ensures call { IfOk result (Spells arguments.now) }
    ensures usage { IsErrOf result CallError.Usage → ¬ IsCall arguments.now }
    ensures utf8 { ¬ IsErrOf result CallError.NotUtf8 }
{
    let [_program, directory, words @ ..] = arguments else {
        return Err(CallError::Usage);
    };
    let Ok(directory) = directory.clone() else {
        return Err(CallError::Memory);
    };
    let words = words_of(alloc, words)?;
    Ok(Call { directory, words })
}

fn words_of(alloc: Global, arguments: &[String]) -> Result<Vec<Text>, CallError>
    ensures same { IfOk result (λ words. words.items ≡ map string_bytes arguments.now) }
    ensures texts { IfOk result (λ words. All IsText words.items) }
    ensures usage { IsErrOf result CallError.Usage → ¬ All IsText (map string_bytes arguments.now) }
    ensures utf8 { ¬ IsErrOf result CallError.NotUtf8 }
{
    let mut words = Vec::new(alloc);
    for argument in arguments {
        match word_of(alloc, argument.as_str()) {
            Ok(word) => words.push(word)?,
            Err(error) => return Err(error),
        }
    }
    Ok(words)
}

fn word_of(alloc: Global, argument: &str) -> Result<Text, CallError>
    ensures text { IfOk result (λ word. (word ≡ argument.now) × IsText argument.now) }
    ensures usage { IsErrOf result CallError.Usage → ¬ IsText argument.now }
    ensures utf8 { ¬ IsErrOf result CallError.NotUtf8 }
{
    match Text::read(alloc, argument.as_bytes()) {
        Ok(text) => Ok(text),
        Err(TextError::TooLong { .. }) => Err(CallError::Usage),
        Err(TextError::NotUtf8 { .. }) => Err(CallError::Usage),
        Err(TextError::Memory) => Err(CallError::Memory),
    }
}
