//! Names, keys and texts from the front of bytes.

ghost use Rattle.dura_codec.specs.Fields.{Takes, StaysWithin};
ghost use Rattle.dura_codec.specs.Grammar.{word_size_at, name_at, key_at, text_at};

use crate::fields::{FieldError, take_u8, take_u16};
use dura_value::{Key, Name, TEXT_BYTES_LIMIT, Text, TextError, WORD_BYTES_LIMIT, is_key, is_name};
use std::alloc::Global;

/// The length of a name or key: 1 to 64.
#[tactic(auto, unfolding(crate::specs::Grammar::word_size_at))]
fn take_word_size(bytes: &[u8]) -> Result<(usize, &[u8]), FieldError>
    ensures { Takes (λ x. x) result (word_size_at bytes.now) }
{
    let (size, rest) = take_u8(bytes)?;
    let size = size as usize;
    if size == 0 || size > WORD_BYTES_LIMIT {
        return Err(FieldError::Bad { left: bytes.len() });
    }
    Ok((size, rest))
}

/// A name behind its length.
#[tactic(auto, unfolding(crate::specs::Grammar::name_at, crate::specs::Fields::run_at))]
pub fn take_name(alloc: Global, bytes: &[u8]) -> Result<(Name, &[u8]), FieldError>
    ensures { Takes (λ x. x) result (name_at bytes.now) }
{
    let (size, rest) = take_word_size(bytes)?;
    if rest.len() < size {
        return Err(FieldError::Bad { left: rest.len() });
    }
    let (word, behind) = rest.split_at(size);
    if !is_name(word) {
        return Err(FieldError::Bad { left: rest.len() });
    }
    let name = Name::of(alloc, word)?;
    Ok((name, behind))
}

/// A key behind its length.
#[tactic(auto, unfolding(crate::specs::Grammar::key_at, crate::specs::Fields::run_at))]
pub fn take_key(alloc: Global, bytes: &[u8]) -> Result<(Key, &[u8]), FieldError>
    ensures { Takes (λ x. x) result (key_at bytes.now) }
{
    let (size, rest) = take_word_size(bytes)?;
    if rest.len() < size {
        return Err(FieldError::Bad { left: rest.len() });
    }
    let (word, behind) = rest.split_at(size);
    if !is_key(word) {
        return Err(FieldError::Bad { left: rest.len() });
    }
    let key = Key::of(alloc, word)?;
    Ok((key, behind))
}

/// A text behind its length.
#[tactic(auto, unfolding(crate::specs::Grammar::text_at, crate::specs::Fields::run_at))]
pub fn take_text(alloc: Global, bytes: &[u8]) -> Result<(Text, &[u8]), FieldError>
    ensures takes { Takes (λ x. x) result (text_at bytes.now) }
    ensures within { StaysWithin bytes.now result }
{
    let (size, rest) = take_u16(bytes)?;
    let size = size as usize;
    if size > TEXT_BYTES_LIMIT {
        return Err(FieldError::Bad { left: bytes.len() });
    }
    if rest.len() < size {
        return Err(FieldError::Bad { left: rest.len() });
    }
    let (run, behind) = rest.split_at(size);
    match Text::read(alloc, run) {
        Ok(text) => Ok((text, behind)),
        Err(TextError::Memory) => Err(FieldError::Memory),
        Err(TextError::TooLong { .. }) => Err(FieldError::Bad { left: rest.len() }),
        Err(TextError::NotUtf8 { .. }) => Err(FieldError::Bad { left: rest.len() }),
    }
}
