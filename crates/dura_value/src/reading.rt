//! Names, keys and ids from their written forms.

ghost use Rattle.std.specs.Prelude.{◌≡◌, ◌+◌, ◌^◌, ◌<◌, ◌≤◌, length};
ghost use Rattle.std.specs.List.{position_or_len};
ghost use Rattle.dura_value.specs.Reading.{ReadGives, name_at, key_at, pair_at, id_in, name_front, key_front, is_slash};
ghost use Rattle.dura_value.specs.Views.{id_of};

use crate::addresses::{BETWEEN, Id, OF_CLIENT, OF_ENTITY};
use crate::faults::ReadError;
use crate::limits::WORD_BYTES_LIMIT;
use crate::names::{Key, Name, count_in_key, count_in_name, is_key, is_name};
use std::alloc::Global;

fn count_to_slash(bytes: &[u8]) -> usize
    ensures place { result ≡ position_or_len is_slash bytes.now }
    ensures within { result ≤ length bytes.now }
{
    for (index, byte) in bytes.iter().enumerate() {
        if *byte == BETWEEN {
            return index;
        }
    }
    bytes.len()
}

/// How many of the first bytes begin a name.
fn name_front(bytes: &[u8]) -> usize
    ensures { result ≡ name_front bytes.now }
{
    match bytes {
        [] => 0,
        [first, rest @ ..] => {
            if first.is_ascii_alphabetic() {
                let count = count_in_name(rest);
                if count < WORD_BYTES_LIMIT {
                    count + 1
                } else {
                    WORD_BYTES_LIMIT
                }
            } else {
                0
            }
        }
    }
}

/// How many of the first bytes begin a key.
fn key_front(bytes: &[u8]) -> usize
    ensures { result ≡ key_front bytes.now }
{
    let count = count_in_key(bytes);
    if count < WORD_BYTES_LIMIT {
        count
    } else {
        WORD_BYTES_LIMIT
    }
}

fn name_at(alloc: Global, at: usize, bytes: &[u8]) -> Result<Name, ReadError>
    requires { at < 2 }
    ensures { ReadGives (λ name. name) result (name_at at bytes.now) }
{
    if !is_name(bytes) {
        return Err(ReadError::Bad {
            offset: at + name_front(bytes),
        });
    }
    Ok(Name::of(alloc, bytes)?)
}

fn key_at(alloc: Global, at: usize, bytes: &[u8]) -> Result<Key, ReadError>
    requires { at ≤ 2 ^ 63 + 2 }
    ensures { ReadGives (λ key. key) result (key_at at bytes.now) }
{
    if !is_key(bytes) {
        return Err(ReadError::Bad {
            offset: at + key_front(bytes),
        });
    }
    Ok(Key::of(alloc, bytes)?)
}

/// A name, a slash and a key.
#[tactic(auto, unfolding(crate::specs::Reading::pair_at))]
fn pair_at(alloc: Global, at: usize, bytes: &[u8]) -> Result<(Name, Key), ReadError>
    requires { at < 2 }
    ensures { ReadGives (λ pair. (pair.0, pair.1)) result (pair_at at bytes.now) }
{
    let place = count_to_slash(bytes);
    let name = name_at(alloc, at, &bytes[..place])?;
    if place >= bytes.len() {
        return Err(ReadError::Bad { offset: at + place });
    }
    let key = key_at(alloc, at + place + 1, &bytes[place + 1..])?;
    Ok((name, key))
}

impl Name {
    /// The name that is written so. Bad says how many of the first bytes begin one.
    pub fn read(alloc: Global, bytes: &[u8]) -> Result<Name, ReadError>
        ensures { ReadGives (λ name. name) result (name_at 0 bytes.now) }
    {
        name_at(alloc, 0, bytes)
    }
}

impl Key {
    /// The key that is written so. Bad says how many of the first bytes begin one.
    pub fn read(alloc: Global, bytes: &[u8]) -> Result<Key, ReadError>
        ensures { ReadGives (λ key. key) result (key_at 0 bytes.now) }
    {
        key_at(alloc, 0, bytes)
    }
}

impl Id {
    /// The id that is written so. Bad says how many of the first bytes begin one.
    #[tactic(auto, unfolding(crate::specs::Reading::id_in))]
    pub fn read(alloc: Global, bytes: &[u8]) -> Result<Id, ReadError>
        ensures { ReadGives id_of result (id_in bytes.now) }
    {
        match bytes {
            [] => Err(ReadError::Bad { offset: 0 }),
            [OF_CLIENT, rest @ ..] => Ok(Id::Client(name_at(alloc, 1, rest)?)),
            [OF_ENTITY, rest @ ..] => {
                let (class, key) = pair_at(alloc, 1, rest)?;
                Ok(Id::Entity(class, key))
            }
            _ => {
                let (flow, key) = pair_at(alloc, 0, bytes)?;
                Ok(Id::Flow(flow, key))
            }
        }
    }
}
