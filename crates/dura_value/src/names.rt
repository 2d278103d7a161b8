//! Names and keys: short words over few bytes.

ghost use Rattle.std.specs.Prelude.{◌≡◌, ◌≤◌, length, true, IfOk};
ghost use Rattle.std.specs.List.{list_all, prefix_len};
ghost use Rattle.dura_value.specs.Limits.{most_word_bytes};
ghost use Rattle.dura_value.specs.Names.{is_name, is_key, goes_on_name, stands_in_key};

use crate::limits::WORD_BYTES_LIMIT;
use std::alloc::{AllocError, Global};
use std::marker::Model;

/// A name, which a contract sees as its bytes.
#[derive(Clone, Debug, Drop)]
pub struct Name {
    bytes: Vec<u8>,
}

impl Model for Name {
    ghost use Rattle.std.specs.Prelude.{◌≡◌, ℕ, List, true};
    ghost use Rattle.dura_value.specs.Names.{is_name};

    ghost Value = { List ℕ };

    ghost view = { λ n. n.bytes.items };

    ghost invariant = { λ n. is_name n.bytes.items ≡ true };
}

/// A key, which a contract sees as its bytes.
#[derive(Clone, Drop)]
pub struct Key {
    bytes: Vec<u8>,
}

impl Model for Key {
    ghost use Rattle.std.specs.Prelude.{◌≡◌, ℕ, List, true};
    ghost use Rattle.dura_value.specs.Names.{is_key};

    ghost Value = { List ℕ };

    ghost view = { λ k. k.bytes.items };

    ghost invariant = { λ k. is_key k.bytes.items ≡ true };
}

fn goes_on_name(byte: u8) -> bool
    ensures { result ≡ goes_on_name byte }
{
    byte.is_ascii_alphanumeric() || byte == b'_'
}

fn stands_in_key(byte: u8) -> bool
    ensures { result ≡ stands_in_key byte }
{
    goes_on_name(byte) || byte == b'-' || byte == b'.'
}

/// How many of the first bytes go on a name.
pub(crate) fn count_in_name(bytes: &[u8]) -> usize
    ensures { result ≡ prefix_len goes_on_name bytes.now }
{
    for (index, byte) in bytes.iter().enumerate() {
        if !goes_on_name(*byte) {
            return index;
        }
    }
    bytes.len()
}

#[tactic(auto, using(crate::proofs::Words::prefix_whole))]
fn go_on_name(bytes: &[u8]) -> bool
    ensures { result ≡ list_all goes_on_name bytes.now }
{
    count_in_name(bytes) == bytes.len()
}

/// How many of the first bytes may stand in a key.
pub(crate) fn count_in_key(bytes: &[u8]) -> usize
    ensures { result ≡ prefix_len stands_in_key bytes.now }
{
    for (index, byte) in bytes.iter().enumerate() {
        if !stands_in_key(*byte) {
            return index;
        }
    }
    bytes.len()
}

/// Whether the bytes are a name: 1 to 64 of them, a letter, then letters, digits and `_`.
pub fn is_name(bytes: &[u8]) -> bool
    ensures { result ≡ is_name bytes.now }
{
    if bytes.len() > WORD_BYTES_LIMIT {
        return false;
    }
    match bytes {
        [] => false,
        [first, rest @ ..] => {
            if first.is_ascii_alphabetic() {
                go_on_name(rest)
            } else {
                false
            }
        }
    }
}

/// Whether the bytes are a key: 1 to 64 letters, digits, `_`, `-` and `.`.
#[tactic(auto, using(crate::proofs::Words::prefix_whole))]
pub fn is_key(bytes: &[u8]) -> bool
    ensures { result ≡ is_key bytes.now }
{
    if bytes.is_empty() || bytes.len() > WORD_BYTES_LIMIT {
        return false;
    }
    count_in_key(bytes) == bytes.len()
}

impl Name {
    /// The name of these bytes, which `is_name` tests.
    pub fn of(alloc: Global, bytes: &[u8]) -> Result<Name, AllocError>
        requires { is_name bytes.now ≡ true }
        ensures { IfOk result (λ n. n ≡ bytes.now) }
    {
        let bytes = Vec::from_slice(alloc, bytes)?;
        Ok(Name { bytes })
    }

    /// The bytes, where they lie.
    pub fn as_bytes(&self) -> &[u8]
        ensures same { result.now ≡ self.now }
        ensures name { is_name self.now ≡ true }
        ensures short { length self.now ≤ most_word_bytes }
    {
        self.bytes.as_slice()
    }
}

impl Key {
    /// The key of these bytes, which `is_key` tests.
    pub fn of(alloc: Global, bytes: &[u8]) -> Result<Key, AllocError>
        requires { is_key bytes.now ≡ true }
        ensures { IfOk result (λ k. k ≡ bytes.now) }
    {
        let bytes = Vec::from_slice(alloc, bytes)?;
        Ok(Key { bytes })
    }

    /// The bytes, where they lie.
    pub fn as_bytes(&self) -> &[u8]
        ensures same { result.now ≡ self.now }
        ensures key { is_key self.now ≡ true }
        ensures short { length self.now ≤ most_word_bytes }
    {
        self.bytes.as_slice()
    }
}
