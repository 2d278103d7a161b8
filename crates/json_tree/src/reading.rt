//! From bytes to a tree, in one pass over the tokens.

ghost use Rattle.std.specs.Prelude.{◌≡◌, ◌<◌, IfOk, MatchResult, OnOk, length};
ghost use Rattle.std.specs.BTreeMap.{insert_entry};
ghost use Rattle.std.specs.Cmp.Lexicographic.{slice_cmp};
ghost use Rattle.std.specs.Ordering.{nat_cmp};
ghost use Rattle.std.specs.Str.{IsUtf8};
ghost use Rattle.json.specs.Reads.{token_of};
ghost use Rattle.serde_json.specs.Read.{read};
ghost use Rattle.json_tree.specs.Answers.{Finds, Takes};
ghost use Rattle.json_tree.specs.Tokens.{data_in, items_in, leaf, members_in};
ghost use Rattle.json_tree.specs.View.{items_view, members_view, view};
ghost use Rattle.json_tree.specs.declared.reading.ReadError.TheVariants as errors;

use crate::number::number_of;
use crate::tree::{Member, Tree};
use bumpalo::Bump;
use json::{Invalid, Reader, Scratch, Token};
use std::alloc::{AllocError, AllocFailed, Global};
use std::collections::BTreeMap;
use thiserror::Error;

/// How deep arrays and objects may nest.
const LEVELS_LIMIT: usize = 127;

/// Why bytes gave no tree.
#[derive(Debug, Drop, Error)]
pub enum ReadError {
    /// They are no JSON.
    #[error("no JSON")]
    NotJson,
    /// Memory ran out.
    #[error("out of memory")]
    Memory,
}

impl From<AllocError> for ReadError {
    ghost from_gives = { λ _ e. e ≡ errors.Memory };

    fn from(_error: AllocError) -> ReadError {
        ReadError::Memory
    }
}

impl<T: Drop> From<AllocFailed<T>> for ReadError {
    ghost from_gives = { λ _ e. e ≡ errors.Memory };

    fn from(_error: AllocFailed<T>) -> ReadError {
        ReadError::Memory
    }
}

impl From<Invalid> for ReadError {
    ghost from_gives = { λ _ e. e ≡ errors.NotJson };

    fn from(_error: Invalid) -> ReadError {
        ReadError::NotJson
    }
}

/// What a token alone stands for.
fn leaf<'a>(arena: &'a Bump, token: Token<'_>) -> Result<Tree<'a>, ReadError>
    ensures { Finds view result (leaf (token_of token.entry)) }
{
    match token {
        Token::Null => Ok(Tree::Null),
        Token::Bool(truth) => Ok(Tree::Bool(truth)),
        Token::Number(text) => match number_of(text) {
            Some(number) => Ok(Tree::Number(number)),
            None => Err(ReadError::NotJson),
        },
        Token::String(text) => Ok(Tree::String(arena.try_alloc_str(text)?)),
        _ => Err(ReadError::NotJson),
    }
}

/// The next value. Arrays and objects may nest so many levels deep.
#[cycle(read)]
#[tactic(auto, using(crate::proofs::Parts::array_began, crate::proofs::Parts::object_began, crate::proofs::Parts::too_deep_array, crate::proofs::Parts::too_deep_object, crate::proofs::Parts::nothing_left, crate::proofs::Parts::fails_around))]
fn tree_in<'a>(
    alloc: Global,
    arena: &'a Bump,
    reader: &mut Reader<'_>,
    levels: usize,
) -> Result<Tree<'a>, ReadError>
    ensures taken { Takes view result reader.new (data_in levels reader.old) }
    ensures shorter { OnOk result (length reader.new < length reader.old) }
{
    let token = reader.next().ok_or(ReadError::NotJson)?;
    match token {
        Token::BeginArray => {
            if levels == 0 {
                return Err(ReadError::NotJson);
            }
            Ok(Tree::Array(items_in(alloc, arena, reader, levels - 1)?))
        }
        Token::BeginObject => {
            if levels == 0 {
                return Err(ReadError::NotJson);
            }
            Ok(Tree::Object(members_in(alloc, arena, reader, levels - 1)?))
        }
        _ => leaf(arena, token),
    }
}

/// The items up to the end of the array that began.
#[cycle(read)]
#[tactic(auto, using(crate::proofs::Items::begins, crate::proofs::Items::goes_on, crate::proofs::Items::ends, crate::proofs::Items::fails))]
fn items_in<'a>(
    alloc: Global,
    arena: &'a Bump,
    reader: &mut Reader<'_>,
    levels: usize,
) -> Result<&'a [Tree<'a>], ReadError>
    ensures taken { Takes (λ found. items_view found.now) result reader.new
        (items_in levels reader.old) }
    ensures shorter { OnOk result (length reader.new < length reader.old) }
{
    let mut found = Vec::new(alloc);
    while !reader.take_end_array() {
        let item = tree_in(alloc, arena, reader, levels)?;
        found.push(item)?;
    }
    Ok(arena.try_alloc_slice_copy(&found)?)
}

/// The members up to the end of the object that began. The map that sorts them is large, so it lives no longer.
#[cycle(read)]
#[tactic(auto, using(crate::proofs::Members::begins, crate::proofs::Members::goes_on, crate::proofs::Members::ends, crate::proofs::Members::no_key, crate::proofs::Members::fails))]
fn members_in<'a>(
    alloc: Global,
    arena: &'a Bump,
    reader: &mut Reader<'_>,
    levels: usize,
) -> Result<&'a [Member<'a>], ReadError>
    ensures taken { Takes (λ found. members_view found.now) result reader.new
        (members_in levels reader.old) }
    ensures shorter { OnOk result (length reader.new < length reader.old) }
{
    let mut found = BTreeMap::new(alloc);
    while let Some(name) = reader.next_key()? {
        let key = arena.try_alloc_str(name)?;
        let member = tree_in(alloc, arena, reader, levels)?;
        put(&mut found, key, member)?;
    }
    entries_of(alloc, arena, found)
}

/// Puts a member in the place of one with that key.
fn put<'a>(
    found: &mut BTreeMap<&'a str, Tree<'a>>,
    key: &'a str,
    member: Tree<'a>,
) -> Result<(), AllocError>
    ensures { IfOk result (λ _. found.new.entries
        ≡ insert_entry (λ a b. slice_cmp nat_cmp a.now b.now) found.old.entries key.entry
        member.entry) }
{
    drop(found.insert(key, member)?);
    Ok(())
}

/// The members in the order of their keys, put into the arena.
fn entries_of<'a>(
    alloc: Global,
    arena: &'a Bump,
    found: BTreeMap<&'a str, Tree<'a>>,
) -> Result<&'a [Member<'a>], ReadError>
    ensures { MatchResult result (λ members. members.now ≡ found.entry.entries)
        (λ e. e ≡ errors.Memory) }
{
    let mut members = Vec::with_capacity(alloc, found.len())?;
    for (key, member) in &found {
        // There is room for each, and this push has no way to fail.
        members.push_reserved((*key, *member));
    }
    // The map is large, so it goes before the copy comes.
    drop(found);
    Ok(arena.try_alloc_slice_copy(&members)?)
}

/// The value that bytes are, put into the arena.
pub fn read_tree<'a>(alloc: Global, arena: &'a Bump, bytes: &[u8]) -> Result<Tree<'a>, ReadError>
    ensures utf8 { OnOk result (IsUtf8 bytes.now) }
    ensures found { IsUtf8 bytes.now → Finds view result (read bytes.now) }
{
    let Ok(text) = str::from_utf8(bytes) else {
        return Err(ReadError::NotJson);
    };
    let mut scratch = Scratch::new(alloc);
    let mut reader = Reader::new(text, &mut scratch)?;
    let tree = tree_in(alloc, arena, &mut reader, LEVELS_LIMIT)?;
    if reader.next().is_some() {
        return Err(ReadError::NotJson);
    }
    Ok(tree)
}
