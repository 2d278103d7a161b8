//! The incarnations of a partition's entries, kept stretch by stretch.

ghost use Rattle.std.specs.Prelude.{◌≡◌, ◌≤◌, ◌<◌, ◌+◌, ◌^◌, ◌++◌, ◌∷◌, [], length, OnOk, OnErr};
ghost use Rattle.std.specs.List.{slice_get};
ghost use Rattle.std.specs.Vec.{vec_len, vec_capacity};
ghost use Rattle.commit_gate.specs.Past.{begins, spread, Rise};

use std::alloc::{AllocError, Global};
use std::marker::Model;

/// Entries one after another that were made by one incarnation.
#[derive(Clone, Copy)]
pub(crate) struct Stretch {
    /// The incarnation.
    pub(crate) incarnation: u64,
    /// The position behind the last of them.
    pub(crate) end: u64,
}

/// How many entries these have.
pub(crate) fn length_of(stretches: &[Stretch]) -> u64
    requires rise { Rise stretches.now }
    ensures { result ≡ length (spread stretches.now) }
{
    let count = stretches.len();
    if count == 0 {
        return 0;
    }
    stretches[count - 1].end
}

/// The number of the stretch that an entry is in, by its position: the count of them where it is in none. Each step halves those that are
/// left.
fn stretch_at(stretches: &[Stretch], position: u64) -> usize
    ensures inside { result ≤ length stretches.now }
    ensures begun { begins stretches.now result ≤ position }
    ensures not_ended { result < length stretches.now
        → position < begins stretches.now (result + 1) }
{
    let mut low = 0;
    let mut high = stretches.len();
    while low < high {
        let middle = low + (high - low) / 2;
        if stretches[middle].end <= position {
            low = middle + 1;
        } else {
            high = middle;
        }
    }
    low
}

/// The incarnation of the entry at a position. Of n stretches it takes O(log n) steps.
pub(crate) fn incarnation_at(stretches: &[Stretch], position: u64) -> Option<u64>
    requires rise { Rise stretches.now }
    ensures { result ≡ slice_get (spread stretches.now) position }
{
    let at = stretch_at(stretches, position);
    if at < stretches.len() {
        Some(stretches[at].incarnation)
    } else {
        None
    }
}

/// One more entry, of this incarnation. It takes no memory: there is room for a stretch.
pub(crate) fn push_reserved(stretches: &mut Vec<Stretch>, incarnation: u64)
    requires rise { Rise stretches.old.items }
    requires short { length (spread stretches.old.items) + 1 < 2 ^ 64 }
    requires room { vec_len stretches.old < vec_capacity stretches.old }
    ensures rise { Rise stretches.new.items }
    ensures entries { spread stretches.new.items
        ≡ spread stretches.old.items ++ incarnation ∷ [] }
    ensures len { vec_len stretches.new ≤ vec_len stretches.old + 1 }
    ensures capacity { vec_capacity stretches.new ≡ vec_capacity stretches.old }
{
    let count = stretches.len();
    let end = length_of(stretches) + 1;
    if count > 0 && stretches[count - 1].incarnation == incarnation {
        stretches[count - 1].end = end;
        return;
    }
    stretches.push_reserved(Stretch { incarnation, end });
}

/// These entries, behind those that there are. It takes no memory: there is room for a stretch of each.
pub(crate) fn push_all_reserved(stretches: &mut Vec<Stretch>, incarnations: &[u64])
    requires rise { Rise stretches.old.items }
    requires short { length (spread stretches.old.items) + length incarnations.now < 2 ^ 64 }
    requires room { vec_len stretches.old + length incarnations.now
        ≤ vec_capacity stretches.old }
    ensures rise { Rise stretches.new.items }
    ensures entries { spread stretches.new.items
        ≡ spread stretches.old.items ++ incarnations.now }
    ensures room { vec_len stretches.new ≤ vec_capacity stretches.new }
{
    for incarnation in incarnations {
        push_reserved(stretches, *incarnation);
    }
}

/// The incarnation of each entry of a partition, by the entry's position. They are kept in stretches of one incarnation, which are few.
#[derive(Drop)]
pub struct Past {
    /// The stretches, of which each ends behind the one before.
    pub(crate) stretches: Vec<Stretch>,
}

impl Model for Past {
    ghost use Rattle.std.specs.Prelude.{◌<◌, ◌^◌, ℕ, List, length};
    ghost use Rattle.commit_gate.specs.Past.{spread, Rise};

    ghost Value = { List ℕ };

    ghost view = { λ p. spread p.stretches.items };

    ghost invariant = { λ p. Rise p.stretches.items
        × (length (spread p.stretches.items) < 2 ^ 64) };
}

impl Past {
    /// That of no entry.
    pub fn none(alloc: Global) -> Past
        ensures { result ≡ [] }
    {
        Past {
            stretches: Vec::new(alloc),
        }
    }

    /// How many entries there are.
    pub fn len(&self) -> u64
        ensures { result ≡ length self.now }
    {
        length_of(&self.stretches)
    }

    /// The incarnation of the entry at a position. Of n stretches it takes O(log n) steps.
    pub fn at(&self, position: u64) -> Option<u64>
        ensures { result ≡ slice_get self.now position }
    {
        incarnation_at(&self.stretches, position)
    }

    /// One more entry, of this incarnation. Where there is no memory, or there are already as many entries as a position can name, all
    /// stays as it is.
    pub fn push(&mut self, incarnation: u64) -> Result<(), AllocError>
        ensures ok { OnOk result (self.new ≡ self.old ++ incarnation ∷ []) }
        ensures err { OnErr result (self.new ≡ self.old) }
    {
        if length_of(&self.stretches) == u64::MAX {
            return Err(AllocError);
        }
        if self.stretches.reserve(1).is_err() {
            return Err(AllocError);
        }
        push_reserved(&mut self.stretches, incarnation);
        Ok(())
    }
}
