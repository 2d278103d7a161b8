//! Whether the states of all partitions are at rest.

ghost use Rattle.std.specs.Prelude.{◌≡◌, ◌<◌, ◌↔◌, ℕ, map, length, true};
ghost use Rattle.part_steps.specs.Quiet.{IsQuiet};
ghost use Rattle.part_steps.specs.States.{AreStatesOfAll, parts_in};
ghost use Rattle.rest_laws.specs.Rest.{HasRead, AreAtRest};

use part_steps::PartState;

/// Whether the reader has taken in all of the stream from the source.
fn has_read(states: &[&PartState], source: usize, reader: usize) -> bool
    requires all { AreStatesOfAll (map (λ s. s.now) states.now) }
    requires source { source < length states.now }
    requires reader { reader < length states.now }
    ensures { (result ≡ true) ↔ HasRead (parts_in (map (λ s. s.now) states.now)) source reader }
{
    let from = states[source];
    let to = states[reader];
    let first = from.first_left(to.number());
    let taken = to.taken_in(from.number());
    first <= taken && from.left_len(to.number()) as u64 <= taken - first
}

/// Whether each partition has taken in all of the stream from this one.
fn all_have_read(states: &[&PartState], source: usize) -> bool
    requires all { AreStatesOfAll (map (λ s. s.now) states.now) }
    requires source { source < length states.now }
    ensures { (result ≡ true) ↔ ((reader : ℕ) → reader < length states.now
        → HasRead (parts_in (map (λ s. s.now) states.now)) source reader) }
{
    for reader in 0..states.len() {
        if !has_read(states, source, reader) {
            return false;
        }
    }
    true
}

/// Whether all streams were taken in.
fn is_all_read(states: &[&PartState]) -> bool
    requires all { AreStatesOfAll (map (λ s. s.now) states.now) }
    ensures { (result ≡ true) ↔ ((source : ℕ) → source < length states.now
        → (reader : ℕ) → reader < length states.now
        → HasRead (parts_in (map (λ s. s.now) states.now)) source reader) }
{
    for source in 0..states.len() {
        if !all_have_read(states, source) {
            return false;
        }
    }
    true
}

/// Whether nothing is possible in any of them without a request.
fn are_quiet(states: &[&PartState]) -> bool
    requires all { AreStatesOfAll (map (λ s. s.now) states.now) }
    ensures { (result ≡ true) ↔ ((place : ℕ) → place < length states.now
        → IsQuiet (parts_in (map (λ s. s.now) states.now) place)) }
{
    for state in states {
        if !state.is_quiet() {
            return false;
        }
    }
    true
}

/// Whether the states of all partitions are at rest: then the world that they show is quiet, until a request comes (`rest_is_quiet`).
pub fn are_at_rest(states: &[&PartState]) -> bool
    requires { AreStatesOfAll (map (λ s. s.now) states.now) }
    ensures { (result ≡ true)
        ↔ AreAtRest (length states.now) (parts_in (map (λ s. s.now) states.now)) }
{
    are_quiet(states) && is_all_read(states)
}
