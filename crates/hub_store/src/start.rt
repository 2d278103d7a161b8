//! What is fixed when a call begins.

ghost use Rattle.std.specs.Prelude.{◌≢◌, ◌≤◌, ℕ, List, ◌++◌};
ghost use Rattle.dura_value.specs.Items.{Entry};
ghost use Rattle.hub_store.specs.Origin.{Origin};
ghost use Rattle.hub_store.specs.Trail.{Settled, Said, settling};

use std::marker::Brand;

/// Where a call begins, and what it may commit and say: the type of a store carries it.
pub trait Start: Drop {
    /// Where the call begins.
    ghost origin: { Origin };

    /// Whether these entries of a partition may be committed, up to a moment, once this was settled and said.
    ghost may_follow: { ℕ → List Settled → List Said → ℕ → List Entry → Type 0 };

    /// Whether this line may be said of a request, once this was settled and said.
    ghost may_say: { List Settled → List Said → Said → List ℕ → Type 0 };

    /// What may be committed may be committed still once more was said.
    ghost still_said: { (latest : ℕ) (trail : List Settled) (told also : List Said)
        (partition : ℕ) (going : List Entry) → may_follow latest trail told partition going
        → may_follow latest trail (told ++ also) partition going };

    /// And so it may once a frame of another partition was settled, which might be committed too.
    ghost still_settled: { (latest : ℕ) (trail : List Settled) (told : List Said)
        (partition at : ℕ) (going : List Entry) (other : ℕ) (theirs : List Entry)
        → other ≢ partition → may_follow latest trail told partition going
        → may_follow latest trail told other theirs
        → may_follow latest (trail ++ settling partition at going) told other theirs };

    /// What may be committed up to a moment may be committed up to a later one.
    ghost later_follows: { (latest later : ℕ) (trail : List Settled) (told : List Said)
        (partition : ℕ) (going : List Entry) → latest ≤ later
        → may_follow latest trail told partition going
        → may_follow later trail told partition going };
}

/// The start that a call picks: without a pick it has one partition without entries, and anything may be committed and said.
impl Start for Brand {
    ghost use Rattle.std.specs.Prelude.{[]};
    ghost use Rattle.hub_store.specs.Origin.{no_entry};

    ghost origin = { record { count = 1; logs = λ partition. no_entry 16; steps = [] } };

    ghost may_follow = { λ latest trail told partition going. Unit {0} };

    ghost may_say = { λ trail told one line. Unit {0} };

    ghost still_said = { λ latest trail told also partition going may. may };

    ghost still_settled = { λ latest trail told part at going other theirs apart may also. also };

    ghost later_follows = { λ latest later trail told partition going above may. may };
}
