//! What is fixed when a call begins.

ghost use Rattle.std.specs.Prelude.{◌≡◌, ◌≤◌, ℕ, List, ◌++◌, Option, Some};
ghost use Rattle.dura_value.specs.Items.{Entry, Identity};
ghost use Rattle.commit_gate.specs.Ledgers.{Ledger};
ghost use Rattle.commit_gate.specs.Views.{no_ledger};
ghost use Rattle.gated_store.specs.Follows.{GoesOnThere};
ghost use Rattle.hub_store.specs.Origin.{Origin};
ghost use Rattle.hub_store.specs.Trail.{Settled, Said};

use hub_store::Start;
use std::marker::PhantomData;

/// Where a call begins, and what each partition may commit by its own state.
pub trait Local: Drop {
    /// Where the call begins.
    ghost origin: { Origin };

    /// What others see of a partition, once these entries of it were settled.
    ghost ledgers: { ℕ → List Entry → Ledger };

    /// Who had taken in the last message of each stream to a partition at the beginning: of the partition, and by the stream's.
    ghost readers: { ℕ → ℕ → Identity };

    /// Whether these entries of a partition may be committed by its own state, up to a moment, once these of it were settled and this
    /// was said.
    ghost may_make: { ℕ → List Entry → List Said → ℕ → List Entry → Type 0 };

    /// Whether this line may be said of a request, once this was settled and said.
    ghost may_say: { List Settled → List Said → Said → List ℕ → Type 0 };

    /// The line that answers a request as what was settled has it, if that does.
    ghost answer: { List Settled → Said → Option (List ℕ) };

    /// What may be said is that answer.
    ghost says: { (trail : List Settled) (told : List Said) (one : Said) (line : List ℕ)
        → may_say trail told one line → answer trail one ≡ Some line };

    /// It may be made still once more was said.
    ghost still_makes: { (latest : ℕ) (mine : List Entry) (told also : List Said) (partition : ℕ)
        (going : List Entry) → may_make latest mine told partition going
        → may_make latest mine (told ++ also) partition going };

    /// And up to a later moment.
    ghost later_makes: { (latest later : ℕ) (mine : List Entry) (told : List Said) (partition : ℕ)
        (going : List Entry) → latest ≤ later → may_make latest mine told partition going
        → may_make later mine told partition going };

    /// Where there is no partition there is nothing.
    ghost outside: { (partition : ℕ) (mine : List Entry) → origin.count ≤ partition
        → ledgers partition mine ≡ no_ledger };

    /// What may be made goes on where its partition stands.
    ghost goes: { (latest : ℕ) (mine : List Entry) (told : List Said) (partition : ℕ)
        (going : List Entry) → may_make latest mine told partition going
        → GoesOnThere ledgers mine partition going };
}

/// The start of the logs of a store whose gate compares.
#[derive(Drop)]
pub struct Gated<L: Local> {
    of: PhantomData<L>,
}

impl<L: Local> Start for Gated<L> {
    ghost use Rattle.gated_store.specs.Follows.{Follows};
    ghost use Rattle.gated_store.specs.Following.{still_said, still_settled, later_follows};

    ghost origin = { L.origin };

    ghost may_follow = { Follows L.ledgers L.may_make };

    ghost may_say = { L.may_say };

    ghost still_said = { still_said L.ledgers L.may_make L.still_makes };

    ghost still_settled = { still_settled L.ledgers L.may_make L.goes };

    ghost later_follows = { later_follows L.ledgers L.may_make L.later_makes };
}
