//! Laws. The functions do nothing.

ghost use Rattle.std.specs.Prelude.{◌≡◌, ℕ, List, [], None};
ghost use Rattle.commit_gate.specs.Ledgers.{Ledger};
ghost use Rattle.commit_gate.specs.declared.ledger.Ledger as declared;
ghost use Rattle.dura_model.specs.Partition.{Partition};
ghost use Rattle.dura_model.specs.Sends.{readers_in};
ghost use Rattle.dura_value.specs.Items.{Entry, Identity};
ghost use Rattle.gated_store.specs.Kept.{LedgerFits};
ghost use Rattle.state_ledgers.specs.Ledger.{made_by, NoneReadPast, IsLedgerOf};

/// The ledger of a state that was recovered fits what a store whose gate compares asks for when it begins, where that is what the state's
/// entries made.
pub fn recovered_ledgers_fit()
    ensures { (ledgers : ℕ → List Entry → Ledger) (readers : ℕ → ℕ → Identity)
        (count partition : ℕ) (p : Partition) (past : List ℕ) (ledger : declared.Ledger)
        → ledgers partition [] ≡ made_by past p → readers partition ≡ readers_in p
        → NoneReadPast count p → IsLedgerOf count p past ledger
        → LedgerFits ledgers readers count partition [] None ledger }
{}
