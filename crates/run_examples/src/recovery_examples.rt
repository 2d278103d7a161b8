//! Examples of what is recovered: all facts hold of it, or all but one.

ghost use Rattle.std.specs.List.{slice_get};
ghost use Rattle.std.specs.Prelude.{◌≡◌, ℕ, [], ◌∷◌, Some};
ghost use Rattle.dura_model.specs.Partition.{fresh};
ghost use Rattle.flow_syntax.specs.Syntax.{Flows};
ghost use Rattle.recover_core.specs.Recovering.{AreOpened, CanGoOn, Refuses};
ghost use Rattle.recover_core.specs.declared.ending.Life.{Life};
ghost use Rattle.recover_core.specs.declared.error.RecoverError.TheVariants as errors;
ghost use Rattle.recover_core.specs.declared.recovery.Opened.{Opened};
ghost use Rattle.part_steps.specs.States.{parts_in};
ghost use Rattle.part_steps.specs.declared.state.PartState.{PartState};

/// Where none of two partitions has a log the fresh states are recovered: not where a state has an entry, nor where an incarnation of one is
/// told, or another one than the first begins.
pub fn opened_without_logs()
    ensures nothing { (flows : Flows) (digest : ℕ) (opened : Opened)
        → parts_in opened.states.items ≡ fresh → opened.lives.items ≡ []
        → AreOpened flows 2 digest (λ file. []) opened }
    ensures entry_there { (flows : Flows) (digest : ℕ) (opened : Opened)
        → (parts_in opened.states.items 1).position ≡ 1
        → AreOpened flows 2 digest (λ file. []) opened → ⊥ }
    ensures entry_told { (flows : Flows) (digest : ℕ) (opened : Opened) (life : Life)
        → slice_get opened.lives.items 1 ≡ Some life → life.past ≡ 0 ∷ []
        → AreOpened flows 2 digest (λ file. []) opened → ⊥ }
    ensures incarnation_told { (flows : Flows) (digest : ℕ) (opened : Opened) (life : Life)
        → slice_get opened.lives.items 1 ≡ Some life → life.incarnation ≡ 1
        → AreOpened flows 2 digest (λ file. []) opened → ⊥ }
{}

/// Files of two partitions without a log aren't refused: for no damage, no shape and no flows, and for no entry.
pub fn nothing_refused_without_logs()
    ensures damaged { (flows : Flows) (digest file offset : ℕ)
        → Refuses flows 2 digest (λ f. []) (errors.Damaged file offset) → ⊥ }
    ensures shape { (flows : Flows) (digest found : ℕ)
        → Refuses flows 2 digest (λ f. []) (errors.OtherShape found 2) → ⊥ }
    ensures other_flows { (flows : Flows) (digest found : ℕ)
        → Refuses flows 2 digest (λ f. []) (errors.OtherFlows found digest) → ⊥ }
    ensures illegal { (flows : Flows) (digest partition position : ℕ)
        → Refuses flows 2 digest (λ f. []) (errors.Illegal partition position) → ⊥ }
    ensures unclosed { (flows : Flows) (digest partition position src seq : ℕ)
        → Refuses flows 2 digest (λ f. []) (errors.Unclosed partition position src seq) → ⊥ }
{}

/// What is recovered of two partitions has two states and two logs: with one an entry can't begin in each; nor where an entry was counted
/// that its partition's state hasn't, or the incarnation that begins is one before the state's.
pub fn each_goes_on()
    ensures entry_counted { (opened : Opened) (life : Life)
        → slice_get opened.lives.items 1 ≡ Some life → life.past ≡ 0 ∷ []
        → parts_in opened.states.items 1 ≡ fresh 1 → CanGoOn 2 opened → ⊥ }
    ensures older { (opened : Opened) (life : Life) → slice_get opened.lives.items 1 ≡ Some life
        → life.incarnation ≡ 0 → (parts_in opened.states.items 1).incarnation ≡ 1
        → CanGoOn 2 opened → ⊥ }
    ensures one_log { (opened : Opened) (life : Life) → opened.lives.items ≡ life ∷ []
        → CanGoOn 2 opened → ⊥ }
    ensures one_state { (opened : Opened) (state : PartState) → opened.states.items ≡ state ∷ []
        → CanGoOn 2 opened → ⊥ }
{}
