//! Examples of what depends on what. The function does nothing.

ghost use Rattle.gated_store.specs.Causal.{identity_of};
ghost use Rattle.lost_laws.specs.DependsOn.{DependsOn, NoneLost};
ghost use Rattle.lost_laws.specs.Examples.{first, second, third, three, nowhere, floors_from};

/// An entry depends on the one that sent what it takes in, and on the one right before it; through that on what this takes in; and not on what
/// depends on it. Where the first is lost, so is what the last depends on; where all behind the first is, it isn't.
pub fn entries_depend()
    ensures named { DependsOn nowhere three (identity_of second) (identity_of first) }
    ensures before { DependsOn nowhere three (identity_of third) (identity_of second) }
    ensures further { DependsOn nowhere three (identity_of third) (identity_of first) }
    ensures behind { DependsOn nowhere three (identity_of first) (identity_of second) → ⊥ }
    ensures lost { NoneLost nowhere three (floors_from 0) (identity_of third) → ⊥ }
    ensures kept { NoneLost nowhere three (floors_from 1) (identity_of third) }
{}
