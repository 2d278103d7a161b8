//! What a partition's seat shows.

ghost use Rattle.std.specs.Prelude.{ℕ};
ghost use Rattle.dura_model.specs.Partition.{Partition};
ghost use Rattle.flow_syntax.specs.Syntax.{Flows};
ghost use Rattle.spec_cell.specs.Seats.{Slot};

/// A seat of one partition at the store, under rules that all cells of a call share. What a cell keeps is said of what its seat has
/// settled.
pub trait Mine {
    /// The flows.
    ghost flows: { Flows };

    /// How many partitions there are.
    ghost count: { ℕ };

    /// The state of each partition as it was recovered.
    ghost begin: { ℕ → Partition };

    /// The partition.
    ghost number: { Self → ℕ };

    /// Which seat it is, the store's own or what stands for it while that is out, and its place in the store.
    ghost slot: { Self → Slot };
}
