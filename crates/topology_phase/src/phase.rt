//! The phases of a rebalance.

ghost use Rattle.std.specs.Prelude.{◌≡◌};
ghost use Rattle.topology_phase.specs.Phases.{same_phase};

/// A phase of the topology. The names are those of Infinispan's `CacheTopology.Phase`; which owners
/// read, write and hold in each, and the order in which the phases follow, are the grid's own.
#[derive(Clone, Copy, Debug, PartialEq, Eq)]
pub enum Phase {
    /// No rebalance goes on: the current owners read, write and hold.
    NoRebalance,
    /// The current owners read and hold, the current and the pending ones write.
    ReadOld,
    /// The current and the pending owners read, write and hold.
    ReadAll,
    /// The pending owners read, the current and the pending ones write and hold.
    ReadNew,
}

impl Phase {
    /// Whether it is that phase.
    pub fn is(self, other: Phase) -> bool
        ensures { result ≡ same_phase self other }
    {
        match self {
            Phase::NoRebalance => matches!(other, Phase::NoRebalance),
            Phase::ReadOld => matches!(other, Phase::ReadOld),
            Phase::ReadAll => matches!(other, Phase::ReadAll),
            Phase::ReadNew => matches!(other, Phase::ReadNew),
        }
    }
}
