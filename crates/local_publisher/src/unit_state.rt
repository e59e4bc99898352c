//! The stages of a unit.

ghost use Rattle.std.specs.Prelude.{◌≡◌};
ghost use Rattle.local_publisher.specs.Stages.{is_open};

use grid_base::TopologyId;

/// The stage of a unit. It goes from `Asked` to `Running` and from there to `Ended`, unless it is
/// refused or lost before. From `Refused`, `Lost` and `Ended` no stage follows.
#[derive(Clone, Copy, Debug, PartialEq, Eq)]
pub enum UnitState {
    /// The node was asked and hasn't begun.
    Asked,
    /// The node reads the segment.
    Running,
    /// The node didn't read the segment when the unit was to begin. It had installed this topology.
    Refused(TopologyId),
    /// The node ceased to read the segment when it installed this topology, or it departed where
    /// there is none.
    Lost(Option<TopologyId>),
    /// All entries of the node's copy of the segment were read, and the segment is complete.
    Ended,
}

impl UnitState {
    /// Whether the unit is open: asked or running.
    pub fn is_open(self) -> bool
        ensures { result ≡ is_open self }
    {
        match self {
            UnitState::Asked => true,
            UnitState::Running => true,
            UnitState::Refused(_) => false,
            UnitState::Lost(_) => false,
            UnitState::Ended => false,
        }
    }
}
