//! The places of units.

use grid_base::{NodeId, SegmentId};

/// Where a unit is registered. Places are ordered by node, and then by segment.
#[derive(Clone, Copy, Debug, PartialEq, Eq, PartialOrd, Ord)]
pub struct Place {
    /// The node that is asked.
    pub node: NodeId,
    /// The segment that it is asked for.
    pub segment: SegmentId,
}
