//! What a live script changes in the membership.

use grid_base::NodeId;

/// A change of the membership.
#[derive(Clone, Copy, Debug, PartialEq, Eq)]
pub enum Member {
    /// A node joins that was never a member before.
    Join(NodeId),
    /// A live node departs, which isn't the last one.
    Depart(NodeId),
}
