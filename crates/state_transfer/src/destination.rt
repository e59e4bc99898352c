//! Where transfers lead to.

use grid_base::{NodeId, SegmentId};
use std::marker::Model;

/// Where a transfer leads to. Destinations are ordered by receiver, and then by segment.
#[derive(Clone, Copy, Debug, PartialEq, Eq, PartialOrd, Ord)]
pub(crate) struct Destination {
    pub(crate) receiver: NodeId,
    pub(crate) segment: SegmentId,
}

impl Model for Destination {
    ghost use Rattle.state_transfer.specs.Cells.{Destination};
    ghost use Rattle.state_transfer.specs.Cells.{destination_code};

    ghost Value = { Destination };

    ghost coded = { destination_code };

    ghost view = { λ a. record { receiver = a.receiver; segment = a.segment } };

    ghost inverse = { λ d. record { receiver = d.receiver; segment = d.segment } };
}
