//! A place in the order of receivers and segments.

ghost use Rattle.std.specs.Prelude.{◌≡◌};
ghost use Rattle.cluster_store.specs.Hints.{back_to, first_place};

use grid_base::{NodeId, SegmentId};

/// A receiver and a segment, in the order by receiver and then by segment.
#[derive(Clone, Copy, Debug)]
pub(crate) struct Place {
    pub(crate) receiver: NodeId,
    pub(crate) segment: SegmentId,
}

impl Place {
    /// The first one.
    pub(crate) fn first() -> Place
        ensures { result ≡ first_place }
    {
        Place {
            receiver: NodeId::new(0),
            segment: SegmentId::new(0),
        }
    }

    /// This place, or that of the segment and the receiver where that one comes first.
    pub(crate) fn back_to(self, receiver: NodeId, segment: SegmentId) -> Place
        ensures { result ≡ back_to self receiver segment }
    {
        if receiver.number() < self.receiver.number() {
            return Place { receiver, segment };
        }
        if receiver == self.receiver && segment.number() < self.segment.number() {
            return Place { receiver, segment };
        }
        self
    }
}
