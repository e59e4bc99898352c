//! Owners of segments by a topology; a segment that isn't there has none.

ghost use Rattle.std.specs.Prelude.{◌≡◌};
ghost use Rattle.topology_phase.specs.Owners.{owners_at};
ghost use Rattle.topology_phase.specs.Topologies.{read_owners, write_owners};

use grid_base::SegmentId;
use topology_phase::{Owners, Topology};

/// The owners that read the segment.
#[tactic(auto, using(crate::proofs::PastOwners::readers_past))]
pub(crate) fn readers(topology: &Topology, segment: SegmentId) -> Owners
    ensures { result ≡ read_owners topology.now segment }
{
    if segment.number() >= topology.segments() {
        return Owners::new();
    }
    topology.read_owners(segment)
}

/// The owners at which a write to the segment is done.
#[tactic(auto, using(crate::proofs::PastOwners::writers_past))]
pub(crate) fn writers(topology: &Topology, segment: SegmentId) -> Owners
    ensures { result ≡ write_owners topology.now segment }
{
    if segment.number() >= topology.segments() {
        return Owners::new();
    }
    topology.write_owners(segment)
}

/// The current owners of the segment.
pub(crate) fn current_owners(topology: &Topology, segment: SegmentId) -> Owners
    ensures { result ≡ owners_at topology.now.current segment }
{
    if segment.number() >= topology.segments() {
        return Owners::new();
    }
    topology.current_owners(segment)
}

/// The pending owners of the segment.
pub(crate) fn pending_owners(topology: &Topology, segment: SegmentId) -> Owners
    ensures { result ≡ owners_at topology.now.pending segment }
{
    if segment.number() >= topology.segments() {
        return Owners::new();
    }
    topology.pending_owners(segment)
}
