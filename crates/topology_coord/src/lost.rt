//! Which segments a departure loses.

ghost use Rattle.std.specs.Prelude.{◌≡◌, ℕ, ◌<◌, ◌&&◌, not, length};
ghost use Rattle.std.specs.List.{list_any};
ghost use Rattle.std.specs.FinSet as set_of;
ghost use Rattle.topology_phase.specs.Owners.{among};
ghost use Rattle.topology_phase.specs.Topologies.{holders};

use grid_base::SegmentId;
use segment_hash::SegmentSet;
use topology_phase::{Members, Topology};

/// The segments of which a node in `live` is a holder by the topology, and none in `left` is.
pub(crate) fn lost_segments(topology: &Topology, live: &Members, left: &Members) -> SegmentSet
    ensures { (s : ℕ) → set_of.contains result s ≡ (list_any (λ n. among n live.now) (holders topology.now s) && not (list_any (λ n. among n left.now) (holders topology.now s))) }
{
    let mut lost = SegmentSet::new();
    for number in 0..topology.segments() {
        let segment = SegmentId::new(number);
        if !is_lost(topology, segment, live, left) {
            continue;
        }
        lost.add(segment);
    }
    lost
}

/// Whether a node in `live` is a holder of `segment` by the topology, and none in `left` is.
fn is_lost(topology: &Topology, segment: SegmentId, live: &Members, left: &Members) -> bool
    requires { segment < length topology.now.current }
    ensures { result ≡ (list_any (λ n. among n live.now) (holders topology.now segment) && not (list_any (λ n. among n left.now) (holders topology.now segment))) }
{
    let holders = topology.holders(segment);
    if holders.pruned(live).is_empty() {
        return false;
    }
    holders.pruned(left).is_empty()
}
