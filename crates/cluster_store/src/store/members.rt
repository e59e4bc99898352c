//! Joins and departures.

ghost use Rattle.std.specs.Prelude.{◌≡◌, ℕ, true, OnErr, OnOk};
ghost use Rattle.std.specs.FinSet as set_of;
ghost use Rattle.state_transfer.specs.Leaving.{forgets};
ghost use Rattle.topology_coord.specs.Coordination.{loses};
ghost use Rattle.cluster_model.specs.Topologies.{can_depart, can_join, departed, joined};

use crate::hints::Ahead;
use crate::store::Store;
use grid_base::limits::MOST_NODES;
use grid_base::{NoMemory, NodeId, SegmentId};
use segment_hash::SegmentSet;
use state_transfer::Copies;
use std::alloc::Global;
use topology_phase::Members;

impl Store {
    /// Whether the node may join.
    #[tactic(auto, unfolding(cluster_model::specs::Topologies::can_join))]
    pub fn can_join(&self, node: NodeId) -> bool
        ensures { result ≡ can_join self.now node }
    {
        if self.coord.was_member(node) {
            return false;
        }
        node.number() < MOST_NODES
    }

    /// Whether the node may depart.
    #[tactic(auto, unfolding(cluster_model::specs::Topologies::can_depart))]
    pub fn can_depart(&self, node: NodeId) -> bool
        ensures { result ≡ can_depart self.now node }
    {
        if !self.is_live(node) {
            return false;
        }
        1 < Members::new(&self.live()).len()
    }

    /// The node joins. The only failure is that memory runs out, and all is then as before.
    pub fn join(&mut self, alloc: Global, node: NodeId) -> Result<(), NoMemory>
        requires { can_join self.old node ≡ true }
        ensures ok { OnOk result (self.new ≡ joined self.old node) }
        ensures err { OnErr result (self.new ≡ self.old) }
    {
        self.copies.join(alloc, node)?;
        self.coord.join(node);
        let ahead = Ahead::of(alloc, &self.coord);
        self.hints.change(ahead);
        Ok(())
    }

    /// The node departs. The answer is the segments that this loses.
    pub fn depart(&mut self, node: NodeId) -> SegmentSet
        requires { can_depart self.old node ≡ true }
        ensures departed { self.new ≡ departed self.old node }
        ensures lost { (segment : ℕ) → set_of.contains result segment ≡ loses self.old.coord node segment }
    {
        let lost = self.coord.depart(node);
        self.copies.cancel(node);
        self.copies.restart(node);
        forget_all(&mut self.copies, &lost);
        self.copies.depart(node);
        self.hints.change(Ahead::Unknown);
        lost
    }
}

/// Takes all copies and transfers of the segments away, at every node.
fn forget_all(copies: &mut Copies, segments: &SegmentSet)
    ensures { copies.new ≡ record copies.old { copying = forgets (set_of.contains segments.now) copies.old.copying } }
{
    if segments.next_from(SegmentId::new(0)).is_none() {
        return;
    }
    for number in 0..256u16 {
        let segment = SegmentId::new(number);
        if !segments.has(segment) {
            continue;
        }
        copies.forget(segment);
    }
}
