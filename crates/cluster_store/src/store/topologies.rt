//! Announcements and installations.

ghost use Rattle.std.specs.Prelude.{◌≡◌, ℕ, ◌&&◌, nat_lt, length, true, false, not, None, IfOk};
ghost use Rattle.state_transfer.specs.Calls.{ProvidesNone};
ghost use Rattle.state_transfer.specs.Copying.{transfer_to};
ghost use Rattle.state_transfer.specs.Leaving.{drops};
ghost use Rattle.topology_coord.specs.Following.{following};
ghost use Rattle.topology_phase.specs.Owners.{among};
ghost use Rattle.topology_phase.specs.Topologies.{IsTopology, write_owners};
ghost use Rattle.cluster_model.specs.Commands.{cancel_event};
ghost use Rattle.cluster_model.specs.Topologies.{all_copied, announced, can_announce, can_install, installed, next_topology};
ghost use Rattle.cluster_store.specs.Receivers.{has_copies, is_copied};

use crate::hints::Ahead;
use crate::owners::pending_owners;
use crate::store::Store;
use grid_base::{NoMemory, NodeId, SegmentId, TopologyId};
use state_transfer::Copies;
use std::alloc::Global;
use topology_phase::{Phase, Topology};

impl Store {
    /// Whether the topology may be announced. The only failure is that memory runs out.
    #[tactic(auto, unfolding(cluster_model::specs::Topologies::can_announce))]
    pub fn can_announce(&self, alloc: Global, topology: &Topology) -> Result<bool, NoMemory>
        ensures { IfOk result (λ may. may ≡ can_announce self.now topology.now) }
    {
        match self.next_topology(alloc)? {
            None => Ok(false),
            Some(next) => Ok(topology.is_same(&next)),
        }
    }

    /// Whether the node may install the newest topology, by this number.
    #[tactic(auto, unfolding(cluster_model::specs::Topologies::can_install))]
    pub fn can_install(&self, node: NodeId, id: TopologyId) -> bool
        ensures { result ≡ can_install self.now node id }
    {
        if !self.is_live(node) {
            return false;
        }
        let newest = self.coord.newest().id();
        if self.coord.installed_id(node) == newest {
            return false;
        }
        id == newest
    }

    /// The topology is announced, which may be.
    pub fn announce(&mut self, topology: Topology)
        requires { can_announce self.old topology ≡ true }
        ensures { self.new ≡ announced self.old topology }
    {
        let keeps = topology.phase().is(Phase::ReadOld);
        self.coord.announce(topology);
        self.hints.announce(keeps);
        if keeps {
            return;
        }
        self.copies.close_all();
    }

    /// The node installs the newest topology, by this number. Where memory runs out, less is known
    /// of what follows.
    pub fn install(&mut self, alloc: Global, node: NodeId, id: TopologyId)
        requires { can_install self.old node id ≡ true }
        ensures { self.new ≡ installed self.old node id }
    {
        let _ = id;
        let _ = self.coord.install(node);
        drop_unwritten(&mut self.copies, self.coord.newest(), node);
        let ahead = Ahead::of(alloc, &self.coord);
        self.hints.change(ahead);
    }

    /// The next topology. None comes exactly where there is none. The only failure is that memory
    /// runs out.
    pub(crate) fn next_topology(&self, alloc: Global) -> Result<Option<Topology>, NoMemory>
        ensures { IfOk result (λ next. next ≡ next_topology self.now) }
    {
        if self.ends() {
            return Ok(None);
        }
        let copied = self.all_copied();
        if !copied && self.awaits_copies() {
            return Ok(None);
        }
        self.coord.next_topology(alloc, copied)
    }

    /// Whether it is known that there is no next topology.
    fn ends(&self) -> bool
        ensures { result ≡ true → next_topology self.now ≡ None }
    {
        matches!(self.hints.ahead, Ahead::NoTopology)
    }

    /// Whether it is known that there is no next topology until receivers have their copies.
    fn awaits_copies(&self) -> bool
        ensures { result ≡ true → following false self.now.coord ≡ None }
    {
        matches!(self.hints.ahead, Ahead::NoTopology | Ahead::AwaitsCopies)
    }

    /// Whether it is known that the next topology doesn't give up a rebalance.
    pub(crate) fn goes_on(&self) -> bool
        ensures { result ≡ true → cancel_event self.now ≡ None }
    {
        !matches!(self.hints.ahead, Ahead::Unknown)
    }

    /// Whether every receiver of a segment has ended its transfer.
    fn all_copied(&self) -> bool
        ensures { result ≡ all_copied self.now }
    {
        // Where a transfer goes on, it is most often the one from which on chunks may be sent.
        if self.lacks(self.hints.from.segment) {
            return false;
        }
        for number in 0..self.config.segments {
            if !self.is_copied(SegmentId::new(number)) {
                return false;
            }
        }
        true
    }

    /// Whether the segment is one of the cluster's, of which a receiver hasn't ended its transfer.
    fn lacks(&self, segment: SegmentId) -> bool
        ensures { result ≡ true → all_copied self.now ≡ false }
    {
        segment.number() < self.config.segments && !self.is_copied(segment)
    }

    /// Whether every receiver of the segment has ended its transfer.
    fn is_copied(&self, segment: SegmentId) -> bool
        ensures { result ≡ is_copied self.now segment }
    {
        let owners = pending_owners(self.coord.newest(), segment);
        for place in 0..owners.len() {
            let Some(node) = owners.get(place) else {
                return true;
            };
            if !self.has_copies(node, segment) {
                return false;
            }
        }
        true
    }

    /// Whether the node isn't to receive the segment, or has ended its transfer.
    fn has_copies(&self, node: NodeId, segment: SegmentId) -> bool
        ensures { result ≡ has_copies self.now segment node }
    {
        if !self.coord.receives(node, segment) {
            return true;
        }
        self.copies.has_ended(node, segment)
    }
}

/// Takes the copies away that the node has of segments that it doesn't write by the topology; no
/// transfer of such a segment has it as its receiver or provider.
fn drop_unwritten(copies: &mut Copies, topology: &Topology, node: NodeId)
    requires no_receiver { (s : ℕ) → among node (write_owners topology.now s) ≡ false → transfer_to copies.old.copying.transfers node s ≡ None }
    requires no_provider { (s : ℕ) → among node (write_owners topology.now s) ≡ false → ProvidesNone copies.old.copying.transfers node s }
    ensures kept { IsTopology topology.now }
    ensures dropped { copies.new ≡ record copies.old { copying = drops node (λ s. nat_lt s (length topology.now.current) && not (among node (write_owners topology.now s))) copies.old.copying } }
{
    for number in 0..topology.segments() {
        let segment = SegmentId::new(number);
        if topology.write_owners(segment).has(node) {
            continue;
        }
        copies.drop_segment(node, segment);
    }
}
