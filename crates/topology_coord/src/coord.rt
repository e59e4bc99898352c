//! The coordinator.

ghost use Rattle.std.specs.Prelude.{◌≡◌, ℕ, ◌<◌, ◌≤◌, ◌↔◌, ◌&&◌, Bool, true, false, Some, IfOk, IfSome, IsNone, length};
ghost use Rattle.std.specs.FinSet as set_of;
ghost use Rattle.topology_phase.specs.Owners.{members};
ghost use Rattle.topology_coord.specs.Coordination.{all_installed, first_coordination, installed_id, live_nodes, lives, loses, topology_of};
ghost use Rattle.topology_coord.specs.Changes.{announces, departs, installs, joins, may_depart, may_join};
ghost use Rattle.topology_coord.specs.Following.{following, receives};

use crate::installed::{Installed, first_nodes};
use crate::lost::lost_segments;
use grid_base::{Duplicate, NoMemory, NodeId, NodeSet, SegmentId, TopologyId};
use hash_factory::create;
use segment_hash::SegmentSet;
use std::alloc::Global;
use std::marker::Model;
use topology_phase::{Aim, Members, Phase, Topology};

/// What a coordinator knows: how many owners a segment is to have, what a rebalance aims at, which nodes were ever members,
/// which live ones have installed which topology, and the two newest topologies. Some node is
/// always live.
#[derive(Debug, Drop)]
pub struct Coord {
    owners: u8,
    aim: Aim,
    ever: NodeSet,
    installed: Installed,
    newest: Topology,
    before: Topology,
}

impl Model for Coord {
    ghost use Rattle.std.specs.FinMap as map_of;
    ghost use Rattle.std.specs.FinSet as set_of;
    ghost use Rattle.std.specs.Coded.{codes, coded_ℕ};
    ghost use Rattle.std.specs.Ordering.{nat_cmp};
    ghost use Rattle.topology_coord.specs.Coordination.{Coordination};

    ghost Value = { Coordination };

    ghost coded = { Prim.hlevel (codes, map_of.code {R = nat_cmp} coded_ℕ coded_ℕ, set_of.code {R = nat_cmp} coded_ℕ) };

    ghost use Rattle.topology_coord.specs.Holding.{coordination_of, IsCoord};

    ghost view = { coordination_of };

    ghost invariant = { IsCoord };
}

impl Coord {
    /// The start of a cluster of 1 to 16 nodes, 1 to 256 segments and 1 to 4 owners a segment. The
    /// only failure is that memory runs out.
    pub fn new(
        alloc: Global,
        nodes: u8,
        segments: u16,
        owners: u8,
        aim: Aim,
    ) -> Result<Coord, NoMemory>
        requires some_node { 1 ≤ nodes }
        requires few_nodes { nodes ≤ 16 }
        requires some_segment { 1 ≤ segments }
        requires few_segments { segments ≤ 256 }
        requires some_owner { 1 ≤ owners }
        requires few_owners { owners ≤ 4 }
        ensures { IfOk result (λ coord. coord ≡ first_coordination nodes segments owners aim) }
    {
        let ever = first_nodes(nodes);
        let hash = create(alloc, &ever, segments, owners)?;
        let newest = Topology::new(TopologyId::new(1), Phase::NoRebalance, hash, None);
        let before = newest.copy(alloc)?;
        Ok(Coord {
            owners,
            aim,
            ever,
            installed: Installed::first(nodes),
            newest,
            before,
        })
    }

    /// Node `n`, which was never a member and is at most 15, is a member now, and has installed the
    /// newest topology.
    pub fn join(&mut self, n: NodeId)
        requires { may_join self.old n ≡ true }
        ensures { self.new ≡ joins self.old n }
    {
        self.ever.add(n);
        self.installed.put(n, self.newest.id());
    }

    /// Node `n`, which lives and isn't the last that does, lives no longer. The answer is the
    /// segments that this loses: those with a live holder by the newest topology before, and none
    /// after.
    pub fn depart(&mut self, n: NodeId) -> SegmentSet
        requires { may_depart self.old n ≡ true }
        ensures departs { self.new ≡ departs self.old n }
        ensures lost { (s : ℕ) → set_of.contains result s ≡ loses self.old n s }
    {
        let live = self.live();
        let mut left = live;
        left.remove(n);
        let lost = lost_segments(&self.newest, &Members::new(&live), &Members::new(&left));
        self.installed.remove(n);
        lost
    }

    /// `next`, which is the next topology where receivers have their copies or where they haven't,
    /// is the newest now, and the newest so far is the one before it.
    pub fn announce(&mut self, next: Topology)
        requires { (copied : Bool) × (following copied self.old ≡ Some next) }
        ensures { self.new ≡ announces self.old next }
    {
        let before = std::mem::replace(&mut self.newest, next);
        self.before = before;
    }

    /// Node `n`, which lives, has installed the newest topology, whose number is the answer. None
    /// comes exactly where it has it already; nothing changes then.
    pub fn install(&mut self, n: NodeId) -> Option<TopologyId>
        requires { lives self.old n ≡ true }
        ensures installs { self.new ≡ installs self.old n }
        ensures none { IsNone result ↔ (installed_id self.old n ≡ self.old.newest.id) }
        ensures some { IfSome result (λ id. id ≡ self.old.newest.id) }
    {
        let newest = self.newest.id();
        if self.installed.id(n) == newest.number() {
            return None;
        }
        self.installed.put(n, newest);
        Some(newest)
    }

    /// The topology that node `n` has installed. None comes exactly where the node isn't live.
    pub fn installed(&self, n: NodeId) -> Option<&Topology>
        ensures none { IsNone result ↔ (lives self.now n ≡ false) }
        ensures some { IfSome result (λ topology. topology.now ≡ topology_of self.now n) }
        ensures own { IfSome result (λ topology. topology.now.id ≡ installed_id self.now n) }
    {
        if !self.is_live(n) {
            return None;
        }
        Some(self.topology_of(n))
    }

    /// The newest topology where node `n` has installed it, and else the one before it: of a live
    /// node the topology that it has installed.
    pub fn topology_of(&self, n: NodeId) -> &Topology
        ensures is { result.now ≡ topology_of self.now n }
        ensures own { lives self.now n ≡ true → result.now.id ≡ installed_id self.now n }
    {
        if self.installed.id(n) == self.newest.id().number() {
            return &self.newest;
        }
        &self.before
    }

    /// The number of the topology that node `n` has installed, and 0 where the node isn't live.
    pub fn installed_id(&self, n: NodeId) -> TopologyId
        ensures { result ≡ installed_id self.now n }
    {
        TopologyId::new(self.installed.id(n))
    }

    /// The newest topology.
    pub fn newest(&self) -> &Topology
        ensures newest { result.now ≡ self.now.newest }
        ensures numbered { 1 ≤ self.now.newest.id }
    {
        &self.newest
    }

    /// The live nodes, of which there is one at least.
    pub fn live(&self) -> NodeSet
        ensures lives { (n : ℕ) → set_of.contains result n ≡ lives self.now n }
        ensures members { members result ≡ live_nodes self.now }
        ensures some { 0 < length (live_nodes self.now) }
    {
        self.installed.nodes()
    }

    /// Whether node `n` is live.
    pub fn is_live(&self, n: NodeId) -> bool
        ensures is_live { result ≡ lives self.now n }
        ensures within { lives self.now n ≡ true → n ≤ 15 }
    {
        self.installed.has(n)
    }

    /// Whether node `n` was ever a member.
    pub fn was_member(&self, n: NodeId) -> bool
        ensures { result ≡ set_of.contains self.now.ever n }
    {
        self.ever.has(n)
    }

    /// Whether every live node has installed the newest topology.
    pub fn all_installed(&self) -> bool
        ensures { result ≡ all_installed self.now }
    {
        self.installed.all_have(self.newest.id())
    }

    /// Whether node `n` is to receive `segment`: whether it lives, and owns the segment by the
    /// pending hash alone in the first phase of a rebalance.
    pub fn receives(&self, n: NodeId, segment: SegmentId) -> bool
        ensures { result ≡ receives self.now n segment }
    {
        let newest = self.newest();
        if !newest.phase().is(Phase::ReadOld) || !self.is_live(n) {
            return false;
        }
        if segment.number() >= newest.segments() {
            return false;
        }
        newest.pending_owners(segment).has(n) && !newest.current_owners(segment).has(n)
    }

    /// How many owners a segment is to have, 1 to 4.
    pub fn owners(&self) -> u8
        ensures owners { result ≡ self.now.owners }
        ensures some { 1 ≤ self.now.owners }
        ensures few { self.now.owners ≤ 4 }
    {
        self.owners
    }

    /// What a rebalance aims at.
    pub fn aim(&self) -> Aim
        ensures { result ≡ self.now.aim }
    {
        self.aim
    }

    /// An equal coordinator. The only failure is that memory runs out.
    pub fn copy(&self, alloc: Global) -> Result<Coord, NoMemory>
        ensures { IfOk result (λ copy. copy ≡ self.now) }
    {
        let newest = self.newest.copy(alloc)?;
        let before = self.before.copy(alloc)?;
        Ok(Coord {
            owners: self.owners,
            aim: self.aim,
            ever: self.ever,
            installed: self.installed.copy(),
            newest,
            before,
        })
    }
}

impl Duplicate for Coord {
    fn copy(&self, alloc: Global) -> Result<Coord, NoMemory> {
        Coord::copy(self, alloc)
    }
}
