//! The topologies that may come after one.

ghost use Rattle.std.specs.Prelude.{◌≡◌, ℕ, ◌+◌, ◌<◌, ◌≤◌, ◌||◌, false, length, IfOk};
ghost use Rattle.topology_phase.specs.Owners.{members, owners_at};
ghost use Rattle.topology_phase.specs.Phases.{same_phase};
ghost use Rattle.topology_phase.specs.Following.{begun, cancelled, completed, in_phase, mended_hash, names_departed, repaired};

use crate::following::{mended, names_departed, owners_of};
use crate::hash::Hash;
use crate::members::Members;
use crate::owners::Owners;
use crate::phase::Phase;
use crate::topology::Topology;
use grid_base::{NoMemory, NodeSet, TopologyId};
use std::alloc::Global;

impl Topology {
    /// Whether a hash names a node that isn't in `live`.
    pub fn names_departed(&self, live: &NodeSet) -> bool
        ensures { result ≡ (names_departed (members live.now) self.now.current || names_departed (members live.now) self.now.pending) }
    {
        names_departed(self, &Members::new(live))
    }

    /// The repair of the topology, whose number isn't the last, where the nodes of `live`, at least
    /// one, live. The only failure is that memory runs out.
    #[tactic(auto, unfolding(crate::specs::Following::repaired))]
    pub fn repaired(&self, alloc: Global, live: &NodeSet) -> Result<Topology, NoMemory>
        requires some_live { 0 < length (members live.now) }
        requires numbered { self.now.id < 4294967295 }
        ensures { IfOk result (λ next. next ≡ repaired self.now (members live.now)) }
    {
        let live = Members::new(live);
        let current = mended_hash(alloc, self.current_rows(), self.pending_rows(), &live)?;
        if self.phase().is(Phase::NoRebalance) {
            return Ok(Topology::new(self.next_id(), Phase::NoRebalance, current, None));
        }
        let pending = mended_hash(alloc, self.pending_rows(), self.current_rows(), &live)?;
        Ok(Topology::new(self.next_id(), self.phase(), current, Some(pending)))
    }

    /// The cancellation of the rebalance of the topology, whose number isn't the last. The only
    /// failure is that memory runs out.
    #[tactic(auto, using(crate::proofs::NextTopologies::settled_parts))]
    pub fn cancelled(&self, alloc: Global) -> Result<Topology, NoMemory>
        requires { self.now.id < 4294967295 }
        ensures { IfOk result (λ next. next ≡ cancelled self.now) }
    {
        let current = Hash::of_rows(alloc, self.current_rows())?;
        Ok(Topology::new(self.next_id(), Phase::NoRebalance, current, None))
    }

    /// The topology, whose number isn't the last, in another phase of the rebalance that goes on.
    /// The only failure is that memory runs out.
    #[tactic(auto, using(crate::proofs::NextTopologies::moved_parts))]
    pub fn in_phase(&self, alloc: Global, phase: Phase) -> Result<Topology, NoMemory>
        requires numbered { self.now.id < 4294967295 }
        requires rebalances { same_phase self.now.phase Phase.NoRebalance ≡ false }
        requires goes_on { same_phase phase Phase.NoRebalance ≡ false }
        ensures { IfOk result (λ next. next ≡ in_phase self.now phase) }
    {
        let current = Hash::of_rows(alloc, self.current_rows())?;
        let pending = Hash::of_rows(alloc, self.pending_rows())?;
        Ok(Topology::new(self.next_id(), phase, current, Some(pending)))
    }

    /// The end of the rebalance of the topology, whose number isn't the last. The only failure is
    /// that memory runs out.
    #[tactic(auto, using(crate::proofs::NextTopologies::completed_parts))]
    pub fn completed(&self, alloc: Global) -> Result<Topology, NoMemory>
        requires numbered { self.now.id < 4294967295 }
        requires rebalances { same_phase self.now.phase Phase.NoRebalance ≡ false }
        ensures { IfOk result (λ next. next ≡ completed self.now) }
    {
        let current = Hash::of_rows(alloc, self.pending_rows())?;
        Ok(Topology::new(self.next_id(), Phase::NoRebalance, current, None))
    }

    /// The beginning of a rebalance of the topology, whose number isn't the last, towards `pending`,
    /// which has as many segments and at most four owners a segment. The only failure is that memory
    /// runs out.
    #[tactic(auto, using(crate::proofs::NextTopologies::begun_parts))]
    pub fn begun(&self, alloc: Global, pending: Hash) -> Result<Topology, NoMemory>
        requires numbered { self.now.id < 4294967295 }
        requires as_long { length pending ≡ length self.now.current }
        requires few { (s : ℕ) → length (owners_at pending s) ≤ 4 }
        ensures { IfOk result (λ next. next ≡ begun self.now pending) }
    {
        let current = Hash::of_rows(alloc, self.current_rows())?;
        Ok(Topology::new(self.next_id(), Phase::ReadOld, current, Some(pending)))
    }

    /// The number after that of the topology, which isn't the last.
    fn next_id(&self) -> TopologyId
        requires { self.now.id < 4294967295 }
        ensures { result ≡ self.now.id + 1 }
    {
        TopologyId::new(self.id().number() + 1)
    }
}

/// The hash `mine` with each segment mended by the owners of `other`.
fn mended_hash(
    alloc: Global,
    mine: &[Owners],
    other: &[Owners],
    live: &Members,
) -> Result<Hash, NoMemory>
    requires some_live { 0 < length live.now }
    requires few { length mine.now ≤ 256 }
    ensures { IfOk result (λ hash. hash ≡ mended_hash live.now mine.now other.now) }
{
    let mut hash = Hash::new(alloc);
    for segment in 0..mine.len() {
        let owners = mended(live, segment, &mine[segment], &owners_of(other, segment));
        hash.push(owners)?;
    }
    Ok(hash)
}
