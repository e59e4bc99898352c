//! A topology, and the owners that read, write and hold a segment by it.

ghost use Rattle.std.specs.Prelude.{◌≡◌, ◌<◌, ◌≤◌, ◌↔◌, ◌&&◌, not, [], length, nat_lt, is_some, IfOk, IfSome, IsNone};
ghost use Rattle.std.specs.Option.{unwrap_or};
ghost use Rattle.topology_phase.specs.Owners.{joined, owners_at};
ghost use Rattle.topology_phase.specs.Phases.{same_phase};
ghost use Rattle.topology_phase.specs.Topologies.{IsTopology, read_owners, write_owners, holders, same_hash, same_topology, has_few, makes_topology};

use crate::hash::Hash;
use crate::owners::Owners;
use crate::phase::Phase;
use grid_base::{Duplicate, NoMemory, SegmentId, TopologyId};
use std::alloc::Global;
use std::marker::Model;

/// A topology. There is a pending hash exactly where the phase isn't `NoRebalance`, with as many
/// segments as the current one; there is at least one segment, and no segment has more than four
/// owners in either hash. Contracts see a missing pending hash as one without segments.
#[derive(Debug, Drop)]
pub struct Topology {
    /// Its number.
    pub id: TopologyId,
    /// The phase of its rebalance.
    pub phase: Phase,
    /// The current owners.
    pub current: Hash,
    /// The owners that the rebalance leads to.
    pub pending: Option<Hash>,
}

impl Model for Topology {
    ghost use Rattle.topology_phase.specs.Topologies.{Topology};

    ghost Value = { Topology };

    ghost use Rattle.topology_phase.specs.InlineTopology.{topology_of, HoldsTopology};

    ghost view = { topology_of };

    ghost invariant = { HoldsTopology };
}

impl Topology {
    /// The topology of these parts: with a pending hash exactly where the phase isn't
    /// `NoRebalance`, and with what else each topology keeps.
    pub fn new(id: TopologyId, phase: Phase, current: Hash, pending: Option<Hash>) -> Topology
        requires in_rebalance { is_some pending ≡ not (same_phase phase Phase.NoRebalance) }
        requires kept { IsTopology (record { id = id; phase = phase; current = current; pending = unwrap_or pending [] }) }
        ensures { result ≡ record { id = id; phase = phase; current = current; pending = unwrap_or pending [] } }
    {
        Topology {
            id,
            phase,
            current,
            pending,
        }
    }

    /// The topology of these parts. None comes exactly where they make no topology: where there is
    /// no segment, where a pending hash isn't there exactly in a rebalance and with as many
    /// segments, or where a segment has more than four owners.
    #[tactic(auto, using(crate::proofs::TopologyParts::made_topology, crate::proofs::TopologyParts::made_in_rebalance))]
    pub fn try_new(
        id: TopologyId,
        phase: Phase,
        current: Hash,
        pending: Option<Hash>,
    ) -> Option<Topology>
        ensures some { IfSome result (λ t. t ≡ record { id = id; phase = phase; current = current; pending = unwrap_or pending [] }) }
        ensures found { is_some result ≡ makes_topology phase current pending }
    {
        if !makes_topology(phase, &current, &pending) {
            return None;
        }
        Some(Topology::new(id, phase, current, pending))
    }

    /// Its number.
    pub fn id(&self) -> TopologyId
        ensures { result ≡ self.now.id }
    {
        self.id
    }

    /// The phase of its rebalance.
    pub fn phase(&self) -> Phase
        ensures { result ≡ self.now.phase }
    {
        self.phase
    }

    /// How many segments it has, 1 to 256.
    pub fn segments(&self) -> u16
        ensures segments { result ≡ length self.now.current }
        ensures few { length self.now.current ≤ 256 }
        ensures kept { IsTopology self.now }
    {
        self.current.segments()
    }

    /// The current owners of all segments.
    pub fn current(&self) -> &Hash
        ensures { result.now ≡ self.now.current }
    {
        &self.current
    }

    /// The pending owners of all segments. None comes exactly where no rebalance goes on.
    pub fn pending(&self) -> Option<&Hash>
        ensures none { IsNone result ↔ (self.now.phase ≡ Phase.NoRebalance) }
        ensures some { IfSome result (λ hash. hash.now ≡ self.now.pending) }
    {
        match &self.pending {
            Some(pending) => Some(pending),
            None => None,
        }
    }

    /// Whether `aim` is the pending hash: that without segments where no rebalance goes on.
    pub fn leads_to(&self, aim: &Hash) -> bool
        ensures { result ≡ same_hash self.now.pending aim.now }
    {
        self.pending_rows() == aim.rows()
    }

    /// Whether the two topologies are the same.
    #[tactic(auto, unfolding(crate::specs::Topologies::same_topology))]
    pub fn is_same(&self, other: &Topology) -> bool
        ensures { result ≡ same_topology self.now other.now }
    {
        self.id() == other.id()
            && self.phase().is(other.phase())
            && self.current_rows() == other.current_rows()
            && self.pending_rows() == other.pending_rows()
    }

    /// The owners that read `segment`, which is below the number of segments.
    #[tactic(auto, unfolding(crate::specs::Topologies::read_owners))]
    pub fn read_owners(&self, segment: SegmentId) -> Owners
        requires { segment < length self.now.current }
        ensures { result ≡ read_owners self.now segment }
    {
        match self.phase() {
            Phase::NoRebalance => self.current_owners(segment),
            Phase::ReadOld => self.current_owners(segment),
            Phase::ReadAll => self.all_owners(segment),
            Phase::ReadNew => self.pending_owners(segment),
        }
    }

    /// The owners at which a write to `segment`, which is below the number of segments, is done.
    #[tactic(auto, unfolding(crate::specs::Topologies::write_owners))]
    pub fn write_owners(&self, segment: SegmentId) -> Owners
        requires { segment < length self.now.current }
        ensures { result ≡ write_owners self.now segment }
    {
        match self.phase() {
            Phase::NoRebalance => self.current_owners(segment),
            Phase::ReadOld => self.all_owners(segment),
            Phase::ReadAll => self.all_owners(segment),
            Phase::ReadNew => self.all_owners(segment),
        }
    }

    /// The owners that have every entry of `segment`, which is below the number of segments.
    #[tactic(auto, unfolding(crate::specs::Topologies::holders))]
    pub fn holders(&self, segment: SegmentId) -> Owners
        requires { segment < length self.now.current }
        ensures { result ≡ holders self.now segment }
    {
        match self.phase() {
            Phase::NoRebalance | Phase::ReadOld => self.current_owners(segment),
            Phase::ReadAll | Phase::ReadNew => self.all_owners(segment),
        }
    }

    /// The owners of the segments by the current hash.
    pub(crate) fn current_rows(&self) -> &[Owners]
        ensures rows { result.now ≡ self.now.current }
        ensures few { length self.now.current ≤ 256 }
        ensures kept { IsTopology self.now }
    {
        self.current.rows()
    }

    /// The owners of the segments by the pending hash: of no segment where there is none.
    pub(crate) fn pending_rows(&self) -> &[Owners]
        ensures rows { result.now ≡ self.now.pending }
        ensures few { length self.now.pending ≤ 256 }
        ensures kept { IsTopology self.now }
    {
        if let Some(pending) = &self.pending {
            return pending.rows();
        }
        &[]
    }

    /// The current owners of `segment`, which is below the number of segments.
    pub fn current_owners(&self, segment: SegmentId) -> Owners
        requires { segment < length self.now.current }
        ensures owners { result ≡ owners_at self.now.current segment }
        ensures few { length result ≤ 4 }
    {
        self.current.owners(segment)
    }

    /// The pending owners of `segment`, which is below the number of segments; there are none where
    /// no rebalance goes on.
    pub fn pending_owners(&self, segment: SegmentId) -> Owners
        requires { segment < length self.now.current }
        ensures owners { result ≡ owners_at self.now.pending segment }
        ensures few { length result ≤ 4 }
    {
        if let Some(pending) = &self.pending {
            return pending.owners(segment);
        }
        Owners::new()
    }

    /// The current owners of `segment`, which is below the number of segments, and the pending ones
    /// behind them.
    #[tactic(auto, using(crate::proofs::OwnerLists::joined_short))]
    fn all_owners(&self, segment: SegmentId) -> Owners
        requires { segment < length self.now.current }
        ensures { result ≡ joined (owners_at self.now.current segment) (owners_at self.now.pending segment) }
    {
        let current = self.current_owners(segment);
        let pending = self.pending_owners(segment);
        current.joined(&pending)
    }

    /// An equal topology. The only failure is that memory runs out.
    pub fn copy(&self, alloc: Global) -> Result<Topology, NoMemory>
        ensures { IfOk result (λ copy. copy ≡ self.now) }
    {
        let current = self.current.copy(alloc)?;
        let pending = match &self.pending {
            Some(pending) => Some(pending.copy(alloc)?),
            None => None,
        };
        Ok(Topology {
            id: self.id,
            phase: self.phase,
            current,
            pending,
        })
    }
}

impl Duplicate for Topology {
    fn copy(&self, alloc: Global) -> Result<Topology, NoMemory> {
        Topology::copy(self, alloc)
    }
}

/// Whether these parts make a topology.
fn makes_topology(phase: Phase, current: &Hash, pending: &Option<Hash>) -> bool
    ensures { result ≡ makes_topology phase current.now pending.now }
{
    match pending {
        None => phase.is(Phase::NoRebalance) && is_whole(current.rows()),
        Some(pending) => {
            !phase.is(Phase::NoRebalance)
                && is_whole(current.rows())
                && pending.rows().len() == current.rows().len()
                && has_few(pending.rows())
        }
    }
}

/// Whether there is a segment, and none has more than four owners.
fn is_whole(rows: &[Owners]) -> bool
    ensures { result ≡ (nat_lt 0 (length rows.now) && has_few rows.now) }
{
    !rows.is_empty() && has_few(rows)
}

/// Whether no segment has more than four owners.
fn has_few(rows: &[Owners]) -> bool
    ensures { result ≡ has_few rows.now }
{
    rows.iter().all(|owners| owners.len() <= 4)
}
