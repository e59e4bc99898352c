//! Who is a member after some events, and which topology is the newest.

ghost use Rattle.std.specs.Prelude.{◌≡◌, ◌<◌, ◌≤◌, ◌==◌, ◌&&◌, ◌∷◌, ◌++◌, [], not, true, Some, IfOk, OnOk};
ghost use Rattle.topology_phase.specs.Owners.{members, owners_at};
ghost use Rattle.std.specs.List.{list_any, range_with_len};
ghost use Rattle.grid_event.specs.Configs.{is_config};
ghost use Rattle.topology_phase.specs.Topologies.{holders};
ghost use Rattle.grid_journal.specs.Reports.{first_hash};
ghost use Rattle.grid_journal.specs.Briefs.{standing_text};
ghost use Rattle.event_texts.specs.Topologies.{hash_text, phase_text};
ghost use Rattle.event_texts.specs.Words.{words};
ghost use Rattle.grid_journal.specs.Standing.{loses, loses_key, membership_of, stands_live, standing_members, standing_topology, with_member, with_move};
ghost use Rattle.topology_phase.specs.Phases.{same_phase};

use crate::numbered::Numbered;
use event_texts::{add_hash, add_phase};
use grid_base::{Bytes, Key, NoMemory, NodeId, NodeSet, SegmentId, Sequence};
use grid_event::{Config, Event};
use hash_factory::create;
use segment_hash::segment_of;
use std::alloc::Global;
use topology_phase::{Hash, Owners, Phase, Topology};

/// Who is a member after some events of a run with these settings: the owners by the first
/// topology; the topology that was announced last; and the nodes that joined last (true) or
/// departed last (false).
#[derive(Drop)]
pub(crate) struct Membership {
    pub config: Config,
    pub first: Hash,
    pub newest: Option<Topology>,
    pub moves: Numbered<bool>,
}

impl Membership {
    /// The members before all events.
    #[tactic(auto, unfolding(crate::specs::Standing::membership_of))]
    pub(crate) fn new(alloc: Global, config: &Config) -> Result<Membership, NoMemory>
        requires { is_config config.now ≡ true }
        ensures { IfOk result (λ m. m ≡ membership_of config.now []) }
    {
        let first = first_hash(alloc, config)?;
        Ok(Membership {
            config: *config,
            first,
            newest: None,
            moves: Numbered::new(alloc),
        })
    }

    /// A node joins (true) or departs (false). The only failure is that memory runs out.
    pub(crate) fn note_move(&mut self, node: NodeId, live: bool) -> Result<(), NoMemory>
        ensures { OnOk result (self.new ≡ with_move self.old node live) }
    {
        self.moves.put(u32::from(node.number()), live)
    }

    /// A topology is announced. The only failure is that memory runs out.
    pub(crate) fn announce(&mut self, alloc: Global, topology: &Topology) -> Result<(), NoMemory>
        ensures { OnOk result (self.new ≡ record self.old { newest = Some topology.now }) }
    {
        let newest = topology.copy(alloc)?;
        self.newest = Some(newest);
        Ok(())
    }

    /// One event more. The only failure is that memory runs out.
    pub(crate) fn note(&mut self, alloc: Global, event: &Event) -> Result<(), NoMemory>
        ensures { OnOk result (self.new ≡ with_member self.old event.now) }
    {
        match event {
            Event::Join { node } => self.note_move(*node, true),
            Event::Depart { node } => self.note_move(*node, false),
            Event::Announce(topology) => self.announce(alloc, topology.get()),
            _ => Ok(()),
        }
    }

    /// Whether no rebalance goes on.
    pub(crate) fn rests(&self) -> bool
        ensures { result ≡ same_phase (standing_topology self.now).phase Phase.NoRebalance }
    {
        match &self.newest {
            Some(newest) => newest.phase().is(Phase::NoRebalance),
            None => true,
        }
    }

    /// Whether the node is live.
    fn is_live(&self, node: u8) -> bool
        ensures { result ≡ stands_live self.now node }
    {
        match self.moves.get(u32::from(node)) {
            Some(live) => *live,
            None => node < self.config.nodes,
        }
    }

    /// The live nodes, ascending. The only failure is that memory runs out.
    pub(crate) fn live(&self, alloc: Global) -> Result<Sequence<u8>, NoMemory>
        ensures { IfOk result (λ nodes. nodes.list ≡ standing_members self.now) }
    {
        let mut nodes = Sequence::new(alloc);
        for node in 0..16u8 {
            if self.is_live(node) {
                nodes.push(node)?;
            }
        }
        Ok(nodes)
    }

    /// Whether the departure of the node loses the key.
    pub(crate) fn loses_key(&self, node: NodeId, key: &Key) -> bool
        requires some { 0 < self.now.config.segments }
        requires few { self.now.config.segments ≤ 256 }
        ensures { result ≡ loses_key self.now node key.now }
    {
        match segment_of(key, self.config.partition, self.config.segments) {
            Some(segment) => self.loses(node, segment),
            None => false,
        }
    }

    /// Whether the departure of the node loses the segment: a holder is live, and but for the node
    /// none is.
    fn loses(&self, node: NodeId, segment: SegmentId) -> bool
        ensures { result ≡ loses self.now node segment }
    {
        let holders = self.holders(segment);
        self.has_live(&holders) && !self.has_other(&holders, node)
    }

    /// The owners that have every entry of the segment by the newest topology.
    fn holders(&self, segment: SegmentId) -> Owners
        ensures { result ≡ holders (standing_topology self.now) segment }
    {
        match &self.newest {
            Some(newest) => holders_by(newest, segment),
            None => owners_in(&self.first, segment),
        }
    }

    /// Whether one of the owners is live.
    fn has_live(&self, owners: &Owners) -> bool
        ensures { result ≡ list_any (stands_live self.now) owners.now }
    {
        for place in 0..owners.len() {
            if let Some(owner) = owners.get(place) {
                if self.is_live(owner.number()) {
                    return true;
                }
            }
        }
        false
    }

    /// Whether one of the owners is live, but for the node.
    fn has_other(&self, owners: &Owners, node: NodeId) -> bool
        ensures { result ≡ list_any (λ other. stands_live self.now other && not (other == node)) owners.now }
    {
        for place in 0..owners.len() {
            if let Some(owner) = owners.get(place) {
                if self.is_live(owner.number()) && owner.number() != node.number() {
                    return true;
                }
            }
        }
        false
    }

    /// Adds the phase and the current owners by the newest topology.
    #[tactic(auto, unfolding(crate::specs::Briefs::standing_text))]
    pub(crate) fn add_topology(&self, out: &mut Bytes) -> Result<(), NoMemory>
        ensures { OnOk result (out.new.list ≡ out.old.list ++ standing_text (standing_topology self.now)) }
    {
        match &self.newest {
            Some(newest) => add_standing(out, newest.phase(), newest.current()),
            None => add_standing(out, Phase::NoRebalance, &self.first),
        }
    }
}

/// Adds a phase and the owners of all segments.
fn add_standing(out: &mut Bytes, phase: Phase, current: &Hash) -> Result<(), NoMemory>
    ensures { OnOk result (out.new.list ≡ out.old.list ++ words (phase_text phase ∷ hash_text current.now ∷ [])) }
{
    add_phase(out, phase)?;
    out.push(b' ')?;
    add_hash(out, current)
}

/// The owners that have every entry of the segment by the topology; none where it has no such
/// segment.
fn holders_by(topology: &Topology, segment: SegmentId) -> Owners
    ensures { result ≡ holders topology.now segment }
{
    if segment.number() < topology.segments() {
        topology.holders(segment)
    } else {
        Owners::new()
    }
}

/// The owners of the segment; none where there is no such segment.
fn owners_in(hash: &Hash, segment: SegmentId) -> Owners
    ensures { result ≡ owners_at hash.now segment }
{
    if segment.number() < hash.segments() {
        hash.owners(segment)
    } else {
        Owners::new()
    }
}

/// The first hash: that of the first nodes. The only failure is that memory runs out.
fn first_hash(alloc: Global, config: &Config) -> Result<Hash, NoMemory>
    requires { is_config config.now ≡ true }
    ensures { IfOk result (λ hash. hash ≡ first_hash config.now) }
{
    let nodes = first_nodes(config.nodes);
    create(alloc, &nodes, config.segments, config.owners)
}

/// The nodes from 0 on, so many.
fn first_nodes(nodes: u8) -> NodeSet
    requires { nodes ≤ 16 }
    ensures { members result ≡ range_with_len 0 nodes }
{
    let mut made = NodeSet::new();
    for number in 0..nodes {
        made.add(NodeId::new(number));
    }
    made
}
