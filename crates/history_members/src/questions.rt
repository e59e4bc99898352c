//! What the table of members tells.

ghost use Rattle.std.specs.Prelude.{◌≡◌, ◌<◌, List, length};
ghost use Rattle.std.specs.FinSet as set;
ghost use Rattle.std.specs.List.{list_any};
ghost use Rattle.grid_event.specs.Maps.{clock_of};
ghost use Rattle.grid_event.specs.Members.{installed_topology, is_live, live_members, loses_segment, newest_topology, was_member};
ghost use Rattle.grid_event.specs.declared.event.Event as event_type;
ghost use Rattle.topology_phase.specs.Topologies.{holders};
ghost use Rattle.history_members.specs.Dates.{departed_at, moves_of, unread_at};
ghost use Rattle.history_members.specs.Told.{AreMembersOf};

use crate::members::Members;
use grid_base::{NodeId, NodeSet, SegmentId, TopologyId};
use topology_phase::{Owners, Topology};

impl Members {
    /// Whether the node is live.
    pub fn is_live(&self, node: NodeId) -> bool
        ghost past: { List event_type.Event }
        requires { AreMembersOf past self.now }
        ensures { result ≡ is_live self.now.config past node }
    {
        self.live.has(node)
    }

    /// Whether the node was ever a member.
    pub fn was_member(&self, node: NodeId) -> bool
        ghost past: { List event_type.Event }
        requires { AreMembersOf past self.now }
        ensures { result ≡ was_member self.now.config past node }
    {
        self.ever.has(node)
    }

    /// How many nodes are live.
    pub fn live_count(&self) -> u8
        ghost past: { List event_type.Event }
        requires { AreMembersOf past self.now }
        ensures { result ≡ length (live_members self.now.config past) }
    {
        topology_phase::Members::new(&self.live).len()
    }

    /// The number of the topology that the node has installed; 1 for one that never was a member,
    /// and for one that departed the last one.
    pub fn installed(&self, node: NodeId) -> TopologyId
        ghost past: { List event_type.Event }
        requires { AreMembersOf past self.now }
        ensures { result ≡ installed_topology self.now.config past node }
    {
        TopologyId::new(self.installed.get(node, 1))
    }

    /// The newest topology.
    pub fn newest(&self) -> &Topology
        ghost past: { List event_type.Event }
        requires { AreMembersOf past self.now }
        ensures { result.now ≡ newest_topology self.now.config past }
    {
        &self.newest
    }

    /// The place at which the node departed, and 0 where it didn't.
    pub fn departed_at(&self, node: NodeId) -> u32
        ghost past: { List event_type.Event }
        requires { AreMembersOf past self.now }
        ensures { result ≡ departed_at past node }
    {
        self.departed.get(node, 0)
    }

    /// The place at which the node last installed a topology by which it doesn't read the segment,
    /// one of the cluster's, and 0 where it never did.
    pub fn unread_at(&self, node: NodeId, segment: SegmentId) -> u32
        ghost past: { List event_type.Event }
        requires told { AreMembersOf past self.now }
        requires segment { segment < self.now.config.segments }
        ensures { result ≡ unread_at self.now.config past node segment }
    {
        self.unread.get(node, segment)
    }

    /// The clock, in ticks.
    pub fn clock(&self) -> u32
        ghost past: { List event_type.Event }
        requires { AreMembersOf past self.now }
        ensures { result ≡ clock_of past }
    {
        self.clock
    }

    /// How many installations and departures there were. That number less the one at the start of
    /// a call is how many there were in the call's span.
    pub fn moves(&self) -> u32
        ghost past: { List event_type.Event }
        requires { AreMembersOf past self.now }
        ensures { result ≡ moves_of past }
    {
        self.moves
    }

    /// Whether the departure of the node loses the segment: a holder by the newest topology is
    /// live, and but for the node none is.
    pub fn loses_segment(&self, node: NodeId, segment: SegmentId) -> bool
        ghost past: { List event_type.Event }
        requires { AreMembersOf past self.now }
        ensures { result ≡ loses_segment self.now.config past node segment }
    {
        let holders = holders_by(&self.newest, segment);
        let mut left = self.live;
        left.remove(node);
        names_one(&holders, &self.live) && !names_one(&holders, &left)
    }
}

/// The owners that have every entry of the segment by the topology; none where it has no such
/// segment.
fn holders_by(topology: &Topology, segment: SegmentId) -> Owners
    ensures { result ≡ holders topology.now segment }
{
    if segment.number() < topology.segments() {
        topology.holders(segment)
    } else {
        Owners::new()
    }
}

/// Whether one of the owners is in the set.
fn names_one(owners: &Owners, nodes: &NodeSet) -> bool
    ensures { result ≡ list_any (set.contains nodes.now) owners.now }
{
    for place in 0..owners.len() {
        if let Some(owner) = owners.get(place) {
            if nodes.has(owner) {
                return true;
            }
        }
    }
    false
}
