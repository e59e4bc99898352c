//! What each kind of event changes in the table of members.

ghost use Rattle.std.specs.Prelude.{◌≡◌, ◌<◌, ◌≤◌, ◌∷◌, ◌==◌, ◌&&◌, ℕ, not, if◌then◌else◌, List, length, true, OnOk, OnErr};
ghost use Rattle.grid_base.specs.declared.limits.TheConstants.{MOST_EVENTS};
ghost use Rattle.grid_event.specs.declared.event.Event as event_type;
ghost use Rattle.grid_event.specs.declared.event.Event.TheVariants as events;
ghost use Rattle.topology_phase.specs.Owners.{among};
ghost use Rattle.topology_phase.specs.Topologies.{read_owners};
ghost use Rattle.audit_clauses.specs.Shapes.{is_shaped};
ghost use Rattle.history_members.specs.Cells.{place_in};
ghost use Rattle.history_members.specs.Told.{AreMembersOf};

use crate::members::Members;
use crate::unread::Unread;
use grid_base::{NoMemory, NodeId, SegmentId, TopologyId};
use std::alloc::Global;
use topology_phase::Topology;

impl Members {
    /// The clock goes on.
    pub(crate) fn tick(&mut self, ticks: u32)
        ghost past: { List event_type.Event }
        requires told { AreMembersOf past self.old }
        requires shaped { is_shaped self.old.config past (events.Tick ticks) ≡ true }
        ensures told { AreMembersOf (events.Tick ticks ∷ past) self.new }
        ensures config { self.new.config ≡ self.old.config }
    {
        self.clock += ticks;
    }

    /// A node joins: it is live, and has installed the newest topology.
    pub(crate) fn join(&mut self, node: NodeId)
        ghost past: { List event_type.Event }
        requires told { AreMembersOf past self.old }
        requires shaped { is_shaped self.old.config past (events.Join node) ≡ true }
        ensures told { AreMembersOf (events.Join node ∷ past) self.new }
        ensures config { self.new.config ≡ self.old.config }
    {
        self.ever.add(node);
        self.live.add(node);
        self.installed.put(node, self.newest.id().number());
    }

    /// A node departs behind so many events.
    pub(crate) fn depart(&mut self, place: u32, node: NodeId)
        ghost past: { List event_type.Event }
        requires told { AreMembersOf past self.old }
        requires placed { place ≡ length past }
        requires room { place < MOST_EVENTS }
        requires shaped { is_shaped self.old.config past (events.Depart node) ≡ true }
        ensures told { AreMembersOf (events.Depart node ∷ past) self.new }
        ensures config { self.new.config ≡ self.old.config }
    {
        self.live.remove(node);
        self.departed.put(node, place + 1);
        self.moves += 1;
    }

    /// A topology is the newest. The only failure is that memory runs out; the table is as before
    /// then.
    pub(crate) fn announce(&mut self, alloc: Global, topology: &Topology) -> Result<(), NoMemory>
        ghost past: { List event_type.Event }
        requires { AreMembersOf past self.old }
        ensures ok { OnOk result (AreMembersOf (events.Announce topology.now ∷ past) self.new) }
        ensures config { self.new.config ≡ self.old.config }
        ensures err { OnErr result (self.new ≡ self.old) }
    {
        let newest = topology.copy(alloc)?;
        self.newest = newest;
        Ok(())
    }

    /// A node installs the newest topology, behind so many events.
    pub(crate) fn install(&mut self, place: u32, node: NodeId, id: TopologyId)
        ghost past: { List event_type.Event }
        requires told { AreMembersOf past self.old }
        requires placed { place ≡ length past }
        requires room { place < MOST_EVENTS }
        requires shaped { is_shaped self.old.config past (events.Install node id) ≡ true }
        ensures told { AreMembersOf (events.Install node id ∷ past) self.new }
        ensures config { self.new.config ≡ self.old.config }
    {
        self.installed.put(node, id.number());
        leave_unread(
            &mut self.unread,
            &self.newest,
            self.config.segments,
            node,
            place + 1,
        );
        self.moves += 1;
    }
}

/// The place is that of the node, which is at most 15, and of each of the segments that it doesn't
/// read by the topology.
fn leave_unread(unread: &mut Unread, topology: &Topology, segments: u16, node: NodeId, place: u32)
    requires node { node ≤ 15 }
    requires segments { length unread.old ≡ segments }
    ensures put { (other segment : ℕ) → segment < segments → place_in unread.new other segment ≡ (if (node == other) && not (among node (read_owners topology.now segment)) then place else place_in unread.old other segment) }
    ensures segments { length unread.new ≡ length unread.old }
{
    for number in 0..segments {
        let segment = SegmentId::new(number);
        if !reads(topology, segment, node) {
            unread.put(node, segment, place);
        }
    }
}

/// Whether the node reads the segment by the topology; none reads one that isn't there.
fn reads(topology: &Topology, segment: SegmentId, node: NodeId) -> bool
    ensures { result ≡ among node (read_owners topology.now segment) }
{
    segment.number() < topology.segments() && topology.read_owners(segment).has(node)
}
