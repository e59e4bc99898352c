//! Which events of members, of topologies and of the clock can stand behind those so far.

ghost use Rattle.std.specs.Prelude.{◌≡◌, List};
ghost use Rattle.cluster_model.specs.Writes.{is_deadline};
ghost use Rattle.grid_event.specs.declared.event.Event as event_type;
ghost use Rattle.grid_event.specs.declared.event.Event.TheVariants as events;
ghost use Rattle.audit_clauses.specs.Shapes.{fits_past, has_all_segments};
ghost use Rattle.history_members.specs.Told.{AreMembersOf};

use crate::members::Members;
use grid_base::limits::{LAST_CLOCK, LONGEST_LIFESPAN};
use grid_base::{NodeId, TopologyId};
use grid_event::{Config, WriteEvent};
use topology_phase::Topology;

impl Members {
    /// Whether the node can join: it never was a member.
    #[tactic(auto, unfolding(audit_clauses::specs::Shapes::fits_past))]
    pub fn fits_join(&self, node: NodeId) -> bool
        ghost past: { List event_type.Event }
        requires { AreMembersOf past self.now }
        ensures { result ≡ fits_past self.now.config past (events.Join node) }
    {
        !self.was_member(node)
    }

    /// Whether the node can depart: it is live, and not alone.
    #[tactic(auto, unfolding(audit_clauses::specs::Shapes::fits_past))]
    pub fn fits_depart(&self, node: NodeId) -> bool
        ghost past: { List event_type.Event }
        requires { AreMembersOf past self.now }
        ensures { result ≡ fits_past self.now.config past (events.Depart node) }
    {
        self.is_live(node) && 1 < self.live_count()
    }

    /// Whether the topology can be announced: its number is the next one, and each of its hashes
    /// has all segments.
    #[tactic(auto, unfolding(audit_clauses::specs::Shapes::fits_past))]
    pub fn fits_announce(&self, topology: &Topology) -> bool
        ghost past: { List event_type.Event }
        requires { AreMembersOf past self.now }
        ensures { result ≡ fits_past self.now.config past (events.Announce topology.now) }
    {
        let next = u64::from(self.newest().id().number()) + 1;
        u64::from(topology.id().number()) == next && has_all_segments(&self.config, topology)
    }

    /// Whether the node can install the topology of this number: it is live, and that is the
    /// newest one.
    #[tactic(auto, unfolding(audit_clauses::specs::Shapes::fits_past))]
    pub fn fits_install(&self, node: NodeId, id: TopologyId) -> bool
        ghost past: { List event_type.Event }
        requires { AreMembersOf past self.now }
        ensures { result ≡ fits_past self.now.config past (events.Install node id) }
    {
        self.is_live(node) && id == self.newest().id()
    }

    /// Whether the clock can go on by so many ticks.
    #[tactic(auto, unfolding(audit_clauses::specs::Shapes::fits_past))]
    pub fn fits_tick(&self, ticks: u32) -> bool
        ghost past: { List event_type.Event }
        requires { AreMembersOf past self.now }
        ensures { result ≡ fits_past self.now.config past (events.Tick ticks) }
    {
        1 <= ticks
            && ticks <= LONGEST_LIFESPAN
            && u64::from(self.clock()) + u64::from(ticks) <= u64::from(LAST_CLOCK)
    }

    /// Whether the write's deadline is one: there is none, or it is above the clock by at most the
    /// longest lifespan.
    #[tactic(auto, unfolding(audit_clauses::specs::Shapes::fits_past))]
    pub fn fits_write(&self, write: &WriteEvent) -> bool
        ghost past: { List event_type.Event }
        requires { AreMembersOf past self.now }
        ensures { result ≡ fits_past self.now.config past (events.Write write.now) }
    {
        is_deadline(self.clock(), write.until)
    }
}

/// Whether the deadline is none, or above the clock by at most the longest lifespan.
fn is_deadline(clock: u32, until: Option<u32>) -> bool
    ensures { result ≡ is_deadline clock until }
{
    match until {
        None => true,
        Some(until) => {
            clock < until && u64::from(until) <= u64::from(clock) + u64::from(LONGEST_LIFESPAN)
        }
    }
}

/// Whether each hash of the topology has as many segments as the cluster.
fn has_all_segments(config: &Config, topology: &Topology) -> bool
    ensures { result ≡ has_all_segments config.now topology.now }
{
    topology.segments() == config.segments
}
