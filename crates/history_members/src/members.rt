//! The table of members.

ghost use Rattle.std.specs.Prelude.{◌≡◌, ◌<◌, ◌≤◌, ◌∷◌, [], List, length, true, IfOk, OnOk, OnErr};
ghost use Rattle.grid_base.specs.declared.limits.TheConstants.{MOST_EVENTS};
ghost use Rattle.grid_event.specs.Configs.{is_config};
ghost use Rattle.grid_event.specs.declared.event.Event as event_type;
ghost use Rattle.audit_clauses.specs.Shapes.{is_shaped};
ghost use Rattle.history_members.specs.Told.{AreMembersOf};
ghost use Rattle.std.specs.List.{range_with_len};
ghost use Rattle.topology_phase.specs.Owners.{members};
ghost use Rattle.grid_event.specs.Members.{opening_topology};
ghost use Rattle.std.specs.FinSet as set;

use crate::by_node::ByNode;
use crate::unread::Unread;
use grid_base::{NoMemory, NodeId, NodeSet, TopologyId};
use grid_event::{Config, Event};
use hash_factory::create;
use std::alloc::Global;
use topology_phase::{Phase, Topology};

/// What the events of a history tell of the members of its cluster: which nodes ever were members
/// and which are live, the topologies that they have installed, the newest topology, the clock,
/// and where nodes departed and installed topologies. Events are counted from 1, and place 0 is
/// none.
#[derive(Drop)]
pub struct Members {
    /// The settings of the cluster.
    pub config: Config,
    /// The nodes that ever were members.
    pub(crate) ever: NodeSet,
    pub(crate) live: NodeSet,
    /// The number of the topology that each node has installed.
    pub(crate) installed: ByNode,
    pub(crate) newest: Topology,
    /// The place at which each node departed.
    pub(crate) departed: ByNode,
    /// The place at which each node last installed a topology by which it doesn't read the segment.
    pub(crate) unread: Unread,
    pub(crate) clock: u32,
    /// How many installations and departures there were.
    pub(crate) moves: u32,
}

impl Members {
    /// The members before all events. The only failure is that memory runs out.
    pub fn new(alloc: Global, config: &Config) -> Result<Members, NoMemory>
        requires { is_config config.now ≡ true }
        ensures config { IfOk result (λ table. table.config ≡ config.now) }
        ensures told { IfOk result (λ table. AreMembersOf [] table) }
    {
        let first = first_nodes(config.nodes);
        let newest = opening(alloc, config, &first)?;
        let unread = Unread::new(alloc, config.segments)?;
        Ok(Members {
            config: *config,
            ever: first,
            live: first,
            installed: ByNode::new(1),
            newest,
            departed: ByNode::new(0),
            unread,
            clock: 0,
            moves: 0,
        })
    }

    /// One event more, which fits the events so far and stands behind so many of them. The only
    /// failure is that memory runs out; the table is as before then.
    pub fn note(&mut self, alloc: Global, place: u32, event: &Event) -> Result<(), NoMemory>
        ghost past: { List event_type.Event }
        requires told { AreMembersOf past self.old }
        requires placed { place ≡ length past }
        requires room { place < MOST_EVENTS }
        requires shaped { is_shaped self.old.config past event.now ≡ true }
        ensures ok { OnOk result (AreMembersOf (event.now ∷ past) self.new) }
        ensures config { self.new.config ≡ self.old.config }
        ensures err { OnErr result (self.new ≡ self.old) }
    {
        match event {
            Event::Tick { ticks } => self.tick(*ticks),
            Event::Join { node } => self.join(*node),
            Event::Depart { node } => self.depart(place, *node),
            Event::Announce(topology) => self.announce(alloc, topology.get())?,
            Event::Install { node, id } => self.install(place, *node, *id),
            _ => {}
        }
        Ok(())
    }
}

/// The first topology: that of the first nodes. The only failure is that memory runs out.
fn opening(alloc: Global, config: &Config, first: &NodeSet) -> Result<Topology, NoMemory>
    requires limits { is_config config.now ≡ true }
    requires first { members first.now ≡ range_with_len 0 config.now.nodes }
    ensures { IfOk result (λ topology. topology ≡ opening_topology config.now) }
{
    let hash = create(alloc, first, config.segments, config.owners)?;
    Ok(Topology::new(TopologyId::new(1), Phase::NoRebalance, hash, None))
}

/// The nodes from 0 on, so many.
#[tactic(auto, using(topology_coord::proofs::FirstNodes::nodes_more, topology_coord::proofs::FirstNodes::first_members))]
fn first_nodes(nodes: u8) -> NodeSet
    requires { nodes ≤ 16 }
    ensures nodes { result ≡ set.from_list (range_with_len 0 nodes) }
    ensures members { members result ≡ range_with_len 0 nodes }
{
    let mut made = NodeSet::new();
    for number in 0..nodes {
        made.add(NodeId::new(number));
    }
    made
}
