//! What the core does of what it holds, and what its calls and units lose by it.

ghost use Rattle.std.specs.Prelude.{◌≡◌, ℕ, ◌&&◌, nat_lt, not, true, OnErr, OnOk};
ghost use Rattle.std.specs.FinSet as set_of;
ghost use Rattle.topology_phase.specs.Owners.{among};
ghost use Rattle.topology_phase.specs.Topologies.{read_owners};
ghost use Rattle.grid_event.specs.declared.event.Event.TheVariants as events;
ghost use Rattle.cluster_model.specs.Step.{changed};
ghost use Rattle.cluster_model.specs.Topologies.{announced, can_announce, can_depart, can_install, can_join, joined};
ghost use Rattle.cluster_model.specs.Transfers.{can_copy, can_land, copied, landed};
ghost use Rattle.cluster_model.specs.Writes.{can_erase, can_tick, can_write, erased, ticked, written};

use crate::cluster::Core;
use cluster_store::Store;
use grid_base::{NoMemory, NodeId, SegmentId, TopologyId};
use grid_event::{CopyEvent, EraseEvent, WriteEvent};
use segment_hash::SegmentSet;
use std::alloc::Global;
use topology_phase::Topology;

impl Core {
    /// The write happens. After want of memory the core is as before.
    pub(crate) fn write(&mut self, alloc: Global, write: &WriteEvent) -> Result<(), NoMemory>
        requires { can_write self.old.holding write.now ≡ true }
        ensures ok { OnOk result (self.new ≡ record self.old { holding = written self.old.holding write.now }) }
        ensures err { OnErr result (self.new ≡ self.old) }
    {
        self.store.write(alloc, write)?;
        Ok(())
    }

    /// The erasure happens. After want of memory the core is as before.
    pub(crate) fn erase(&mut self, alloc: Global, erase: &EraseEvent) -> Result<(), NoMemory>
        requires { can_erase self.old.holding erase.now ≡ true }
        ensures ok { OnOk result (self.new ≡ record self.old { holding = erased self.old.holding erase.now }) }
        ensures err { OnErr result (self.new ≡ self.old) }
    {
        self.store.erase(alloc, erase)?;
        Ok(())
    }

    /// The clock goes on.
    pub(crate) fn tick(&mut self, ticks: u32)
        requires { can_tick self.old.holding ticks ≡ true }
        ensures { self.new ≡ record self.old { holding = ticked self.old.holding ticks } }
    {
        self.store.tick(ticks);
    }

    /// The node joins. After want of memory the core is as before.
    pub(crate) fn join(&mut self, alloc: Global, node: NodeId) -> Result<(), NoMemory>
        requires { can_join self.old.holding node ≡ true }
        ensures ok { OnOk result (self.new ≡ record self.old { holding = joined self.old.holding node }) }
        ensures err { OnErr result (self.new ≡ self.old) }
    {
        self.store.join(alloc, node)?;
        Ok(())
    }

    /// The node departs: its open units are lost, and unanswered calls that ask again note the
    /// segments that are lost with it. After want of memory the core is as before.
    pub(crate) fn depart(&mut self, alloc: Global, node: NodeId) -> Result<(), NoMemory>
        requires { can_depart self.old.holding node ≡ true }
        ensures ok { OnOk result (self.new ≡ changed self.old (events.Depart node)) }
        ensures err { OnErr result (self.new ≡ self.old) }
    {
        let _ = self.store.coord().newest().segments();
        self.calls.lose_at(alloc, node)?;
        let lost = self.store.depart(node);
        self.calls.note_losses(&lost);
        Ok(())
    }

    /// The topology is announced. After want of memory the core is as before.
    pub(crate) fn announce(&mut self, alloc: Global, topology: &Topology) -> Result<(), NoMemory>
        requires { can_announce self.old.holding topology.now ≡ true }
        ensures ok { OnOk result (self.new ≡ record self.old { holding = announced self.old.holding topology.now }) }
        ensures err { OnErr result (self.new ≡ self.old) }
    {
        let topology = topology.copy(alloc)?;
        self.store.announce(topology);
        Ok(())
    }

    /// The node installs the newest topology: its running units on segments that it doesn't read any
    /// longer are lost. After want of memory the core is as before.
    pub(crate) fn install(
        &mut self,
        alloc: Global,
        node: NodeId,
        id: TopologyId,
    ) -> Result<(), NoMemory>
        requires { can_install self.old.holding node id ≡ true }
        ensures ok { OnOk result (self.new ≡ changed self.old (events.Install node id)) }
        ensures err { OnErr result (self.new ≡ self.old) }
    {
        let unread = unread(&self.store, node);
        self.calls.cease(alloc, node, &unread, id)?;
        self.store.install(alloc, node, id);
        Ok(())
    }

    /// The chunk is sent. After want of memory the core is as before.
    pub(crate) fn copy(&mut self, alloc: Global, copy: &CopyEvent) -> Result<(), NoMemory>
        requires { can_copy self.old.holding copy.now ≡ true }
        ensures ok { OnOk result (self.new ≡ record self.old { holding = copied self.old.holding copy.now }) }
        ensures err { OnErr result (self.new ≡ self.old) }
    {
        self.store.copy(alloc, copy)?;
        Ok(())
    }

    /// What flies lands. After want of memory the core is as before.
    pub(crate) fn land(
        &mut self,
        alloc: Global,
        receiver: NodeId,
        segment: SegmentId,
    ) -> Result<(), NoMemory>
        requires { can_land self.old.holding receiver segment ≡ true }
        ensures ok { OnOk result (self.new ≡ record self.old { holding = landed self.old.holding receiver segment }) }
        ensures err { OnErr result (self.new ≡ self.old) }
    {
        self.store.land(alloc, receiver, segment)?;
        Ok(())
    }
}

/// The segments that the node doesn't read by the newest topology.
fn unread(store: &Store, node: NodeId) -> SegmentSet
    ensures { (segment : ℕ) → set_of.contains result segment ≡ (nat_lt segment store.now.config.segments && not (among node (read_owners store.now.coord.newest segment))) }
{
    let mut unread = SegmentSet::new();
    for number in 0..store.config().segments {
        let segment = SegmentId::new(number);
        if reads(store.coord().newest(), node, segment) {
            continue;
        }
        unread.add(segment);
    }
    unread
}

/// Whether the node reads the segment by the topology.
#[tactic(auto, using(cluster_store::proofs::PastOwners::readers_past))]
fn reads(topology: &Topology, node: NodeId, segment: SegmentId) -> bool
    ensures { result ≡ among node (read_owners topology.now segment) }
{
    if segment.number() >= topology.segments() {
        return false;
    }
    topology.read_owners(segment).has(node)
}
