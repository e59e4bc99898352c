//! Writes, erasures, and the ticks of the clock.

ghost use Rattle.std.specs.Prelude.{◌≡◌, true, OnErr, OnOk};
ghost use Rattle.topology_coord.specs.Coordination.{topology_of};
ghost use Rattle.topology_phase.specs.Topologies.{write_owners};
ghost use Rattle.cluster_model.specs.Writes.{can_change, can_erase, can_tick, can_write, erased, ticked, written};

use crate::matches::{is_deadline, is_of_kind};
use crate::owners::writers;
use crate::store::Store;
use grid_base::limits::{LAST_CLOCK, LONGEST_LIFESPAN};
use grid_base::{Key, NoMemory, NodeId, SegmentId, Stamped};
use grid_event::{EraseEvent, WriteEvent};
use state_transfer::Change;
use std::alloc::Global;
use topology_phase::Owners;

impl Store {
    /// Whether the write may happen.
    #[tactic(auto, unfolding(cluster_model::specs::Writes::can_write))]
    pub fn can_write(&self, write: &WriteEvent) -> bool
        ensures { result ≡ can_write self.now write.now }
    {
        if !self.can_change(write.node, &write.key) {
            return false;
        }
        if !is_of_kind(self.config().values, &write.value) {
            return false;
        }
        is_deadline(self.clock(), write.until)
    }

    /// Whether the erasure may happen.
    #[tactic(auto, unfolding(cluster_model::specs::Writes::can_erase))]
    pub fn can_erase(&self, erase: &EraseEvent) -> bool
        ensures { result ≡ can_erase self.now erase.now }
    {
        self.can_change(erase.node, &erase.key)
    }

    /// Whether the clock may go on by so many ticks.
    #[tactic(auto, unfolding(cluster_model::specs::Writes::can_tick))]
    pub fn can_tick(&self, ticks: u32) -> bool
        ensures { result ≡ can_tick self.now ticks }
    {
        if ticks < 1 {
            return false;
        }
        if LONGEST_LIFESPAN < ticks {
            return false;
        }
        u64::from(self.clock()) + u64::from(ticks) <= u64::from(LAST_CLOCK)
    }

    /// The write happens. The only failure is that memory runs out, and all is then as before.
    pub fn write(&mut self, alloc: Global, write: &WriteEvent) -> Result<(), NoMemory>
        requires { can_write self.old write.now ≡ true }
        ensures ok { OnOk result (self.new ≡ written self.old write.now) }
        ensures err { OnErr result (self.new ≡ self.old) }
    {
        let Some(segment) = self.segment_of(&write.key) else {
            return Ok(());
        };
        let owners = self.writers(write.node, segment);
        let value = write.value.copy(alloc)?;
        let until = write.until;
        let change = Change::Put(Stamped { value, until });
        self.copies
            .write_at(alloc, &owners, segment, &write.key, &change)?;
        Ok(())
    }

    /// The erasure happens. The only failure is that memory runs out, and all is then as before.
    pub fn erase(&mut self, alloc: Global, erase: &EraseEvent) -> Result<(), NoMemory>
        requires { can_erase self.old erase.now ≡ true }
        ensures ok { OnOk result (self.new ≡ erased self.old erase.now) }
        ensures err { OnErr result (self.new ≡ self.old) }
    {
        let Some(segment) = self.segment_of(&erase.key) else {
            return Ok(());
        };
        let owners = self.writers(erase.node, segment);
        self.copies
            .write_at(alloc, &owners, segment, &erase.key, &Change::Erase)?;
        Ok(())
    }

    /// The clock goes on by so many ticks.
    pub fn tick(&mut self, ticks: u32)
        requires { can_tick self.old ticks ≡ true }
        ensures { self.new ≡ ticked self.old ticks }
    {
        self.copies.tick(self.copies.clock() + ticks);
    }

    /// The owners at which a write to the segment is done, by the topology that the node has
    /// installed.
    fn writers(&self, node: NodeId, segment: SegmentId) -> Owners
        ensures { result ≡ write_owners (topology_of self.now.coord node) segment }
    {
        writers(self.coord.topology_of(node), segment)
    }

    /// Whether the key may be changed at the node.
    fn can_change(&self, node: NodeId, key: &Key) -> bool
        ensures { result ≡ can_change self.now node key.now }
    {
        if !self.is_live(node) {
            return false;
        }
        match self.segment_of(key) {
            None => false,
            Some(segment) => self.has_reader(node, segment),
        }
    }
}
