//! The nodes that are there, with their containers.

ghost use Rattle.std.specs.Prelude.{◌≡◌, ℕ, ◌≤◌, ◌==◌, ◌&&◌, ◌||◌, List, not, true, false, IfOk, IsOk, OnOk, OnErr, IfSome, None, is_some};
ghost use Rattle.std.specs.FinMap as map;
ghost use Rattle.std.specs.FinSet as set;
ghost use Rattle.container_seg.specs.Contents.{place};
ghost use Rattle.container_seg.specs.Lifespans.{is_fresh, left, outlasts};
ghost use Rattle.state_transfer.specs.Changes.{set_cell};
ghost use Rattle.state_transfer.specs.Copying.{copy_at};
ghost use Rattle.state_transfer.specs.Slots.{Holdings};

use crate::slots::{clear_all, clear_in, grow, lent, put_in, remove_in, set_in, tick_all};
use container_seg::Container;
use grid_base::{Key, NoMemory, NodeId, SegmentId, Stamped};
use std::alloc::Global;
use std::marker::Model;

/// The containers of the nodes that are there, and their common clock. Contracts see the nodes, the
/// clock, and the copies of all nodes.
#[derive(Drop)]
pub(crate) struct Holders {
    clock: u32,
    slots: Vec<Option<Container>>,
}

impl Model for Holders {
    ghost use Rattle.std.specs.Coded.{codes, coded_ℕ};
    ghost use Rattle.std.specs.FinMap as map;
    ghost use Rattle.std.specs.FinSet as set;
    ghost use Rattle.std.specs.Ordering.{nat_cmp};
    ghost use Rattle.grid_base.specs.contracts.stamped.Stamped as stamped;
    ghost use Rattle.state_transfer.specs.Cells.{cell_cmp, cell_code};
    ghost use Rattle.state_transfer.specs.Slots.{Holdings, AreKept, held, nodes_in};

    ghost Value = { Holdings };

    ghost coded = { Prim.hlevel (codes, set.code {R = nat_cmp} coded_ℕ, map.code {R = cell_cmp} cell_code stamped.the_row.coded) };

    ghost view = { λ a. record { nodes = nodes_in a.slots.items; clock = a.clock; cells = held a.slots.items } };

    ghost invariant = { λ a. AreKept a.clock a.slots.items };
}

impl Holders {
    /// No nodes, and the clock is 0. It takes no memory.
    pub(crate) fn new(alloc: Global) -> Holders
        ensures { result ≡ record { nodes = set.empty; clock = 0; cells = map.empty } }
    {
        Holders {
            clock: 0,
            slots: Vec::new(alloc),
        }
    }

    /// The clock, in ticks.
    pub(crate) fn clock(&self) -> u32
        ensures { result ≡ self.now.clock }
    {
        self.clock
    }

    /// Whether the node is there.
    pub(crate) fn has(&self, node: NodeId) -> bool
        ensures { result ≡ set.contains self.now.nodes node }
    {
        lent(&self.slots, usize::from(node.number())).is_some()
    }

    /// The container of the node, where the node is there.
    pub(crate) fn get(&self, node: NodeId) -> Option<&Container>
        ensures there { is_some result ≡ set.contains self.now.nodes node }
        ensures node { IfSome result (λ c. c.now.node ≡ node) }
        ensures clock { IfSome result (λ c. c.now.clock ≡ self.now.clock) }
        ensures copies { IfSome result (λ c. (s : ℕ) (k : List ℕ) → map.get c.now.entries (place s k) ≡ copy_at self.now.cells node s k) }
    {
        lent(&self.slots, usize::from(node.number()))
    }

    /// Adds the node, which isn't there. It holds nothing, and begins with the clock.
    pub(crate) fn join(&mut self, alloc: Global, node: NodeId) -> Result<(), NoMemory>
        requires { set.contains self.old.nodes node ≡ false }
        ensures ok { OnOk result (self.new ≡ record self.old { nodes = set.insert self.old.nodes node }) }
        ensures err { OnErr result (self.new ≡ self.old) }
    {
        let at = usize::from(node.number());
        let mut container = Container::new(alloc, node)?;
        container.tick(self.clock);
        grow(alloc, &mut self.slots, at)?;
        set_in(&mut self.slots, at, Some(container));
        Ok(())
    }

    /// Takes the node away, with its copies.
    pub(crate) fn leave(&mut self, node: NodeId)
        ensures { self.new ≡ record self.old { nodes = set.remove self.old.nodes node; cells = map.retain_keys self.old.cells (λ cell. not ((cell.node == node) && true)) } }
    {
        let at = usize::from(node.number());
        if at >= self.slots.len() {
            return;
        }
        set_in(&mut self.slots, at, None);
    }

    /// Puts a value at the node, which is there; its deadline is none or above the clock. It gives
    /// the value before, and fails only where memory runs out, and never where the key is there.
    pub(crate) fn put(
        &mut self,
        alloc: Global,
        node: NodeId,
        segment: SegmentId,
        key: Key,
        stamped: Stamped,
    ) -> Result<Option<Stamped>, NoMemory>
        requires there { set.contains self.old.nodes node ≡ true }
        requires lasting { outlasts self.old.clock stamped.until ≡ true }
        ensures before { IfOk result (λ before. before ≡ copy_at self.old.cells node segment key) }
        ensures lasting { IfOk result (λ before. left self.old.clock before ≡ before) }
        ensures ok { OnOk result (self.new ≡ record self.old { cells = map.insert self.old.cells (record { node = node; segment = segment; key = key }) stamped }) }
        ensures err { OnErr result (self.new ≡ self.old) }
        ensures absent { OnErr result (copy_at self.old.cells node segment key ≡ None) }
    {
        let at = usize::from(node.number());
        put_in(&mut self.slots, alloc, at, segment, key, stamped)
    }

    /// Takes a key away at the node.
    pub(crate) fn remove(&mut self, node: NodeId, segment: SegmentId, key: &Key)
        ensures { self.new ≡ record self.old { cells = map.remove self.old.cells (record { node = node; segment = segment; key = key.now }) } }
    {
        let at = usize::from(node.number());
        if at >= self.slots.len() {
            return;
        }
        remove_in(&mut self.slots, at, segment, key);
    }

    /// Puts back what stood at a key of the node, which is there; the key is there too, so no memory
    /// is taken.
    pub(crate) fn restore(
        &mut self,
        alloc: Global,
        node: NodeId,
        segment: SegmentId,
        key: &Key,
        before: Option<Stamped>,
    )
        requires there { set.contains self.old.nodes node ≡ true }
        requires lasting { left self.old.clock before ≡ before }
        requires present { is_some (copy_at self.old.cells node segment key.now) ≡ true }
        ensures { self.new ≡ record self.old { cells = set_cell self.old.cells (record { node = node; segment = segment; key = key.now }) before } }
    {
        match before {
            Some(stamped) => self.put_back(alloc, node, segment, *key, stamped),
            None => self.remove(node, segment, key),
        }
    }

    /// Puts a value at a key that is there.
    fn put_back(
        &mut self,
        alloc: Global,
        node: NodeId,
        segment: SegmentId,
        key: Key,
        stamped: Stamped,
    )
        requires there { set.contains self.old.nodes node ≡ true }
        requires lasting { outlasts self.old.clock stamped.until ≡ true }
        requires present { is_some (copy_at self.old.cells node segment key) ≡ true }
        ensures { self.new ≡ record self.old { cells = map.insert self.old.cells (record { node = node; segment = segment; key = key }) stamped } }
    {
        let _ = self.put(alloc, node, segment, key, stamped);
    }

    /// Takes all copies of the segment away at the node.
    pub(crate) fn drop_segment(&mut self, node: NodeId, segment: SegmentId)
        ensures { self.new ≡ record self.old { cells = map.retain_keys self.old.cells (λ cell. not ((cell.node == node) && (cell.segment == segment))) } }
    {
        let at = usize::from(node.number());
        if at >= self.slots.len() {
            return;
        }
        clear_in(&mut self.slots, at, segment);
    }

    /// Takes all copies of the segment away at the node, unless they are kept.
    pub(crate) fn drop_unless(&mut self, kept: bool, node: NodeId, segment: SegmentId)
        ensures { self.new ≡ record self.old { cells = map.retain_keys self.old.cells (λ cell. kept || not ((cell.node == node) && (cell.segment == segment))) } }
    {
        if !kept {
            self.drop_segment(node, segment);
        }
    }

    /// Takes all copies of the segment away at every node.
    pub(crate) fn forget(&mut self, segment: SegmentId)
        ensures { self.new ≡ record self.old { cells = map.retain_keys self.old.cells (λ cell. not (cell.segment == segment)) } }
    {
        clear_all(&mut self.slots, segment);
    }

    /// Raises the clock to `clock`, which isn't below it: what has expired is gone.
    pub(crate) fn tick(&mut self, clock: u32)
        requires { self.old.clock ≤ clock }
        ensures { self.new ≡ record self.old { clock = clock; cells = map.retain_keys self.old.cells (λ cell. is_fresh clock (map.get self.old.cells cell)) } }
    {
        tick_all(&mut self.slots, clock);
        self.clock = clock;
    }
}
