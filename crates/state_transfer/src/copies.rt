//! The copies of all nodes, and the transfers between them.

ghost use Rattle.std.specs.Prelude.{◌≡◌, ℕ, ◌≤◌, ◌==◌, ◌&&◌, ◌||◌, ◌∷◌, [], List, not, true, false, drop, IfOk, IsOk, OnOk, OnErr, IfSome, IsNone, None, Some, is_none, is_some};
ghost use Rattle.std.specs.FinMap as map;
ghost use Rattle.std.specs.FinSet as set;
ghost use Rattle.container_seg.specs.Contents.{part_entries, place};
ghost use Rattle.container_seg.specs.Lifespans.{left, outlasts};
ghost use Rattle.topology_phase.specs.Owners.{pruned};
ghost use Rattle.state_transfer.specs.Calls.{ProvidesNone, are_lasting, goes_on, is_ended, is_lasting, is_new_to, marks_at, takes_back, written};
ghost use Rattle.state_transfer.specs.Changes.{changes, ticks};
ghost use Rattle.state_transfer.specs.Chunks.{chunk_of, flies, lands, may_send, provider_of, sends};
ghost use Rattle.state_transfer.specs.Copying.{Transfer, copy_at, each_changed, has_ended, nothing_held, part_of, transfer_to};
ghost use Rattle.state_transfer.specs.Leaving.{cancels, closes, drops, forgets, restarts};

use crate::change::Change;
use crate::destination::Destination;
use crate::holders::Holders;
use crate::landing::land_flying;
use crate::transfers::Transfers;
use container_seg::Container;
use grid_base::{Chunk, Key, NoMemory, NodeId, SegmentId, Stamped};
use std::alloc::Global;
use std::marker::Model;
use topology_phase::Owners;

/// The copies of all nodes that are there, and the transfers of segments between them, under one
/// clock. Contracts see the nodes, the clock, the copies and the transfers.
#[derive(Drop)]
pub struct Copies {
    holders: Holders,
    transfers: Transfers,
}

impl Model for Copies {
    ghost use Rattle.std.specs.Coded.{codes, coded_ℕ};
    ghost use Rattle.std.specs.FinMap as map;
    ghost use Rattle.std.specs.FinSet as set;
    ghost use Rattle.std.specs.Ordering.{nat_cmp};
    ghost use Rattle.grid_base.specs.contracts.stamped.Stamped as stamped;
    ghost use Rattle.state_transfer.specs.contracts.transfer.Transfer as transfer;
    ghost use Rattle.state_transfer.specs.Calls.{AreSound};
    ghost use Rattle.state_transfer.specs.Cells.{cell_cmp, cell_code, destination_cmp, destination_code};
    ghost use Rattle.state_transfer.specs.Copying.{Stores};

    ghost Value = { Stores };

    ghost coded = { Prim.hlevel (codes, set.code {R = nat_cmp} coded_ℕ, map.code {R = cell_cmp} cell_code stamped.the_row.coded, map.code {R = destination_cmp} destination_code transfer.the_row.coded) };

    ghost view = { λ a. record { nodes = a.holders.nodes; copying = record { clock = a.holders.clock; cells = a.holders.cells; transfers = a.transfers } } };

    ghost invariant = { λ a. AreSound a.holders.nodes a.holders.clock a.transfers };
}

impl Copies {
    /// No nodes and no transfers, and the clock is 0. It takes no memory.
    pub fn new(alloc: Global) -> Result<Copies, NoMemory>
        ensures empty { IfOk result (λ copies. copies ≡ record { nodes = set.empty; copying = nothing_held }) }
        ensures succeeds { IsOk result }
    {
        Ok(Copies {
            holders: Holders::new(alloc),
            transfers: Transfers::new(alloc),
        })
    }

    /// The clock, in ticks.
    pub fn clock(&self) -> u32
        ensures { result ≡ self.now.copying.clock }
    {
        self.holders.clock()
    }

    /// Adds `node`, which isn't there and provides no transfer. It holds nothing, and its container
    /// begins with the clock. The only failure is that memory runs out, and all is then as before.
    pub fn join(&mut self, alloc: Global, node: NodeId) -> Result<(), NoMemory>
        requires absent { set.contains self.old.nodes node ≡ false }
        requires provides_none { (segment : ℕ) → ProvidesNone self.old.copying.transfers node segment }
        ensures ok { OnOk result (self.new ≡ record self.old { nodes = set.insert self.old.nodes node }) }
        ensures err { OnErr result (self.new ≡ self.old) }
    {
        self.holders.join(alloc, node)
    }

    /// The container of `node`; its clock is that of all. None comes exactly where the node isn't
    /// there.
    pub fn container(&self, node: NodeId) -> Option<&Container>
        ensures there { is_some result ≡ set.contains self.now.nodes node }
        ensures node { IfSome result (λ c. c.now.node ≡ node) }
        ensures clock { IfSome result (λ c. c.now.clock ≡ self.now.copying.clock) }
        ensures copies { IfSome result (λ c. (s : ℕ) (k : List ℕ) → map.get c.now.entries (place s k) ≡ copy_at self.now.copying.cells node s k) }
        ensures parts { IfSome result (λ c. (s : ℕ) → part_entries c.now.entries s ≡ part_of self.now.copying.cells node s) }
    {
        self.holders.get(node)
    }

    /// Changes `key` of `segment` at all nodes listed that are there, and touches it in each
    /// transfer of the segment to one of them. A deadline that is written is none, or above the
    /// clock. The only failure is that memory runs out, and all is then as before.
    pub fn write_at(
        &mut self,
        alloc: Global,
        owners: &Owners,
        segment: SegmentId,
        key: &Key,
        change: &Change,
    ) -> Result<(), NoMemory>
        requires { is_lasting self.old.copying.clock change.now ≡ true }
        ensures ok { OnOk result (self.new ≡ record self.old { copying = changes (pruned (set.contains self.old.nodes) owners.now) segment key.now (written change.now) self.old.copying }) }
        ensures err { OnErr result (self.new ≡ self.old) }
    {
        match change {
            Change::Put(stamped) => self.put_from(alloc, owners, 0, segment, key, stamped),
            Change::Erase => self.erase_from(owners, 0, segment, key),
        }
    }

    /// The chunk that `copy_chunk` would send, under the same conditions, and changes nothing. None
    /// comes exactly where a chunk flies or the transfer has ended. The only failure is that memory
    /// runs out.
    pub fn next_chunk(
        &self,
        alloc: Global,
        receiver: NodeId,
        segment: SegmentId,
        provider: NodeId,
        most: u16,
    ) -> Result<Option<Chunk>, NoMemory>
        requires receiver { set.contains self.now.nodes receiver ≡ true }
        requires provider { set.contains self.now.nodes provider ≡ true }
        requires differ { (receiver == provider) ≡ false }
        requires most { 1 ≤ most }
        requires goes_on { goes_on (transfer_to self.now.copying.transfers receiver segment) provider ≡ true }
        requires no_provider { ProvidesNone self.now.copying.transfers receiver segment }
        requires no_receiver { transfer_to self.now.copying.transfers provider segment ≡ None }
        ensures chunk { IfOk result (λ chunk. IfSome chunk (λ sent. sent ≡ chunk_of self.now.copying receiver segment provider most)) }
        ensures sent { IfOk result (λ chunk. is_some chunk ≡ may_send (transfer_to self.now.copying.transfers receiver segment)) }
        ensures lasting { IfOk result (λ chunk. IfSome chunk (λ sent. are_lasting self.now.copying.clock sent.entries ≡ true)) }
    {
        let Some(container) = self.holders.get(provider) else {
            return Ok(None);
        };
        let Some(transfer) = self.transfers.get(Destination { receiver, segment }) else {
            return Ok(Some(container.scan_stamped(alloc, segment, None, most)?));
        };
        if !transfer.may_send() {
            return Ok(None);
        }
        Ok(Some(container.scan_stamped(alloc, segment, transfer.sent(), most)?))
    }

    /// Sends the next chunk of the transfer of `segment` from `provider` to `receiver`, at most
    /// `most` entries, which is at least 1, and gives it. With the first chunk the transfer begins,
    /// and the receiver's copies of the segment go. Both nodes are there and differ; a transfer that
    /// is there and hasn't ended keeps its provider; and no transfer of the segment has the receiver
    /// as its provider, or the provider as its receiver. None comes exactly where a chunk flies or
    /// the transfer has ended. The only failure is that memory runs out, and all is then as before.
    pub fn copy_chunk(
        &mut self,
        alloc: Global,
        receiver: NodeId,
        segment: SegmentId,
        provider: NodeId,
        most: u16,
    ) -> Result<Option<Chunk>, NoMemory>
        requires receiver { set.contains self.old.nodes receiver ≡ true }
        requires provider { set.contains self.old.nodes provider ≡ true }
        requires differ { (receiver == provider) ≡ false }
        requires most { 1 ≤ most }
        requires goes_on { goes_on (transfer_to self.old.copying.transfers receiver segment) provider ≡ true }
        requires no_provider { ProvidesNone self.old.copying.transfers receiver segment }
        requires no_receiver { transfer_to self.old.copying.transfers provider segment ≡ None }
        ensures chunk { IfOk result (λ chunk. IfSome chunk (λ sent. sent ≡ chunk_of self.old.copying receiver segment provider most)) }
        ensures sent { IfOk result (λ chunk. is_some chunk ≡ may_send (transfer_to self.old.copying.transfers receiver segment)) }
        ensures ok { IfOk result (λ chunk. IfSome chunk (λ sent. self.new ≡ record self.old { copying = sends receiver segment provider sent self.old.copying })) }
        ensures none { IfOk result (λ chunk. IsNone chunk → self.new ≡ self.old) }
        ensures err { OnErr result (self.new ≡ self.old) }
    {
        let Some(chunk) = self.next_chunk(alloc, receiver, segment, provider, most)? else {
            return Ok(None);
        };
        let sent = chunk.copy(alloc)?;
        self.send(alloc, receiver, segment, provider, sent)?;
        Ok(Some(chunk))
    }

    /// Whether a chunk of the transfer of `segment` to `receiver` flies.
    pub fn flies(&self, receiver: NodeId, segment: SegmentId) -> bool
        ensures { result ≡ flies (transfer_to self.now.copying.transfers receiver segment) }
    {
        match self.transfers.get(Destination { receiver, segment }) {
            Some(transfer) => transfer.flies(),
            None => false,
        }
    }

    /// Whether a chunk of the transfer of `segment` to `receiver` may be sent: where the transfer
    /// isn't there yet, or hasn't ended and no chunk of it flies.
    pub fn may_send(&self, receiver: NodeId, segment: SegmentId) -> bool
        ensures { result ≡ may_send (transfer_to self.now.copying.transfers receiver segment) }
    {
        match self.transfers.get(Destination { receiver, segment }) {
            Some(transfer) => transfer.may_send(),
            None => true,
        }
    }

    /// The node that provides the transfer of `segment` to `receiver`. None comes exactly where the
    /// transfer isn't there.
    pub fn provider(&self, receiver: NodeId, segment: SegmentId) -> Option<NodeId>
        ensures { result ≡ provider_of (transfer_to self.now.copying.transfers receiver segment) None }
    {
        match self.transfers.get(Destination { receiver, segment }) {
            Some(transfer) => Some(transfer.provider()),
            None => None,
        }
    }

    /// Whether the transfer of `segment` to `receiver` is there and has ended.
    pub fn has_ended(&self, receiver: NodeId, segment: SegmentId) -> bool
        ensures { result ≡ is_ended (transfer_to self.now.copying.transfers receiver segment) }
    {
        match self.transfers.get(Destination { receiver, segment }) {
            Some(transfer) => transfer.has_ended(),
            None => false,
        }
    }

    /// Lands the chunk of the transfer of `segment` to `receiver`: each entry whose key isn't
    /// touched is put at the receiver. False comes exactly where none flies. The only failure is
    /// that memory runs out, and all is then as before.
    pub fn apply_chunk(
        &mut self,
        alloc: Global,
        receiver: NodeId,
        segment: SegmentId,
    ) -> Result<bool, NoMemory>
        ensures flown { IfOk result (λ flown. flown ≡ flies (transfer_to self.old.copying.transfers receiver segment)) }
        ensures ok { OnOk result (self.new ≡ record self.old { copying = lands receiver segment self.old.copying }) }
        ensures err { OnErr result (self.new ≡ self.old) }
    {
        let flown = self.flies(receiver, segment);
        let to = Destination { receiver, segment };
        land_flying(&mut self.holders, alloc, to, &self.transfers)?;
        self.transfers.land(to);
        Ok(flown)
    }

    /// Takes the copies of `segment` at `node` away, where no transfer of the segment has the node
    /// as its receiver or provider.
    pub fn drop_segment(&mut self, node: NodeId, segment: SegmentId)
        requires no_receiver { transfer_to self.old.copying.transfers node segment ≡ None }
        requires no_provider { ProvidesNone self.old.copying.transfers node segment }
        ensures { self.new ≡ record self.old { copying = drops node (λ s. s == segment) self.old.copying } }
    {
        self.holders.drop_segment(node, segment);
    }

    /// Takes away each transfer that `provider` provides and that hasn't ended.
    pub fn restart(&mut self, provider: NodeId)
        ensures { self.new ≡ record self.old { copying = restarts provider self.old.copying } }
    {
        self.transfers.restart(provider);
    }

    /// Takes away each transfer to `receiver`.
    pub fn cancel(&mut self, receiver: NodeId)
        ensures { self.new ≡ record self.old { copying = cancels receiver self.old.copying } }
    {
        self.transfers.cancel(receiver);
    }

    /// Takes away all copies and transfers of `segment`, at every node.
    pub fn forget(&mut self, segment: SegmentId)
        ensures { self.new ≡ record self.old { copying = forgets (λ s. s == segment) self.old.copying } }
    {
        self.holders.forget(segment);
        self.transfers.forget(segment);
    }

    /// Takes all transfers away.
    pub fn close_all(&mut self)
        ensures { self.new ≡ record self.old { copying = closes self.old.copying } }
    {
        self.transfers.close();
    }

    /// Takes `node` away with its copies, where no transfer has the node as its receiver, and none
    /// that hasn't ended has it as its provider.
    pub fn depart(&mut self, node: NodeId)
        requires no_receiver { (segment : ℕ) → transfer_to self.old.copying.transfers node segment ≡ None }
        requires no_provider { (receiver segment : ℕ) (transfer : Transfer) → transfer_to self.old.copying.transfers receiver segment ≡ Some transfer → has_ended transfer ≡ false → (transfer.provider == node) ≡ false }
        ensures { self.new ≡ record { nodes = set.remove self.old.nodes node; copying = drops node (λ _. true) self.old.copying } }
    {
        self.holders.leave(node);
    }

    /// Raises the clock to `clock`, which isn't below it: what has expired leaves all copies and all
    /// chunks that fly.
    pub fn tick(&mut self, clock: u32)
        requires { self.old.copying.clock ≤ clock }
        ensures { self.new ≡ record self.old { copying = ticks clock self.old.copying } }
    {
        self.holders.tick(clock);
        self.transfers.tick(clock);
    }
}

/// What stood at a key before a write, and whether the write touched it in a transfer in which it
/// wasn't touched.
#[derive(Drop)]
struct Before {
    stamped: Option<Stamped>,
    marked: bool,
}

impl Copies {
    /// Sends a chunk, none of whose entries has expired, to a receiver that is there. The only
    /// failure is that memory runs out, and all is then as before.
    fn send(
        &mut self,
        alloc: Global,
        receiver: NodeId,
        segment: SegmentId,
        provider: NodeId,
        chunk: Chunk,
    ) -> Result<(), NoMemory>
        requires there { set.contains self.old.nodes receiver ≡ true }
        requires lasting { are_lasting self.old.copying.clock chunk.entries ≡ true }
        ensures ok { OnOk result (self.new ≡ record self.old { copying = sends receiver segment provider chunk self.old.copying }) }
        ensures err { OnErr result (self.new ≡ self.old) }
    {
        let to = Destination { receiver, segment };
        let kept = self.transfers.get(to).is_some();
        self.transfers.send(alloc, to, provider, chunk)?;
        self.holders.drop_unless(kept, receiver, segment);
        Ok(())
    }

    /// Puts a value at the nodes listed from a place on that are there.
    fn put_from(
        &mut self,
        alloc: Global,
        owners: &Owners,
        from: u8,
        segment: SegmentId,
        key: &Key,
        stamped: &Stamped,
    ) -> Result<(), NoMemory>
        requires { outlasts self.old.copying.clock stamped.now.until ≡ true }
        ensures ok { OnOk result (self.new ≡ record self.old { copying = changes (pruned (set.contains self.old.nodes) (drop from owners.now)) segment key.now (Some stamped.now) self.old.copying }) }
        ensures err { OnErr result (self.new ≡ self.old) }
    {
        if from >= owners.len() {
            return Ok(());
        }
        let Some(node) = owners.get(from) else {
            return Ok(());
        };
        if !self.holders.has(node) {
            return self.put_from(alloc, owners, from + 1, segment, key, stamped);
        }
        let before = self.put_one(alloc, node, segment, key, stamped)?;
        match self.put_from(alloc, owners, from + 1, segment, key, stamped) {
            Ok(()) => Ok(()),
            Err(NoMemory) => {
                self.take_back(alloc, node, segment, key, before);
                Err(NoMemory)
            }
        }
    }

    /// Puts a value at one node, which is there, and gives what stood there before.
    fn put_one(
        &mut self,
        alloc: Global,
        node: NodeId,
        segment: SegmentId,
        key: &Key,
        stamped: &Stamped,
    ) -> Result<Before, NoMemory>
        requires there { set.contains self.old.nodes node ≡ true }
        requires lasting { outlasts self.old.copying.clock stamped.now.until ≡ true }
        ensures nodes { self.new.nodes ≡ self.old.nodes }
        ensures clock { self.new.copying.clock ≡ self.old.copying.clock }
        ensures ok { OnOk result (self.new ≡ record self.old { copying = changes (node ∷ []) segment key.now (Some stamped.now) self.old.copying }) }
        ensures before { IfOk result (λ before. before.stamped ≡ copy_at self.old.copying.cells node segment key.now) }
        ensures lasting { IfOk result (λ before. left self.old.copying.clock before.stamped ≡ before.stamped) }
        ensures marked { IfOk result (λ before. before.marked ≡ is_new_to key.now (transfer_to self.old.copying.transfers node segment)) }
        ensures err { OnErr result (self.new ≡ self.old) }
    {
        let put = stamped.copy(alloc)?;
        let to = Destination {
            receiver: node,
            segment,
        };
        let marked = self.transfers.mark(to, *key)?;
        match self.holders.put(alloc, node, segment, *key, put) {
            Ok(stamped) => Ok(Before { stamped, marked }),
            Err(NoMemory) => {
                self.transfers.restore(to, key, marked);
                Err(NoMemory)
            }
        }
    }

    /// Takes back what was put at one node. It takes no memory, since the key is there.
    fn take_back(
        &mut self,
        alloc: Global,
        node: NodeId,
        segment: SegmentId,
        key: &Key,
        before: Before,
    )
        requires there { set.contains self.old.nodes node ≡ true }
        requires lasting { left self.old.copying.clock before.stamped ≡ before.stamped }
        requires present { is_some (copy_at self.old.copying.cells node segment key.now) ≡ true }
        ensures { self.new ≡ record self.old { copying = takes_back node segment key.now before.stamped before.marked self.old.copying } }
    {
        let Before { stamped, marked } = before;
        let to = Destination {
            receiver: node,
            segment,
        };
        self.holders.restore(alloc, node, segment, key, stamped);
        self.transfers.restore(to, key, marked);
    }

    /// Erases a key at the nodes listed from a place on that are there.
    fn erase_from(
        &mut self,
        owners: &Owners,
        from: u8,
        segment: SegmentId,
        key: &Key,
    ) -> Result<(), NoMemory>
        ensures ok { OnOk result (self.new ≡ record self.old { copying = changes (pruned (set.contains self.old.nodes) (drop from owners.now)) segment key.now None self.old.copying }) }
        ensures err { OnErr result (self.new ≡ self.old) }
    {
        if from >= owners.len() {
            return Ok(());
        }
        let Some(node) = owners.get(from) else {
            return Ok(());
        };
        if !self.holders.has(node) {
            return self.erase_from(owners, from + 1, segment, key);
        }
        let to = Destination {
            receiver: node,
            segment,
        };
        let marked = self.transfers.mark(to, *key)?;
        match self.erase_from(owners, from + 1, segment, key) {
            Ok(()) => {
                self.holders.remove(node, segment, key);
                Ok(())
            }
            Err(NoMemory) => {
                self.transfers.restore(to, key, marked);
                Err(NoMemory)
            }
        }
    }
}
