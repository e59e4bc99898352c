//! Chunks of transfers.

ghost use Rattle.std.specs.Prelude.{◌≡◌, ℕ, ◌<◌, ◌≤◌, false, true, None, Some, IfOk, OnErr, OnOk};
ghost use Rattle.cluster_model.specs.Transfers.{can_copy, can_land, copied, landed, next_chunk_of, provider};
ghost use Rattle.cluster_store.specs.Hints.{IsPassed};
ghost use Rattle.cluster_store.specs.Sending.{sender};

use crate::hints::Place;
use crate::matches::same_chunk;
use crate::owners::current_owners;
use crate::store::Store;
use grid_base::{Chunk, NoMemory, NodeId, SegmentId};
use grid_event::CopyEvent;
use std::alloc::Global;
use topology_phase::Phase;

impl Store {
    /// Whether the chunk may be sent. The only failure is that memory runs out.
    pub fn can_copy(&self, alloc: Global, copy: &CopyEvent) -> Result<bool, NoMemory>
        ensures { IfOk result (λ may. may ≡ can_copy self.now copy.now) }
    {
        let (receiver, segment) = (copy.receiver, copy.segment);
        let Some(provider) = self.sender(receiver, segment) else {
            return Ok(false);
        };
        if copy.provider != provider {
            return Ok(false);
        }
        let next = self.next_chunk(alloc, receiver, segment, provider)?;
        Ok(same_chunk(&copy.batch, &next))
    }

    /// Whether the chunk that flies of the segment to the receiver may land.
    #[tactic(auto, unfolding(cluster_model::specs::Transfers::can_land))]
    pub fn can_land(&self, receiver: NodeId, segment: SegmentId) -> bool
        ensures { result ≡ can_land self.now receiver segment }
    {
        self.copies.flies(receiver, segment)
    }

    /// The chunk is sent. The only failure is that memory runs out, and all is then as before.
    pub fn copy(&mut self, alloc: Global, copy: &CopyEvent) -> Result<(), NoMemory>
        requires { can_copy self.old copy.now ≡ true }
        ensures ok { OnOk result (self.new ≡ copied self.old copy.now) }
        ensures err { OnErr result (self.new ≡ self.old) }
    {
        let (receiver, segment) = (copy.receiver, copy.segment);
        let most = self.config.chunk;
        let _ = self
            .copies
            .copy_chunk(alloc, receiver, segment, copy.provider, most)?;
        self.hints.send(receiver, segment);
        let from = self.place_up_to(receiver, segment);
        self.hints.from = from;
        Ok(())
    }

    /// What flies of the segment to the receiver lands. The only failure is that memory runs out,
    /// and all is then as before.
    pub fn land(
        &mut self,
        alloc: Global,
        receiver: NodeId,
        segment: SegmentId,
    ) -> Result<(), NoMemory>
        requires { can_land self.old receiver segment ≡ true }
        ensures ok { OnOk result (self.new ≡ landed self.old receiver segment) }
        ensures err { OnErr result (self.new ≡ self.old) }
    {
        let _ = self.copies.apply_chunk(alloc, receiver, segment)?;
        self.hints.land(receiver, segment);
        Ok(())
    }

    /// The node that sends the next chunk of the segment to the receiver. None comes exactly where
    /// none may be sent.
    #[tactic(auto, unfolding(crate::specs::Sending::sender))]
    pub(crate) fn sender(&self, receiver: NodeId, segment: SegmentId) -> Option<NodeId>
        ensures { result ≡ sender self.now receiver segment }
    {
        if !self.coord.receives(receiver, segment) {
            return None;
        }
        if !self.coord.all_installed() {
            return None;
        }
        if !self.copies.may_send(receiver, segment) {
            return None;
        }
        self.provider(receiver, segment)
    }

    /// Whether chunks may be sent: none where the newest topology isn't in the first phase of a
    /// rebalance, or a live node lacks it.
    fn may_send(&self) -> bool
        ensures { result ≡ false → (r s : ℕ) → sender self.now r s ≡ None }
    {
        self.coord.newest().phase().is(Phase::ReadOld) && self.coord.all_installed()
    }

    /// A segment before which there is none of which a chunk may be sent to the receiver.
    pub(crate) fn first_sending(&self, receiver: NodeId) -> u16
        ensures { (s : ℕ) → s < result → s < self.now.config.segments → sender self.now receiver s ≡ None }
    {
        let from = self.hints.from;
        if receiver.number() < from.receiver.number() {
            return self.config.segments;
        }
        if !self.may_send() {
            return self.config.segments;
        }
        if receiver == from.receiver {
            return from.segment.number();
        }
        0
    }

    /// The place from which on chunks may be sent, as far as it is not past the segment and the
    /// receiver.
    fn place_up_to(&self, receiver: NodeId, segment: SegmentId) -> Place
        ensures { IsPassed self.now result.receiver result.segment }
    {
        let from = self.hints.from;
        if receiver.number() < from.receiver.number() {
            return from;
        }
        let segments = self.config.segments;
        let mut start = from.segment.number();
        for number in from.receiver.number()..receiver.number() {
            let node = NodeId::new(number);
            let found = self.sending_from(node, start, segments);
            if found < segments {
                let segment = SegmentId::new(found);
                return Place {
                    receiver: node,
                    segment,
                };
            }
            start = 0;
        }
        let found = self.sending_from(receiver, start, segment.number());
        let segment = SegmentId::new(found);
        Place { receiver, segment }
    }

    /// The first segment from a number on of which a chunk may be sent to the receiver, as far as
    /// it is below an end.
    fn sending_from(&self, receiver: NodeId, start: u16, end: u16) -> u16
        ensures { (s : ℕ) → start ≤ s → s < result → sender self.now receiver s ≡ None }
    {
        if end < start {
            return start;
        }
        for number in start..end {
            if self.sender(receiver, SegmentId::new(number)).is_some() {
                return number;
            }
        }
        end
    }

    /// The node that provides the segment to the receiver. None comes exactly where there is none.
    fn provider(&self, receiver: NodeId, segment: SegmentId) -> Option<NodeId>
        ensures { result ≡ provider self.now receiver segment }
    {
        if let Some(provider) = self.copies.provider(receiver, segment) {
            return Some(provider);
        }
        self.first_live(&current_owners(self.coord.newest(), segment))
    }

    /// The next chunk of the segment for the receiver, which this node sends. The only failure is
    /// that memory runs out.
    pub(crate) fn next_chunk(
        &self,
        alloc: Global,
        receiver: NodeId,
        segment: SegmentId,
        provider: NodeId,
    ) -> Result<Chunk, NoMemory>
        requires { sender self.now receiver segment ≡ Some provider }
        ensures { IfOk result (λ chunk. chunk ≡ next_chunk_of self.now receiver segment provider) }
    {
        let most = self.config.chunk;
        match self
            .copies
            .next_chunk(alloc, receiver, segment, provider, most)?
        {
            Some(chunk) => Ok(chunk),
            None => unreachable!(),
        }
    }
}
