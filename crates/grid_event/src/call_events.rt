//! Events of calls: how one is made, whom it asks, and how it ends.

ghost use Rattle.std.specs.Prelude.{◌≡◌, IfOk};

use crate::outcome::Outcome;
use crate::request::Request;
use grid_base::{CallId, Duplicate, NoMemory, NodeId, SegmentId, SessionId, TopologyId, UnitId};
use sqlite_items::Items;
use std::alloc::Global;

/// A call was made by a session at a node, its originator.
#[derive(Debug, Drop)]
pub struct InvokeEvent {
    pub by: SessionId,
    pub call: CallId,
    pub node: NodeId,
    pub request: Request,
}

impl InvokeEvent {
    /// An equal event. The only failure is that memory runs out.
    pub fn copy(&self, alloc: Global) -> Result<InvokeEvent, NoMemory>
        ensures { IfOk result (λ copy. copy ≡ self.now) }
    {
        let request = self.request.copy(alloc)?;
        Ok(InvokeEvent {
            by: self.by,
            call: self.call,
            node: self.node,
            request,
        })
    }
}

impl Duplicate for InvokeEvent {
    fn copy(&self, alloc: Global) -> Result<InvokeEvent, NoMemory> {
        InvokeEvent::copy(self, alloc)
    }
}

/// A unit that a round makes: its number, the segment that it reads, and the node that is asked.
#[derive(Clone, Copy, Debug, PartialEq, Eq)]
pub struct Ask {
    pub unit: UnitId,
    pub segment: SegmentId,
    pub node: NodeId,
}

/// A call asked nodes for segments; `id` is the topology that its originator had installed.
#[derive(Debug, Drop)]
pub struct RoundEvent {
    pub call: CallId,
    pub id: TopologyId,
    pub asks: Items<Ask>,
}

impl RoundEvent {
    /// An equal event. The only failure is that memory runs out.
    pub fn copy(&self, alloc: Global) -> Result<RoundEvent, NoMemory>
        ensures { IfOk result (λ copy. copy ≡ self.now) }
    {
        let asks = Items::from_slice(alloc, self.asks.as_slice())?;
        Ok(RoundEvent {
            call: self.call,
            id: self.id,
            asks,
        })
    }
}

impl Duplicate for RoundEvent {
    fn copy(&self, alloc: Global) -> Result<RoundEvent, NoMemory> {
        RoundEvent::copy(self, alloc)
    }
}

/// A call was answered.
#[derive(Debug, Drop)]
pub struct AnswerEvent {
    pub call: CallId,
    pub outcome: Outcome,
}

impl AnswerEvent {
    /// An equal event. The only failure is that memory runs out.
    pub fn copy(&self, alloc: Global) -> Result<AnswerEvent, NoMemory>
        ensures { IfOk result (λ copy. copy ≡ self.now) }
    {
        let outcome = self.outcome.copy(alloc)?;
        Ok(AnswerEvent {
            call: self.call,
            outcome,
        })
    }
}

impl Duplicate for AnswerEvent {
    fn copy(&self, alloc: Global) -> Result<AnswerEvent, NoMemory> {
        AnswerEvent::copy(self, alloc)
    }
}
