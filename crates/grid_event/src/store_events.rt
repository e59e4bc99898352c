//! Events of the store: what is written, what is erased, and what is copied between nodes.

ghost use Rattle.std.specs.Prelude.{◌≡◌, IfOk};

use grid_base::{Chunk, Datum, Duplicate, Key, NoMemory, NodeId, SegmentId, SessionId};
use std::alloc::Global;

/// A value was written at a key, by a session at a node, with the deadline at which it leaves.
#[derive(Debug, Drop)]
pub struct WriteEvent {
    pub by: SessionId,
    pub node: NodeId,
    pub key: Key,
    pub value: Datum,
    pub until: Option<u32>,
}

impl WriteEvent {
    /// An equal event. The only failure is that memory runs out.
    pub fn copy(&self, alloc: Global) -> Result<WriteEvent, NoMemory>
        ensures { IfOk result (λ copy. copy ≡ self.now) }
    {
        let value = self.value.copy(alloc)?;
        Ok(WriteEvent {
            by: self.by,
            node: self.node,
            key: self.key,
            value,
            until: self.until,
        })
    }
}

impl Duplicate for WriteEvent {
    fn copy(&self, alloc: Global) -> Result<WriteEvent, NoMemory> {
        WriteEvent::copy(self, alloc)
    }
}

/// What stood at a key was erased, by a session at a node.
#[derive(Clone, Copy, Debug, PartialEq, Eq)]
pub struct EraseEvent {
    pub by: SessionId,
    pub node: NodeId,
    pub key: Key,
}

impl Duplicate for EraseEvent {
    fn copy(&self, _alloc: Global) -> Result<EraseEvent, NoMemory> {
        Ok(*self)
    }
}

/// A chunk of a segment was sent by its provider, and flies to a receiver.
#[derive(Debug, Drop)]
pub struct CopyEvent {
    pub receiver: NodeId,
    pub segment: SegmentId,
    pub provider: NodeId,
    pub batch: Chunk,
}

impl CopyEvent {
    /// An equal event. The only failure is that memory runs out.
    pub fn copy(&self, alloc: Global) -> Result<CopyEvent, NoMemory>
        ensures { IfOk result (λ copy. copy ≡ self.now) }
    {
        let batch = self.batch.copy(alloc)?;
        Ok(CopyEvent {
            receiver: self.receiver,
            segment: self.segment,
            provider: self.provider,
            batch,
        })
    }
}

impl Duplicate for CopyEvent {
    fn copy(&self, alloc: Global) -> Result<CopyEvent, NoMemory> {
        CopyEvent::copy(self, alloc)
    }
}
