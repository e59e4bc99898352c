//! Pipelines.

ghost use Rattle.std.specs.Prelude.{◌≡◌, IfOk, IsTrue, ◌↔◌};

use crate::alike::same_list;
use crate::end::End;
use crate::lists::copy_list;
use crate::op::Op;
use grid_base::{Duplicate, NoMemory};
use sqlite_items::Items;
use std::alloc::Global;

/// The operations of a pipeline, in their order.
pub type Ops = Items<Op>;

/// What a user asks of a list of entries: operations, each applied to the whole list in turn, and
/// an end.
#[derive(Debug, Drop)]
pub struct Pipeline {
    pub ops: Ops,
    pub end: End,
}

impl Pipeline {
    /// An equal pipeline. The only failure is that memory runs out.
    pub fn copy(&self, alloc: Global) -> Result<Pipeline, NoMemory>
        ensures { IfOk result (λ copy. copy ≡ self.now) }
    {
        let ops = copy_list(alloc, &self.ops)?;
        Ok(Pipeline { ops, end: self.end })
    }

    /// Whether the pipelines are equal.
    pub fn same(&self, other: &Pipeline) -> bool
        ensures { IsTrue result ↔ (self.now ≡ other.now) }
    {
        if self.end != other.end {
            return false;
        }
        same_list(self.ops.as_slice(), other.ops.as_slice())
    }
}

impl Duplicate for Pipeline {
    fn copy(&self, alloc: Global) -> Result<Pipeline, NoMemory> {
        Pipeline::copy(self, alloc)
    }
}
