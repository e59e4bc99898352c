//! The halves of a pipeline, and how it is divided.

ghost use Rattle.std.specs.Prelude.{◌≡◌, IfOk, IsTrue, ◌↔◌, ◌+◌, ◌≤◌, take, drop, length, nat_lt};
ghost use Rattle.std.specs.List.{list_any};
ghost use Rattle.pipeline_split.specs.Halves.{before_distinct, from_distinct, is_distinct, local_of, remote_of};

use grid_base::{Duplicate, NoMemory};
use pipeline_expr::{End, Op, Ops, Pipeline};
use sqlite_items::Items;
use std::alloc::Global;

/// The half of a pipeline that is done where the entries lie: some operations, and the end where
/// it is the whole pipeline.
#[derive(Debug, Drop)]
pub struct Remote {
    pub ops: Ops,
    pub end: Option<End>,
}

/// The half of a pipeline that is done with the joined pieces: further operations, and the end.
#[derive(Debug, Drop)]
pub struct Local {
    pub ops: Ops,
    pub end: End,
}

/// The halves of a pipeline. Where there is a `distinct`, the remote half has the operations before
/// the first one and no end, and the local half has that `distinct`, all operations behind it and
/// the end. Where there is none, the remote half has all operations and the end, and the local half
/// has the end alone. The only failure is that memory runs out.
pub fn split(alloc: Global, pipeline: &Pipeline) -> Result<(Remote, Local), NoMemory>
    ensures remote { IfOk result (λ halves. halves.0 ≡ remote_of pipeline.now) }
    ensures local { IfOk result (λ halves. halves.1 ≡ local_of pipeline.now) }
{
    let ops = pipeline.ops.as_slice();
    let place = first_distinct(ops);
    let end = if place < ops.len() {
        None
    } else {
        Some(pipeline.end)
    };
    let remote = Remote {
        ops: copied(alloc, &ops[..place])?,
        end,
    };
    let local = Local {
        ops: copied(alloc, &ops[place..])?,
        end: pipeline.end,
    };
    Ok((remote, local))
}

impl Remote {
    /// An equal half. The only failure is that memory runs out.
    pub fn copy(&self, alloc: Global) -> Result<Remote, NoMemory>
        ensures { IfOk result (λ copy. copy ≡ self.now) }
    {
        let ops = copied(alloc, self.ops.as_slice())?;
        Ok(Remote { ops, end: self.end })
    }

    /// Whether the halves are equal.
    pub fn same(&self, other: &Remote) -> bool
        ensures { IsTrue result ↔ (self.now ≡ other.now) }
    {
        if self.end != other.end {
            return false;
        }
        are_same(self.ops.as_slice(), other.ops.as_slice())
    }
}

impl Local {
    /// An equal half. The only failure is that memory runs out.
    pub fn copy(&self, alloc: Global) -> Result<Local, NoMemory>
        ensures { IfOk result (λ copy. copy ≡ self.now) }
    {
        let ops = copied(alloc, self.ops.as_slice())?;
        Ok(Local { ops, end: self.end })
    }
}

impl Duplicate for Remote {
    fn copy(&self, alloc: Global) -> Result<Remote, NoMemory> {
        Remote::copy(self, alloc)
    }
}

impl Duplicate for Local {
    fn copy(&self, alloc: Global) -> Result<Local, NoMemory> {
        Local::copy(self, alloc)
    }
}

/// The place of the first `distinct`, or the number of operations where there is none.
fn first_distinct(ops: &[Op]) -> usize
    ensures within { result ≤ length ops.now }
    ensures before { take result ops.now ≡ before_distinct ops.now }
    ensures behind { drop result ops.now ≡ from_distinct ops.now }
    ensures found { list_any is_distinct ops.now ≡ nat_lt result (length ops.now) }
{
    for (place, op) in ops.iter().enumerate() {
        if is_distinct(op) {
            return place;
        }
    }
    ops.len()
}

/// Whether an operation is `distinct`.
fn is_distinct(op: &Op) -> bool
    ensures { result ≡ is_distinct op.now }
{
    match op {
        Op::Distinct => true,
        Op::Filter(_) | Op::Map(_) | Op::FlatMap(_) => false,
    }
}

/// Copies of operations.
fn copied(alloc: Global, ops: &[Op]) -> Result<Ops, NoMemory>
    ensures { IfOk result (λ copy. copy ≡ ops.now) }
{
    let mut copy = Items::new(alloc);
    for op in ops {
        copy.push(op.copy(alloc)?)?;
    }
    Ok(copy)
}

/// Whether two lists of operations are equal.
fn are_same(a: &[Op], b: &[Op]) -> bool
    ensures { IsTrue result ↔ (a.now ≡ b.now) }
{
    if a.len() != b.len() {
        return false;
    }
    for place in 0..a.len() {
        if !a[place].same(&b[place]) {
            return false;
        }
    }
    true
}
