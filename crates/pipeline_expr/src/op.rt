//! The operations of a pipeline.

ghost use Rattle.std.specs.Prelude.{◌≡◌, IfOk, IsTrue, ◌↔◌};

use crate::alike::Alike;
use crate::expr::Expr;
use crate::spread::Spread;
use grid_base::{Duplicate, NoMemory};
use std::alloc::Global;

/// One operation, which is applied to the whole list.
#[derive(Debug, Drop)]
pub enum Op {
    /// Keeps the elements whose expression is true.
    Filter(Expr),
    /// Replaces each element by its expression's value.
    Map(Expr),
    /// Replaces each element by several.
    FlatMap(Spread),
    /// Keeps the first of equal elements.
    Distinct,
}

impl Op {
    /// An equal operation. The only failure is that memory runs out.
    pub fn copy(&self, alloc: Global) -> Result<Op, NoMemory>
        ensures { IfOk result (λ copy. copy ≡ self.now) }
    {
        match self {
            Op::Filter(expr) => Ok(Op::Filter(expr.copy(alloc)?)),
            Op::Map(expr) => Ok(Op::Map(expr.copy(alloc)?)),
            Op::FlatMap(spread) => Ok(Op::FlatMap(spread.copy(alloc)?)),
            Op::Distinct => Ok(Op::Distinct),
        }
    }

    /// Whether the operations are equal.
    pub fn same(&self, other: &Op) -> bool
        ensures { IsTrue result ↔ (self.now ≡ other.now) }
    {
        match (self, other) {
            (Op::Filter(a), Op::Filter(b)) => a.same(b),
            (Op::Map(a), Op::Map(b)) => a.same(b),
            (Op::FlatMap(a), Op::FlatMap(b)) => a.same(b),
            (Op::Distinct, Op::Distinct) => true,
            _ => false,
        }
    }
}

impl Alike for Op {
    fn same(&self, other: &Op) -> bool {
        Op::same(self, other)
    }
}

impl Duplicate for Op {
    fn copy(&self, alloc: Global) -> Result<Op, NoMemory> {
        Op::copy(self, alloc)
    }
}
