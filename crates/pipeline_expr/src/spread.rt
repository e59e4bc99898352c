//! What a flatmap replaces an element by.

ghost use Rattle.std.specs.Prelude.{◌≡◌, IfOk, IsTrue, ◌↔◌};

use crate::alike::same_list;
use crate::expr::Expr;
use crate::lists::copy_list;
use grid_base::{Duplicate, NoMemory};
use sqlite_items::Items;
use std::alloc::Global;

/// A list of at least one expression.
#[derive(Debug, Drop)]
pub struct Exprs {
    pub first: Expr,
    /// The further expressions, in order.
    pub rest: Items<Expr>,
}

/// What a flatmap replaces an element by.
#[derive(Debug, Drop)]
pub enum Spread {
    /// The values of the expressions, in order.
    Each(Exprs),
    /// The longest runs of bytes other than the blank in the expression's text, in order.
    Words(Expr),
}

impl Exprs {
    /// A list of equal expressions. The only failure is that memory runs out.
    pub fn copy(&self, alloc: Global) -> Result<Exprs, NoMemory>
        ensures { IfOk result (λ copy. copy ≡ self.now) }
    {
        let first = self.first.copy(alloc)?;
        let rest = copy_list(alloc, &self.rest)?;
        Ok(Exprs { first, rest })
    }

    /// Whether the lists are equal.
    pub fn same(&self, other: &Exprs) -> bool
        ensures { IsTrue result ↔ (self.now ≡ other.now) }
    {
        if !self.first.same(&other.first) {
            return false;
        }
        same_list(self.rest.as_slice(), other.rest.as_slice())
    }
}

impl Spread {
    /// An equal spread. The only failure is that memory runs out.
    pub fn copy(&self, alloc: Global) -> Result<Spread, NoMemory>
        ensures { IfOk result (λ copy. copy ≡ self.now) }
    {
        match self {
            Spread::Each(list) => Ok(Spread::Each(list.copy(alloc)?)),
            Spread::Words(expr) => Ok(Spread::Words(expr.copy(alloc)?)),
        }
    }

    /// Whether the spreads are equal.
    pub fn same(&self, other: &Spread) -> bool
        ensures { IsTrue result ↔ (self.now ≡ other.now) }
    {
        match (self, other) {
            (Spread::Each(a), Spread::Each(b)) => a.same(b),
            (Spread::Words(a), Spread::Words(b)) => a.same(b),
            _ => false,
        }
    }
}
