//! What a pipeline answers.

ghost use Rattle.std.specs.Prelude.{◌≡◌, IfOk, IsTrue, ◌↔◌};

use crate::alike::same_list;
use crate::lists::copy_list;
use crate::values::is_same_value;
use grid_base::{Datum, Duplicate, Item, NoMemory};
use sqlite_items::Items;
use std::alloc::Global;

/// What a pipeline answers, by its end.
#[derive(Debug, Drop)]
pub enum Answer {
    /// How many elements there are.
    Count(u64),
    /// The sum of the elements, modulo 2^64.
    Sum(i64),
    /// The least or the greatest element; none where there is no element.
    Best(Option<Datum>),
    /// All elements in order.
    List(Items<Item>),
}

impl Answer {
    /// An equal answer. The only failure is that memory runs out.
    pub fn copy(&self, alloc: Global) -> Result<Answer, NoMemory>
        ensures { IfOk result (λ copy. copy ≡ self.now) }
    {
        match self {
            Answer::Count(count) => Ok(Answer::Count(*count)),
            Answer::Sum(sum) => Ok(Answer::Sum(*sum)),
            Answer::Best(None) => Ok(Answer::Best(None)),
            Answer::Best(Some(best)) => Ok(Answer::Best(Some(best.copy(alloc)?))),
            Answer::List(list) => Ok(Answer::List(copy_list(alloc, list)?)),
        }
    }

    /// Whether the answers are equal.
    pub fn same(&self, other: &Answer) -> bool
        ensures { IsTrue result ↔ (self.now ≡ other.now) }
    {
        match (self, other) {
            (Answer::Count(a), Answer::Count(b)) => a == b,
            (Answer::Sum(a), Answer::Sum(b)) => a == b,
            (Answer::Best(None), Answer::Best(None)) => true,
            (Answer::Best(Some(a)), Answer::Best(Some(b))) => is_same_value(a, b),
            (Answer::List(a), Answer::List(b)) => same_list(a.as_slice(), b.as_slice()),
            _ => false,
        }
    }
}

impl Duplicate for Answer {
    fn copy(&self, alloc: Global) -> Result<Answer, NoMemory> {
        Answer::copy(self, alloc)
    }
}
