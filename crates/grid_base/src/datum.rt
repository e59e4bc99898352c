//! The values of the grid's entries.

ghost use Rattle.std.specs.Prelude.{◌≡◌, IfOk};

use crate::duplicate::Duplicate;
use crate::no_memory::NoMemory;
use crate::text::Text;
use std::alloc::Global;

/// The value of an entry. Values are ordered by their kind, ints first and flags last, ints by
/// number, texts by their bytes, and the flag `false` before `true`.
#[derive(Debug, Drop, PartialEq, Eq, PartialOrd, Ord)]
pub enum Datum {
    /// A whole number.
    Int(i64),
    /// A text.
    Text(Text),
    /// A flag.
    Flag(bool),
}

impl Datum {
    /// An equal value. The only failure is that memory runs out.
    pub fn copy(&self, alloc: Global) -> Result<Datum, NoMemory>
        ensures { IfOk result (λ copy. copy ≡ self.now) }
    {
        match self {
            Datum::Int(number) => Ok(Datum::Int(*number)),
            Datum::Text(text) => {
                let text = text.copy(alloc)?;
                Ok(Datum::Text(text))
            }
            Datum::Flag(flag) => Ok(Datum::Flag(*flag)),
        }
    }
}

impl Duplicate for Datum {
    fn copy(&self, alloc: Global) -> Result<Datum, NoMemory> {
        Datum::copy(self, alloc)
    }
}
