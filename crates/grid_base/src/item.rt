//! What a pipeline works on: an entry, or a value alone.

ghost use Rattle.std.specs.Prelude.{◌≡◌, IfOk};

use crate::datum::Datum;
use crate::duplicate::Duplicate;
use crate::entry::Entry;
use crate::no_memory::NoMemory;
use std::alloc::Global;

/// An entry or a value. Entries are ordered before values.
#[derive(Debug, Drop, PartialEq, Eq, PartialOrd, Ord)]
pub enum Item {
    /// An entry.
    Entry(Entry),
    /// A value alone.
    Datum(Datum),
}

impl Item {
    /// An equal item. The only failure is that memory runs out.
    pub fn copy(&self, alloc: Global) -> Result<Item, NoMemory>
        ensures { IfOk result (λ copy. copy ≡ self.now) }
    {
        match self {
            Item::Entry(entry) => {
                let copied = entry.copy(alloc)?;
                Ok(Item::Entry(copied))
            }
            Item::Datum(datum) => {
                let copied = datum.copy(alloc)?;
                Ok(Item::Datum(copied))
            }
        }
    }
}

impl Duplicate for Item {
    fn copy(&self, alloc: Global) -> Result<Item, NoMemory> {
        Item::copy(self, alloc)
    }
}
