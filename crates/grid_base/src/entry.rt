//! The entries of the grid.

ghost use Rattle.std.specs.Prelude.{◌≡◌, IfOk};

use crate::datum::Datum;
use crate::duplicate::Duplicate;
use crate::key::Key;
use crate::no_memory::NoMemory;
use std::alloc::Global;

/// A key and its value. Entries are ordered by key, then by value.
#[derive(Debug, Drop, PartialEq, Eq, PartialOrd, Ord)]
pub struct Entry {
    /// The key.
    pub key: Key,
    /// The value.
    pub value: Datum,
}

impl Entry {
    /// An equal entry. The only failure is that memory runs out.
    pub fn copy(&self, alloc: Global) -> Result<Entry, NoMemory>
        ensures { IfOk result (λ copy. copy ≡ self.now) }
    {
        let value = self.value.copy(alloc)?;
        Ok(Entry {
            key: self.key,
            value,
        })
    }
}

impl Duplicate for Entry {
    fn copy(&self, alloc: Global) -> Result<Entry, NoMemory> {
        Entry::copy(self, alloc)
    }
}
