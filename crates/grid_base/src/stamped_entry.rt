//! Entries whose value may have a deadline.

ghost use Rattle.std.specs.Prelude.{◌≡◌, IfOk};

use crate::duplicate::Duplicate;
use crate::key::Key;
use crate::no_memory::NoMemory;
use crate::stamped::Stamped;
use std::alloc::Global;

/// A key and its stamped value. Stamped entries are ordered by key, then by stamped value.
#[derive(Debug, Drop, PartialEq, Eq, PartialOrd, Ord)]
pub struct StampedEntry {
    /// The key.
    pub key: Key,
    /// The value with its deadline.
    pub stamped: Stamped,
}

impl StampedEntry {
    /// An equal stamped entry. The only failure is that memory runs out.
    pub fn copy(&self, alloc: Global) -> Result<StampedEntry, NoMemory>
        ensures { IfOk result (λ copy. copy ≡ self.now) }
    {
        let stamped = self.stamped.copy(alloc)?;
        Ok(StampedEntry {
            key: self.key,
            stamped,
        })
    }
}

impl Duplicate for StampedEntry {
    fn copy(&self, alloc: Global) -> Result<StampedEntry, NoMemory> {
        StampedEntry::copy(self, alloc)
    }
}
