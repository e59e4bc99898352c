//! The chunks in which a copy of a segment is handed over.

ghost use Rattle.std.specs.Prelude.{◌≡◌, IfOk};

use crate::duplicate::Duplicate;
use crate::lists::StampedEntries;
use crate::no_memory::NoMemory;
use std::alloc::Global;
use std::marker::Model;

/// Some entries of a segment with their deadlines, and whether they are its last ones. Contracts
/// see the entries' list, without its spare places.
#[derive(Debug, Drop)]
pub struct Chunk {
    /// The entries.
    pub entries: StampedEntries,
    /// Whether no chunk comes after this one.
    pub last: bool,
}

impl Model for Chunk {
    ghost use Rattle.grid_base.specs.Portion.{Portion};
    ghost use Rattle.grid_base.specs.declared.stamped_entry.StampedEntry.{StampedEntry};

    ghost Value = { Portion StampedEntry };

    ghost view = { λ chunk. record { entries = chunk.entries.list; last = chunk.last } };
}

impl Chunk {
    /// An equal chunk. The only failure is that memory runs out.
    pub fn copy(&self, alloc: Global) -> Result<Chunk, NoMemory>
        ensures { IfOk result (λ copy. copy ≡ self.now) }
    {
        let entries = self.entries.copy(alloc)?;
        Ok(Chunk {
            entries,
            last: self.last,
        })
    }
}

impl Duplicate for Chunk {
    fn copy(&self, alloc: Global) -> Result<Chunk, NoMemory> {
        Chunk::copy(self, alloc)
    }
}
