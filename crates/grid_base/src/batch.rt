//! The batches in which a call hands its entries on.

ghost use Rattle.std.specs.Prelude.{◌≡◌, IfOk};

use crate::duplicate::Duplicate;
use crate::lists::Entries;
use crate::no_memory::NoMemory;
use std::alloc::Global;
use std::marker::Model;

/// Some entries of a call, and whether they are its last ones. Contracts see the entries' list,
/// without its spare places.
#[derive(Debug, Drop)]
pub struct Batch {
    /// The entries.
    pub entries: Entries,
    /// Whether no batch comes after this one.
    pub last: bool,
}

impl Model for Batch {
    ghost use Rattle.grid_base.specs.Portion.{Portion};
    ghost use Rattle.grid_base.specs.declared.entry.Entry.{Entry};

    ghost Value = { Portion Entry };

    ghost view = { λ batch. record { entries = batch.entries.list; last = batch.last } };
}

impl Batch {
    /// An equal batch. The only failure is that memory runs out.
    pub fn copy(&self, alloc: Global) -> Result<Batch, NoMemory>
        ensures { IfOk result (λ copy. copy ≡ self.now) }
    {
        let entries = self.entries.copy(alloc)?;
        Ok(Batch {
            entries,
            last: self.last,
        })
    }
}

impl Duplicate for Batch {
    fn copy(&self, alloc: Global) -> Result<Batch, NoMemory> {
        Batch::copy(self, alloc)
    }
}
