//! The load of a live script.

ghost use Rattle.std.specs.Prelude.{◌≡◌, ◌++◌, ◌∷◌, [], OnOk};

use grid_base::{Entries, Entry, NoMemory};
use std::alloc::Global;
use std::marker::Model;

/// The entries that a live script loads first. Contracts see their list.
#[derive(Debug, Drop)]
pub(crate) struct Load {
    pub entries: Entries,
}

impl Model for Load {
    ghost use Rattle.std.specs.Prelude.{List};
    ghost use Rattle.std.specs.Coded.{coded_list};
    ghost use Rattle.grid_base.specs.declared.entry.Entry.{Entry};

    ghost Value = { List Entry };

    ghost view = { λ load. load.entries.list };
}

impl Load {
    /// No entries.
    pub(crate) fn new(alloc: Global) -> Load
        ensures { result ≡ [] }
    {
        Load {
            entries: Entries::new(alloc),
        }
    }

    /// Puts an entry behind the others.
    pub(crate) fn push(&mut self, entry: Entry) -> Result<(), NoMemory>
        ensures { OnOk result (self.new ≡ self.old ++ entry ∷ []) }
    {
        self.entries.push(entry)
    }
}
