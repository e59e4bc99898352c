//! Lists of places.

ghost use Rattle.std.specs.Prelude.{◌≡◌, [], ◌∷◌, ◌++◌, OnErr, OnOk};

use grid_base::{NoMemory, Sequence};
use std::alloc::Global;
use std::marker::Model;

/// Places of events, in their order. Contracts see the list.
#[derive(Drop)]
pub struct Places {
    places: Sequence<u32>,
}

impl Model for Places {
    ghost use Rattle.std.specs.Prelude.{ℕ, List};
    ghost use Rattle.std.specs.Coded.{coded_list, coded_ℕ};

    ghost Value = { List ℕ };

    ghost coded = { coded_list coded_ℕ };

    ghost view = { λ a. a.places.list };
}

impl Places {
    /// No places. It takes no memory.
    pub fn new(alloc: Global) -> Places
        ensures { result ≡ [] }
    {
        Places {
            places: Sequence::new(alloc),
        }
    }

    /// One place more, behind the others. The only failure is that memory runs out; the list is as
    /// before then.
    pub fn push(&mut self, place: u32) -> Result<(), NoMemory>
        ensures ok { OnOk result (self.new ≡ self.old ++ place ∷ []) }
        ensures err { OnErr result (self.new ≡ self.old) }
    {
        self.places.push(place)
    }

    /// The places as a slice.
    pub fn as_slice(&self) -> &[u32]
        ensures { result.now ≡ self.now }
    {
        self.places.as_slice()
    }
}
