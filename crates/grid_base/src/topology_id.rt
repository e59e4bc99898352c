//! The number of a topology.

ghost use Rattle.std.specs.Prelude.{◌≡◌};

use crate::duplicate::Duplicate;
use crate::no_memory::NoMemory;
use std::alloc::Global;
use std::marker::Model;

/// The number of a topology, 1 for the first.
#[derive(Clone, Copy, Debug, PartialEq, Eq, PartialOrd, Ord, Hash)]
pub struct TopologyId(pub u32);

impl Model for TopologyId {
    ghost use Rattle.std.specs.Prelude.{ℕ};

    ghost Value = { ℕ };

    ghost view = { λ id. id.0 };

    ghost inverse = { λ n. record { 0 = n } };
}

impl TopologyId {
    /// The topology with this number.
    pub fn new(number: u32) -> TopologyId
        ensures { result ≡ number }
    {
        TopologyId(number)
    }

    /// The number.
    pub fn number(self) -> u32
        ensures { result ≡ self }
    {
        self.0
    }
}

impl Duplicate for TopologyId {
    fn copy(&self, _alloc: Global) -> Result<TopologyId, NoMemory> {
        Ok(*self)
    }
}
