//! The number of a unit.

ghost use Rattle.std.specs.Prelude.{◌≡◌};

use crate::duplicate::Duplicate;
use crate::no_memory::NoMemory;
use std::alloc::Global;
use std::marker::Model;

/// The number of a unit of work, 1 for the first that a run makes.
#[derive(Clone, Copy, Debug, PartialEq, Eq, PartialOrd, Ord, Hash)]
pub struct UnitId(pub u32);

impl Model for UnitId {
    ghost use Rattle.std.specs.Prelude.{ℕ};

    ghost Value = { ℕ };

    ghost view = { λ id. id.0 };

    ghost inverse = { λ n. record { 0 = n } };
}

impl UnitId {
    /// The unit with this number.
    pub fn new(number: u32) -> UnitId
        ensures { result ≡ number }
    {
        UnitId(number)
    }

    /// The number.
    pub fn number(self) -> u32
        ensures { result ≡ self }
    {
        self.0
    }
}

impl Duplicate for UnitId {
    fn copy(&self, _alloc: Global) -> Result<UnitId, NoMemory> {
        Ok(*self)
    }
}
