//! The number of a call.

ghost use Rattle.std.specs.Prelude.{◌≡◌};

use crate::duplicate::Duplicate;
use crate::no_memory::NoMemory;
use std::alloc::Global;
use std::marker::Model;

/// The number of a call, 1 to 4,096.
#[derive(Clone, Copy, Debug, PartialEq, Eq, PartialOrd, Ord, Hash)]
pub struct CallId(pub u32);

impl Model for CallId {
    ghost use Rattle.std.specs.Prelude.{ℕ};

    ghost Value = { ℕ };

    ghost view = { λ id. id.0 };

    ghost inverse = { λ n. record { 0 = n } };
}

impl CallId {
    /// The call with this number.
    pub fn new(number: u32) -> CallId
        ensures { result ≡ number }
    {
        CallId(number)
    }

    /// The number.
    pub fn number(self) -> u32
        ensures { result ≡ self }
    {
        self.0
    }
}

impl Duplicate for CallId {
    fn copy(&self, _alloc: Global) -> Result<CallId, NoMemory> {
        Ok(*self)
    }
}
