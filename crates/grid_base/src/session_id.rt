//! The number of a session.

ghost use Rattle.std.specs.Prelude.{◌≡◌};

use crate::duplicate::Duplicate;
use crate::no_memory::NoMemory;
use std::alloc::Global;
use std::marker::Model;

/// The number of a session of a live script.
#[derive(Clone, Copy, Debug, PartialEq, Eq, PartialOrd, Ord, Hash)]
pub struct SessionId(pub u16);

impl Model for SessionId {
    ghost use Rattle.std.specs.Prelude.{ℕ};

    ghost Value = { ℕ };

    ghost view = { λ id. id.0 };

    ghost inverse = { λ n. record { 0 = n } };
}

impl SessionId {
    /// The session with this number.
    pub fn new(number: u16) -> SessionId
        ensures { result ≡ number }
    {
        SessionId(number)
    }

    /// The number.
    pub fn number(self) -> u16
        ensures { result ≡ self }
    {
        self.0
    }
}

impl Duplicate for SessionId {
    fn copy(&self, _alloc: Global) -> Result<SessionId, NoMemory> {
        Ok(*self)
    }
}
