//! The number of a segment.

ghost use Rattle.std.specs.Prelude.{◌≡◌};

use crate::duplicate::Duplicate;
use crate::no_memory::NoMemory;
use std::alloc::Global;
use std::marker::Model;

/// The number of a segment of the keys, 0 to 255.
#[derive(Clone, Copy, Debug, PartialEq, Eq, PartialOrd, Ord, Hash)]
pub struct SegmentId(pub u16);

impl Model for SegmentId {
    ghost use Rattle.std.specs.Prelude.{ℕ};

    ghost Value = { ℕ };

    ghost view = { λ id. id.0 };

    ghost inverse = { λ n. record { 0 = n } };
}

impl SegmentId {
    /// The segment with this number.
    pub fn new(number: u16) -> SegmentId
        ensures { result ≡ number }
    {
        SegmentId(number)
    }

    /// The number.
    pub fn number(self) -> u16
        ensures { result ≡ self }
    {
        self.0
    }
}

impl Duplicate for SegmentId {
    fn copy(&self, _alloc: Global) -> Result<SegmentId, NoMemory> {
        Ok(*self)
    }
}
