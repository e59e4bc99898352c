//! Values that may have a deadline.

ghost use Rattle.std.specs.Prelude.{◌≡◌, IfOk};

use crate::datum::Datum;
use crate::duplicate::Duplicate;
use crate::no_memory::NoMemory;
use std::alloc::Global;

/// A value, and the clock at which it expires. Stamped values are ordered by value, then by
/// deadline, none first.
#[derive(Debug, Drop, PartialEq, Eq, PartialOrd, Ord)]
pub struct Stamped {
    /// The value.
    pub value: Datum,
    /// The clock in ticks from which on the value has expired, or none for a value that stays.
    pub until: Option<u32>,
}

impl Stamped {
    /// An equal stamped value. The only failure is that memory runs out.
    pub fn copy(&self, alloc: Global) -> Result<Stamped, NoMemory>
        ensures { IfOk result (λ copy. copy ≡ self.now) }
    {
        let value = self.value.copy(alloc)?;
        Ok(Stamped {
            value,
            until: self.until,
        })
    }
}

impl Duplicate for Stamped {
    fn copy(&self, alloc: Global) -> Result<Stamped, NoMemory> {
        Stamped::copy(self, alloc)
    }
}
