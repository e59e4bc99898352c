//! Why a journal did not take an event.

use grid_base::NoMemory;
use thiserror::Error;

/// Why a journal did not take an event.
#[derive(Clone, Copy, Debug, PartialEq, Eq, Error)]
pub enum PushFault {
    /// The event would pass a limit of the journal.
    #[error("the journal is full")]
    Full,
    /// Memory ran out.
    #[error("out of memory")]
    NoMemory,
}

impl From<NoMemory> for PushFault {
    ghost use Rattle.std.specs.Prelude.{◌≡◌};
    ghost use Rattle.grid_event.specs.declared.push_fault.PushFault.TheVariants as faults;

    ghost from_gives = { λ _ e. e ≡ faults.NoMemory };

    fn from(_cause: NoMemory) -> PushFault {
        PushFault::NoMemory
    }
}
