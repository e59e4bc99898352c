//! Why an act was refused.

use grid_base::NoMemory;
use thiserror::Error;

/// Why an act was refused.
#[derive(Clone, Copy, Debug, PartialEq, Eq, Error)]
pub enum ActFault {
    /// The journal is full for the event.
    #[error("the journal is full")]
    Full,
    /// Memory ran out.
    #[error("out of memory")]
    NoMemory,
}

impl From<NoMemory> for ActFault {
    ghost use Rattle.std.specs.Prelude.{◌≡◌};
    ghost use Rattle.grid_book.specs.declared.act_fault.ActFault.TheVariants as faults;

    ghost from_gives = { λ _ e. e ≡ faults.NoMemory };

    fn from(_cause: NoMemory) -> ActFault {
        ActFault::NoMemory
    }
}
