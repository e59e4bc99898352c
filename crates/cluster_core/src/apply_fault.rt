//! Why an event did not happen.

use grid_base::NoMemory;
use thiserror::Error;

/// Why an event did not happen.
#[derive(Clone, Copy, Debug, PartialEq, Eq, Error)]
pub enum ApplyFault {
    /// There is no such step.
    #[error("there is no such step")]
    Refused,
    /// Memory ran out.
    #[error("out of memory")]
    NoMemory,
}

impl From<NoMemory> for ApplyFault {
    ghost use Rattle.std.specs.Prelude.{◌≡◌};
    ghost use Rattle.cluster_core.specs.declared.apply_fault.ApplyFault.TheVariants as faults;

    ghost from_gives = { λ _ e. e ≡ faults.NoMemory };

    fn from(_cause: NoMemory) -> ApplyFault {
        ApplyFault::NoMemory
    }
}
