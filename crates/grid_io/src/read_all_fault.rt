//! Why a source could not be read to its end.

use crate::failed::Failed;
use grid_base::NoMemory;
use thiserror::Error;

/// Why a source could not be read to its end.
#[derive(Clone, Copy, Debug, PartialEq, Eq, Error)]
pub enum ReadAllFault {
    /// The source failed.
    #[error("the source failed")]
    ReadFault,
    /// The source gave more bytes than the limit.
    #[error("the source gave too many bytes")]
    TooLong,
    /// Memory ran out.
    #[error("out of memory")]
    NoMemory,
}

impl From<Failed> for ReadAllFault {
    ghost use Rattle.std.specs.Prelude.{◌≡◌};
    ghost use Rattle.grid_io.specs.declared.read_all_fault.ReadAllFault.TheVariants as faults;

    ghost from_gives = { λ _ e. e ≡ faults.ReadFault };

    fn from(_failed: Failed) -> ReadAllFault {
        ReadAllFault::ReadFault
    }
}

impl From<NoMemory> for ReadAllFault {
    ghost use Rattle.std.specs.Prelude.{◌≡◌};
    ghost use Rattle.grid_io.specs.declared.read_all_fault.ReadAllFault.TheVariants as faults;

    ghost from_gives = { λ _ e. e ≡ faults.NoMemory };

    fn from(_error: NoMemory) -> ReadAllFault {
        ReadAllFault::NoMemory
    }
}
