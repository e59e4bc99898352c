//! Why a run did not come to its end.

use grid_base::NoMemory;
use thiserror::Error;

/// Why a run did not come to its end.
#[derive(Clone, Copy, Debug, PartialEq, Eq, Error)]
pub enum RunFault {
    /// The journal was full for the next event of a line; 0 stands for the end of the script.
    #[error("the journal is full at line {line}")]
    Full { line: u32 },
    /// Memory ran out.
    #[error("out of memory")]
    NoMemory,
}

impl From<NoMemory> for RunFault {
    ghost use Rattle.std.specs.Prelude.{◌≡◌};
    ghost use Rattle.step_run.specs.declared.run_fault.RunFault.TheVariants as faults;

    ghost from_gives = { λ _ e. e ≡ faults.NoMemory };

    fn from(_cause: NoMemory) -> RunFault {
        RunFault::NoMemory
    }
}
