//! Why a script was not read.

use crate::reason::Reason;
use grid_base::NoMemory;
use thiserror::Error;

/// Why a script was not read.
#[derive(Clone, Copy, Debug, PartialEq, Eq, Error)]
pub enum ScriptFault {
    /// The script is refused at a line, which counts from 1; 0 stands for the whole script.
    #[error("the script is refused at line {line}")]
    Refused { line: u32, reason: Reason },
    /// Memory ran out.
    #[error("out of memory")]
    NoMemory,
}

impl From<NoMemory> for ScriptFault {
    ghost use Rattle.std.specs.Prelude.{◌≡◌};
    ghost use Rattle.grid_script.specs.declared.script_fault.ScriptFault.TheVariants as faults;

    ghost from_gives = { λ _ e. e ≡ faults.NoMemory };

    fn from(_cause: NoMemory) -> ScriptFault {
        ScriptFault::NoMemory
    }
}
