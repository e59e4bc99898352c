//! Why a line is refused.

use crate::reason::Reason;
use grid_base::NoMemory;
use pipeline_parse::{Halt, Unread};

/// Why a line is refused.
#[derive(Clone, Copy, Debug, PartialEq, Eq)]
pub(crate) enum LineFault {
    /// The line breaks a rule.
    Refused(Reason),
    /// Memory ran out.
    NoMemory,
}

impl From<NoMemory> for LineFault {
    ghost use Rattle.std.specs.Prelude.{◌≡◌};
    ghost use Rattle.grid_script.specs.declared.line_fault.LineFault.TheVariants as faults;

    ghost from_gives = { λ _ fault. fault ≡ faults.NoMemory };

    fn from(_cause: NoMemory) -> LineFault {
        LineFault::NoMemory
    }
}

impl From<Unread> for LineFault {
    ghost use Rattle.std.specs.Prelude.{◌≡◌};
    ghost use Rattle.grid_script.specs.declared.line_fault.LineFault.TheVariants as faults;
    ghost use Rattle.grid_script.specs.declared.reason.Reason.TheVariants as reasons;

    ghost from_gives = { λ _ fault. fault ≡ faults.Refused reasons.Syntax };

    fn from(_cause: Unread) -> LineFault {
        LineFault::Refused(Reason::Syntax)
    }
}

impl From<Halt> for LineFault {
    ghost use Rattle.grid_script.specs.Faults.{fault_of};
    ghost use Rattle.std.specs.Prelude.{◌≡◌};

    ghost from_gives = { λ halt fault. fault ≡ fault_of halt };

    fn from(cause: Halt) -> LineFault {
        match cause {
            Halt::Left(_) => LineFault::Refused(Reason::Syntax),
            Halt::NoMemory => LineFault::NoMemory,
        }
    }
}
