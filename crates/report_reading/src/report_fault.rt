//! Why a report was not read.

use event_texts::EventFault;
use grid_base::NoMemory;
use grid_event::PushFault;
use pipeline_parse::Unread;
use thiserror::Error;

/// Why a report was not read.
#[derive(Clone, Copy, Debug, PartialEq, Eq, Error)]
pub enum ReportFault {
    /// The lines up to this one, which counts from 1, begin no report.
    #[error("line {line} is no report's")]
    Unread { line: u32 },
    /// The event of this line would pass a limit of the journal.
    #[error("the journal is full at line {line}")]
    Full { line: u32 },
    /// Memory ran out.
    #[error("out of memory")]
    NoMemory,
}

/// Why a line was not taken.
#[derive(Clone, Copy, Debug, PartialEq, Eq)]
pub(crate) enum LineFault {
    Unread,
    Full,
    NoMemory,
}

impl From<NoMemory> for LineFault {
    ghost use Rattle.std.specs.Prelude.{◌≡◌};
    ghost use Rattle.report_reading.specs.declared.report_fault.LineFault.TheVariants as faults;

    ghost from_gives = { λ _ fault. fault ≡ faults.NoMemory };

    fn from(_cause: NoMemory) -> LineFault {
        LineFault::NoMemory
    }
}

impl From<Unread> for LineFault {
    ghost use Rattle.std.specs.Prelude.{◌≡◌};
    ghost use Rattle.report_reading.specs.declared.report_fault.LineFault.TheVariants as faults;

    ghost from_gives = { λ _ fault. fault ≡ faults.Unread };

    fn from(_cause: Unread) -> LineFault {
        LineFault::Unread
    }
}

impl From<EventFault> for LineFault {
    ghost use Rattle.report_reading.specs.Taking.{fault_of};
    ghost use Rattle.std.specs.Prelude.{◌≡◌};

    ghost from_gives = { λ cause fault. fault ≡ fault_of cause };

    fn from(cause: EventFault) -> LineFault {
        match cause {
            EventFault::BadEvent => LineFault::Unread,
            EventFault::NoMemory => LineFault::NoMemory,
        }
    }
}

impl From<PushFault> for LineFault {
    ghost use Rattle.report_reading.specs.Taking.{push_fault_of};
    ghost use Rattle.std.specs.Prelude.{◌≡◌};

    ghost from_gives = { λ cause fault. fault ≡ push_fault_of cause };

    fn from(cause: PushFault) -> LineFault {
        match cause {
            PushFault::Full => LineFault::Full,
            PushFault::NoMemory => LineFault::NoMemory,
        }
    }
}
