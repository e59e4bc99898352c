//! Why a text could not be read as an event.

use grid_base::NoMemory;
use pipeline_parse::{Halt, Unread};
use std::alloc::AllocError;
use thiserror::Error;

/// Why a text could not be read as an event.
#[derive(Clone, Copy, Debug, PartialEq, Eq, Error)]
pub enum EventFault {
    /// The text is no event's.
    #[error("not the text of an event")]
    BadEvent,
    /// Memory ran out.
    #[error("out of memory")]
    NoMemory,
}

impl From<NoMemory> for EventFault {
    ghost use Rattle.std.specs.Prelude.{◌≡◌};
    ghost use Rattle.event_texts.specs.declared.event_fault.EventFault.TheVariants as faults;

    ghost from_gives = { λ _ e. e ≡ faults.NoMemory };

    fn from(_error: NoMemory) -> EventFault {
        EventFault::NoMemory
    }
}

impl From<AllocError> for EventFault {
    ghost use Rattle.std.specs.Prelude.{◌≡◌};
    ghost use Rattle.event_texts.specs.declared.event_fault.EventFault.TheVariants as faults;

    ghost from_gives = { λ _ e. e ≡ faults.NoMemory };

    fn from(_error: AllocError) -> EventFault {
        EventFault::NoMemory
    }
}

impl From<Unread> for EventFault {
    ghost use Rattle.std.specs.Prelude.{◌≡◌};
    ghost use Rattle.event_texts.specs.declared.event_fault.EventFault.TheVariants as faults;

    ghost from_gives = { λ _ e. e ≡ faults.BadEvent };

    fn from(_unread: Unread) -> EventFault {
        EventFault::BadEvent
    }
}

impl From<Halt> for EventFault {
    ghost use Rattle.std.specs.Prelude.{◌≡◌};
    ghost use Rattle.event_texts.specs.Faults.{halt_fault};

    ghost from_gives = { λ halt e. e ≡ halt_fault halt };

    fn from(halt: Halt) -> EventFault {
        match halt {
            Halt::Left(_) => EventFault::BadEvent,
            Halt::NoMemory => EventFault::NoMemory,
        }
    }
}
