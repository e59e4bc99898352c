//! Why a text could not be made.

use crate::no_memory::NoMemory;
use thiserror::Error;

/// Why a text could not be made.
#[derive(Clone, Copy, Debug, PartialEq, Eq, Error)]
pub enum TextFault {
    /// The bytes are no text.
    #[error("not a text")]
    Bad,
    /// Memory ran out.
    #[error("out of memory")]
    NoMemory,
}

impl From<NoMemory> for TextFault {
    ghost use Rattle.std.specs.Prelude.{◌≡◌};
    ghost use Rattle.grid_base.specs.declared.text_fault.TextFault.TheVariants as faults;

    ghost from_gives = { λ _ e. e ≡ faults.NoMemory };

    fn from(_error: NoMemory) -> TextFault {
        TextFault::NoMemory
    }
}
