//! Where a reading stops.

use grid_base::NoMemory;
use thiserror::Error;

/// No text goes on so: as many bytes are left behind the longest front with which one begins.
#[derive(Clone, Copy, Debug, PartialEq, Eq, Error)]
#[error("{left} bytes are left unread")]
pub struct Unread {
    pub left: usize,
}

/// Why a reading that takes memory stops.
#[derive(Clone, Copy, Debug, PartialEq, Eq, Error)]
pub enum Halt {
    /// No text goes on so; so many bytes are left.
    #[error("{0} bytes are left unread")]
    Left(usize),
    /// Memory ran out.
    #[error("out of memory")]
    NoMemory,
}

impl From<Unread> for Halt {
    ghost use Rattle.std.specs.Prelude.{◌≡◌};
    ghost use Rattle.pipeline_parse.specs.declared.halt.Halt.TheVariants as halts;

    ghost from_gives = { λ unread halt. halt ≡ halts.Left unread.left };

    fn from(unread: Unread) -> Halt {
        Halt::Left(unread.left)
    }
}

impl From<NoMemory> for Halt {
    ghost use Rattle.std.specs.Prelude.{◌≡◌};
    ghost use Rattle.pipeline_parse.specs.declared.halt.Halt.TheVariants as halts;

    ghost from_gives = { λ _ halt. halt ≡ halts.NoMemory };

    fn from(_error: NoMemory) -> Halt {
        Halt::NoMemory
    }
}
