//! A part in which the order of joins shows.

use grid_base::{NoMemory, Part};
use std::alloc::Global;

/// The first and the last of some steps.
#[derive(Debug, Drop, PartialEq, Eq)]
pub struct Ends {
    first: Option<u8>,
    last: Option<u8>,
}

impl Ends {
    /// One step.
    pub fn of(step: u8) -> Ends {
        Ends {
            first: Some(step),
            last: Some(step),
        }
    }

    /// Steps that begin and end so.
    pub fn between(first: u8, last: u8) -> Ends {
        Ends {
            first: Some(first),
            last: Some(last),
        }
    }
}

impl Part for Ends {
    ghost use Rattle.std.specs.Prelude.{true, None};
    ghost use Rattle.std.specs.Option.{option_or};
    ghost use Rattle.std.proofs.Common.{rules};

    ghost plain = { λ ends. ends };

    ghost fitting = { λ _ _. true };

    ghost joined = { λ a b. record { first = option_or a.first b.first; last = option_or b.last a.last } };

    ghost nothing = { record { first = None; last = None } };

    fn empty() -> Ends {
        Ends {
            first: None,
            last: None,
        }
    }

    fn fits(&self, _other: &Ends) -> bool {
        true
    }

    fn join(&mut self, other: Ends) -> Result<(), NoMemory> {
        self.first = self.first.or(other.first);
        self.last = other.last.or(self.last);
        Ok(())
    }

    fn copy(&self, _alloc: Global) -> Result<Ends, NoMemory> {
        Ok(Ends {
            first: self.first,
            last: self.last,
        })
    }

    ghost left_fits = { Prim.search rules };

    ghost right_fits = { Prim.search rules };

    ghost left_unit = { Prim.search rules };

    ghost right_unit = { Prim.search rules };

    ghost fits_front = { Prim.search rules };

    ghost fits_behind = { Prim.search rules };

    ghost associates = { Prim.search rules };
}
