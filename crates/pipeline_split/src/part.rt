//! Pieces are parts: whatever joins parts joins pieces.

use crate::piece::Piece;
use grid_base::{NoMemory, Part};
use std::alloc::Global;

impl Part for Piece {
    ghost use Rattle.std.specs.Prelude.{refl};
    ghost use Rattle.pipeline_split.specs.Pieces as pieces;
    ghost use Rattle.pipeline_split.specs.declared.piece.Piece.TheVariants as variants;
    ghost use Rattle.pipeline_split.specs.FitLaws as fits_laws;
    ghost use Rattle.pipeline_split.specs.PieceLaws as laws;

    ghost plain = { λ piece. piece };

    ghost fitting = { pieces.fitting };

    ghost joined = { pieces.joined };

    ghost nothing = { variants.Nothing };

    fn empty() -> Piece {
        Piece::empty()
    }

    fn fits(&self, other: &Piece) -> bool {
        Piece::fits(self, other)
    }

    fn join(&mut self, other: Piece) -> Result<(), NoMemory> {
        Piece::join(self, other)
    }

    fn copy(&self, alloc: Global) -> Result<Piece, NoMemory> {
        Piece::copy(self, alloc)
    }

    ghost left_fits = { λ a. refl };

    ghost right_fits = { laws.fitting_nothing };

    ghost left_unit = { λ a. refl };

    ghost right_unit = { laws.joined_nothing };

    ghost fits_front = { fits_laws.fits_front };

    ghost fits_behind = { fits_laws.fits_behind };

    ghost associates = { λ a b c p q. laws.joined-assoc a b c p (fits_laws.fits_front a b c p q).0 };
}
