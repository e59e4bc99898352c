//! Laws of the two halves, for proofs of others. The functions do nothing.

ghost use Rattle.std.specs.Prelude.{◌≡◌, ◌+◌, ◌++◌, ◌^◌, [], length, nat_lt, true};
ghost use Rattle.pipeline_eval.specs.Pipes.{pipe, pipe_items};
ghost use Rattle.pipeline_split.specs.Halves.{local_of, remote_of};
ghost use Rattle.pipeline_split.specs.Pieces.{finished, fitting, joined, piece};
ghost use Rattle.pipeline_expr.specs.Typing.{Typed};
ghost use Rattle.pipeline_split.specs.Typed.{HaveValuesOf};

use crate::piece::Piece;
use grid_base::Entry;
use pipeline_expr::{Kind, Pipeline, ValueKind};

/// Finishing the piece of a list of entries is the plain pipeline over it, a distinct in the middle
/// included.
pub fn finished_piece_is_the_answer(pipeline: &Pipeline, entries: &[Entry])
    ensures { finished (local_of pipeline.now) (piece (remote_of pipeline.now) entries.now) ≡ pipe pipeline.now entries.now }
{}

/// The piece of two lists of entries, one behind the other, is the join of their pieces.
pub fn pieces_join(pipeline: &Pipeline, first: &[Entry], more: &[Entry])
    ensures { piece (remote_of pipeline.now) (first.now ++ more.now) ≡ joined (piece (remote_of pipeline.now) first.now) (piece (remote_of pipeline.now) more.now) }
{}

/// Nothing counts as the piece of no entries.
pub fn finished_nothing_is_the_empty_answer(pipeline: &Pipeline)
    ensures { finished (local_of pipeline.now) Piece.Nothing ≡ pipe pipeline.now [] }
{}

/// Of three pieces, each of which fits the next, it doesn't matter which two are joined first.
pub fn pieces_join_in_any_groups(a: &Piece, b: &Piece, c: &Piece)
    requires first { fitting a.now b.now ≡ true }
    requires second { fitting b.now c.now ≡ true }
    ensures { joined (joined a.now b.now) c.now ≡ joined a.now (joined b.now c.now) }
{}

/// Nothing fits each piece on both sides, and changes none.
#[tactic(auto, using(crate::specs::PieceLaws::fitting_nothing, crate::specs::PieceLaws::joined_nothing))]
pub fn nothing_changes_no_piece(a: &Piece)
    ensures fits_before { fitting Piece.Nothing a.now ≡ true }
    ensures fits_behind { fitting a.now Piece.Nothing ≡ true }
    ensures before { joined Piece.Nothing a.now ≡ a.now }
    ensures behind { joined a.now Piece.Nothing ≡ a.now }
{}

/// Where a piece fits a second and their join fits a third, so it is in the other groups too.
pub fn pieces_fit_in_any_groups(a: &Piece, b: &Piece, c: &Piece)
    requires first { fitting a.now b.now ≡ true }
    requires second { fitting (joined a.now b.now) c.now ≡ true }
    ensures behind { fitting b.now c.now ≡ true }
    ensures around { fitting a.now (joined b.now c.now) ≡ true }
{}

/// The pieces that the remote half of a typed pipeline makes of entries whose values have the
/// cluster's kind fit, as long as all elements can be counted.
pub fn typed_pieces_fit(
    pipeline: &Pipeline,
    values: ValueKind,
    kind: Kind,
    first: &[Entry],
    more: &[Entry],
)
    requires typed { Typed pipeline.now values kind }
    requires first_values { HaveValuesOf values first.now }
    requires more_values { HaveValuesOf values more.now }
    requires few { nat_lt (length (pipe_items pipeline.now first.now) + length (pipe_items pipeline.now more.now)) (2 ^ 64) ≡ true }
    ensures { fitting (piece (remote_of pipeline.now) first.now) (piece (remote_of pipeline.now) more.now) ≡ true }
{}
