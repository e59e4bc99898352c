//! What the halves make of entries and of pieces.

ghost use Rattle.std.specs.Option.{option_copied};
ghost use Rattle.std.specs.Prelude.{◌≡◌, IfOk};
ghost use Rattle.pipeline_eval.specs.Pipes.{end_answer, ops_items};
ghost use Rattle.pipeline_split.specs.Pieces.{finished, kept_by, piece};

use crate::elements::Elements;
use crate::halves::{Local, Remote};
use crate::piece::Piece;
use grid_base::{Datum, Entries, Item, NoMemory};
use pipeline_eval::{answer_of, apply_all, elements_of, greatest, least, sum};
use pipeline_expr::{Answer, End};
use std::alloc::Global;

/// What a remote half makes of a list of entries. The only failure is that memory runs out.
pub fn piece_of(alloc: Global, remote: &Remote, entries: &Entries) -> Result<Piece, NoMemory>
    ensures { IfOk result (λ made. made ≡ piece remote.now entries.now.list) }
{
    let items = elements_of(alloc, entries.as_slice())?;
    let left = apply_all(alloc, remote.ops.as_slice(), items)?;
    kept_by(alloc, remote.end, left)
}

/// What is kept of a list by an end, or the list itself where there is none.
fn kept_by(alloc: Global, end: Option<End>, items: Vec<Item>) -> Result<Piece, NoMemory>
    ensures { IfOk result (λ made. made ≡ kept_by end items.items) }
{
    match end {
        Some(End::Count) => Ok(Piece::Count(items.len() as u64)),
        Some(End::Sum) => Ok(Piece::Sum(sum(&items))),
        Some(End::Min) => Ok(Piece::Min(copied(alloc, least(&items))?)),
        Some(End::Max) => Ok(Piece::Max(copied(alloc, greatest(&items))?)),
        Some(End::Collect) | Some(End::Each) | None => Ok(Piece::List(Elements::from_vec(items))),
    }
}

/// A copy of a value, where there is one.
fn copied(alloc: Global, best: Option<&Datum>) -> Result<Option<Datum>, NoMemory>
    ensures { IfOk result (λ copy. copy ≡ option_copied best.entry) }
{
    match best {
        Some(best) => Ok(Some(best.copy(alloc)?)),
        None => Ok(None),
    }
}

/// What a local half makes of a piece. The only failure is that memory runs out; the piece is gone
/// then.
pub fn finish(alloc: Global, local: &Local, piece: Piece) -> Result<Answer, NoMemory>
    ensures { IfOk result (λ answer. answer ≡ finished local.now piece) }
{
    match piece {
        Piece::Nothing => finish_items(alloc, local, Vec::new(alloc)),
        Piece::Count(count) => Ok(Answer::Count(count)),
        Piece::Sum(sum) => Ok(Answer::Sum(sum)),
        Piece::Min(best) => Ok(Answer::Best(best)),
        Piece::Max(best) => Ok(Answer::Best(best)),
        Piece::List(list) => finish_items(alloc, local, list.into_vec()),
    }
}

/// What a local half makes of a list.
fn finish_items(alloc: Global, local: &Local, items: Vec<Item>) -> Result<Answer, NoMemory>
    ensures { IfOk result (λ answer. answer ≡ end_answer local.now.end (ops_items local.now.ops items.items)) }
{
    let left = apply_all(alloc, local.ops.as_slice(), items)?;
    answer_of(alloc, local.end, left)
}
