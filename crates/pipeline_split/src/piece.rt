//! Pieces, and how they join.

ghost use Rattle.std.specs.Prelude.{◌≡◌, ◌+◌, ◌+ℤ◌, ◌^◌, true, IfOk, OnErr, OnOk, nat_lt};
ghost use Rattle.pipeline_split.specs.Pieces.{comparable, fitting, joined};
ghost use Rattle.pipeline_eval.specs.Lists.{greater, lesser};
ghost use Rattle.pipeline_eval.specs.Values.{wrapped};

use crate::elements::Elements;
use grid_base::{Datum, Duplicate, NoMemory};
use pipeline_eval::compared;
use std::alloc::Global;

/// What a remote half makes of some entries: a count, a sum or a best, where it is the whole
/// pipeline and ends so, and else a list. Nothing is the piece of nothing.
#[derive(Debug, Drop)]
pub enum Piece {
    /// Nothing was seen.
    Nothing,
    /// How many elements there are.
    Count(u64),
    /// Their sum, modulo 2^64.
    Sum(i64),
    /// The least of them, if there is one.
    Min(Option<Datum>),
    /// The greatest of them, if there is one.
    Max(Option<Datum>),
    /// All of them in order.
    List(Elements),
}

impl Piece {
    /// The piece of nothing. It takes no memory.
    pub fn empty() -> Piece
        ensures { result ≡ Piece.Nothing }
    {
        Piece::Nothing
    }

    /// Whether two pieces may be joined: they have one form or one is Nothing, two bests are both
    /// ints or both texts, and the count of both is below 2^64. It takes no memory.
    pub fn fits(&self, other: &Piece) -> bool
        ensures { result ≡ fitting self.now other.now }
    {
        match (self, other) {
            (Piece::Nothing, _) => true,
            (_, Piece::Nothing) => true,
            (Piece::Count(a), Piece::Count(b)) => a.checked_add(*b).is_some(),
            (Piece::Sum(_), Piece::Sum(_)) => true,
            (Piece::Min(a), Piece::Min(b)) => are_comparable(a, b),
            (Piece::Max(a), Piece::Max(b)) => are_comparable(a, b),
            (Piece::List(_), Piece::List(_)) => true,
            _ => false,
        }
    }

    /// Puts a piece that fits behind this one: counts and sums are added, of two bests the lesser
    /// or the greater is kept, and lists stand one behind the other. The only failure is that
    /// memory runs out; then `other` is gone.
    pub fn join(&mut self, other: Piece) -> Result<(), NoMemory>
        requires { fitting self.old other ≡ true }
        ensures ok { OnOk result (self.new ≡ joined self.old other) }
        ensures err { OnErr result (self.new ≡ self.old) }
    {
        match other {
            Piece::Nothing => Ok(()),
            Piece::Count(more) => join_count(self, more),
            Piece::Sum(more) => join_sum(self, more),
            Piece::Min(more) => join_least(self, more),
            Piece::Max(more) => join_greatest(self, more),
            Piece::List(more) => join_list(self, more),
        }
    }

    /// An equal piece. The only failure is that memory runs out.
    pub fn copy(&self, alloc: Global) -> Result<Piece, NoMemory>
        ensures { IfOk result (λ copy. copy ≡ self.now) }
    {
        match self {
            Piece::Nothing => Ok(Piece::Nothing),
            Piece::Count(count) => Ok(Piece::Count(*count)),
            Piece::Sum(sum) => Ok(Piece::Sum(*sum)),
            Piece::Min(best) => Ok(Piece::Min(copied(alloc, best)?)),
            Piece::Max(best) => Ok(Piece::Max(copied(alloc, best)?)),
            Piece::List(list) => Ok(Piece::List(list.copy(alloc)?)),
        }
    }
}

impl Duplicate for Piece {
    fn copy(&self, alloc: Global) -> Result<Piece, NoMemory> {
        Piece::copy(self, alloc)
    }
}

/// Puts a count behind a piece that fits it.
fn join_count(piece: &mut Piece, more: u64) -> Result<(), NoMemory>
    requires { fitting piece.old (Piece.Count more) ≡ true }
    ensures ok { OnOk result (piece.new ≡ joined piece.old (Piece.Count more)) }
    ensures err { OnErr result (piece.new ≡ piece.old) }
{
    match piece {
        Piece::Count(count) => *count += more,
        _ => *piece = Piece::Count(more),
    }
    Ok(())
}

/// Puts a sum behind a piece that fits it.
fn join_sum(piece: &mut Piece, more: i64) -> Result<(), NoMemory>
    requires { fitting piece.old (Piece.Sum more) ≡ true }
    ensures ok { OnOk result (piece.new ≡ joined piece.old (Piece.Sum more)) }
    ensures err { OnErr result (piece.new ≡ piece.old) }
{
    match piece {
        Piece::Sum(sum) => *sum = added(*sum, more),
        _ => *piece = Piece::Sum(more),
    }
    Ok(())
}

/// The sum of two numbers, modulo 2^64.
fn added(sum: i64, more: i64) -> i64
    ensures { result ≡ wrapped (sum +ℤ more) }
{
    sum.wrapping_add(more)
}

/// Puts a least value behind a piece that fits it.
fn join_least(piece: &mut Piece, more: Option<Datum>) -> Result<(), NoMemory>
    requires { fitting piece.old (Piece.Min more) ≡ true }
    ensures ok { OnOk result (piece.new ≡ joined piece.old (Piece.Min more)) }
    ensures err { OnErr result (piece.new ≡ piece.old) }
{
    match piece {
        Piece::Min(best) => *best = lesser(best.take(), more),
        _ => *piece = Piece::Min(more),
    }
    Ok(())
}

/// Puts a greatest value behind a piece that fits it.
fn join_greatest(piece: &mut Piece, more: Option<Datum>) -> Result<(), NoMemory>
    requires { fitting piece.old (Piece.Max more) ≡ true }
    ensures ok { OnOk result (piece.new ≡ joined piece.old (Piece.Max more)) }
    ensures err { OnErr result (piece.new ≡ piece.old) }
{
    match piece {
        Piece::Max(best) => *best = greater(best.take(), more),
        _ => *piece = Piece::Max(more),
    }
    Ok(())
}

/// Puts a list behind a piece that fits it.
fn join_list(piece: &mut Piece, more: Elements) -> Result<(), NoMemory>
    requires { fitting piece.old (Piece.List more) ≡ true }
    ensures ok { OnOk result (piece.new ≡ joined piece.old (Piece.List more)) }
    ensures err { OnErr result (piece.new ≡ piece.old) }
{
    match piece {
        Piece::List(list) => list.append(more)?,
        _ => *piece = Piece::List(more),
    }
    Ok(())
}

/// The lesser of two values that may be missing.
fn lesser(a: Option<Datum>, b: Option<Datum>) -> Option<Datum>
    ensures { result ≡ lesser a b }
{
    match (a, b) {
        (None, b) => b,
        (a, None) => a,
        (Some(a), Some(b)) => Some(if compared(&b, &a).is_lt() { b } else { a }),
    }
}

/// The greater of two values that may be missing.
fn greater(a: Option<Datum>, b: Option<Datum>) -> Option<Datum>
    ensures { result ≡ greater a b }
{
    match (a, b) {
        (None, b) => b,
        (a, None) => a,
        (Some(a), Some(b)) => Some(if compared(&b, &a).is_lt() { a } else { b }),
    }
}

/// Whether two bests are both ints or both texts, or one is missing.
fn are_comparable(a: &Option<Datum>, b: &Option<Datum>) -> bool
    ensures { result ≡ comparable a.now b.now }
{
    match (a, b) {
        (None, _) => true,
        (_, None) => true,
        (Some(Datum::Int(_)), Some(Datum::Int(_))) => true,
        (Some(Datum::Text(_)), Some(Datum::Text(_))) => true,
        _ => false,
    }
}

/// A copy of a value that may be missing.
fn copied(alloc: Global, best: &Option<Datum>) -> Result<Option<Datum>, NoMemory>
    ensures { IfOk result (λ copy. copy ≡ best.now) }
{
    match best {
        Some(best) => Ok(Some(best.copy(alloc)?)),
        None => Ok(None),
    }
}
