//! The typing of pipelines.

ghost use Rattle.std.specs.Prelude.{◌≡◌, ◌≤◌, ◌<◌, ◌+◌, ◌||◌, ◌&&◌, nat_le, length};
ghost use Rattle.pipeline_expr.specs.Typing as Typing;
ghost use Rattle.pipeline_expr.specs.Typing.{Tells, checked, end_takes, has_kind, is_flatmap, is_long, op_kind, spread_kind};
ghost use Rattle.std.specs.List.{list_all};

use crate::check_fault::CheckFault;
use crate::end::End;
use crate::expr::Expr;
use crate::kind::{Kind, ValueKind, is_same};
use crate::op::Op;
use crate::pipeline::Pipeline;
use crate::spread::Spread;

/// How many operations a pipeline may have before its end.
const MOST_OPERATIONS: usize = 8;

/// How many expressions a flatmap's list may have besides its first.
const MOST_FURTHER_EXPRESSIONS: usize = 7;

/// The kind of the elements before the end, where the cluster's values have the kind `values`. The
/// fault is the first operation, counted from 0 with the end last, that is past a limit (the ninth
/// operation, a second flatmap, a list of more than eight expressions) or whose need isn't met;
/// past a limit comes first at one operation. It takes no memory.
pub fn check(pipeline: &Pipeline, values: ValueKind) -> Result<Kind, CheckFault>
    ensures exact { result ≡ checked pipeline.now values }
    ensures first { Tells pipeline.now values result }
{
    first_fault(pipeline, values)
}

/// Goes through the operations, with the kind of the elements before each.
fn first_fault(pipeline: &Pipeline, values: ValueKind) -> Result<Kind, CheckFault>
    ensures { result ≡ checked pipeline.now values }
{
    let mut elements = Kind::Entry;
    let mut has_flatmap = false;
    for (place, op) in pipeline.ops.as_slice().iter().enumerate() {
        if is_over(place, has_flatmap, op) {
            return Err(CheckFault::Over { op: place as u8 });
        }
        let Some(next) = kind_behind(op, elements, values) else {
            return Err(CheckFault::Mistyped { op: place as u8 });
        };
        elements = next;
        has_flatmap = has_flatmap_through(has_flatmap, op);
    }
    if !takes(pipeline.end, elements) {
        return Err(CheckFault::Mistyped {
            op: pipeline.ops.len() as u8,
        });
    }
    Ok(elements)
}

/// Whether an operation is past a limit, at a place and behind a flatmap or none.
fn is_over(place: usize, has_flatmap: bool, op: &Op) -> bool
    ensures { result ≡ (nat_le 8 place || ((is_flatmap op.now && has_flatmap) || is_long op.now)) }
{
    place >= MOST_OPERATIONS || (is_flatmap(op) && has_flatmap) || is_long(op)
}

/// Whether there is a flatmap among the operations before or this one.
fn has_flatmap_through(before: bool, op: &Op) -> bool
    ensures { result ≡ (before || is_flatmap op.now) }
{
    before || is_flatmap(op)
}

/// The kind of the elements behind an operation. It is none where the operation's need isn't met.
fn kind_behind(op: &Op, elements: Kind, values: ValueKind) -> Option<Kind>
    ensures { result ≡ op_kind values elements op.now }
{
    match op {
        Op::Filter(test) => only_if(has_kind(test, elements, values, Kind::Flag), elements),
        Op::Map(expr) => expr.kind(elements, values),
        Op::FlatMap(spread) => kind_of_spread(spread, elements, values),
        Op::Distinct => Some(elements),
    }
}

/// The kind of what a flatmap gives.
fn kind_of_spread(spread: &Spread, elements: Kind, values: ValueKind) -> Option<Kind>
    ensures { result ≡ spread_kind elements values spread.now }
{
    match spread {
        Spread::Each(list) => {
            let kind = list.first.kind(elements, values)?;
            only_if(
                all_have_kind(list.rest.as_slice(), elements, values, kind),
                kind,
            )
        }
        Spread::Words(text) => only_if(has_kind(text, elements, values, Kind::Text), Kind::Text),
    }
}

/// Whether each expression has a kind.
fn all_have_kind(exprs: &[Expr], elements: Kind, values: ValueKind, kind: Kind) -> bool
    ensures { result ≡ list_all (has_kind elements values kind) exprs.now }
{
    exprs
        .iter()
        .all(|expr| has_kind(expr, elements, values, kind))
}

/// Whether an expression has a kind.
fn has_kind(expr: &Expr, elements: Kind, values: ValueKind, kind: Kind) -> bool
    ensures { result ≡ has_kind elements values kind expr.now }
{
    match expr.kind(elements, values) {
        None => false,
        Some(found) => is_same(kind, found),
    }
}

/// The kind, where the test says so.
fn only_if(test: bool, kind: Kind) -> Option<Kind>
    ensures { result ≡ Typing.only_if test kind }
{
    if test { Some(kind) } else { None }
}

/// Whether an end takes elements of a kind.
fn takes(end: End, kind: Kind) -> bool
    ensures { result ≡ end_takes end kind }
{
    match end {
        End::Sum => is_same(Kind::Int, kind),
        End::Min | End::Max => is_same(Kind::Int, kind) || is_same(Kind::Text, kind),
        End::Count | End::Collect | End::Each => true,
    }
}

/// Whether an operation is a flatmap.
fn is_flatmap(op: &Op) -> bool
    ensures { result ≡ is_flatmap op.now }
{
    match op {
        Op::FlatMap(_) => true,
        Op::Filter(_) | Op::Map(_) | Op::Distinct => false,
    }
}

/// Whether an operation has a list of more than eight expressions.
fn is_long(op: &Op) -> bool
    ensures { result ≡ is_long op.now }
{
    match op {
        Op::FlatMap(Spread::Each(list)) => list.rest.len() > MOST_FURTHER_EXPRESSIONS,
        Op::FlatMap(Spread::Words(_)) | Op::Filter(_) | Op::Map(_) | Op::Distinct => false,
    }
}
