//! What each form of expression needs of its parts, and the kind that it then has.

ghost use Rattle.std.specs.Prelude.{◌≡◌};
ghost use Rattle.pipeline_expr.specs.Kinds as kinds;

use crate::kind::{Kind, is_same};

/// A key or a value is had of an entry alone.
pub(crate) fn part_kind(elements: Kind, part: Kind) -> Option<Kind>
    ensures { result ≡ kinds.part_kind elements part }
{
    match elements {
        Kind::Entry => Some(part),
        _ => None,
    }
}

/// The element itself is a value where it is no entry.
pub(crate) fn it_kind(elements: Kind) -> Option<Kind>
    ensures { result ≡ kinds.it_kind elements }
{
    match elements {
        Kind::Entry => None,
        Kind::Int => Some(Kind::Int),
        Kind::Text => Some(Kind::Text),
        Kind::Flag => Some(Kind::Flag),
    }
}

/// A sum, a difference or a product needs two ints.
pub(crate) fn arithmetic_kind(a: Kind, b: Kind) -> Option<Kind>
    ensures { result ≡ kinds.arithmetic_kind a b }
{
    match (a, b) {
        (Kind::Int, Kind::Int) => Some(Kind::Int),
        _ => None,
    }
}

/// An equation needs two of one kind.
pub(crate) fn equation_kind(a: Kind, b: Kind) -> Option<Kind>
    ensures { result ≡ kinds.equation_kind a b }
{
    if is_same(a, b) {
        Some(Kind::Flag)
    } else {
        None
    }
}

/// An order needs two ints or two texts.
pub(crate) fn order_kind(a: Kind, b: Kind) -> Option<Kind>
    ensures { result ≡ kinds.order_kind a b }
{
    match (a, b) {
        (Kind::Int, Kind::Int) => Some(Kind::Flag),
        (Kind::Text, Kind::Text) => Some(Kind::Flag),
        _ => None,
    }
}

/// And, or: two flags.
pub(crate) fn logic_kind(a: Kind, b: Kind) -> Option<Kind>
    ensures { result ≡ kinds.logic_kind a b }
{
    match (a, b) {
        (Kind::Flag, Kind::Flag) => Some(Kind::Flag),
        _ => None,
    }
}

/// A negation needs a flag.
pub(crate) fn negation_kind(a: Kind) -> Option<Kind>
    ensures { result ≡ kinds.negation_kind a }
{
    match a {
        Kind::Flag => Some(Kind::Flag),
        _ => None,
    }
}

/// A length needs a text.
pub(crate) fn length_kind(a: Kind) -> Option<Kind>
    ensures { result ≡ kinds.length_kind a }
{
    match a {
        Kind::Text => Some(Kind::Int),
        _ => None,
    }
}

/// A test of a prefix needs two texts.
pub(crate) fn prefix_kind(a: Kind, b: Kind) -> Option<Kind>
    ensures { result ≡ kinds.prefix_kind a b }
{
    match (a, b) {
        (Kind::Text, Kind::Text) => Some(Kind::Flag),
        _ => None,
    }
}
