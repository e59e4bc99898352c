//! The kinds of values, and of the elements that go through a pipeline.

ghost use Rattle.std.specs.Prelude.{◌≡◌, IsTrue, ◌↔◌};
ghost use Rattle.pipeline_expr.specs.Kinds.{kind_of_datum, kind_of_values, same_kind};

use grid_base::Datum;

/// The kind that all values of a cluster have.
#[derive(Clone, Copy, Debug, PartialEq, Eq)]
pub enum ValueKind {
    Int,
    Text,
    Flag,
}

/// The kind of the elements of a list: entries, or values of one kind.
#[derive(Clone, Copy, Debug, PartialEq, Eq)]
pub enum Kind {
    Entry,
    Int,
    Text,
    Flag,
}

/// The kind of a value.
pub(crate) fn kind_of(datum: &Datum) -> Kind
    ensures { result ≡ kind_of_datum datum.now }
{
    match datum {
        Datum::Int(_) => Kind::Int,
        Datum::Text(_) => Kind::Text,
        Datum::Flag(_) => Kind::Flag,
    }
}

/// The kind of values as a kind of elements.
pub(crate) fn of_values(values: ValueKind) -> Kind
    ensures { result ≡ kind_of_values values }
{
    match values {
        ValueKind::Int => Kind::Int,
        ValueKind::Text => Kind::Text,
        ValueKind::Flag => Kind::Flag,
    }
}

/// Whether two kinds are one.
pub(crate) fn is_same(a: Kind, b: Kind) -> bool
    ensures { result ≡ same_kind a b }
{
    match (a, b) {
        (Kind::Entry, Kind::Entry) => true,
        (Kind::Int, Kind::Int) => true,
        (Kind::Text, Kind::Text) => true,
        (Kind::Flag, Kind::Flag) => true,
        _ => false,
    }
}
