//! Equality of values, keys and items.

ghost use Rattle.std.specs.Prelude.{◌≡◌, IsTrue, ◌↔◌};
ghost use Rattle.pipeline_expr.specs.Same.{same_datum};

use crate::alike::Alike;
use grid_base::{Datum, Item, Key};

/// Whether two values are equal, by a test that computes.
pub(crate) fn same_value(a: &Datum, b: &Datum) -> bool
    ensures { result ≡ same_datum a.now b.now }
{
    match (a, b) {
        (Datum::Int(x), Datum::Int(y)) => x == y,
        (Datum::Text(x), Datum::Text(y)) => x == y,
        (Datum::Flag(true), Datum::Flag(true)) => true,
        (Datum::Flag(false), Datum::Flag(false)) => true,
        _ => false,
    }
}

/// Whether two values are equal.
pub(crate) fn is_same_value(a: &Datum, b: &Datum) -> bool
    ensures { IsTrue result ↔ (a.now ≡ b.now) }
{
    same_value(a, b)
}

/// Whether two keys are equal.
fn is_same_key(a: &Key, b: &Key) -> bool
    ensures { IsTrue result ↔ (a.now ≡ b.now) }
{
    a == b
}

impl Alike for Item {
    fn same(&self, other: &Item) -> bool {
        match (self, other) {
            (Item::Entry(a), Item::Entry(b)) => {
                if !is_same_key(&a.key, &b.key) {
                    return false;
                }
                is_same_value(&a.value, &b.value)
            }
            (Item::Datum(a), Item::Datum(b)) => is_same_value(a, b),
            _ => false,
        }
    }
}
