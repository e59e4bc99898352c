//! What operators look at in values.

ghost use Rattle.std.specs.Prelude.{◌≡◌, ◌+ℤ◌, true, IfOk};
ghost use Rattle.grid_base.specs.Text.{is_text};
ghost use Rattle.pipeline_eval.specs.Evaluation.{datum_of};
ghost use Rattle.pipeline_eval.specs.Values.{bytes_of, datum_cmp, is_on, number_of, wrapped};

use grid_base::{Datum, Item, NoMemory, Text};
use std::alloc::Global;
use std::cmp::Ordering;

/// The number that a value is; 0 where it is none.
pub(crate) fn number(value: &Datum) -> i64
    ensures { result ≡ number_of value.now }
{
    match value {
        Datum::Int(number) => *number,
        _ => 0,
    }
}

/// A number and the number that a value is, added modulo 2^64.
pub(crate) fn added(sum: i64, value: &Datum) -> i64
    ensures { result ≡ wrapped (sum +ℤ number_of value.now) }
{
    sum.wrapping_add(number(value))
}

/// The bytes of the text that a value is; none where it is no text.
pub(crate) fn bytes(value: &Datum) -> &[u8]
    ensures bytes { result.now ≡ bytes_of value.now }
    ensures valid { is_text (bytes_of value.now) ≡ true }
{
    match value {
        Datum::Text(text) => text.bytes(),
        _ => &[],
    }
}

/// Whether a value is the flag `true`.
pub(crate) fn is_on(value: &Datum) -> bool
    ensures { result ≡ is_on value.now }
{
    match value {
        Datum::Flag(flag) => *flag,
        _ => false,
    }
}

/// How values compare: ints by number, texts by their bytes with a proper prefix first, `false`
/// before `true`; of two kinds, ints come first and flags last. It takes no memory.
pub fn compared(a: &Datum, b: &Datum) -> Ordering
    ensures { result ≡ datum_cmp a.now b.now }
{
    a.cmp(b)
}

/// The value of an entry, or the value that an element is.
pub(crate) fn datum(item: &Item) -> &Datum
    ensures { result.now ≡ datum_of item.now }
{
    match item {
        Item::Entry(entry) => &entry.value,
        Item::Datum(datum) => datum,
    }
}

/// The text of bytes that keep the limits of a text. The only failure is that memory runs out.
pub(crate) fn text(alloc: Global, bytes: &[u8]) -> Result<Text, NoMemory>
    requires { is_text bytes.now ≡ true }
    ensures { IfOk result (λ text. text ≡ bytes.now) }
{
    match Text::new(alloc, bytes) {
        Ok(text) => Ok(text),
        Err(_) => Err(NoMemory),
    }
}
