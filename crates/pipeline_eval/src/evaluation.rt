//! The value of an expression at an element.

ghost use Rattle.std.specs.Prelude.{◌≡◌, IfOk, pos, ◌+ℤ◌, ◌-ℤ◌, ◌*ℤ◌, length};
ghost use Rattle.pipeline_eval.specs.Values.{bytes_of, number_of, wrapped};
ghost use Rattle.pipeline_eval.specs.Evaluation.{key_of, value_of};

use crate::values::{added, bytes, compared, datum, is_on, number, text};
use grid_base::{Datum, Item, NoMemory};
use pipeline_expr::Expr;
use std::alloc::Global;

/// The value of an expression at an element: at an entry, or at a value alone. Sums, differences
/// and products wrap modulo 2^64, texts compare by their bytes, and both sides of `and` and `or`
/// are evaluated. Where a part isn't of the kind that is needed, it counts as 0, as the empty text
/// or as `false`. The only failure is that memory runs out.
pub fn eval(alloc: Global, expr: &Expr, item: &Item) -> Result<Datum, NoMemory>
    ensures { IfOk result (λ found. found ≡ value_of expr.now item.now) }
{
    match expr {
        Expr::Key => key_text(alloc, item),
        Expr::Value => datum(item).copy(alloc),
        Expr::It => datum(item).copy(alloc),
        Expr::Lit(literal) => literal.copy(alloc),
        Expr::Add(a, b) => {
            let a = eval(alloc, a.get(), item)?;
            let b = eval(alloc, b.get(), item)?;
            Ok(Datum::Int(sum(&a, &b)))
        }
        Expr::Sub(a, b) => {
            let a = eval(alloc, a.get(), item)?;
            let b = eval(alloc, b.get(), item)?;
            Ok(Datum::Int(difference(&a, &b)))
        }
        Expr::Mul(a, b) => {
            let a = eval(alloc, a.get(), item)?;
            let b = eval(alloc, b.get(), item)?;
            Ok(Datum::Int(product(&a, &b)))
        }
        Expr::Same(a, b) => {
            let a = eval(alloc, a.get(), item)?;
            let b = eval(alloc, b.get(), item)?;
            Ok(Datum::Flag(a == b))
        }
        Expr::Less(a, b) => {
            let a = eval(alloc, a.get(), item)?;
            let b = eval(alloc, b.get(), item)?;
            Ok(Datum::Flag(compared(&a, &b).is_lt()))
        }
        Expr::And(a, b) => {
            let a = eval(alloc, a.get(), item)?;
            let b = eval(alloc, b.get(), item)?;
            Ok(Datum::Flag(is_on(&a) && is_on(&b)))
        }
        Expr::Or(a, b) => {
            let a = eval(alloc, a.get(), item)?;
            let b = eval(alloc, b.get(), item)?;
            Ok(Datum::Flag(is_on(&a) || is_on(&b)))
        }
        Expr::Not(a) => {
            let a = eval(alloc, a.get(), item)?;
            Ok(Datum::Flag(!is_on(&a)))
        }
        Expr::Length(a) => {
            let a = eval(alloc, a.get(), item)?;
            Ok(Datum::Int(length(&a)))
        }
        Expr::Starts(a, b) => {
            let a = eval(alloc, a.get(), item)?;
            let b = eval(alloc, b.get(), item)?;
            Ok(Datum::Flag(bytes(&a).starts_with(bytes(&b))))
        }
    }
}

/// The sum of two ints, modulo 2^64.
fn sum(a: &Datum, b: &Datum) -> i64
    ensures { result ≡ wrapped (number_of a.now +ℤ number_of b.now) }
{
    added(number(a), b)
}

/// The difference of two ints, modulo 2^64.
fn difference(a: &Datum, b: &Datum) -> i64
    ensures { result ≡ wrapped (number_of a.now -ℤ number_of b.now) }
{
    number(a).wrapping_sub(number(b))
}

/// The product of two ints, modulo 2^64.
fn product(a: &Datum, b: &Datum) -> i64
    ensures { result ≡ wrapped (number_of a.now *ℤ number_of b.now) }
{
    number(a).wrapping_mul(number(b))
}

/// The key of an entry as a text.
#[tactic(auto, using(crate::proofs::TextLemmas::key_is_text))]
fn key_text(alloc: Global, item: &Item) -> Result<Datum, NoMemory>
    ensures { IfOk result (λ found. found ≡ Datum.Text (key_of item.now)) }
{
    match item {
        Item::Entry(entry) => Ok(Datum::Text(text(alloc, entry.key.bytes())?)),
        Item::Datum(_) => Ok(Datum::Text(text(alloc, &[])?)),
    }
}

/// The number of bytes of a text.
fn length(value: &Datum) -> i64
    ensures { result ≡ pos (length (bytes_of value.now)) }
{
    bytes(value).len() as i64
}
