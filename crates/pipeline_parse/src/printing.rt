//! The one text of each pipeline.

ghost use Rattle.std.specs.Prelude.{◌≡◌, ◌++◌, ◌∷◌, [], true, codes, IfOk, OnOk};
ghost use Rattle.std.specs.List.{list_all};
ghost use Rattle.pipeline_expr.specs.declared.pipeline.Pipeline.{Pipeline};
ghost use Rattle.pipeline_parse.specs.Grammar.{expr_fits, expr_text, fits, further_text, op_fits, op_text, ops_text, spread_fits, spread_text, text_of};

use crate::forms::end_word;
use crate::writing::add_datum;
use grid_base::{Bytes, NoMemory};
use pipeline_expr::{Expr, Exprs, Op, Pipeline, Spread};
use std::alloc::Global;

/// The text of a pipeline, which is no other pipeline's. The only failure is that memory runs out.
pub fn print_pipeline(alloc: Global, pipeline: &Pipeline) -> Result<Bytes, NoMemory>
    ensures text { IfOk result (λ out. out.list ≡ text_of pipeline.now) }
    ensures keeps { IfOk result (λ _. fits pipeline.now ≡ true) }
    ensures alone { IfOk result (λ _. (other : Pipeline) → fits other ≡ true → text_of other ≡ text_of pipeline.now → other ≡ pipeline.now) }
{
    let mut out = Bytes::new(alloc);
    for op in pipeline.ops.as_slice() {
        add_op(&mut out, op)?;
        out.extend(b" | ")?;
    }
    out.extend(end_word(pipeline.end).as_bytes())?;
    Ok(out)
}

/// Writes an operation behind some bytes.
fn add_op(out: &mut Bytes, op: &Op) -> Result<(), NoMemory>
    ensures text { OnOk result (out.new.list ≡ out.old.list ++ op_text op.now) }
    ensures keeps { OnOk result (op_fits op.now ≡ true) }
{
    match op {
        Op::Filter(expr) => {
            out.extend(b"filter ")?;
            add_expr(out, expr)
        }
        Op::Map(expr) => {
            out.extend(b"map ")?;
            add_expr(out, expr)
        }
        Op::FlatMap(spread) => {
            out.extend(b"flatmap ")?;
            add_spread(out, spread)
        }
        Op::Distinct => out.extend(b"distinct"),
    }
}

/// Writes what a flatmap gives behind some bytes.
fn add_spread(out: &mut Bytes, spread: &Spread) -> Result<(), NoMemory>
    ensures text { OnOk result (out.new.list ≡ out.old.list ++ spread_text spread.now) }
    ensures keeps { OnOk result (spread_fits spread.now ≡ true) }
{
    match spread {
        Spread::Each(list) => {
            out.push(b'[')?;
            add_expr(out, &list.first)?;
            add_further(out, list.rest.as_slice())
        }
        Spread::Words(text) => {
            out.extend(b"words(")?;
            add_expr(out, text)?;
            out.push(b')')
        }
    }
}

/// Writes the further expressions of a list, and its end.
fn add_further(out: &mut Bytes, list: &[Expr]) -> Result<(), NoMemory>
    ensures text { OnOk result (out.new.list ≡ out.old.list ++ further_text list.now) }
    ensures keeps { OnOk result (list_all expr_fits list.now ≡ true) }
{
    for expr in list {
        out.extend(b", ")?;
        add_expr(out, expr)?;
    }
    out.push(b']')?;
    Ok(())
}

/// Writes two expressions and what stands between them, in parentheses.
macro_rules! add_between {
    ($out:expr, $a:expr, $sign:expr, $b:expr) => {{
        $out.push(b'(')?;
        add_expr($out, $a.get())?;
        $out.extend($sign)?;
        add_expr($out, $b.get())?;
        $out.push(b')')
    }};
}

/// Writes an expression behind some bytes.
fn add_expr(out: &mut Bytes, expr: &Expr) -> Result<(), NoMemory>
    ensures text { OnOk result (out.new.list ≡ out.old.list ++ expr_text expr.now) }
    ensures keeps { OnOk result (expr_fits expr.now ≡ true) }
{
    match expr {
        Expr::Key => out.extend(b"key"),
        Expr::Value => out.extend(b"value"),
        Expr::It => out.extend(b"it"),
        Expr::Lit(datum) => add_datum(out, datum),
        Expr::Add(a, b) => add_between!(out, a, b" + ", b),
        Expr::Sub(a, b) => add_between!(out, a, b" - ", b),
        Expr::Mul(a, b) => add_between!(out, a, b" * ", b),
        Expr::Same(a, b) => add_between!(out, a, b" = ", b),
        Expr::Less(a, b) => add_between!(out, a, b" < ", b),
        Expr::And(a, b) => add_between!(out, a, b" and ", b),
        Expr::Or(a, b) => add_between!(out, a, b" or ", b),
        Expr::Not(a) => {
            out.extend(b"not(")?;
            add_expr(out, a.get())?;
            out.push(b')')
        }
        Expr::Length(a) => {
            out.extend(b"length(")?;
            add_expr(out, a.get())?;
            out.push(b')')
        }
        Expr::Starts(a, b) => {
            out.extend(b"starts(")?;
            add_expr(out, a.get())?;
            out.extend(b", ")?;
            add_expr(out, b.get())?;
            out.push(b')')
        }
    }
}
