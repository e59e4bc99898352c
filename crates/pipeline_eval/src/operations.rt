//! What operations make of whole lists.

ghost use Rattle.std.specs.Prelude.{◌≡◌, ◌++◌, ◌∷◌, IfOk, OnOk, map};
ghost use Rattle.std.specs.List.{filter, flat_map};
ghost use Rattle.pipeline_eval.specs.Evaluation.{value_of};
ghost use Rattle.pipeline_eval.specs.Pipes.{op_items, ops_items, spread_items};
ghost use Rattle.pipeline_eval.specs.Values.{is_on};

use crate::distinct::distinct;
use crate::evaluation::eval;
use crate::values::{bytes, is_on};
use crate::words::push_words;
use grid_base::{Item, NoMemory};
use pipeline_expr::{Expr, Exprs, Op, Spread};
use std::alloc::Global;

/// What several operations in turn make of a list, each applied to the whole of it. The only
/// failure is that memory runs out; the list is gone then.
pub fn apply_all(alloc: Global, ops: &[Op], items: Vec<Item>) -> Result<Vec<Item>, NoMemory>
    ensures { IfOk result (λ made. made.items ≡ ops_items ops.now items.items) }
{
    let mut made = items;
    for op in ops {
        made = apply(alloc, op, made)?;
    }
    Ok(made)
}

/// What an operation makes of a whole list.
fn apply(alloc: Global, op: &Op, items: Vec<Item>) -> Result<Vec<Item>, NoMemory>
    ensures { IfOk result (λ made. made.items ≡ op_items op.now items.items) }
{
    match op {
        Op::Filter(test) => filtered(alloc, test, items),
        Op::Map(expr) => mapped(alloc, expr, &items),
        Op::FlatMap(spread) => spread_out(alloc, spread, &items),
        Op::Distinct => distinct(alloc, items),
    }
}

/// The elements at which a test is true.
fn filtered(alloc: Global, test: &Expr, items: Vec<Item>) -> Result<Vec<Item>, NoMemory>
    ensures { IfOk result (λ kept. kept.items ≡ filter (λ x. is_on (value_of test.now x)) items.items) }
{
    let mut kept = Vec::new(alloc);
    for item in items {
        let found = eval(alloc, test, &item)?;
        if is_on(&found) {
            kept.push(item)?;
        }
    }
    Ok(kept)
}

/// The values of an expression at each element.
fn mapped(alloc: Global, expr: &Expr, items: &[Item]) -> Result<Vec<Item>, NoMemory>
    ensures { IfOk result (λ made. made.items ≡ map (λ x. Item.Datum (value_of expr.now x)) items.now) }
{
    let mut made = Vec::with_capacity(alloc, items.len())?;
    for item in items {
        made.push(Item::Datum(eval(alloc, expr, item)?))?;
    }
    Ok(made)
}

/// What a flatmap makes of a list.
fn spread_out(alloc: Global, spread: &Spread, items: &[Item]) -> Result<Vec<Item>, NoMemory>
    ensures { IfOk result (λ made. made.items ≡ flat_map (spread_items spread.now) items.now) }
{
    let mut made = Vec::new(alloc);
    for item in items {
        push_spread(alloc, &mut made, spread, item)?;
    }
    Ok(made)
}

/// Puts behind a list what a flatmap replaces an element by.
fn push_spread(
    alloc: Global,
    out: &mut Vec<Item>,
    spread: &Spread,
    item: &Item,
) -> Result<(), NoMemory>
    ensures { OnOk result (out.new.items ≡ out.old.items ++ spread_items spread.now item.now) }
{
    match spread {
        Spread::Each(list) => push_each(alloc, out, list, item),
        Spread::Words(expr) => {
            let found = eval(alloc, expr, item)?;
            push_words(alloc, out, bytes(&found))
        }
    }
}

/// Puts behind a list the values of several expressions at an element.
fn push_each(alloc: Global, out: &mut Vec<Item>, exprs: &Exprs, item: &Item) -> Result<(), NoMemory>
    ensures { OnOk result (out.new.items ≡ out.old.items ++ map (λ e. Item.Datum (value_of e item.now)) (exprs.now.first ∷ exprs.now.rest)) }
{
    out.push(Item::Datum(eval(alloc, &exprs.first, item)?))?;
    for expr in exprs.rest.as_slice() {
        out.push(Item::Datum(eval(alloc, expr, item)?))?;
    }
    Ok(())
}
