//! The reader of pipelines.

ghost use Rattle.std.specs.Prelude.{◌≡◌, ◌≤◌, ◌-◌, ◌+◌, IfOk, IfErr, List, [], ◌∷◌, ◌++◌, length};
ghost use Rattle.pipeline_parse.specs.Gives.{Gives, Reads};
ghost use Rattle.pipeline_parse.specs.Reading.{word_at};
ghost use Rattle.pipeline_parse.specs.Words.{behind_word, behinds, opening_word, openings, step_word, steps};
ghost use Rattle.pipeline_parse.specs.Parsing.{each_at, expr_at, further_at, op_at, spread_at, steps_at, words_at};

use crate::expressions::read_expr;
use crate::forms::{Behind, Opening, Start, Step};
use crate::halt::{Halt, Unread};
use crate::reading::{read_literal, read_word};
use grid_base::NoMemory;
use pipeline_expr::{End, Expr, Exprs, Op, Ops, Pipeline, Spread};
use sqlite_items::Items;
use std::alloc::Global;

/// Reads what stands behind an expression of a list.
fn read_behind(text: &[u8]) -> Result<(Behind, &[u8]), Unread>
    ensures { Reads result (word_at behind_word behinds text.now) }
{
    read_word(&[Behind::Another, Behind::Close], text)
}

/// Reads the further expressions of a list, behind those that it has. At most `turns` are read,
/// and each takes some of the text.
#[tactic(auto, using(crate::proofs::Depth::further_turn, crate::proofs::Depth::further_none))]
fn read_further<'a>(
    alloc: Global,
    list: Items<Expr>,
    text: &'a [u8],
    depth: usize,
    turns: usize,
) -> Result<(Items<Expr>, &'a [u8]), Halt>
    ensures { Gives result (further_at (expr_at depth) turns list text.now) }
{
    if turns == 0 {
        return Err(Halt::Left(text.len()));
    }
    let (behind, rest) = read_behind(text)?;
    match behind {
        Behind::Close => Ok((list, rest)),
        Behind::Another => {
            let (expr, rest) = read_expr(alloc, rest, depth)?;
            let list = with_expr(list, expr)?;
            read_further(alloc, list, rest, depth, turns - 1)
        }
    }
}

/// A list with one more expression.
fn with_expr(list: Items<Expr>, expr: Expr) -> Result<Items<Expr>, NoMemory>
    ensures { IfOk result (λ made. made ≡ list ++ expr ∷ []) }
{
    let mut list = list;
    list.push(expr)?;
    Ok(list)
}

/// Reads the expressions of a list, behind its bracket.
#[tactic(auto, unfolding(crate::specs::Parsing::each_at))]
fn read_each<'a>(
    alloc: Global,
    text: &'a [u8],
    depth: usize,
    turns: usize,
) -> Result<(Spread, &'a [u8]), Halt>
    ensures { Gives result (each_at (expr_at depth) turns text.now) }
{
    let (first, rest) = read_expr(alloc, text, depth)?;
    let (more, rest) = read_further(alloc, Items::new(alloc), rest, depth, turns)?;
    Ok((Spread::Each(Exprs { first, rest: more }), rest))
}

/// Reads the text whose words are taken, behind the parenthesis.
#[tactic(auto, unfolding(crate::specs::Parsing::words_at))]
fn read_words<'a>(
    alloc: Global,
    text: &'a [u8],
    depth: usize,
    turns: usize,
) -> Result<(Spread, &'a [u8]), Halt>
    ensures { Gives result (words_at (expr_at depth) turns text.now) }
{
    let (expr, rest) = read_expr(alloc, text, depth)?;
    let rest = read_literal(")", rest)?;
    Ok((Spread::Words(expr), rest))
}

/// Reads with what a flatmap's argument begins.
fn read_opening(text: &[u8]) -> Result<(Opening, &[u8]), Unread>
    ensures { Reads result (word_at opening_word openings text.now) }
{
    read_word(&[Opening::List, Opening::Words], text)
}

/// Reads what a flatmap gives.
#[tactic(auto, unfolding(crate::specs::Parsing::spread_at))]
fn read_spread<'a>(
    alloc: Global,
    text: &'a [u8],
    depth: usize,
    turns: usize,
) -> Result<(Spread, &'a [u8]), Halt>
    ensures { Gives result (spread_at (expr_at depth) turns text.now) }
{
    let (opening, rest) = read_opening(text)?;
    match opening {
        Opening::List => read_each(alloc, rest, depth, turns),
        Opening::Words => read_words(alloc, rest, depth, turns),
    }
}

/// Reads an operation behind its word.
#[tactic(auto, unfolding(crate::specs::Parsing::op_at))]
fn read_op<'a>(
    alloc: Global,
    start: Start,
    text: &'a [u8],
    depth: usize,
    turns: usize,
) -> Result<(Op, &'a [u8]), Halt>
    ensures { Gives result (op_at (expr_at depth) turns start text.now) }
{
    match start {
        Start::Filter => {
            let (expr, rest) = read_expr(alloc, text, depth)?;
            Ok((Op::Filter(expr), rest))
        }
        Start::Map => {
            let (expr, rest) = read_expr(alloc, text, depth)?;
            Ok((Op::Map(expr), rest))
        }
        Start::FlatMap => {
            let (spread, rest) = read_spread(alloc, text, depth, turns)?;
            Ok((Op::FlatMap(spread), rest))
        }
        Start::Distinct => Ok((Op::Distinct, text)),
    }
}

/// Reads how an operation or an end begins.
fn read_step(text: &[u8]) -> Result<(Step, &[u8]), Unread>
    ensures { Reads result (word_at step_word steps text.now) }
{
    read_word(
        &[
            Step::Op(Start::Filter),
            Step::Op(Start::Map),
            Step::Op(Start::FlatMap),
            Step::Op(Start::Distinct),
            Step::Last(End::Count),
            Step::Last(End::Sum),
            Step::Last(End::Min),
            Step::Last(End::Max),
            Step::Last(End::Collect),
            Step::Last(End::Each),
        ],
        text,
    )
}

/// Reads the further operations and the end of a pipeline, behind the operations that it has. At
/// most `turns` are read, and each takes some of the text.
#[tactic(auto, using(crate::proofs::Depth::steps_turn, crate::proofs::Depth::steps_none))]
pub(crate) fn read_steps<'a>(
    alloc: Global,
    ops: Ops,
    text: &'a [u8],
    most: usize,
    turns: usize,
) -> Result<(Pipeline, &'a [u8]), Halt>
    ensures { Gives result (steps_at (op_at (expr_at most) most) turns ops text.now) }
{
    if turns == 0 {
        return Err(Halt::Left(text.len()));
    }
    let (step, rest) = read_step(text)?;
    match step {
        Step::Last(end) => Ok((Pipeline { ops, end }, rest)),
        Step::Op(start) => {
            let (op, rest) = read_op(alloc, start, rest, most, most)?;
            let rest = read_literal(" | ", rest)?;
            let ops = with_op(ops, op)?;
            read_steps(alloc, ops, rest, most, turns - 1)
        }
    }
}

/// Operations with one more.
fn with_op(ops: Ops, op: Op) -> Result<Ops, NoMemory>
    ensures { IfOk result (λ made. made ≡ ops ++ op ∷ []) }
{
    let mut ops = ops;
    ops.push(op)?;
    Ok(ops)
}
