//! The reader of expressions, one production a function.

ghost use Rattle.std.specs.Prelude.{◌≡◌, ◌-◌, IfOk};
ghost use Rattle.pipeline_parse.specs.Gives.{Gives, Reads};
ghost use Rattle.pipeline_parse.specs.Reading.{word_at};
ghost use Rattle.pipeline_parse.specs.Words.{between_word, form_word, forms, signs};
ghost use Rattle.pipeline_parse.specs.Parsing.{binary_at, expr_at, form_at, joined, layer_at, length_at, not_at, starts_at};

use crate::forms::{Between, Form};
use crate::halt::{Halt, Unread};
use crate::reading::{begins_plain, read_literal, read_plain, read_word};
use grid_base::{Datum, NoMemory};
use pipeline_expr::Expr;
use sqlite_items::Boxed;
use std::alloc::Global;

/// Reads an expression with at most so many levels.
#[cycle(expr)]
#[tactic(auto, using(crate::proofs::Depth::expr_level, crate::proofs::Depth::expr_none))]
pub(crate) fn read_expr<'a>(
    alloc: Global,
    text: &'a [u8],
    depth: usize,
) -> Result<(Expr, &'a [u8]), Halt>
    ensures { Gives result (expr_at depth text.now) }
{
    if depth == 0 {
        return Err(Halt::Left(text.len()));
    }
    read_level(alloc, text, depth - 1)
}

/// Reads an expression whose parts have at most so many levels.
#[cycle(expr)]
#[tactic(auto, unfolding(crate::specs::Parsing::layer_at))]
fn read_level<'a>(alloc: Global, text: &'a [u8], depth: usize) -> Result<(Expr, &'a [u8]), Halt>
    ensures { Gives result (layer_at (expr_at depth) text.now) }
{
    if begins_plain(text) {
        let (datum, rest) = read_plain(alloc, text)?;
        return Ok((Expr::Lit(datum), rest));
    }
    let (form, rest) = read_form_word(text)?;
    read_form(alloc, form, rest, depth)
}

/// Reads the word with which an expression begins.
fn read_form_word(text: &[u8]) -> Result<(Form, &[u8]), Unread>
    ensures { Reads result (word_at form_word forms text.now) }
{
    read_word(
        &[
            Form::Key,
            Form::Value,
            Form::It,
            Form::Flag(true),
            Form::Flag(false),
            Form::Open,
            Form::Not,
            Form::Length,
            Form::Starts,
        ],
        text,
    )
}

/// Reads the sign between two expressions.
fn read_between(text: &[u8]) -> Result<(Between, &[u8]), Unread>
    ensures { Reads result (word_at between_word signs text.now) }
{
    read_word(
        &[
            Between::Add,
            Between::Sub,
            Between::Mul,
            Between::Same,
            Between::Less,
            Between::And,
            Between::Or,
        ],
        text,
    )
}

/// Reads an expression behind its first word.
#[cycle(expr)]
#[tactic(auto, unfolding(crate::specs::Parsing::form_at))]
fn read_form<'a>(
    alloc: Global,
    form: Form,
    text: &'a [u8],
    depth: usize,
) -> Result<(Expr, &'a [u8]), Halt>
    ensures { Gives result (form_at (expr_at depth) form text.now) }
{
    match form {
        Form::Key => Ok((Expr::Key, text)),
        Form::Value => Ok((Expr::Value, text)),
        Form::It => Ok((Expr::It, text)),
        Form::Flag(flag) => Ok((Expr::Lit(Datum::Flag(flag)), text)),
        Form::Open => read_binary(alloc, text, depth),
        Form::Not => read_not(alloc, text, depth),
        Form::Length => read_length(alloc, text, depth),
        Form::Starts => read_starts(alloc, text, depth),
    }
}

/// Reads two expressions and what stands between them, behind the parenthesis.
#[cycle(expr)]
#[tactic(auto, unfolding(crate::specs::Parsing::binary_at))]
fn read_binary<'a>(alloc: Global, text: &'a [u8], depth: usize) -> Result<(Expr, &'a [u8]), Halt>
    ensures { Gives result (binary_at (expr_at depth) text.now) }
{
    let (a, rest) = read_expr(alloc, text, depth)?;
    let (sign, rest) = read_between(rest)?;
    let (b, rest) = read_expr(alloc, rest, depth)?;
    let rest = read_literal(")", rest)?;
    let made = join(alloc, sign, a, b)?;
    Ok((made, rest))
}

/// Two expressions with an operation between them.
fn join(alloc: Global, sign: Between, a: Expr, b: Expr) -> Result<Expr, NoMemory>
    ensures { IfOk result (λ made. made ≡ joined sign a b) }
{
    let a = Boxed::new(alloc, a)?;
    let b = Boxed::new(alloc, b)?;
    match sign {
        Between::Add => Ok(Expr::Add(a, b)),
        Between::Sub => Ok(Expr::Sub(a, b)),
        Between::Mul => Ok(Expr::Mul(a, b)),
        Between::Same => Ok(Expr::Same(a, b)),
        Between::Less => Ok(Expr::Less(a, b)),
        Between::And => Ok(Expr::And(a, b)),
        Between::Or => Ok(Expr::Or(a, b)),
    }
}

/// An expression in memory of its own.
fn boxed(alloc: Global, expr: Expr) -> Result<Boxed<Expr>, NoMemory>
    ensures { IfOk result (λ made. made ≡ expr) }
{
    let made = Boxed::new(alloc, expr)?;
    Ok(made)
}

/// Reads what `not` is of, behind the parenthesis.
#[cycle(expr)]
#[tactic(auto, unfolding(crate::specs::Parsing::not_at))]
fn read_not<'a>(alloc: Global, text: &'a [u8], depth: usize) -> Result<(Expr, &'a [u8]), Halt>
    ensures { Gives result (not_at (expr_at depth) text.now) }
{
    let (a, rest) = read_expr(alloc, text, depth)?;
    let rest = read_literal(")", rest)?;
    let a = boxed(alloc, a)?;
    Ok((Expr::Not(a), rest))
}

/// Reads what `length` is of, behind the parenthesis.
#[cycle(expr)]
#[tactic(auto, unfolding(crate::specs::Parsing::length_at))]
fn read_length<'a>(alloc: Global, text: &'a [u8], depth: usize) -> Result<(Expr, &'a [u8]), Halt>
    ensures { Gives result (length_at (expr_at depth) text.now) }
{
    let (a, rest) = read_expr(alloc, text, depth)?;
    let rest = read_literal(")", rest)?;
    let a = boxed(alloc, a)?;
    Ok((Expr::Length(a), rest))
}

/// Reads the text and the prefix of `starts`, behind the parenthesis.
#[cycle(expr)]
#[tactic(auto, unfolding(crate::specs::Parsing::starts_at))]
fn read_starts<'a>(alloc: Global, text: &'a [u8], depth: usize) -> Result<(Expr, &'a [u8]), Halt>
    ensures { Gives result (starts_at (expr_at depth) text.now) }
{
    let (a, rest) = read_expr(alloc, text, depth)?;
    let rest = read_literal(", ", rest)?;
    let (b, rest) = read_expr(alloc, rest, depth)?;
    let rest = read_literal(")", rest)?;
    let a = boxed(alloc, a)?;
    let b = boxed(alloc, b)?;
    Ok((Expr::Starts(a, b), rest))
}
