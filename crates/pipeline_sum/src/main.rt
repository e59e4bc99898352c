//! Reads a whole number from each line of standard input, as the value of an entry, and prints what
//! `filter (0 < value) | map value | distinct | sum` answers over all entries. The measure of
//! evaluation runs it.
#![tactic(auto)]

use anyhow::Result;
use grid_base::{Datum, Entries, Entry, Key, Sequence};
use pipeline_eval::run_plain_pipeline;
use pipeline_expr::{End, Expr, Op, Ops, Pipeline};
use sqlite_items::{Boxed, Items};
use std::alloc::Global;

fn main(rt: HostRuntime) -> Result<()> {
    let alloc = rt.alloc();
    let mut entries: Entries = Sequence::new(alloc);
    for line in rt.lines(alloc) {
        let entry = entry(alloc, entries.len(), line?.as_str())?;
        entries.push(entry)?;
    }
    let answer = run_plain_pipeline(alloc, &positives(alloc)?, &entries)?;
    println!(rt; "{answer:?}")?;
    Ok(())
}

/// The entry of the line at a place: its key is `k` and the place.
fn entry(alloc: Global, place: usize, line: &str) -> Result<Entry> {
    let name = format!(in alloc; "k{place}")?;
    let key = Key::new(name.as_bytes())?;
    let value = Datum::Int(line.parse::<i64>()?);
    Ok(Entry { key, value })
}

/// `filter (0 < value) | map value | distinct | sum`.
fn positives(alloc: Global) -> Result<Pipeline> {
    let zero = Boxed::new(alloc, Expr::Lit(Datum::Int(0)))?;
    let value = Boxed::new(alloc, Expr::Value)?;
    let mut ops: Ops = Items::new(alloc);
    ops.push(Op::Filter(Expr::Less(zero, value)))?;
    ops.push(Op::Map(Expr::Value))?;
    ops.push(Op::Distinct)?;
    Ok(Pipeline { ops, end: End::Sum })
}
