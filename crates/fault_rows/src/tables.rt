//! Tables: scripts that are run many times, each time with another fault.
//!
//! A line of the list has a table's name, its kind, the name of its script, and the words of the
//! program:
//!
//! - `reads`: one read fails after the other;
//! - `writes`: one write fails after the other;
//! - `cuts`: the script is cut off at each byte;
//! - `long`: the script goes on past the length that is read.

use crate::cuts::{first_cut, first_length};
use crate::faults::{first_read, first_write};
use anyhow::{Context, Result, bail};
use grid_base::Text;
use std::alloc::Global;
use std::fs;
use std::rt::Files;
use std::sync::Wait;
use std::thread::Threads;

/// Runs the table of a line, and tells how it went.
pub fn told_table<R: Files + AllocGlobal + Threads + Wait + Sync>(
    rt: &R,
    line: &str,
) -> Result<String> {
    let alloc = rt.alloc();
    let mut fields = line.split_whitespace();
    let name = fields.next().context("a table without a name")?;
    let kind = fields.next().context("a table without a kind")?;
    let script = fields.next().context("a table without a script")?;
    let mut words = Vec::new(alloc);
    for word in fields {
        words.push(Text::new(alloc, word.as_bytes())?)?;
    }
    let file = format!(in alloc; "{script}.grid")?;
    let script = fs::read(rt, file.as_str())?;
    Ok(
        match first_other(rt, alloc, kind, words.as_slice(), script.as_slice())? {
            None => format!(in alloc; "{name} same")?,
            Some(number) => format!(in alloc; "{name} differs at {number}")?,
        },
    )
}

/// The number of the first case that isn't as it should be.
fn first_other<R: Threads + Wait + Sync>(
    rt: &R,
    alloc: Global,
    kind: &str,
    words: &[Text],
    script: &[u8],
) -> Result<Option<u32>> {
    match kind {
        "reads" => Ok(first_read(rt, alloc, words, script)?),
        "writes" => Ok(first_write(rt, alloc, words, script)?),
        "cuts" => Ok(first_cut(rt, alloc, words, script)?),
        "long" => Ok(first_length(rt, alloc, words, script)?),
        _ => bail!("a table of no known kind"),
    }
}
