//! Rows: live scripts, each run many times beside what is expected of each run.
//!
//! A line of the list has a row's name, the status of each run, how often it is run, the name of its
//! script, and the words of the program. What may be written stands in the file of the row's name that
//! ends with `whole`; where it is one of several texts, a line `or` stands between them.

use crate::runs::run_once;
use anyhow::{Context, Result};
use grid_base::Text;
use node_workers::NoGate;
use std::alloc::Global;
use std::fs;
use std::rt::Files;
use std::sync::Wait;
use std::thread::Threads;

/// Runs the row of a line, and tells how its runs went.
pub fn told_row<R: Files + AllocGlobal + Threads + Wait + Sync>(
    rt: &R,
    line: &str,
) -> Result<String> {
    let alloc = rt.alloc();
    let mut fields = line.split_whitespace();
    let name = fields.next().context("a row without a name")?;
    let status = fields.next().context("a row without a status")?;
    let status = status.parse::<u8>().context("reading a status")?;
    let times = fields.next().context("a row without a number of runs")?;
    let times = times.parse::<u32>().context("reading a number of runs")?;
    let script = fields.next().context("a row without a script")?;
    let mut words = Vec::new(alloc);
    for word in fields {
        words.push(Text::new(alloc, word.as_bytes())?)?;
    }
    let file = format!(in alloc; "{script}.grid")?;
    let script = fs::read(rt, file.as_str())?;
    let file = format!(in alloc; "{name}.whole")?;
    let wanted = fs::read_to_string(rt, file.as_str())?;
    for number in 1..=times {
        let end = run_once(rt, alloc, words.as_slice(), script.as_slice(), &NoGate)?;
        let ended = end.status.number();
        if ended != status {
            return Ok(format!(in alloc; "{name} ends run {number} with status {ended}")?);
        }
        if !is_wanted(alloc, end.written(), wanted.as_str())? {
            return Ok(format!(in alloc; "{name} differs in run {number}")?);
        }
    }
    Ok(format!(in alloc; "{name} same")?)
}

/// Whether a text is one of those that may be written.
fn is_wanted(alloc: Global, written: &[u8], wanted: &str) -> Result<bool> {
    let mut text = String::new(alloc);
    for line in wanted.lines() {
        if line == "or" {
            if text.as_bytes() == written {
                return Ok(true);
            }
            text = String::new(alloc);
        } else {
            text.push_str(line)?;
            text.push('\n')?;
        }
    }
    Ok(text.as_bytes() == written)
}
