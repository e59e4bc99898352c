//! Rows: single runs, each beside what is expected of it.
//!
//! A line of the list has a row's name, its kind, the status of the run, the number of its events or
//! `-`, the name of its script or `-`, and the words of the program. What is expected stands in the
//! file of the row's name that ends with its kind:
//!
//! - `whole`: all that is written;
//! - `lines`: lines that are written in this order, with others between them;
//! - `only`: the lines that are written with such second words, and no further ones.

use crate::compare::{first_difference, first_further, first_missing};
use crate::runs::run;
use anyhow::{Context, Result};
use grid_base::Text;
use std::alloc::Global;
use std::fs;
use std::rt::Files;

/// Runs the row of a line, and tells how it went.
pub fn told_row<R: Files + AllocGlobal>(rt: &R, line: &str) -> Result<String> {
    let alloc = rt.alloc();
    let mut fields = line.split_whitespace();
    let name = fields.next().context("a row without a name")?;
    let kind = fields.next().context("a row without a kind")?;
    let status = fields.next().context("a row without a status")?;
    let status = status.parse::<u8>().context("reading a status")?;
    let events = fields.next().context("a row without a number of events")?;
    let script = fields.next().context("a row without a script")?;
    let mut words = Vec::new(alloc);
    for word in fields {
        words.push(Text::new(alloc, word.as_bytes())?)?;
    }
    let script = script_bytes(rt, script)?;
    let end = run(alloc, words.as_slice(), script.as_slice())?;
    let ended = end.status.number();
    if ended != status {
        return Ok(format!(in alloc; "{name} ends with status {ended} in place of {status}")?);
    }
    let happened = end.journal.len();
    if !spells(events, happened)? {
        return Ok(format!(in alloc; "{name} has {happened} events in place of {events}")?);
    }
    let file = format!(in alloc; "{name}.{kind}")?;
    let wanted = fs::read(rt, file.as_str())?;
    told(alloc, name, kind, end.written(), wanted.as_slice())
}

/// The bytes of a script; none for `-`.
fn script_bytes<R: Files + AllocGlobal>(rt: &R, name: &str) -> Result<Vec<u8>> {
    let alloc = rt.alloc();
    if name == "-" {
        return Ok(Vec::new(alloc));
    }
    let file = format!(in alloc; "{name}.grid")?;
    Ok(fs::read(rt, file.as_str())?)
}

/// Whether a field spells the number, or says nothing.
fn spells(field: &str, number: u32) -> Result<bool> {
    if field == "-" {
        return Ok(true);
    }
    let spelt = field.parse::<u32>().context("reading a number of events")?;
    Ok(spelt == number)
}

/// How a row of a kind went.
fn told(alloc: Global, name: &str, kind: &str, written: &[u8], wanted: &[u8]) -> Result<String> {
    if kind == "whole" {
        return Ok(match first_difference(written, wanted) {
            None => format!(in alloc; "{name} same")?,
            Some(place) => format!(in alloc; "{name} differs behind {place} bytes")?,
        });
    }
    let written = str::from_utf8(written)?;
    let wanted = str::from_utf8(wanted)?;
    let other = if kind == "lines" {
        first_missing(written, wanted)
    } else {
        first_further(written, wanted)
    };
    Ok(match other {
        None => format!(in alloc; "{name} same")?,
        Some(line) => format!(in alloc; "{name} differs at the line {line}")?,
    })
}
