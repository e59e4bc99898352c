//! Texts of events. A row is one of these:
//!
//! - `event WEIGHT TEXT`: the text is that of an event with so many entries and items;
//! - `none TEXT`: it is the text of no event;
//! - `line TEXT`: with a line feed behind it, it is the text of no event.

ghost use Rattle.std.specs.Prelude.{◌≡◌, true, IsSome};
ghost use Rattle.grid_event.specs.Configs.{is_config};

use anyhow::{Context, Result, bail};
use event_texts::{EventFault, print_event, read_event};
use grid_event::{Config, Journal, Partition, ValueKind};
use std::alloc::Global;
use topology_phase::Aim;

/// Tells how a row went.
pub fn told_event(alloc: Global, row: &str) -> Result<String> {
    Ok(if is_as_expected(alloc, row)? {
        format!(in alloc; "same {row}")?
    } else {
        format!(in alloc; "differs {row}")?
    })
}

/// Whether a row's text is as expected.
fn is_as_expected(alloc: Global, row: &str) -> Result<bool> {
    let (kind, rest) = row.split_once(' ').context("a row without a text")?;
    if kind == "event" {
        let (weight, text) = rest.split_once(' ').context("an event without a weight")?;
        let weight = weight.parse::<u32>().context("reading a weight")?;
        return is_event(alloc, weight, text);
    }
    if kind == "none" {
        return Ok(is_none(alloc, rest));
    }
    if kind == "line" {
        let line = format!(in alloc; "{rest}\n")?;
        return Ok(is_none(alloc, line.as_str()));
    }
    bail!("a row of no known kind")
}

/// Whether the text is that of an event of this weight. The event is read and copied, kept by a
/// journal, and written as a copy of that journal has it.
fn is_event(alloc: Global, weight: u32, text: &str) -> Result<bool> {
    let Ok(event) = read_event(alloc, text.as_bytes()) else {
        return Ok(false);
    };
    let copied = event.copy(alloc)?;
    let mut journal = started(alloc);
    journal.prepare(&copied)?;
    journal.push(copied)?;
    let journal = journal.copy(alloc)?;
    if journal.weight() != weight {
        return Ok(false);
    }
    let Some(kept) = journal.event(1) else {
        return Ok(false);
    };
    let written = print_event(alloc, kept)?;
    Ok(written.as_slice() == text.as_bytes())
}

/// Whether the text is that of no event.
fn is_none(alloc: Global, text: &str) -> bool {
    matches!(
        read_event(alloc, text.as_bytes()),
        Err(EventFault::BadEvent)
    )
}

/// A started journal without events.
fn started(alloc: Global) -> Journal
    ensures { IsSome result.history.config }
{
    let mut journal = Journal::new(alloc);
    journal.start(Config {
        nodes: 1,
        segments: 1,
        owners: 1,
        partition: Partition::Plain,
        values: ValueKind::Text,
        chunk: 2,
        aim: Aim::Create,
    });
    journal
}
