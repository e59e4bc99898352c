//! Makes a journal of as many writes as standard input says, and prints its report, or only the
//! number of events where the word `journal` stands behind the number. The measure of reports runs
//! it.
#![tactic(auto)]

ghost use Rattle.std.specs.Prelude.{◌≡◌, true, IfOk, IsSome};
ghost use Rattle.grid_event.specs.Configs.{is_config};

use anyhow::{Context, Result};
use grid_base::{Datum, Key, NoMemory, NodeId, SessionId};
use grid_event::{Config, Event, Journal, Partition, PushFault, ValueKind, WriteEvent};
use grid_io::{StdSink, write_all};
use grid_journal::report;
use sqlite_items::Boxed;
use std::alloc::Global;
use std::io;
use topology_phase::Aim;

/// One node and one segment of whole numbers.
fn settings() -> Config
    ensures { is_config result ≡ true }
{
    Config {
        nodes: 1,
        segments: 1,
        owners: 1,
        partition: Partition::Plain,
        values: ValueKind::Int,
        chunk: 100,
        aim: Aim::Create,
    }
}

/// The write of a number at a key.
fn write(alloc: Global, key: Key, number: u32) -> Result<Event, NoMemory> {
    let write = WriteEvent {
        by: SessionId::new(0),
        node: NodeId::new(0),
        key,
        value: Datum::Int(i64::from(number)),
        until: None,
    };
    Ok(Event::Write(Boxed::new(alloc, write)?))
}

/// A journal of so many writes.
fn written(alloc: Global, key: Key, count: u32) -> Result<Journal, PushFault>
    ensures { IfOk result (λ journal. IsSome journal.history.config) }
{
    let mut journal = Journal::new(alloc);
    journal.start(settings());
    for number in 0..count {
        let event = write(alloc, key, number)?;
        journal.push(event)?;
    }
    Ok(journal)
}

fn main(rt: HostRuntime) -> Result<()> {
    let text = io::read_to_string(rt.alloc(), rt.reader())?;
    let mut words = text.as_str().split_whitespace();
    let count = words
        .next()
        .unwrap_or("")
        .parse::<u32>()
        .context("reading the number of writes")?;
    let key = Key::new(b"oslo")?;
    let journal = written(rt.alloc(), key, count)?;
    if words.next() == Some("journal") {
        println!(rt; "{} events", journal.len())?;
        return Ok(());
    }
    let report = report(rt.alloc(), &journal)?;
    let mut sink = StdSink::new(io::writer(&rt));
    write_all(&mut sink, report.as_slice())?;
    Ok(())
}
