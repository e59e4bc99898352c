//! The report of a journal.

ghost use Rattle.std.specs.Prelude.{◌≡◌, ◌+◌, ◌<◌, ◌≤◌, ◌-◌, ◌%◌, ◌^◌, ◌∷◌, ◌++◌, [], length, take, drop, IfOk, IsSome, OnOk, decimal};
ghost use Rattle.hash_factory.specs.Formulas.{created_owners};
ghost use Rattle.grid_journal.specs.Reports.{aim_text, config_text, end_line, events_text, first_hash, first_nodes, first_text, idle_text, kind_text, kinds_text, line};
ghost use Rattle.grid_journal.specs.Reports.{partition_text, report_text, run_text, sizes_text};
ghost use Rattle.event_texts.specs.Events.{event_text};
ghost use Rattle.event_texts.specs.Topologies.{hash_text, owners_text};
ghost use Rattle.event_texts.specs.Words.{words};

use event_texts::{add_between, add_event, add_number, add_number_word};
use grid_base::{Bytes, NoMemory};
use grid_event::{Config, Event, Idle, Journal, Partition, ValueKind};
use std::alloc::Global;
use topology_phase::Aim;

/// The report of a journal that was started: its settings, its first topology, its events with
/// their places from 1, a note of each idle line behind the events that stood before it, and the
/// number of events. Each line ends with a line feed. The only failure is that memory runs out.
pub fn report(alloc: Global, journal: &Journal) -> Result<Bytes, NoMemory>
    requires { IsSome journal.now.history.config }
    ensures { IfOk result (λ out. out.list ≡ report_text journal.now.history) }
{
    let mut out = Bytes::new(alloc);
    if let Some(config) = journal.config() {
        add_head(&mut out, config)?;
    }
    add_run(alloc, &mut out, journal)?;
    add_end(&mut out, journal.len())?;
    Ok(out)
}

/// Adds the settings and the first topology, a line each.
fn add_head(out: &mut Bytes, config: &Config) -> Result<(), NoMemory>
    requires { 0 < config.now.nodes }
    ensures { OnOk result (out.new.list ≡ out.old.list ++ (line (config_text config.now) ++ line (first_text config.now))) }
{
    add_config(out, config)?;
    out.push(b'\n')?;
    out.extend(b"0 topology 1 NO_REBALANCE ")?;
    add_first_hash(out, config)?;
    out.push(b'\n')
}

/// Adds the settings.
pub(crate) fn add_config(out: &mut Bytes, config: &Config) -> Result<(), NoMemory>
    ensures { OnOk result (out.new.list ≡ out.old.list ++ config_text config.now) }
{
    add_sizes(out, config)?;
    add_kinds(out, config)?;
    out.extend(b" chunk")?;
    add_number_word(out, u64::from(config.chunk))?;
    add_aim(out, config.aim)
}

/// Adds the aim, where it isn't the created hash.
fn add_aim(out: &mut Bytes, aim: Aim) -> Result<(), NoMemory>
    ensures { OnOk result (out.new.list ≡ out.old.list ++ aim_text aim) }
{
    match aim {
        Aim::Create => Ok(()),
        Aim::Least => out.extend(b" hash least"),
    }
}

/// Adds how many nodes, segments and owners there are.
#[tactic(auto, unfolding(crate::specs::Reports::sizes_text))]
fn add_sizes(out: &mut Bytes, config: &Config) -> Result<(), NoMemory>
    ensures { OnOk result (out.new.list ≡ out.old.list ++ sizes_text config.now) }
{
    out.extend(b"grid nodes")?;
    add_number_word(out, u64::from(config.nodes))?;
    out.extend(b" segments")?;
    add_number_word(out, u64::from(config.segments))?;
    out.extend(b" owners")?;
    add_number_word(out, u64::from(config.owners))
}

/// Adds a blank, how keys are divided, and the kind of the values.
#[tactic(auto, unfolding(crate::specs::Reports::kinds_text))]
fn add_kinds(out: &mut Bytes, config: &Config) -> Result<(), NoMemory>
    ensures { OnOk result (out.new.list ≡ out.old.list ++ 32 ∷ kinds_text config.now) }
{
    out.extend(b" partition ")?;
    add_partition(out, config.partition)?;
    out.extend(b" values ")?;
    add_kind(out, config.values)
}

/// Adds the word of a partition.
fn add_partition(out: &mut Bytes, partition: Partition) -> Result<(), NoMemory>
    ensures { OnOk result (out.new.list ≡ out.old.list ++ partition_text partition) }
{
    match partition {
        Partition::Plain => out.extend(b"plain"),
        Partition::Grouped => out.extend(b"grouped"),
    }
}

/// Adds the word of a kind of values.
fn add_kind(out: &mut Bytes, kind: ValueKind) -> Result<(), NoMemory>
    ensures { OnOk result (out.new.list ≡ out.old.list ++ kind_text kind) }
{
    match kind {
        ValueKind::Int => out.extend(b"int"),
        ValueKind::Text => out.extend(b"text"),
        ValueKind::Flag => out.extend(b"flag"),
    }
}

/// Adds the first hash: the owners of each segment, with a semicolon between each two.
fn add_first_hash(out: &mut Bytes, config: &Config) -> Result<(), NoMemory>
    requires { 0 < config.now.nodes }
    ensures { OnOk result (out.new.list ≡ out.old.list ++ hash_text (first_hash config.now)) }
{
    for segment in 0..u32::from(config.segments) {
        add_between(out, b';', segment)?;
        add_first_owners(out, config, segment)?;
    }
    Ok(())
}

/// Adds the first owners of a segment, with a comma between each two.
fn add_first_owners(out: &mut Bytes, config: &Config, segment: u32) -> Result<(), NoMemory>
    requires segment { segment ≤ 65535 }
    requires nodes { 0 < config.now.nodes }
    ensures { OnOk result (out.new.list ≡ out.old.list ++ owners_text (created_owners (first_nodes config.now) segment config.now.owners)) }
{
    let count = config.owners.min(config.nodes);
    for place in 0..u32::from(count) {
        add_between(out, b',', place)?;
        add_first_owner(out, config, segment, place)?;
    }
    Ok(())
}

/// Adds the first owner of a segment at a place.
fn add_first_owner(
    out: &mut Bytes,
    config: &Config,
    segment: u32,
    place: u32,
) -> Result<(), NoMemory>
    requires segment { segment ≤ 65535 }
    requires place { place < config.now.nodes }
    ensures { OnOk result (out.new.list ≡ out.old.list ++ decimal ((segment + place) % config.now.nodes)) }
{
    let nodes = u32::from(config.nodes);
    let node = (segment + place) % nodes;
    add_number(out, u64::from(node))
}

/// Adds the events and the notes of idle lines.
fn add_run(alloc: Global, out: &mut Bytes, journal: &Journal) -> Result<(), NoMemory>
    ensures { OnOk result (out.new.list ≡ out.old.list ++ run_text 0 journal.now.history.events journal.now.history.idle) }
{
    let len = journal.len();
    let mut place = 0u32;
    let mut number = 1u32;
    while let Some(note) = journal.idle(number) {
        let until = place.max(note.place.min(len));
        add_events(alloc, out, journal, place, until)?;
        add_idle(out, note)?;
        place = until;
        if number == u32::MAX {
            // So many notes fit no memory.
            return Err(NoMemory);
        }
        number += 1;
    }
    add_events(alloc, out, journal, place, len)?;
    Ok(())
}

/// Adds the events from one place to another, a line each. The first event has place 0 here.
fn add_events(
    alloc: Global,
    out: &mut Bytes,
    journal: &Journal,
    from: u32,
    to: u32,
) -> Result<(), NoMemory>
    requires ordered { from ≤ to }
    requires within { to ≤ length journal.now.history.events }
    ensures { OnOk result (out.new.list ≡ out.old.list ++ events_text from (take (to - from) (drop from journal.now.history.events))) }
{
    for place in from..to {
        add_event_at(alloc, out, journal, place)?;
    }
    Ok(())
}

/// Adds the event behind `place` others, as a line with its place.
fn add_event_at(
    alloc: Global,
    out: &mut Bytes,
    journal: &Journal,
    place: u32,
) -> Result<(), NoMemory>
    requires there { place < length journal.now.history.events }
    requires room { place + 1 < 2 ^ 32 }
    ensures { OnOk result (out.new.list ≡ out.old.list ++ events_text place (take 1 (drop place journal.now.history.events))) }
{
    let Some(event) = journal.event(place + 1) else {
        return Ok(());
    };
    add_event_line(alloc, out, place + 1, event)?;
    Ok(())
}

/// Adds an event and its place, as a line.
fn add_event_line(alloc: Global, out: &mut Bytes, place: u32, event: &Event) -> Result<(), NoMemory>
    ensures { OnOk result (out.new.list ≡ out.old.list ++ line (words (decimal place ∷ event_text event.now ∷ []))) }
{
    add_number(out, u64::from(place))?;
    out.push(b' ')?;
    add_event(alloc, out, event)?;
    out.push(b'\n')
}

/// Adds the note of an idle line, as a line.
fn add_idle(out: &mut Bytes, note: Idle) -> Result<(), NoMemory>
    ensures { OnOk result (out.new.list ≡ out.old.list ++ idle_text note) }
{
    out.extend(b"- idle")?;
    add_number_word(out, u64::from(note.line))?;
    out.push(b'\n')
}

/// Adds the last line, which counts the events.
fn add_end(out: &mut Bytes, count: u32) -> Result<(), NoMemory>
    ensures { OnOk result (out.new.list ≡ out.old.list ++ end_line count) }
{
    out.extend(b"end")?;
    add_number_word(out, u64::from(count))?;
    out.push(b'\n')
}
