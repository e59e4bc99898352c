//! Departures at each moment of a call.
//!
//! A line of the list has a name and the name of a script.

use crate::runs::{core_after, journal_of, script_bytes};
use anyhow::{Context, Result};
use cluster_core::Core;
use grid_base::limits::MOST_NODES;
use grid_base::{CallId, NodeId};
use grid_event::{Command, Event, InvokeEvent, Journal, Outcome};
use std::alloc::Global;
use std::rt::Files;

/// Lets nodes depart at each moment of the call of a line's script, and tells how it went.
pub fn told_departures<R: Files + AllocGlobal>(rt: &R, line: &str) -> Result<String> {
    let alloc = rt.alloc();
    let mut fields = line.split_whitespace();
    let name = fields.next().context("a row without a name")?;
    let script = fields.next().context("a row without a script")?;
    let script = script_bytes(rt, script)?;
    let journal = journal_of(alloc, script.as_slice())?;
    Ok(match first_departure(alloc, &journal)? {
        None => format!(in alloc; "{name} same")?,
        Some(place) => format!(in alloc; "{name} differs at {place}")?,
    })
}

/// From a run's first call on, until it is answered, each node that may departs after each event, and
/// the call is then driven to its end. The originator is told to have left exactly where it did, and
/// the call is never given up for want of rounds. The place of the first event of which this isn't
/// true; 0 where no call is answered.
fn first_departure(alloc: Global, journal: &Journal) -> Result<Option<u32>> {
    let first = first_call(journal);
    let Some(Event::Invoke(invoke)) = journal.event(first) else {
        return Ok(Some(0));
    };
    let made = invoke.get();
    for place in first..=journal.len() {
        if is_answer(journal.event(place)) {
            return Ok(None);
        }
        if !are_told(alloc, journal, place, made)? {
            return Ok(Some(place));
        }
    }
    Ok(Some(0))
}

/// The place of the first event that makes a call; 0 where there is none.
fn first_call(journal: &Journal) -> u32 {
    for place in 1..=journal.len() {
        if let Some(Event::Invoke(_)) = journal.event(place) {
            return place;
        }
    }
    0
}

/// Whether the event answers a call.
fn is_answer(event: Option<&Event>) -> bool {
    matches!(event, Some(Event::Answer(_)))
}

/// Whether the call's end is right for each node that may depart after the event.
fn are_told(alloc: Global, journal: &Journal, place: u32, made: &InvokeEvent) -> Result<bool> {
    for number in 0..MOST_NODES {
        let mut core = core_after(alloc, journal, place)?;
        if !ends_right(alloc, &mut core, made, NodeId::new(number))? {
            return Ok(false);
        }
    }
    Ok(true)
}

/// Whether the call's end is right where the node departs now. It is where it can't depart.
fn ends_right(alloc: Global, core: &mut Core, made: &InvokeEvent, node: NodeId) -> Result<bool> {
    let Some(event) = core.choose(alloc, &Command::Depart { node })? else {
        return Ok(true);
    };
    core.apply(alloc, &event)?;
    drive(alloc, core, made.call)?;
    let Some(call) = core.call(made.call) else {
        return Ok(false);
    };
    Ok(match call.outcome() {
        None => false,
        Some(Outcome::Again { .. }) => false,
        Some(Outcome::OriginatorLeft) => node == made.node,
        Some(_) => node != made.node,
    })
}

/// The call is driven until it is answered.
fn drive(alloc: Global, core: &mut Core, call: CallId) -> Result<()> {
    for _ in 0..u32::MAX {
        let Some(event) = core.choose(alloc, &Command::Drive { call })? else {
            return Ok(());
        };
        core.apply(alloc, &event)?;
    }
    Ok(())
}
