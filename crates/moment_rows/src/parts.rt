//! Parts: what is booked for a segment of a reduction at a moment of a run.
//!
//! A line of the list has a name, the name of a script, the number of an event, a call, a segment,
//! and what is booked there after that event: `none`, or `count` and a number.

ghost use Rattle.std.specs.Prelude.{◌≡◌, Some, IfOk, IfSome};
ghost use Rattle.cluster_core.specs.Parts.{piece_of};

use crate::runs::{core_after, journal_of, script_bytes};
use anyhow::{Context, Result, bail};
use cluster_core::Core;
use grid_base::{CallId, NoMemory, SegmentId, UnitId};
use grid_event::{Event, Journal};
use pipeline_split::{Piece, piece_of, split};
use std::alloc::Global;
use std::rt::Files;

/// A moment of a run: the events so far, a call and a segment, and the count that is then booked
/// there; none where nothing is.
#[derive(Clone, Copy, Debug)]
struct Moment {
    place: u32,
    call: CallId,
    segment: SegmentId,
    count: Option<u32>,
}

/// Looks at what is booked at the moment of a line, and tells how it went.
pub fn told_part<R: Files + AllocGlobal>(rt: &R, line: &str) -> Result<String> {
    let alloc = rt.alloc();
    let mut fields = line.split_whitespace();
    let name = fields.next().context("a part without a name")?;
    let script = fields.next().context("a part without a script")?;
    let moment = moment_of(line)?;
    let script = script_bytes(rt, script)?;
    Ok(if books(alloc, script.as_slice(), &moment)? {
        format!(in alloc; "{name} same")?
    } else {
        format!(in alloc; "{name} differs")?
    })
}

/// The moment of a line.
fn moment_of(line: &str) -> Result<Moment> {
    let mut fields = line.split_whitespace();
    let place = number(fields.nth(2))?;
    let call = number(fields.next())?;
    let segment = short(number(fields.next())?)?;
    let kind = fields.next().context("a part without what is booked")?;
    let count = count_of(kind, fields.next())?;
    Ok(Moment {
        place,
        call: CallId::new(call),
        segment: SegmentId::new(segment),
        count,
    })
}

/// Whether that is booked at the moment of a run of the script: where each end of a unit was applied
/// as it is, and where it was handed the piece that was made of the unit.
fn books(alloc: Global, script: &[u8], moment: &Moment) -> Result<bool> {
    let journal = journal_of(alloc, script)?;
    let place = moment.place;
    let applied = core_after(alloc, &journal, place)?;
    if !is_booked(&applied, moment) {
        return Ok(false);
    }
    let handed = core_handed(alloc, &journal, place)?;
    Ok(is_booked(&handed, moment))
}

/// The number that a field spells.
fn number(field: Option<&str>) -> Result<u32> {
    let field = field.context("a part without a number")?;
    Ok(field.parse::<u32>().context("reading a number")?)
}

/// A number of 16 bits.
fn short(number: u32) -> Result<u16> {
    match u16::try_from(number) {
        Ok(number) => Ok(number),
        Err(_) => bail!("a segment that is none"),
    }
}

/// The count that is told to be booked; none where nothing is.
fn count_of(kind: &str, field: Option<&str>) -> Result<Option<u32>> {
    if kind == "none" {
        return Ok(None);
    }
    if kind != "count" {
        bail!("a part of no known kind");
    }
    Ok(Some(number(field)?))
}

/// Whether just that is booked in the core.
fn is_booked(core: &Core, moment: &Moment) -> bool {
    match (core.part(moment.call, moment.segment), moment.count) {
        (None, None) => true,
        (Some(Piece::Count(booked)), Some(count)) => *booked == u64::from(count),
        _ => false,
    }
}

/// The core after the first events of a journal, up to that place, where each unit of a reduction
/// that ends is handed its piece.
fn core_handed(alloc: Global, journal: &Journal, place: u32) -> Result<Core> {
    let mut core = core_after(alloc, journal, 0)?;
    for earlier in 1..=place {
        match journal.event(earlier) {
            None => {}
            Some(Event::Done { unit }) => end_unit(alloc, &mut core, *unit)?,
            Some(event) => core.apply(alloc, event)?,
        }
    }
    Ok(core)
}

/// The unit ends; one of a reduction is handed its piece, and was among those of its node that may
/// end.
fn end_unit(alloc: Global, core: &mut Core, number: UnitId) -> Result<()> {
    let Some(made) = made_piece(alloc, core, number)? else {
        core.apply(alloc, &Event::Done { unit: number })?;
        return Ok(());
    };
    if !is_ready(core, number) {
        bail!("a unit that ends isn't among those that may");
    }
    core.apply_done(alloc, number, made)?;
    Ok(())
}

/// Whether the unit's node has a unit that may end, which isn't a later one.
fn is_ready(core: &Core, number: UnitId) -> bool {
    let Some(unit) = core.unit(number) else {
        return false;
    };
    match core.ready(unit.node()) {
        None => false,
        Some(least) => least <= number,
    }
}

/// The piece of what the unit read. None comes exactly where it is no unit of a reduction. The only
/// failure is that memory runs out.
fn made_piece(alloc: Global, core: &Core, number: UnitId) -> Result<Option<Piece>, NoMemory>
    ensures { IfOk result (λ made. made ≡ piece_of core.now number) }
{
    let Some(unit) = core.unit(number) else {
        return Ok(None);
    };
    let Some(call) = core.call(unit.call()) else {
        return Ok(None);
    };
    if call.is_walk() {
        return Ok(None);
    }
    let (remote, _local) = split(alloc, &call.request().pipeline)?;
    let made = piece_of(alloc, &remote, &unit.work().entries)?;
    Ok(Some(made))
}
