//! Reading the lines of a report.

ghost use Rattle.std.specs.Prelude.{◌≡◌, ◌+◌, ◌<◌, ◌≤◌, ◌^◌, true, length, IfOk, IsSome, Some};
ghost use Rattle.grid_event.specs.Histories.{History};
ghost use Rattle.grid_base.specs.declared.limits.TheConstants.{MOST_EVENTS};
ghost use Rattle.event_texts.specs.Reading.{event_of, made, number_in, whole_of};
ghost use Rattle.text_lines.specs.Lines.{lines_of};
ghost use Rattle.report_reading.specs.ReportLines as said;
ghost use Rattle.report_reading.specs.ReportLines.{end_in, event_in, line_of, this_number, told_by};
ghost use Rattle.report_reading.specs.ReportReading.{read_lines};
ghost use Rattle.report_reading.specs.Taking.{EndsAt, Places, Reads, Takes, Tells, report_fault_of};

use crate::report_fault::{LineFault, ReportFault};
use event_texts::{EventFault, read_event};
use grid_event::{Event, Journal};
use pipeline_parse::reading::{read_literal, read_number};
use std::alloc::Global;
use text_lines::first_line;

/// Takes what stands behind the word of an idle note.
fn take_note(journal: &mut Journal, text: &[u8]) -> Result<bool, LineFault>
    ensures taken { Takes result journal.old.history journal.new.history (whole_of (made said.Note (number_in 4294967295) text.now)) }
    ensures config { journal.new.history.config ≡ journal.old.history.config }
{
    let rest = read_literal(" ", text)?;
    let (line, rest) = read_number(4_294_967_295, rest)?;
    if !rest.is_empty() {
        return Err(LineFault::Unread);
    }
    journal.note_idle(line as u32)?;
    Ok(true)
}

/// Takes what stands behind the word of the end.
fn take_end(journal: &mut Journal, text: &[u8]) -> Result<bool, LineFault>
    ensures taken { Takes result journal.old.history journal.new.history (whole_of (end_in (length journal.old.history.events) text.now)) }
    ensures same { journal.new.history ≡ journal.old.history }
{
    let rest = read_literal(" ", text)?;
    let (count, rest) = read_number(4_294_967_295, rest)?;
    if count != u64::from(journal.len()) || !rest.is_empty() {
        return Err(LineFault::Unread);
    }
    Ok(false)
}

/// Puts an event behind the others.
fn take_told(journal: &mut Journal, event: Event) -> Result<bool, LineFault>
    requires { IsSome journal.old.history.config }
    ensures taken { Takes result journal.old.history journal.new.history (Some (said.Told event)) }
    ensures config { journal.new.history.config ≡ journal.old.history.config }
{
    journal.push(event)?;
    Ok(true)
}

/// Reads the number that must be the next place.
#[tactic(auto)]
fn read_place(place: u32, text: &[u8]) -> Result<&[u8], LineFault>
    ensures { Places result (this_number place text.now) }
{
    let (number, rest) = read_number(4_294_967_295, text)?;
    if number != u64::from(place) {
        return Err(LineFault::Unread);
    }
    Ok(rest)
}

/// Reads an event that is all of a text.
fn read_told(alloc: Global, text: &[u8]) -> Result<Event, LineFault>
    ensures { Tells result (event_of text.now) }
{
    match read_event(alloc, text) {
        Ok(event) => Ok(event),
        Err(EventFault::BadEvent) => Err(LineFault::Unread),
        Err(EventFault::NoMemory) => Err(LineFault::NoMemory),
    }
}

/// Takes a line that is no note and not the end: the next event.
fn take_event(alloc: Global, journal: &mut Journal, text: &[u8]) -> Result<bool, LineFault>
    requires { IsSome journal.old.history.config }
    ensures taken { Takes result journal.old.history journal.new.history (whole_of (event_in (length journal.old.history.events) text.now)) }
    ensures config { journal.new.history.config ≡ journal.old.history.config }
{
    let rest = match read_place(journal.len() + 1, text) {
        Ok(rest) => rest,
        Err(fault) => return Err(fault),
    };
    let rest = read_literal(" ", rest)?;
    match read_told(alloc, rest) {
        Ok(event) => take_told(journal, event),
        Err(fault) => Err(fault),
    }
}

/// Takes a whole line.
fn take_line(alloc: Global, journal: &mut Journal, line: &[u8]) -> Result<bool, LineFault>
    requires { IsSome journal.old.history.config }
    ensures taken { Takes result journal.old.history journal.new.history (line_of (length journal.old.history.events) line.now) }
    ensures config { journal.new.history.config ≡ journal.old.history.config }
{
    if let Ok(rest) = read_literal("- idle", line) {
        return take_note(journal, rest);
    }
    if let Ok(rest) = read_literal("end", line) {
        return take_end(journal, rest);
    }
    take_event(alloc, journal, line)
}

/// A fault of a line, with the line's number.
fn on_line(line: u32, fault: LineFault) -> ReportFault
    ensures { result ≡ report_fault_of line fault }
{
    match fault {
        LineFault::Unread => ReportFault::Unread { line },
        LineFault::Full => ReportFault::Full { line },
        LineFault::NoMemory => ReportFault::NoMemory,
    }
}

/// Takes the lines behind the head, the first of which has this number.
#[tactic(auto, using(crate::proofs::TakenLines::goes_on))]
pub(crate) fn take_lines(
    alloc: Global,
    journal: &mut Journal,
    number: u32,
    text: &[u8],
) -> Result<(), ReportFault>
    requires started { IsSome journal.old.history.config }
    requires lines { number + length text.now + 1 < 2 ^ 32 }
    ensures { Reads result journal.new.history (read_lines journal.old.history number (lines_of text.now)) }
{
    let mut number = number;
    let mut rest = text;
    'lines: while !rest.is_empty() {
        let cut = first_line(rest);
        if !cut.ended {
            return Err(ReportFault::Unread { line: number });
        }
        match take_line(alloc, journal, cut.line) {
            Ok(true) => {}
            Ok(false) => return end_at(number + 1, cut.rest),
            Err(fault) => return Err(on_line(number, fault)),
        }
        number += 1;
        rest = cut.rest;
    }
    Err(ReportFault::Unread { line: number })
}

/// Nothing stands behind the end.
#[tactic(auto, using(crate::proofs::TakenLines::some_line))]
fn end_at(number: u32, rest: &[u8]) -> Result<(), ReportFault>
    ensures { EndsAt result number (lines_of rest.now) }
{
    match rest.split_first() {
        None => Ok(()),
        Some(_) => Err(ReportFault::Unread { line: number }),
    }
}
