//! Reading a whole report.

ghost use Rattle.std.specs.Prelude.{◌≡◌, ◌≤◌, ◌<◌, ◌+◌, ◌^◌, length, ℕ, IfOk, IfSome, IsErrOf, OnErr, OnOk, Some, true};
ghost use Rattle.grid_event.specs.Configs.{is_config};
ghost use Rattle.grid_event.specs.Histories.{History, blank};
ghost use Rattle.event_texts.specs.Reading.{behind, number_in};
ghost use Rattle.grid_base.specs.Datum.{same_bytes};
ghost use Rattle.grid_journal.specs.Reports.{first_text};
ghost use Rattle.text_lines.specs.Lines.{lines_of};
ghost use Rattle.report_reading.specs.ReportLines.{aim_in, config_in, config_of, partition_in, values_in};
ghost use Rattle.report_reading.specs.ReportReading.{read_second, report_of};
ghost use Rattle.report_reading.specs.Taking.{Finds, IsFaultOnly, IsOnly, Reads};
ghost use Rattle.report_reading.specs.WholeReports.{HasNoReport, IsFirstFull, IsFirstUnread, IsNeverFull, IsReport};

use crate::read_lines::take_lines;
use crate::report_fault::{LineFault, ReportFault};
use grid_base::NoMemory;
use grid_event::{Config, Journal, Partition, ValueKind};
use grid_journal::report;
use pipeline_parse::reading::{read_literal, read_number};
use std::alloc::Global;
use text_lines::first_line;
use topology_phase::Aim;

/// Reads a word, a blank and a number.
fn read_sized<'a>(word: &str, limit: u64, text: &'a [u8]) -> Result<(u64, &'a [u8]), LineFault>
    requires { 9 ≤ limit }
    ensures read { Finds result (behind word.now (number_in limit) text.now) }
    ensures within { IfOk result (λ p. p.0 ≤ limit) }
{
    let rest = read_literal(word, text)?;
    let rest = read_literal(" ", rest)?;
    let (number, rest) = read_number(limit, rest)?;
    Ok((number, rest))
}

/// Reads how keys are divided.
fn read_partition(text: &[u8]) -> Result<(Partition, &[u8]), LineFault>
    ensures { Finds result (partition_in text.now) }
{
    let rest = read_literal(" partition ", text)?;
    if let Ok(rest) = read_literal("plain", rest) {
        return Ok((Partition::Plain, rest));
    }
    let rest = read_literal("grouped", rest)?;
    Ok((Partition::Grouped, rest))
}

/// Reads the kind of the values.
fn read_values(text: &[u8]) -> Result<(ValueKind, &[u8]), LineFault>
    ensures { Finds result (values_in text.now) }
{
    let rest = read_literal(" values ", text)?;
    if let Ok(rest) = read_literal("int", rest) {
        return Ok((ValueKind::Int, rest));
    }
    if let Ok(rest) = read_literal("text", rest) {
        return Ok((ValueKind::Text, rest));
    }
    let rest = read_literal("flag", rest)?;
    Ok((ValueKind::Flag, rest))
}

/// Reads the aim, where it is named.
fn read_aim(text: &[u8]) -> (Aim, &[u8])
    ensures { aim_in text.now ≡ Some (result.0, result.1.now) }
{
    match read_literal(" hash least", text) {
        Ok(rest) => (Aim::Least, rest),
        Err(_) => (Aim::Create, text),
    }
}

/// Reads the settings.
fn read_config(text: &[u8]) -> Result<(Config, &[u8]), LineFault>
    ensures { Finds result (config_in text.now) }
{
    let (nodes, rest) = read_sized("grid nodes", 255, text)?;
    let (segments, rest) = read_sized(" segments", 65_535, rest)?;
    let (owners, rest) = read_sized(" owners", 255, rest)?;
    let (partition, rest) = read_partition(rest)?;
    let (values, rest) = read_values(rest)?;
    let (chunk, rest) = read_sized(" chunk", 65_535, rest)?;
    let (aim, rest) = read_aim(rest);
    let config = Config {
        nodes: nodes as u8,
        segments: segments as u16,
        owners: owners as u8,
        partition,
        values,
        chunk: chunk as u16,
        aim,
    };
    Ok((config, rest))
}

/// Reads settings in their limits that are all of a line.
fn read_settings(text: &[u8]) -> Option<Config>
    ensures read { result ≡ config_of text.now }
    ensures limits { IfSome result (λ config. is_config config ≡ true) }
{
    let Ok((config, rest)) = read_config(text) else {
        return None;
    };
    if !rest.is_empty() || !config.is_in_limits() {
        return None;
    }
    Some(config)
}

/// Whether a line is the first topology of these settings.
fn is_first(alloc: Global, config: Config, line: &[u8]) -> Result<bool, NoMemory>
    requires { is_config config ≡ true }
    ensures { IfOk result (λ is. is ≡ same_bytes line.now (first_text config)) }
{
    let mut started = Journal::new(alloc);
    started.start(config);
    let head = report(alloc, &started)?;
    let cut = first_line(head.as_slice());
    let second = first_line(cut.rest);
    Ok(line == second.line)
}

/// Reads the lines behind the first.
fn read_rest(
    alloc: Global,
    journal: &mut Journal,
    config: Config,
    text: &[u8],
) -> Result<(), ReportFault>
    requires empty { journal.old.history ≡ blank }
    requires limits { is_config config ≡ true }
    requires size { length text.now + 4 < 2 ^ 32 }
    ensures { Reads result journal.new.history (read_second config (lines_of text.now)) }
{
    if text.is_empty() {
        return Err(ReportFault::Unread { line: 2 });
    }
    let cut = first_line(text);
    if !cut.ended {
        return Err(ReportFault::Unread { line: 2 });
    }
    match is_first(alloc, config, cut.line) {
        Ok(true) => {
            journal.start(config);
            take_lines(alloc, journal, 3, cut.rest)
        }
        Ok(false) => Err(ReportFault::Unread { line: 2 }),
        Err(_) => Err(ReportFault::NoMemory),
    }
}

/// Reads a report into an empty journal. A report is that of a journal in its limits, whose
/// pipelines have texts of at most 1,024 bytes.
///
/// `Full` comes exactly where a line has the next event, which would pass a limit of the journal.
/// Else `Unread` comes exactly where the bytes are no report, at the first line with which no
/// report begins. A line that is missing, a last line without a line feed and a line behind the end
/// are such lines. The only other failure is that memory runs out. After a failure the journal is
/// empty.
pub fn read_report(alloc: Global, bytes: &[u8], journal: &mut Journal) -> Result<(), ReportFault>
    requires empty { journal.old.history ≡ blank }
    requires size { length bytes.now + 4 < 2 ^ 32 }
    ensures read { OnOk result (IsReport bytes.now journal.new.history) }
    ensures only { (history : History) → IsReport bytes.now history → IsOnly history result journal.new.history }
    ensures unread { (line : ℕ) → IsErrOf result (ReportFault.Unread line) → IsFirstUnread bytes.now line }
    ensures full { (line : ℕ) → IsErrOf result (ReportFault.Full line) → IsFirstFull bytes.now line }
    ensures only_unread { (line : ℕ) → IsFirstUnread bytes.now line → HasNoReport bytes.now → IsNeverFull bytes.now → IsFaultOnly (ReportFault.Unread line) result }
    ensures only_full { (line : ℕ) → IsFirstFull bytes.now line → IsFaultOnly (ReportFault.Full line) result }
    ensures err { OnErr result (journal.new.history ≡ blank) }
{
    match read_into(alloc, bytes, journal) {
        Ok(()) => Ok(()),
        Err(fault) => {
            *journal = Journal::new(alloc);
            Err(fault)
        }
    }
}

/// Reads the lines of a report into the empty journal.
fn read_into(alloc: Global, bytes: &[u8], journal: &mut Journal) -> Result<(), ReportFault>
    requires empty { journal.old.history ≡ blank }
    requires size { length bytes.now + 4 < 2 ^ 32 }
    ensures read { Reads result journal.new.history (report_of bytes.now) }
{
    if bytes.is_empty() {
        return Err(ReportFault::Unread { line: 1 });
    }
    let cut = first_line(bytes);
    if !cut.ended {
        return Err(ReportFault::Unread { line: 1 });
    }
    match read_settings(cut.line) {
        Some(config) => read_rest(alloc, journal, config, cut.rest),
        None => Err(ReportFault::Unread { line: 1 }),
    }
}
