//! Runs: journals with their reports and briefs.
//!
//! A row has the name of a run and what is made of its journal: `report`, `brief` or `json`. The
//! settings stand in the file of that name that ends with `grid`, the events in the one that ends
//! with `events`, a text a line, or `- idle` and the number of a script line, and what is expected
//! in the one that ends with what is made. A report is read back too.

ghost use Rattle.std.specs.Prelude.{◌≡◌, true, IfOk, IsSome};
ghost use Rattle.grid_event.specs.Configs.{is_config};

use anyhow::{Context, Result, bail};
use event_texts::read_event;
use grid_base::Bytes;
use grid_event::{Config, Journal};
use grid_journal::{brief, brief_json, report};
use grid_script::{Script, ScriptKind, read_script};
use report_reading::read_report;
use std::alloc::Global;
use std::fs;
use std::rt::Files;

/// How many bytes a report that is read back may have.
const LONGEST: usize = 65_536;

/// Tells how a row went.
pub fn told_run<R: Files + AllocGlobal>(rt: &R, row: &str) -> Result<String> {
    let alloc = rt.alloc();
    let (name, kind) = row.split_once(' ').context("a run of no known kind")?;
    let settings = bytes_of(rt, name, "grid")?;
    let events = bytes_of(rt, name, "events")?;
    let config = config_of(alloc, settings.as_slice())?;
    let journal = journal_of(alloc, config, str::from_utf8(events.as_slice())?)?;
    let made = made(alloc, kind, &journal)?;
    let wanted = bytes_of(rt, name, kind)?;
    let is_read = kind != "report" || is_read_back(alloc, made.as_slice())?;
    Ok(if is_read && made.as_slice() == wanted.as_slice() {
        format!(in alloc; "same {row}")?
    } else {
        format!(in alloc; "differs {row}")?
    })
}

/// The bytes of a run's file.
fn bytes_of<R: Files + AllocGlobal>(rt: &R, name: &str, kind: &str) -> Result<Vec<u8>> {
    let alloc = rt.alloc();
    let file = format!(in alloc; "{name}.{kind}")?;
    Ok(fs::read(rt, file.as_str())?)
}

/// The settings of a script.
fn config_of(alloc: Global, script: &[u8]) -> Result<Config>
    ensures { IfOk result (λ config. is_config config ≡ true) }
{
    let Script::Step(script) = read_script(alloc, script, ScriptKind::Step)? else {
        bail!("a script of a live run");
    };
    if !script.config.is_in_limits() {
        bail!("settings out of their limits");
    }
    Ok(script.config)
}

/// The journal of events and idle lines.
fn journal_of(alloc: Global, config: Config, lines: &str) -> Result<Journal>
    requires { is_config config ≡ true }
    ensures { IfOk result (λ journal. IsSome journal.history.config) }
{
    let mut journal = Journal::new(alloc);
    journal.start(config);
    for line in lines.lines() {
        note(alloc, &mut journal, line)?;
    }
    Ok(journal)
}

/// Puts the event of a line, or an idle line, behind the others.
fn note(alloc: Global, journal: &mut Journal, line: &str) -> Result<()>
    requires { IsSome journal.old.history.config }
    ensures { IsSome journal.new.history.config }
{
    if let Some(number) = line.strip_prefix("- idle ") {
        let number = number.parse::<u32>().context("reading an idle line")?;
        journal.note_idle(number)?;
        return Ok(());
    }
    let event = read_event(alloc, line.as_bytes())?;
    journal.push(event)?;
    Ok(())
}

/// The report of a journal, its brief, or its brief as JSON.
fn made(alloc: Global, kind: &str, journal: &Journal) -> Result<Bytes>
    requires { IsSome journal.now.history.config }
{
    if kind == "report" {
        return Ok(report(alloc, journal)?);
    }
    if kind == "brief" {
        return Ok(brief(alloc, journal)?);
    }
    if kind == "json" {
        return Ok(brief_json(alloc, journal)?);
    }
    bail!("a run of no known kind")
}

/// Whether a report is read back as a journal with the same report.
fn is_read_back(alloc: Global, text: &[u8]) -> Result<bool> {
    if text.len() > LONGEST {
        bail!("a report of more than 65,536 bytes");
    }
    let mut journal = Journal::new(alloc);
    read_report(alloc, text, &mut journal)?;
    let Some(_config) = journal.config() else {
        bail!("a report without settings");
    };
    let again = report(alloc, &journal)?;
    Ok(again.as_slice() == text)
}
