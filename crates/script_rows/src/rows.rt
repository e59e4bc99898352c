//! Rows: a script, and what is expected of it.
//!
//! A row begins with a line of the kind of the run, `step` or `live`, and what is expected: the line
//! and the reason of a refusal, or how many lines a script has. Behind it stands the script; behind
//! the word `whole` all of it, else its lines behind the settings. The last line of a script has no
//! line feed behind the word `cut`.

use anyhow::{Context, Result};
use grid_base::Bytes;
use grid_script::{Script, ScriptFault, ScriptKind, read_script};
use std::alloc::Global;

/// Two nodes, four segments and grouped keys.
const SETTINGS: &[u8] = b"nodes 2\nsegments 4\nowners 1\npartition grouped\nvalues int\nchunk 2\n";

/// Whether this is what a row expects.
pub fn is_told(row: &str, told: &str) -> bool {
    match first_line(row).split_once(": ") {
        Some((_, wanted)) => wanted == told,
        None => false,
    }
}

/// What is told of the script of a row.
pub fn told_row(alloc: Global, row: &str) -> Result<String> {
    let (words, _) = first_line(row)
        .split_once(": ")
        .context("a row that expects nothing")?;
    let is_live = words.starts_with("live");
    let mut script = Bytes::new(alloc);
    if !words.contains("whole") {
        script.extend(if is_live {
            b"script live\n"
        } else {
            b"script step\n"
        })?;
        script.extend(SETTINGS)?;
    }
    if let Some((_, lines)) = row.split_once('\n') {
        script.extend(lines.as_bytes())?;
        if !words.contains("cut") {
            script.push(b'\n')?;
        }
    }
    let kind = if is_live {
        ScriptKind::Live
    } else {
        ScriptKind::Step
    };
    told(alloc, script.as_slice(), kind)
}

/// The line that says what is expected.
fn first_line(row: &str) -> &str {
    match row.split_once('\n') {
        Some((line, _)) => line,
        None => row,
    }
}

/// What is told of a script.
fn told(alloc: Global, text: &[u8], kind: ScriptKind) -> Result<String> {
    match read_script(alloc, text, kind) {
        Ok(Script::Step(script)) => {
            let lines = script.lines.len();
            Ok(format!(in alloc; "{lines} lines")?)
        }
        Ok(Script::Live(script)) => {
            let (load, changes) = (script.load.len(), script.changes.len());
            let sessions = script.sessions.len();
            Ok(format!(in alloc; "{load} in load, {changes} changes, {sessions} sessions")?)
        }
        Err(ScriptFault::Refused { line, reason }) => Ok(format!(in alloc; "{line} {reason:?}")?),
        Err(ScriptFault::NoMemory) => Err(ScriptFault::NoMemory.into()),
    }
}
