//! Commands, copied: each that a line of a script orders, and the one that none does.

use anyhow::{Result, bail};
use grid_base::NodeId;
use grid_event::Command;
use grid_script::{Order, Script, ScriptKind, StepScript, read_script};
use std::alloc::Global;

/// Tells of each command of a script how its copy went, by the number of its line.
pub fn tell_commands(alloc: Global, text: &str) -> Result<String> {
    let Script::Step(script) = read_script(alloc, text.as_bytes(), ScriptKind::Step)? else {
        bail!("a script of a live run");
    };
    told_lines(alloc, &script)
}

/// Tells of each line how its copy went.
fn told_lines(alloc: Global, script: &StepScript) -> Result<String> {
    let mut told = String::new(alloc);
    for line in script.lines.as_slice() {
        if let Order::One(command) = &line.order {
            let number = line.line;
            let told_line = told_copy(alloc, command)?;
            let told_line = format!(in alloc; "{told_line} {number}\n")?;
            told.push_str(told_line.as_str())?;
        }
    }
    Ok(told)
}

/// Tells of the command that no script orders how its copy went.
pub fn told_serve(alloc: Global) -> Result<String> {
    let node = NodeId::new(1);
    let told = told_copy(alloc, &Command::Serve { node })?;
    Ok(format!(in alloc; "{told} serve")?)
}

/// Whether the copy of a command reads as the command does.
fn told_copy(alloc: Global, command: &Command) -> Result<&'static str> {
    let copied = command.copy(alloc)?;
    let copied = format!(in alloc; "{copied:?}")?;
    let command = format!(in alloc; "{command:?}")?;
    Ok(if copied.as_str() == command.as_str() {
        "same command"
    } else {
        "differs command"
    })
}
