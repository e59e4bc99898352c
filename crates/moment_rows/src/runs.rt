//! The journal of a script's run, and the cluster after its first events.

ghost use Rattle.std.specs.Prelude.{◌≡◌, true, IfOk};
ghost use Rattle.cluster_model.specs.Step.{is_run};

use anyhow::{Context, Result, bail};
use cluster_core::Core;
use grid_event::Journal;
use grid_script::{Script, ScriptKind, read_script};
use std::alloc::Global;
use std::fs;
use std::rt::Files;
use step_run::run_steps;

/// The bytes of the script of that name.
pub fn script_bytes<R: Files + AllocGlobal>(rt: &R, name: &str) -> Result<Vec<u8>> {
    let alloc = rt.alloc();
    let file = format!(in alloc; "{name}.grid")?;
    Ok(fs::read(rt, file.as_str())?)
}

/// The journal of the stepped run of a script, which is a run of the cluster.
pub fn journal_of(alloc: Global, script: &[u8]) -> Result<Journal>
    ensures { IfOk result (λ journal. is_run journal.history ≡ true) }
{
    let mut journal = Journal::new(alloc);
    match &read_script(alloc, script, ScriptKind::Step)? {
        Script::Step(script) => run_steps(alloc, script, &mut journal)?,
        Script::Live(_) => bail!("a live script"),
    }
    Ok(journal)
}

/// The cluster after the first events of a journal, up to that place.
pub fn core_after(alloc: Global, journal: &Journal, place: u32) -> Result<Core> {
    let config = journal.config().context("a journal without settings")?;
    let mut core = Core::new(alloc, config)?;
    for earlier in 1..=place {
        if let Some(event) = journal.event(earlier) {
            core.apply(alloc, event)?;
        }
    }
    Ok(core)
}
