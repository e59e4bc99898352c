//! Commands that are repeated.

ghost use Rattle.std.specs.Prelude.{◌≡◌, IsSome};
ghost use Rattle.step_run.specs.StepRuns.{ENOUGH, repeated};
ghost use Rattle.step_run.specs.Outcomes.{Leaves, running};

use crate::run_fault::RunFault;
use crate::steps::step;
use cluster_core::Core;
use grid_base::limits::MOST_EVENTS;
use grid_event::{Command, Journal};
use std::alloc::Global;

/// The command is repeated as long as it has an event.
pub fn repeat(
    alloc: Global,
    core: &mut Core,
    journal: &mut Journal,
    line: u32,
    command: &Command,
) -> Result<(), RunFault>
    requires { IsSome journal.old.history.config }
    ensures leaves { Leaves result core.new journal.new.history (repeated ENOUGH line command.now (running core.old journal.old.history)) }
    ensures config { journal.new.history.config ≡ journal.old.history.config }
{
    for _time in 0..MOST_EVENTS + 1 {
        match step(alloc, core, journal, line, command) {
            Ok(moved) => {
                if !moved {
                    return Ok(());
                }
            }
            Err(fault) => return Err(fault),
        }
    }
    Ok(())
}
