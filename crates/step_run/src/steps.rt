//! One event of a run.

ghost use Rattle.std.specs.Prelude.{◌≡◌, IfOk, IsSome, is_some};
ghost use Rattle.cluster_model.specs.Commands.{chosen};
ghost use Rattle.step_run.specs.StepRuns.{by_event};
ghost use Rattle.step_run.specs.Outcomes.{Leaves, running};

use crate::run_fault::RunFault;
use cluster_core::Core;
use grid_book::ActFault;
use grid_event::{Command, Journal};
use std::alloc::Global;

/// The event that the command chooses happens, where it has one; tells whether it has. Full comes
/// exactly where the journal is full for it; after a fault all is as before.
pub fn step(
    alloc: Global,
    core: &mut Core,
    journal: &mut Journal,
    line: u32,
    command: &Command,
) -> Result<bool, RunFault>
    requires { IsSome journal.old.history.config }
    ensures leaves { Leaves result core.new journal.new.history (by_event line (λ same. same) (λ same. same) (chosen core.old command.now) (running core.old journal.old.history)) }
    ensures moved { IfOk result (λ moved. moved ≡ is_some (chosen core.old command.now)) }
    ensures config { journal.new.history.config ≡ journal.old.history.config }
{
    match grid_book::step(alloc, core, journal, command) {
        Ok(moved) => Ok(moved),
        Err(ActFault::Full) => Err(RunFault::Full { line }),
        Err(ActFault::NoMemory) => Err(RunFault::NoMemory),
    }
}
