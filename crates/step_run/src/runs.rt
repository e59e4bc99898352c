//! Stepped runs.

ghost use Rattle.std.specs.Prelude.{◌≡◌, true, OnOk, Some};
ghost use Rattle.grid_event.specs.Configs.{is_config};
ghost use Rattle.grid_event.specs.Histories.{blank};
ghost use Rattle.cluster_laws.specs.RightRuns.{IsRightAndCaused};
ghost use Rattle.cluster_model.specs.Step.{is_run};
ghost use Rattle.step_run.specs.StepRuns.{run_of};
ghost use Rattle.step_run.specs.Finished.{IsFinished};
ghost use Rattle.step_run.specs.Outcomes.{LeavesRun};

use crate::lines::{do_lines, end_all};
use crate::run_fault::RunFault;
use cluster_core::Core;
use grid_event::Journal;
use grid_script::StepScript;
use std::alloc::Global;

/// Does every line of the script in turn, then finishes each call, and then settles the topology.
/// With Ok the journal is that of the script's stepped run, in which each call that was made has an
/// answer and the topology is settled. Full comes exactly where that run stops
/// for a full journal, at its line, and the journal then holds it; after want of memory the journal
/// is empty or holds a front of that run. Whatever comes, the journal is a run of the cluster, in
/// which the answers of all calls are right and each outcome has its cause.
pub fn run_steps(alloc: Global, script: &StepScript, journal: &mut Journal) -> Result<(), RunFault>
    requires blank { journal.old.history ≡ blank }
    ensures leaves { LeavesRun result journal.new.history (run_of script.now) }
    ensures settings { OnOk result (journal.new.history.config ≡ Some script.now.config) }
    ensures run { is_run journal.new.history ≡ true }
    ensures right { IsRightAndCaused journal.new.history }
    ensures finished { OnOk result (IsFinished journal.new.history) }
{
    do_script(alloc, script, journal)
}

/// Does every line of the script, whose settings are in their limits, and what is left after them.
fn do_script(alloc: Global, script: &StepScript, journal: &mut Journal) -> Result<(), RunFault>
    requires { journal.old.history ≡ blank }
    ensures leaves { LeavesRun result journal.new.history (run_of script.now) }
    ensures limits { is_config script.now.config ≡ true }
{
    let config = script.config;
    let Ok(mut core) = Core::new(alloc, &config) else {
        return Err(RunFault::NoMemory);
    };
    journal.start(config);
    match do_lines(alloc, &mut core, journal, script.lines.as_slice()) {
        Ok(()) => end_all(alloc, &mut core, journal),
        Err(fault) => Err(fault),
    }
}
