//! The lines of a script.

ghost use Rattle.std.specs.Prelude.{◌≡◌, IfOk, IsSome, is_some};
ghost use Rattle.grid_base.specs.declared.limits.TheConstants.{LAST_CALL};
ghost use Rattle.cluster_model.specs.Commands.{chosen};
ghost use Rattle.step_run.specs.StepRuns.{after_lines, all_done, all_finished, by_event, done, ended, noted};
ghost use Rattle.step_run.specs.Outcomes.{Leaves, running};

use crate::repeats::repeat;
use crate::run_fault::RunFault;
use crate::steps::step;
use cluster_core::Core;
use grid_base::CallId;
use grid_base::limits::LAST_CALL;
use grid_event::{Command, Journal};
use grid_script::{Order, StepLine};
use std::alloc::Global;

/// The command's event happens; where it has none, its line is noted as idle. Tells whether it had
/// one.
fn do_first(
    alloc: Global,
    core: &mut Core,
    journal: &mut Journal,
    line: u32,
    command: &Command,
) -> Result<bool, RunFault>
    requires { IsSome journal.old.history.config }
    ensures leaves { Leaves result core.new journal.new.history (by_event line (λ same. same) (noted line) (chosen core.old command.now) (running core.old journal.old.history)) }
    ensures moved { IfOk result (λ moved. moved ≡ is_some (chosen core.old command.now)) }
    ensures config { journal.new.history.config ≡ journal.old.history.config }
{
    match step(alloc, core, journal, line, command) {
        Ok(moved) => {
            if moved {
                return Ok(true);
            }
            if journal.note_idle(line).is_err() {
                return Err(RunFault::NoMemory);
            }
            Ok(false)
        }
        Err(fault) => Err(fault),
    }
}

/// The command is repeated as long as it has an event; where it has none at first, its line is noted
/// as idle.
fn do_all(
    alloc: Global,
    core: &mut Core,
    journal: &mut Journal,
    line: u32,
    command: &Command,
) -> Result<(), RunFault>
    requires { IsSome journal.old.history.config }
    ensures leaves { Leaves result core.new journal.new.history (all_done line command.now (running core.old journal.old.history)) }
    ensures config { journal.new.history.config ≡ journal.old.history.config }
{
    match do_first(alloc, core, journal, line, command) {
        Ok(true) => repeat(alloc, core, journal, line, command),
        Ok(false) => Ok(()),
        Err(fault) => Err(fault),
    }
}

/// The line is done.
pub fn do_line(
    alloc: Global,
    core: &mut Core,
    journal: &mut Journal,
    line: &StepLine,
) -> Result<(), RunFault>
    requires { IsSome journal.old.history.config }
    ensures leaves { Leaves result core.new journal.new.history (done line.now (running core.old journal.old.history)) }
    ensures config { journal.new.history.config ≡ journal.old.history.config }
{
    match &line.order {
        Order::One(command) => match do_first(alloc, core, journal, line.line, command) {
            Ok(_moved) => Ok(()),
            Err(fault) => Err(fault),
        },
        Order::Settle => do_all(alloc, core, journal, line.line, &Command::Advance),
        Order::Finish(call) => {
            let command = Command::Drive { call: *call };
            do_all(alloc, core, journal, line.line, &command)
        }
    }
}

/// The lines are done in their order.
pub fn do_lines(
    alloc: Global,
    core: &mut Core,
    journal: &mut Journal,
    lines: &[StepLine],
) -> Result<(), RunFault>
    requires { IsSome journal.old.history.config }
    ensures leaves { Leaves result core.new journal.new.history (after_lines lines.now (running core.old journal.old.history)) }
    ensures config { journal.new.history.config ≡ journal.old.history.config }
{
    for line in lines {
        match do_line(alloc, core, journal, line) {
            Ok(()) => {}
            Err(fault) => return Err(fault),
        }
    }
    Ok(())
}

/// What is left after the last line is brought to its end: each call is finished, and then the
/// topology is settled.
pub fn end_all(alloc: Global, core: &mut Core, journal: &mut Journal) -> Result<(), RunFault>
    requires { IsSome journal.old.history.config }
    ensures leaves { Leaves result core.new journal.new.history (ended (running core.old journal.old.history)) }
    ensures config { journal.new.history.config ≡ journal.old.history.config }
{
    match finish_all(alloc, core, journal) {
        Ok(()) => repeat(alloc, core, journal, 0, &Command::Advance),
        Err(fault) => Err(fault),
    }
}

/// Each call is driven to its answer, in the order of their numbers.
fn finish_all(alloc: Global, core: &mut Core, journal: &mut Journal) -> Result<(), RunFault>
    requires { IsSome journal.old.history.config }
    ensures leaves { Leaves result core.new journal.new.history (all_finished LAST_CALL 1 (running core.old journal.old.history)) }
    ensures config { journal.new.history.config ≡ journal.old.history.config }
{
    for number in 0..LAST_CALL {
        let command = Command::Drive {
            call: CallId::new(number + 1),
        };
        match repeat(alloc, core, journal, 0, &command) {
            Ok(()) => {}
            Err(fault) => return Err(fault),
        }
    }
    Ok(())
}
