//! One event of a run, in a core and the journal that it replays.

ghost use Rattle.std.specs.Prelude.{◌≡◌, ◌<◌, false, true, is_some, IfOk, IsErrOf, IsSome, OnErr, OnOk};
ghost use Rattle.cluster_model.specs.Commands.{chosen};
ghost use Rattle.cluster_model.specs.Step.{allowed, changed};
ghost use Rattle.grid_event.specs.Histories.{passes_limit, with_event};
ghost use Rattle.grid_book.specs.Booked.{changed_by, passes_any, with_any};

use crate::act_fault::ActFault;
use cluster_core::Core;
use grid_event::{Command, Event, Journal, PushFault};
use std::alloc::Global;

/// Does the event that the command chooses, and tells whether there was one; the journal has it
/// behind the others. Full comes exactly where the event would pass a limit of the journal; after a
/// fault the core and the history are as before.
pub fn step(
    alloc: Global,
    core: &mut Core,
    journal: &mut Journal,
    command: &Command,
) -> Result<bool, ActFault>
    requires { IsSome journal.old.history.config }
    ensures moved { IfOk result (λ moved. moved ≡ is_some (chosen core.old command.now)) }
    ensures did { OnOk result (core.new ≡ changed_by core.old (chosen core.old command.now)) }
    ensures told { OnOk result (journal.new.history ≡ with_any journal.old.history (chosen core.old command.now)) }
    ensures room { OnOk result (passes_any journal.old.history (chosen core.old command.now) ≡ false) }
    ensures full { IsErrOf result ActFault.Full → passes_any journal.old.history (chosen core.old command.now) ≡ true }
    ensures err { OnErr result (core.new ≡ core.old) }
    ensures untold { OnErr result (journal.new.history ≡ journal.old.history) }
{
    let Some(event) = core.choose(alloc, command)? else {
        return Ok(false);
    };
    happen(alloc, core, journal, event)?;
    Ok(true)
}

/// Does the event, which may happen; the journal has it behind the others. Full comes exactly where
/// the event would pass a limit of the journal; after a fault the core and the history are as
/// before.
pub(crate) fn happen(
    alloc: Global,
    core: &mut Core,
    journal: &mut Journal,
    event: Event,
) -> Result<(), ActFault>
    requires may { allowed core.old event ≡ true }
    requires started { IsSome journal.old.history.config }
    ensures did { OnOk result (core.new ≡ changed core.old event) }
    ensures told { OnOk result (journal.new.history ≡ with_event journal.old.history event) }
    ensures room { OnOk result (passes_limit journal.old.history event ≡ false) }
    ensures full { IsErrOf result ActFault.Full → passes_limit journal.old.history event ≡ true }
    ensures err { OnErr result (core.new ≡ core.old) }
    ensures untold { OnErr result (journal.new.history ≡ journal.old.history) }
{
    prepare(journal, &event)?;
    core.step(alloc, &event)?;
    journal.push_reserved(event);
    Ok(())
}

/// Sees that the journal has room for the event, and a place for it. Full comes exactly where the
/// event would pass a limit of the journal. The history is as before.
pub(crate) fn prepare(journal: &mut Journal, event: &Event) -> Result<(), ActFault>
    requires { IsSome journal.old.history.config }
    ensures same { journal.new.history ≡ journal.old.history }
    ensures ok { OnOk result (0 < journal.new.spare) }
    ensures room { OnOk result (passes_limit journal.old.history event.now ≡ false) }
    ensures full { IsErrOf result ActFault.Full → passes_limit journal.old.history event.now ≡ true }
{
    match journal.prepare(event) {
        Ok(()) => Ok(()),
        Err(PushFault::Full) => Err(ActFault::Full),
        Err(PushFault::NoMemory) => Err(ActFault::NoMemory),
    }
}
