//! Commands that no script orders, done once or until they have no event.

ghost use Rattle.std.specs.Prelude.{◌≡◌, ℕ, true, reverse, is_some, None, IfOk, IsErrOf, OnErr, OnOk};
ghost use Rattle.cluster_model.specs.Commands.{chosen};
ghost use Rattle.grid_book.specs.Booked.{cluster_of, history_of, with_found};
ghost use Rattle.live_run.specs.Due.{WasFull, is_inner};
ghost use Rattle.live_run.specs.Serving.{changes_in};
ghost use Rattle.live_run.specs.Staying.{IsBegun, Stays};

use grid_base::limits::MOST_EVENTS;
use grid_book::{ActFault, Book, Made};
use grid_event::Command;
use grid_script::LiveScript;
use std::alloc::Global;

/// Does the command's event, where it has one, and tells whether it had.
pub(crate) fn do_inner(
    alloc: Global,
    book: &mut Book,
    script: &LiveScript,
    command: &Command,
) -> Result<bool, ActFault>
    requires inner { is_inner command.now ≡ true }
    requires begun { IsBegun script.now book.old }
    ensures begun { IsBegun script.now book.new }
    ensures moved { IfOk result (λ moved. moved ≡ is_some (chosen (cluster_of book.old) command.now)) }
    ensures added { OnOk result (book.new ≡ with_found book.old (chosen (cluster_of book.old) command.now)) }
    ensures stays { (k : ℕ) → Stays book.old book.new k }
    ensures changes { changes_in (reverse book.new.events) ≡ changes_in (reverse book.old.events) }
    ensures full { IsErrOf result ActFault.Full → WasFull script.now (history_of book.new) }
    ensures err { OnErr result (book.new ≡ book.old) }
{
    book.kept();
    book.step(alloc, command)
}

/// Does the end of the unit whose piece was made, where it may end.
pub(crate) fn do_hand(
    alloc: Global,
    book: &mut Book,
    script: &LiveScript,
    made: Made,
) -> Result<(), ActFault>
    requires begun { IsBegun script.now book.old }
    ensures begun { IsBegun script.now book.new }
    ensures stays { (k : ℕ) → Stays book.old book.new k }
    ensures changes { changes_in (reverse book.new.events) ≡ changes_in (reverse book.old.events) }
    ensures full { IsErrOf result ActFault.Full → WasFull script.now (history_of book.new) }
{
    book.kept();
    match book.hand(alloc, made) {
        Ok(_found) => Ok(()),
        Err(fault) => Err(fault),
    }
}

/// The command is repeated as long as it has an event. It ends, since a journal has room for
/// 1,000,000 events.
pub(crate) fn repeat(
    alloc: Global,
    book: &mut Book,
    script: &LiveScript,
    command: &Command,
) -> Result<(), ActFault>
    requires inner { is_inner command.now ≡ true }
    requires begun { IsBegun script.now book.old }
    ensures begun { IsBegun script.now book.new }
    ensures done { OnOk result (chosen (cluster_of book.new) command.now ≡ None) }
    ensures stays { (k : ℕ) → Stays book.old book.new k }
    ensures changes { changes_in (reverse book.new.events) ≡ changes_in (reverse book.old.events) }
    ensures full { IsErrOf result ActFault.Full → WasFull script.now (history_of book.new) }
{
    for _time in 0..MOST_EVENTS + 1 {
        match do_inner(alloc, book, script, command) {
            Ok(true) => {}
            Ok(false) => return Ok(()),
            Err(fault) => return Err(fault),
        }
    }
    book.kept();
    unreachable!()
}
