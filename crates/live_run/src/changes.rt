//! The changes of the membership that a live script orders, done in a book.

ghost use Rattle.std.specs.Prelude.{◌≡◌, ◌++◌, ◌∷◌, [], ℕ, length, reverse, slice_get, Some, IsErrOf, OnErr, OnOk};
ghost use Rattle.grid_book.specs.Booked.{history_of};
ghost use Rattle.grid_script.specs.LiveRules.{IsLive};
ghost use Rattle.live_run.specs.Due.{WasFull, change_command};
ghost use Rattle.live_run.specs.Serving.{changes_in};
ghost use Rattle.live_run.specs.Staying.{IsBegun, Stays};

use grid_book::{ActFault, Book};
use grid_event::Command;
use grid_script::{LiveScript, Member};
use std::alloc::Global;

/// A change as a command.
fn change_command(change: &Member) -> Command
    ensures { result ≡ change_command change.now }
{
    match change {
        Member::Join(node) => Command::Join { node: *node },
        Member::Depart(node) => Command::Depart { node: *node },
    }
}

/// Does the next change, which has an event. After a fault all is as before.
pub(crate) fn do_change(
    alloc: Global,
    book: &mut Book,
    script: &LiveScript,
    change: &Member,
) -> Result<(), ActFault>
    requires live { IsLive script.now }
    requires begun { IsBegun script.now book.old }
    requires is_next { slice_get script.now.changes (length (changes_in (reverse book.old.events))) ≡ Some change.now }
    ensures begun { IsBegun script.now book.new }
    ensures done { OnOk result (changes_in (reverse book.new.events) ≡ changes_in (reverse book.old.events) ++ change.now ∷ []) }
    ensures stays { (k : ℕ) → Stays book.old book.new k }
    ensures full { IsErrOf result ActFault.Full → WasFull script.now (history_of book.new) }
    ensures err { OnErr result (book.new ≡ book.old) }
{
    book.kept();
    let command = change_command(change);
    match book.step(alloc, &command) {
        Ok(true) => Ok(()),
        Ok(false) => unreachable!(),
        Err(fault) => Err(fault),
    }
}
