//! The load of a live script, put into a new book.

ghost use Rattle.std.specs.Prelude.{◌≡◌, ◌+◌, ◌<◌, [], length, IsErrOf, OnErr, OnOk};
ghost use Rattle.grid_book.specs.Booked.{history_of};
ghost use Rattle.grid_script.specs.LiveRules.{IsLive};
ghost use Rattle.live_run.specs.Due.{WasFull};
ghost use Rattle.live_run.specs.Serving.{IsPartlyServed};
ghost use Rattle.live_run.specs.Staying.{IsBegun, with_load};

use crate::orders::put_command;
use grid_base::{NodeId, SessionId};
use grid_book::{ActFault, Book};
use grid_script::LiveScript;
use std::alloc::Global;

/// Puts the entries of the load at node 0, each of which has an event.
pub(crate) fn do_load(alloc: Global, book: &mut Book, script: &LiveScript) -> Result<(), ActFault>
    requires live { IsLive script.now }
    requires new { book.old ≡ record { config = script.now.config; events = [] } }
    ensures begun { OnOk result (IsBegun script.now book.new) }
    ensures done { OnOk result (book.new ≡ with_load script.now (length script.now.load)) }
    ensures partly { IsPartlyServed script.now (history_of book.new) }
    ensures full { IsErrOf result ActFault.Full → WasFull script.now (history_of book.new) }
{
    for place in 0..script.load.as_slice().len() {
        put(alloc, book, script, place)?;
    }
    Ok(())
}

/// Puts one entry of the load, where those before it are put.
fn put(alloc: Global, book: &mut Book, script: &LiveScript, place: usize) -> Result<(), ActFault>
    requires live { IsLive script.now }
    requires within { place < length script.now.load }
    requires front { book.old ≡ with_load script.now place }
    ensures done { OnOk result (book.new ≡ with_load script.now (place + 1)) }
    ensures err { OnErr result (book.new ≡ book.old) }
    ensures full { IsErrOf result ActFault.Full → WasFull script.now (history_of book.new) }
{
    let entry = &script.load.as_slice()[place];
    let command = put_command(alloc, SessionId::new(0), NodeId::new(0), entry)?;
    book.kept();
    match book.step(alloc, &command) {
        Ok(true) => Ok(()),
        Ok(false) => unreachable!(),
        Err(fault) => Err(fault),
    }
}
