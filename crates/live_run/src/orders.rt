//! What a session of a live script is to do, done in a book.

ghost use Rattle.std.specs.Prelude.{◌≡◌, ◌≤◌, ◌==◌, ◌++◌, ◌∷◌, [], ℕ, true, false, length, reverse, slice_get, is_some, Some, IfOk, IsErrOf, OnErr, OnOk};
ghost use Rattle.cluster_model.specs.Commands.{chosen};
ghost use Rattle.grid_script.specs.LiveRules.{IsLive};
ghost use Rattle.grid_script.specs.declared.deed.Deed.TheVariants as deeds;
ghost use Rattle.grid_book.specs.Booked.{cluster_of, history_of, with_found};
ghost use Rattle.live_run.specs.Due.{WasFull, command_of};
ghost use Rattle.live_run.specs.Serving.{changes_in, deeds_by, has_answers, home_in, orders_of, place_of};
ghost use Rattle.live_run.specs.Staying.{IsBegun, Stays};

use crate::places::place;
use crate::repeats::do_inner;
use grid_base::limits::MOST_EVENTS;
use grid_base::{Entry, NoMemory, NodeId, SessionId};
use grid_book::{ActFault, Book};
use grid_event::Command;
use grid_script::{Deed, LiveScript};
use std::alloc::Global;

/// The put of an entry at a node, as a command. The only failure is that memory runs out.
pub(crate) fn put_command(
    alloc: Global,
    by: SessionId,
    node: NodeId,
    entry: &Entry,
) -> Result<Command, NoMemory>
    ensures { IfOk result (λ command. command ≡ command_of by node (deeds.Put entry.now)) }
{
    let value = entry.value.copy(alloc)?;
    Ok(Command::Put {
        by,
        node,
        key: entry.key,
        value,
        lifespan: None,
    })
}

/// What a session is to do, as a command at a node. The only failure is that memory runs out.
fn command_of(alloc: Global, by: SessionId, node: NodeId, deed: &Deed) -> Result<Command, NoMemory>
    ensures { IfOk result (λ command. command ≡ command_of by node deed.now) }
{
    match deed {
        Deed::Put(entry) => put_command(alloc, by, node, entry),
        Deed::Erase(key) => {
            let key = *key;
            Ok(Command::Erase { by, node, key })
        }
        Deed::Call(call, request) => {
            let call = *call;
            let request = request.copy(alloc)?;
            Ok(Command::Call {
                by,
                call,
                node,
                request,
            })
        }
    }
}

/// Does the next order of a session at the node where it acts, where that has an event, and tells
/// whether it had. After a fault all is as before.
pub(crate) fn do_order(
    alloc: Global,
    book: &mut Book,
    script: &LiveScript,
    by: SessionId,
    node: NodeId,
    deed: &Deed,
) -> Result<bool, ActFault>
    requires begun { IsBegun script.now book.old }
    requires is_next { slice_get (orders_of script.now by) (length (deeds_by by (reverse book.old.events))) ≡ Some deed.now }
    requires placed { node ≡ place_of script.now (reverse book.old.events) by }
    requires answered { has_answers (reverse book.old.events) by ≡ true }
    ensures begun { IsBegun script.now book.new }
    ensures moved { IfOk result (λ moved. moved ≡ is_some (chosen (cluster_of book.old) (command_of by node deed.now))) }
    ensures added { OnOk result (book.new ≡ with_found book.old (chosen (cluster_of book.old) (command_of by node deed.now))) }
    ensures done { IfOk result (λ moved. moved ≡ true → deeds_by by (reverse book.new.events) ≡ deeds_by by (reverse book.old.events) ++ deed.now ∷ []) }
    ensures stays { (k : ℕ) → (by == k) ≡ false → Stays book.old book.new k }
    ensures changes { changes_in (reverse book.new.events) ≡ changes_in (reverse book.old.events) }
    ensures full { IsErrOf result ActFault.Full → WasFull script.now (history_of book.new) }
    ensures err { OnErr result (book.new ≡ book.old) }
{
    let command = command_of(alloc, by, node, deed)?;
    book.step(alloc, &command)
}

/// Does the next order of a session. As long as it has no event, the topology is brought on; where
/// that has no event left, the order has one.
pub(crate) fn order_due(
    alloc: Global,
    book: &mut Book,
    script: &LiveScript,
    by: SessionId,
    home: NodeId,
    deed: &Deed,
) -> Result<(), ActFault>
    requires live { IsLive script.now }
    requires begun { IsBegun script.now book.old }
    requires session { 1 ≤ by }
    requires home { home ≡ home_in script.now.sessions by }
    requires is_next { slice_get (orders_of script.now by) (length (deeds_by by (reverse book.old.events))) ≡ Some deed.now }
    requires answered { has_answers (reverse book.old.events) by ≡ true }
    ensures begun { IsBegun script.now book.new }
    ensures done { OnOk result (deeds_by by (reverse book.new.events) ≡ deeds_by by (reverse book.old.events) ++ deed.now ∷ []) }
    ensures stays { (k : ℕ) → (by == k) ≡ false → Stays book.old book.new k }
    ensures changes { changes_in (reverse book.new.events) ≡ changes_in (reverse book.old.events) }
    ensures full { IsErrOf result ActFault.Full → WasFull script.now (history_of book.new) }
{
    for _time in 0..MOST_EVENTS + 1 {
        let node = place(book, home);
        match do_order(alloc, book, script, by, node, deed) {
            Ok(true) => return Ok(()),
            Ok(false) => {}
            Err(fault) => return Err(fault),
        }
        match do_inner(alloc, book, script, &Command::Advance) {
            Ok(true) => {}
            Ok(false) => {
                book.kept();
                unreachable!()
            }
            Err(fault) => return Err(fault),
        }
    }
    book.kept();
    unreachable!()
}
