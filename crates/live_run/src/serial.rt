//! What is left of a live run, done on one thread.

ghost use Rattle.std.specs.Prelude.{◌≡◌, ◌+◌, ◌<◌, ◌==◌, ℕ, true, false, length, reverse, slice_index_or, IsErrOf, OnOk};
ghost use Rattle.grid_book.specs.Booked.{history_of};
ghost use Rattle.grid_script.specs.LiveRules.{IsLive};
ghost use Rattle.live_run.specs.Due.{WasFull};
ghost use Rattle.live_run.specs.Serving.{IsPartlyServed, IsServed, changes_in, deeds_by, has_answers};
ghost use Rattle.live_run.specs.Sharing.{IsServing};
ghost use Rattle.live_run.specs.Staying.{IsBegun, IsFinishedBy, IsSessionOf, Stays};

use crate::changes::do_change;
use crate::orders::order_due;
use crate::repeats::repeat;
use crate::turns::last_call;
use grid_base::SessionId;
use grid_book::{ActFault, Book};
use grid_event::Command;
use grid_script::{Deed, LiveScript, Session};
use std::alloc::Global;

/// Brings a live run to its end: the changes that are left, then session by session the orders
/// that are left, each call with its answer, and then the topology. With Ok the book serves the
/// script; whatever comes, it serves a part of it.
pub(crate) fn finish_serial(
    alloc: Global,
    book: &mut Book,
    script: &LiveScript,
    done: &[usize],
    moved: usize,
) -> Result<(), ActFault>
    requires live { IsLive script.now }
    requires serving { IsServing script.now book.old done.now moved }
    ensures ok { OnOk result (IsServed script.now (history_of book.new)) }
    ensures partly { IsPartlyServed script.now (history_of book.new) }
    ensures full { IsErrOf result ActFault.Full → WasFull script.now (history_of book.new) }
{
    finish_changes(alloc, book, script, moved)?;
    finish_sessions(alloc, book, script, done)?;
    repeat(alloc, book, script, &Command::Advance)?;
    book.kept();
    Ok(())
}

/// Does the changes that are left, of which so many were made.
fn finish_changes(
    alloc: Global,
    book: &mut Book,
    script: &LiveScript,
    moved: usize,
) -> Result<(), ActFault>
    requires begun { IsBegun script.now book.old }
    requires moved { moved ≡ length (changes_in (reverse book.old.events)) }
    ensures begun { IsBegun script.now book.new }
    ensures done { OnOk result (changes_in (reverse book.new.events) ≡ script.now.changes) }
    ensures stays { (k : ℕ) → Stays book.old book.new k }
    ensures full { IsErrOf result ActFault.Full → WasFull script.now (history_of book.new) }
{
    let changes = script.changes.as_slice();
    for place in moved..changes.len() {
        do_change(alloc, book, script, &changes[place])?;
    }
    Ok(())
}

/// Finishes each session, of which each did so many orders.
fn finish_sessions(
    alloc: Global,
    book: &mut Book,
    script: &LiveScript,
    done: &[usize],
) -> Result<(), ActFault>
    requires begun { IsBegun script.now book.old }
    requires counts { (k : ℕ) → k < length script.now.sessions → slice_index_or done.now k 0 ≡ length (deeds_by (k + 1) (reverse book.old.events)) }
    requires all { length done.now ≡ length script.now.sessions }
    ensures begun { IsBegun script.now book.new }
    ensures done { OnOk result ((k : ℕ) → k < length script.now.sessions → IsFinishedBy script.now book.new (k + 1)) }
    ensures changes { changes_in (reverse book.new.events) ≡ changes_in (reverse book.old.events) }
    ensures full { IsErrOf result ActFault.Full → WasFull script.now (history_of book.new) }
{
    let sessions = script.sessions.as_slice();
    for place in 0..sessions.len() {
        finish_session(alloc, book, script, &sessions[place], done[place])?;
    }
    Ok(())
}

/// Does the orders that are left of a session, which did so many, each with the answers of the calls
/// before; and then drives its last call to its answer.
fn finish_session(
    alloc: Global,
    book: &mut Book,
    script: &LiveScript,
    session: &Session,
    done: usize,
) -> Result<(), ActFault>
    requires live { IsLive script.now }
    requires begun { IsBegun script.now book.old }
    requires there { IsSessionOf script.now session.now }
    requires count { done ≡ length (deeds_by session.now.number (reverse book.old.events)) }
    ensures begun { IsBegun script.now book.new }
    ensures finished { OnOk result (IsFinishedBy script.now book.new session.now.number) }
    ensures stays { (k : ℕ) → (session.now.number == k) ≡ false → Stays book.old book.new k }
    ensures changes { changes_in (reverse book.new.events) ≡ changes_in (reverse book.old.events) }
    ensures full { IsErrOf result ActFault.Full → WasFull script.now (history_of book.new) }
{
    let orders = session.orders.as_slice();
    for place in done..orders.len() {
        answer_last(alloc, book, script, session.number, &orders[..place])?;
        order_due(
            alloc,
            book,
            script,
            session.number,
            session.home,
            &orders[place],
        )?;
    }
    answer_last(alloc, book, script, session.number, orders)
}

/// Drives the call that a session made last to its answer, where that is the last of what it did.
fn answer_last(
    alloc: Global,
    book: &mut Book,
    script: &LiveScript,
    by: SessionId,
    did: &[Deed],
) -> Result<(), ActFault>
    requires begun { IsBegun script.now book.old }
    requires did { did.now ≡ deeds_by by (reverse book.old.events) }
    ensures begun { IsBegun script.now book.new }
    ensures answered { OnOk result (has_answers (reverse book.new.events) by ≡ true) }
    ensures stays { (k : ℕ) → Stays book.old book.new k }
    ensures changes { changes_in (reverse book.new.events) ≡ changes_in (reverse book.old.events) }
    ensures full { IsErrOf result ActFault.Full → WasFull script.now (history_of book.new) }
{
    let call = match last_call(did) {
        Some(call) => call,
        None => return Ok(()),
    };
    repeat(alloc, book, script, &Command::Drive { call })?;
    book.kept();
    Ok(())
}
