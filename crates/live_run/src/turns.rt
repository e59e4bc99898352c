//! What a session of a live run does next.

ghost use Rattle.std.specs.Prelude.{◌≡◌, ◌+◌, ◌==◌, ℕ, true, false, None, length, reverse, IfOk, IfSome, IsErrOf, OnErr};
ghost use Rattle.grid_book.specs.Booked.{history_of};
ghost use Rattle.live_run.specs.Due.{WasFull};
ghost use Rattle.live_run.specs.Serving.{changes_in, deeds_by, has_answers};
ghost use Rattle.live_run.specs.Staying.{IsBegun, IsSessionOf, Stays};
ghost use Rattle.live_run.specs.Turns.{EndsInCall, ordered};

use crate::orders::do_order;
use crate::places::place;
use crate::repeats::do_inner;
use grid_base::{CallId, SegmentId, SessionId};
use grid_book::{ActFault, Book};
use grid_event::Command;
use grid_script::{Deed, LiveScript, Session};
use std::alloc::Global;

/// What a turn of a session was.
#[derive(Clone, Copy, Debug, PartialEq, Eq)]
pub(crate) enum Turn {
    /// Its next order was done.
    Ordered,
    /// Its call was driven on.
    Driven,
    /// Nothing may be done for it now.
    Idle,
    /// All its orders are done, and its calls answered.
    Over,
}

/// Drives the call on that a session waits for, or does its next order, where it did so many.
pub(crate) fn take_turn(
    alloc: Global,
    book: &mut Book,
    script: &LiveScript,
    session: &Session,
    done: usize,
) -> Result<Turn, ActFault>
    requires begun { IsBegun script.now book.old }
    requires there { IsSessionOf script.now session.now }
    requires count { done ≡ length (deeds_by session.now.number (reverse book.old.events)) }
    ensures begun { IsBegun script.now book.new }
    ensures count { IfOk result (λ turn. done + ordered turn ≡ length (deeds_by session.now.number (reverse book.new.events))) }
    ensures err { OnErr result (done ≡ length (deeds_by session.now.number (reverse book.new.events))) }
    ensures stays { (k : ℕ) → (session.now.number == k) ≡ false → Stays book.old book.new k }
    ensures changes { changes_in (reverse book.new.events) ≡ changes_in (reverse book.old.events) }
    ensures full { IsErrOf result ActFault.Full → WasFull script.now (history_of book.new) }
{
    let orders = session.orders.as_slice();
    if let Some(call) = open_call(book, script, session.number, &orders[..done]) {
        let driven = drive(alloc, book, script, call)?;
        return Ok(if driven { Turn::Driven } else { Turn::Idle });
    }
    let Some(deed) = orders.get(done) else {
        return Ok(Turn::Over);
    };
    let node = place(book, session.home);
    let moved = do_order(alloc, book, script, session.number, node, deed)?;
    Ok(if moved { Turn::Ordered } else { Turn::Idle })
}

/// The call that a session waits for: that of the last of what it did, where it isn't answered.
fn open_call(book: &Book, _script: &LiveScript, by: SessionId, did: &[Deed]) -> Option<CallId>
    requires begun { IsBegun _script.now book.now }
    requires did { did.now ≡ deeds_by by (reverse book.now.events) }
    ensures { result ≡ None → has_answers (reverse book.now.events) by ≡ true }
{
    book.kept();
    let call = match last_call(did) {
        Some(call) => call,
        None => return None,
    };
    if !book.is_unanswered(call) {
        return None;
    }
    Some(call)
}

/// The call that the last of some deeds makes, where it makes one.
pub(crate) fn last_call(did: &[Deed]) -> Option<CallId>
    ensures none { result ≡ None → (call : ℕ) → EndsInCall did.now call → ⊥ }
    ensures some { IfSome result (EndsInCall did.now) }
{
    if did.is_empty() {
        return None;
    }
    match &did[did.len() - 1] {
        Deed::Put(_entry) => None,
        Deed::Erase(_key) => None,
        Deed::Call(call, _request) => Some(*call),
    }
}

/// Does the first that there is for a call: its answer, a take of the least segment, a round. Tells
/// whether there was one.
fn drive(
    alloc: Global,
    book: &mut Book,
    script: &LiveScript,
    call: CallId,
) -> Result<bool, ActFault>
    requires begun { IsBegun script.now book.old }
    ensures begun { IsBegun script.now book.new }
    ensures stays { (k : ℕ) → Stays book.old book.new k }
    ensures changes { changes_in (reverse book.new.events) ≡ changes_in (reverse book.old.events) }
    ensures full { IsErrOf result ActFault.Full → WasFull script.now (history_of book.new) }
{
    if do_inner(alloc, book, script, &Command::Answer { call })? {
        return Ok(true);
    }
    for number in 0..script.config.segments {
        let segment = SegmentId::new(number);
        if do_inner(alloc, book, script, &Command::Take { call, segment })? {
            return Ok(true);
        }
    }
    do_inner(alloc, book, script, &Command::Round { call })
}
