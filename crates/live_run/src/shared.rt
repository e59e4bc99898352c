//! What the threads of a live run share.

ghost use Rattle.std.specs.Prelude.{◌≡◌, true, Some};
ghost use Rattle.grid_book.specs.Booked.{history_of};
ghost use Rattle.grid_script.specs.Scripts.{Lives};
ghost use Rattle.live_run.specs.Due.{WasFull, is_inner};
ghost use Rattle.live_run.specs.Sharing.{IsServing, no_script};

use crate::changes::do_change;
use crate::repeats::{do_hand, do_inner};
use crate::turns::{Turn, take_turn};
use grid_base::{NoMemory, NodeId, UnitId};
use grid_book::{ActFault, Book, Job, Made};
use grid_event::Command;
use grid_script::LiveScript;
use std::alloc::Global;
use std::marker::{Brand, Model, PhantomData};

/// The script of a run. It stands for the script handed in, in the type of what is locked.
pub(crate) trait Scripted {
    ghost script: { Lives };
}

impl Scripted for Brand {
    ghost script = { no_script };
}

/// What an actor saw when it looked, and did.
#[derive(Clone, Copy, Debug, PartialEq, Eq)]
pub(crate) enum Look {
    /// It did something.
    Acted,
    /// There was nothing to do for it, yet.
    Idle,
    /// It is done.
    Over,
}

/// What a worker is to do next.
#[derive(Drop)]
pub(crate) enum Next {
    /// It makes this piece.
    Job(Job),
    /// It did something.
    Acted,
    /// There was nothing to do for it, yet.
    Idle,
    /// It is done.
    Over,
}

/// The book of a run beside its script; how many of its orders each session did, and how many
/// changes were made; how many sessions are at work; the units whose pieces are being made; and the
/// stop mark with the first fault.
#[derive(Drop)]
pub(crate) struct Shared<'a, B: Scripted> {
    book: Book,
    script: &'a LiveScript,
    done: Vec<usize>,
    moved: usize,
    at_work: usize,
    out: Vec<UnitId>,
    stop: bool,
    fault: Option<ActFault>,
    of: PhantomData<B>,
}

impl<'a, B: Scripted> Model for Shared<'a, B> {
    ghost use Rattle.std.specs.Coded.{codes};
    ghost use Rattle.pipeline_expr.specs.contracts.expr.Expr as exprs;
    ghost use Rattle.grid_book.specs.Booked.{Booked};
    ghost use Rattle.live_run.specs.Sharing.{IsShared};

    ghost Value = { Booked };

    ghost coded = { Prim.hlevel (codes, exprs.the_row.coded) };

    ghost view = { λ shared. shared.book };

    ghost invariant = { λ shared. IsShared B.script shared.script.now shared.book shared.done.items shared.moved shared.stop shared.fault };
}

impl<'a, B: Scripted> Shared<'a, B> {
    /// What is shared at the start: a book with the load, for sessions that did nothing yet.
    pub(crate) fn new(
        alloc: Global,
        book: Book,
        script: &'a LiveScript,
        done: Vec<usize>,
    ) -> Shared<'a, B>
        requires script { script.now ≡ B.script }
        requires serving { IsServing B.script book done.items 0 }
    {
        Shared {
            book,
            script,
            at_work: done.len(),
            done,
            moved: 0,
            out: Vec::new(alloc),
            stop: false,
            fault: None,
            of: PhantomData,
        }
    }

    /// Stops the run.
    pub(crate) fn set_stop(&mut self) {
        self.stop = true;
    }

    /// A session that has nothing left to do leaves.
    pub(crate) fn leave(&mut self) {
        self.at_work = self.at_work.saturating_sub(1);
    }

    /// Drives the call of a session on, or does its next order.
    pub(crate) fn serve_session(&mut self, alloc: Global, place: usize) -> Look {
        if self.stop {
            return Look::Over;
        }
        let script = self.script;
        let sessions = script.sessions.as_slice();
        if place >= sessions.len() {
            return Look::Over;
        }
        let done = self.done[place];
        match take_turn(alloc, &mut self.book, script, &sessions[place], done) {
            Ok(Turn::Ordered) => {
                self.book.kept();
                self.done[place] = done + 1;
                Look::Acted
            }
            Ok(Turn::Driven) => Look::Acted,
            Ok(Turn::Idle) => Look::Idle,
            Ok(Turn::Over) => Look::Over,
            Err(fault) => {
                self.keep(fault);
                Look::Over
            }
        }
    }

    /// Announces the next topology, or makes the next change.
    pub(crate) fn coordinate(&mut self, alloc: Global) -> Look {
        match self.act(alloc, &Command::Announce) {
            Look::Idle => {}
            look => return look,
        }
        self.change(alloc)
    }

    /// Makes the next change; where all are made, it is over when all sessions have left.
    fn change(&mut self, alloc: Global) -> Look {
        if self.is_over() {
            return Look::Over;
        }
        if self.stop {
            return Look::Over;
        }
        let script = self.script;
        let changes = script.changes.as_slice();
        let moved = self.moved;
        if moved >= changes.len() {
            return Look::Idle;
        }
        match do_change(alloc, &mut self.book, script, &changes[moved]) {
            Ok(()) => {
                self.moved = moved + 1;
                Look::Acted
            }
            Err(fault) => {
                self.keep(fault);
                Look::Over
            }
        }
    }

    /// The next job of a node that isn't out; where there is none, what else there is at the node is
    /// done.
    pub(crate) fn next(&mut self, alloc: Global, node: NodeId) -> Next {
        if self.is_over() {
            return Next::Over;
        }
        match self.job(alloc, node) {
            Ok(Some(job)) => return Next::Job(job),
            Ok(None) => {}
            Err(NoMemory) => {
                self.keep(ActFault::NoMemory);
                return Next::Over;
            }
        }
        match self.act(alloc, &Command::Serve { node }) {
            Look::Acted => Next::Acted,
            Look::Idle => Next::Idle,
            Look::Over => Next::Over,
        }
    }

    /// Takes back what was made of a job.
    pub(crate) fn hand(&mut self, alloc: Global, made: Result<Made, NoMemory>) {
        if self.stop {
            return;
        }
        let made = match made {
            Ok(made) => made,
            Err(NoMemory) => {
                self.keep(ActFault::NoMemory);
                return;
            }
        };
        bring_back(&mut self.out, made.unit());
        match do_hand(alloc, &mut self.book, self.script, made) {
            Ok(()) => {}
            Err(fault) => self.keep(fault),
        }
    }

    /// Whether the run is stopped, or nothing is left to do for workers.
    fn is_over(&self) -> bool {
        if self.stop {
            return true;
        }
        let script = self.script;
        self.at_work == 0 && self.moved >= script.changes.len()
    }

    /// Does the event of a command that no script orders.
    fn act(&mut self, alloc: Global, command: &Command) -> Look
        requires { is_inner command.now ≡ true }
    {
        if self.stop {
            return Look::Over;
        }
        match do_inner(alloc, &mut self.book, self.script, command) {
            Ok(true) => Look::Acted,
            Ok(false) => Look::Idle,
            Err(fault) => {
                self.keep(fault);
                Look::Over
            }
        }
    }

    /// The job of the least unit at the node that is ready and isn't out; it is out then. The only
    /// failure is that memory runs out.
    fn job(&mut self, alloc: Global, node: NodeId) -> Result<Option<Job>, NoMemory> {
        let mut before = UnitId::new(0);
        for _ in 0..self.out.len() + 1 {
            let Some(unit) = self.book.ready_behind(node, before) else {
                return Ok(None);
            };
            if !self.out.contains(&unit) {
                break;
            }
            before = unit;
        }
        let Some(job) = self.book.job_behind(alloc, node, before)? else {
            return Ok(None);
        };
        if self.out.push(job.unit).is_err() {
            return Err(NoMemory);
        }
        Ok(Some(job))
    }

    /// Keeps the first fault, and stops the run.
    fn keep(&mut self, fault: ActFault)
        requires cause { fault ≡ ActFault.Full → WasFull B.script (history_of self.old) }
    {
        self.stop = true;
        if self.fault.is_none() {
            self.fault = Some(fault);
        }
    }

    /// The book, how many orders each session did, how many changes were made, and the first fault.
    pub(crate) fn into_parts(self) -> (Book, Vec<usize>, usize, Option<ActFault>)
        ensures serving { IsServing B.script result.0 result.1.items result.2 }
        ensures full { result.3 ≡ Some ActFault.Full → WasFull B.script (history_of result.0) }
    {
        let Shared {
            book,
            done,
            moved,
            fault,
            ..
        } = self;
        (book, done, moved, fault)
    }
}

/// The piece of the unit isn't being made any more.
fn bring_back(out: &mut Vec<UnitId>, unit: UnitId) {
    if let Some(place) = out.iter().position(|other| *other == unit) {
        out.swap_remove(place);
    }
}
