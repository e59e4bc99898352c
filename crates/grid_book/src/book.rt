//! The book of a run.

ghost use Rattle.std.specs.Prelude.{◌≡◌, ◌≤◌, ◌↔◌, ℕ, [], false, length, true, None, Some, is_some, IfOk, IfSome, IsErrOf, OnErr, OnOk};
ghost use Rattle.std.specs.FinSet as set_of;
ghost use Rattle.grid_base.specs.declared.limits.TheConstants.{MOST_EVENTS};
ghost use Rattle.grid_event.specs.Configs.{is_config};
ghost use Rattle.grid_event.specs.declared.event.Event.TheVariants as events;
ghost use Rattle.pipeline_split.specs.Pieces as pieces;
ghost use Rattle.topology_coord.specs.Coordination.{lives};
ghost use Rattle.cluster_laws.specs.Laws.{fits_journal};
ghost use Rattle.cluster_model.specs.Commands.{chosen, if_allowed, is_unanswered};
ghost use Rattle.cluster_model.specs.State.{call_of, start};
ghost use Rattle.cluster_model.specs.Step.{allowed, changed, is_run, runs};
ghost use Rattle.cluster_core.specs.Parts.{piece_of, ready_behind};
ghost use Rattle.grid_book.specs.Booked.{cluster_of, history_of, is_full_for, with_found};
ghost use Rattle.grid_book.specs.Jobs.{IsJobOf};

use crate::act_fault::ActFault;
use crate::acts::{happen, prepare, step};
use crate::job::Job;
use crate::made::Made;
use cluster_core::Core;
use grid_base::{CallId, NoMemory, NodeId, NodeSet, UnitId};
use grid_event::{Command, Config, Event, Journal};
use pipeline_split::split;
use std::alloc::Global;
use std::marker::Model;

/// A run of a cluster: the journal, whose events each may happen where they stand, and the core
/// that is the cluster after them. Contracts see the settings and the events.
#[derive(Drop)]
pub struct Book {
    config: Config,
    core: Core,
    journal: Journal,
}

impl Model for Book {
    ghost use Rattle.std.specs.Coded.{codes};
    ghost use Rattle.pipeline_expr.specs.contracts.expr.Expr as exprs;
    ghost use Rattle.grid_book.specs.Booked.{Booked};

    ghost Value = { Booked };

    ghost coded = { Prim.hlevel (codes, exprs.the_row.coded) };

    ghost use Rattle.grid_book.specs.Insides.{booked_of, IsBook};

    ghost view = { booked_of };

    ghost invariant = { IsBook };
}

impl Book {
    /// The book of a run that begins, with these settings and without events. The only failure is
    /// that memory runs out.
    pub fn new(alloc: Global, config: &Config) -> Result<Book, NoMemory>
        requires { is_config config.now ≡ true }
        ensures { IfOk result (λ book. book ≡ record { config = config.now; events = [] }) }
    {
        let core = Core::new(alloc, config)?;
        let mut journal = Journal::new(alloc);
        journal.start(*config);
        Ok(Book {
            config: *config,
            core,
            journal,
        })
    }

    /// The journal: the settings and the events, without idle notes. Each event may happen where it
    /// stands, and the settings are in their limits.
    pub fn journal(&self) -> &Journal
        ensures history { result.now.history ≡ history_of self.now }
        ensures run { is_run (history_of self.now) ≡ true }
        ensures limits { is_config self.now.config ≡ true }
    {
        &self.journal
    }

    /// The journal alone, of which the same is known.
    pub fn into_journal(self) -> Journal
        ensures history { result.history ≡ history_of self }
        ensures run { is_run (history_of self) ≡ true }
        ensures limits { is_config self.config ≡ true }
    {
        let Book { journal, .. } = self;
        journal
    }

    /// What is known of each book: its settings are in their limits, each of its events may happen
    /// where it stands, and they are within the limits of a journal. It does nothing.
    pub fn kept(&self)
        ensures limits { is_config self.now.config ≡ true }
        ensures run { runs (start self.now.config) self.now.events ≡ true }
        ensures few { length self.now.events ≤ MOST_EVENTS }
        ensures fits { fits_journal self.now.events ≡ true }
    {
        let _events = self.journal.len();
        let _weight = self.journal.weight();
    }

    /// The live nodes.
    pub fn live(&self) -> NodeSet
        ensures { (n : ℕ) → set_of.contains result n ≡ lives (cluster_of self.now).holding.coord n }
    {
        self.core.live()
    }

    /// Whether the call was made and isn't answered.
    pub fn is_unanswered(&self, call: CallId) -> bool
        ensures { result ≡ is_unanswered (call_of (cluster_of self.now).calling call) }
    {
        match self.core.call(call) {
            None => false,
            Some(call) => call.is_unanswered(),
        }
    }

    /// Does the event that the command chooses, and tells whether there was one. Full comes exactly
    /// where the event would pass a limit of the journal; after a fault all is as before.
    pub fn step(&mut self, alloc: Global, command: &Command) -> Result<bool, ActFault>
        ensures moved { IfOk result (λ moved. moved ≡ is_some (chosen (cluster_of self.old) command.now)) }
        ensures added { OnOk result (self.new ≡ with_found self.old (chosen (cluster_of self.old) command.now)) }
        ensures room { OnOk result (is_full_for self.old (chosen (cluster_of self.old) command.now) ≡ false) }
        ensures full { IsErrOf result ActFault.Full → is_full_for self.old (chosen (cluster_of self.old) command.now) ≡ true }
        ensures err { OnErr result (self.new ≡ self.old) }
    {
        let moved = step(alloc, &mut self.core, &mut self.journal, command)?;
        Ok(moved)
    }

    /// Does the event that the command chooses, and tells it. Full comes exactly where the event
    /// would pass a limit of the journal; after a fault all is as before.
    pub fn act(&mut self, alloc: Global, command: &Command) -> Result<Option<Event>, ActFault>
        ensures chosen { IfOk result (λ found. found ≡ chosen (cluster_of self.old) command.now) }
        ensures added { IfOk result (λ found. self.new ≡ with_found self.old found) }
        ensures room { IfOk result (λ found. is_full_for self.old found ≡ false) }
        ensures full { IsErrOf result ActFault.Full → is_full_for self.old (chosen (cluster_of self.old) command.now) ≡ true }
        ensures err { OnErr result (self.new ≡ self.old) }
    {
        let Some(event) = self.core.choose(alloc, command)? else {
            return Ok(None);
        };
        let copy = event.copy(alloc)?;
        happen(alloc, &mut self.core, &mut self.journal, event)?;
        Ok(Some(copy))
    }

    /// The least unit of a reduction with a number above this one that is at the node and may end.
    /// None comes exactly where there is none. It takes no memory.
    pub fn ready_behind(&self, node: NodeId, number: UnitId) -> Option<UnitId>
        ensures { result ≡ ready_behind (cluster_of self.now) node number }
    {
        self.core.ready_behind(node, number)
    }

    /// The job of the least unit of a reduction that is at the node and may end. None comes exactly
    /// where there is none. The only failure is that memory runs out.
    pub fn job(&self, alloc: Global, node: NodeId) -> Result<Option<Job>, NoMemory>
        ensures none { IfOk result (λ job. (job ≡ None) ↔ (ready_behind (cluster_of self.now) node 0 ≡ None)) }
        ensures some { IfOk result (λ job. IfSome job (λ job. IsJobOf (cluster_of self.now) node 0 job)) }
    {
        self.job_behind(alloc, node, UnitId::new(0))
    }

    /// The job of the least such unit with a number above this one. None comes exactly where there
    /// is none. The only failure is that memory runs out.
    pub fn job_behind(
        &self,
        alloc: Global,
        node: NodeId,
        number: UnitId,
    ) -> Result<Option<Job>, NoMemory>
        ensures none { IfOk result (λ job. (job ≡ None) ↔ (ready_behind (cluster_of self.now) node number ≡ None)) }
        ensures some { IfOk result (λ job. IfSome job (λ job. IsJobOf (cluster_of self.now) node number job)) }
    {
        let Some(ready) = self.core.ready_behind(node, number) else {
            return Ok(None);
        };
        let Some(unit) = self.core.unit(ready) else {
            unreachable!();
        };
        let Some(call) = self.core.call(unit.call()) else {
            unreachable!();
        };
        let halves = split(alloc, &call.request().pipeline)?;
        let entries = unit.work().entries.copy(alloc)?;
        Ok(Some(Job {
            unit: ready,
            remote: halves.0,
            entries,
        }))
    }

    /// Does Done of the unit whose piece was made, where that may happen, and tells it. The piece is
    /// booked where half and entries are the unit's own; else it is made anew. Full comes exactly
    /// where the event would pass a limit of the journal; after a fault all is as before.
    pub fn hand(&mut self, alloc: Global, made: Made) -> Result<Option<Event>, ActFault>
        ensures done { IfOk result (λ found. found ≡ if_allowed (cluster_of self.old) (events.Done made.unit)) }
        ensures added { IfOk result (λ found. self.new ≡ with_found self.old found) }
        ensures room { IfOk result (λ found. is_full_for self.old found ≡ false) }
        ensures full { IsErrOf result ActFault.Full → is_full_for self.old (if_allowed (cluster_of self.old) (events.Done made.unit)) ≡ true }
        ensures err { OnErr result (self.new ≡ self.old) }
    {
        let unit = made.unit;
        let event = Event::Done { unit };
        if !self.core.allows(alloc, &event)? {
            return Ok(None);
        }
        let own = self
            .core
            .has_read(alloc, made.unit, &made.remote, &made.entries)?;
        prepare(&mut self.journal, &event)?;
        end(alloc, &mut self.core, own, made)?;
        self.journal.push_reserved(event);
        Ok(Some(Event::Done { unit }))
    }
}

/// The unit ends, which may; with the piece that was made where that is its own.
fn end(alloc: Global, core: &mut Core, own: bool, made: Made) -> Result<(), NoMemory>
    requires may { allowed core.old (events.Done made.unit) ≡ true }
    requires own { own ≡ true → piece_of core.old made.unit ≡ Some (pieces.piece made.remote made.entries.list) }
    ensures ok { OnOk result (core.new ≡ changed core.old (events.Done made.unit)) }
    ensures err { OnErr result (core.new ≡ core.old) }
{
    let Made { unit, piece, .. } = made;
    if !own {
        return core.step(alloc, &Event::Done { unit });
    }
    match core.apply_done(alloc, unit, piece) {
        Ok(()) => Ok(()),
        Err(_) => Err(NoMemory),
    }
}
