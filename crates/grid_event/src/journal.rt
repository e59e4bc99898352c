//! The journal of a run: its configuration, its events in their order, and the notes of the script
//! lines that had none.

ghost use Rattle.std.specs.Prelude.{◌≡◌, ◌<◌, ◌≤◌, ◌-◌, ◌++◌, ◌∷◌, [], ◌↔◌, false, true, length, None, Some};
ghost use Rattle.std.specs.Prelude.{IfOk, IfSome, IsErrOf, IsOk, IsSome, OnErr, OnOk, slice_get};
ghost use Rattle.std.specs.Option.{option_copied};
ghost use Rattle.grid_event.specs.Configs.{is_config};
ghost use Rattle.grid_event.specs.Histories.{are_placed, blank, passes_limit, with_event, with_idle};
ghost use Rattle.grid_event.specs.Weights.{total_weight};

use crate::config::Config;
use crate::event::Event;
use crate::idle::Idle;
use crate::push_fault::PushFault;
use grid_base::limits::{MOST_EVENTS, MOST_WEIGHT};
use grid_base::{NoMemory, Sequence};
use std::alloc::Global;
use std::marker::Model;

/// The journal of a run. It has room for 1,000,000 events, which hold 2,000,000 entries and items
/// at most. Contracts see its history, and a number of spare places for further events.
#[derive(Debug, Drop)]
pub struct Journal {
    config: Option<Config>,
    events: Sequence<Event>,
    weight: u32,
    idle: Sequence<Idle>,
}

impl Model for Journal {
    ghost use Rattle.std.specs.Coded.{codes};
    ghost use Rattle.pipeline_expr.specs.contracts.expr.Expr as exprs;
    ghost use Rattle.grid_event.specs.Histories.{Kept};

    ghost Value = { Kept };

    ghost coded = { Prim.hlevel (codes, exprs.the_row.coded) };

    ghost use Rattle.grid_event.specs.Insides.{kept_of, IsJournal};

    ghost view = { kept_of };

    ghost invariant = { IsJournal };
}

impl Journal {
    /// The empty journal, which has no configuration yet. It takes no memory.
    pub fn new(alloc: Global) -> Journal
        ensures { result.history ≡ blank }
    {
        Journal {
            config: None,
            events: Sequence::new(alloc),
            weight: 0,
            idle: Sequence::new(alloc),
        }
    }

    /// Starts the empty journal with the configuration of the run.
    pub fn start(&mut self, config: Config)
        requires empty { self.old.history ≡ blank }
        requires limits { is_config config ≡ true }
        ensures started { self.new.history ≡ record blank { config = Some config } }
    {
        self.config = Some(config);
    }

    /// Puts the event behind the others. Full comes exactly where the event would pass a limit;
    /// after a fault the history is as before. Where a place is spare, no memory is taken.
    pub fn push(&mut self, event: Event) -> Result<(), PushFault>
        requires { IsSome self.old.history.config }
        ensures ok { OnOk result (self.new.history ≡ with_event self.old.history event) }
        ensures err { OnErr result (self.new.history ≡ self.old.history) }
        ensures full { IsErrOf result PushFault.Full ↔ (passes_limit self.old.history event ≡ true) }
        ensures prepared { 0 < self.old.spare → passes_limit self.old.history event ≡ false → IsOk result }
    {
        self.prepare(&event)?;
        self.push_reserved(event);
        Ok(())
    }

    /// Sees that a push of the event will succeed, or says why it would not. The history is as
    /// before, and after Ok a place is spare. Full comes exactly where the event would pass a limit.
    /// Where a place is spare already, no memory is taken.
    pub fn prepare(&mut self, event: &Event) -> Result<(), PushFault>
        requires { IsSome self.old.history.config }
        ensures same { self.new.history ≡ self.old.history }
        ensures ok { OnOk result (0 < self.new.spare) }
        ensures full { IsErrOf result PushFault.Full ↔ (passes_limit self.old.history event.now ≡ true) }
        ensures prepared { 0 < self.old.spare → passes_limit self.old.history event.now ≡ false → IsOk result }
    {
        if self.is_full_for(event) {
            return Err(PushFault::Full);
        }
        self.events.reserve(1)?;
        Ok(())
    }

    /// Puts the event behind the others, for which a place is spare and which passes no limit, as
    /// after `prepare`. It takes no memory.
    pub fn push_reserved(&mut self, event: Event)
        requires started { IsSome self.old.history.config }
        requires spare { 0 < self.old.spare }
        requires room { passes_limit self.old.history event ≡ false }
        ensures { self.new.history ≡ with_event self.old.history event }
    {
        let weight = event.weight() as u32;
        self.events.push_reserved(event);
        self.weight += weight;
    }

    /// Whether the event would pass a limit of the journal.
    pub fn is_full_for(&self, event: &Event) -> bool
        ensures { result ≡ passes_limit self.now.history event.now }
    {
        if self.events.len() >= MOST_EVENTS as usize {
            return true;
        }
        event.weight() > (MOST_WEIGHT - self.weight) as u128
    }

    /// Notes that a script line had no event, behind the events so far. The only failure is that
    /// memory runs out; the history is then as before.
    pub fn note_idle(&mut self, line: u32) -> Result<(), NoMemory>
        ensures ok { OnOk result (self.new.history ≡ with_idle self.old.history line) }
        ensures err { OnErr result (self.new.history ≡ self.old.history) }
    {
        let place = self.len();
        self.idle.push(Idle { place, line })
    }

    /// How many events there are. The idle notes stand in the order of their places, none behind
    /// the last event.
    pub fn len(&self) -> u32
        ensures len { result ≡ length self.now.history.events }
        ensures few { result ≤ MOST_EVENTS }
        ensures placed { are_placed 0 (length self.now.history.events) self.now.history.idle ≡ true }
    {
        self.events.len() as u32
    }

    /// Whether there is no event.
    pub fn is_empty(&self) -> bool
        ensures { result ≡ true ↔ (self.now.history.events ≡ []) }
    {
        self.events.is_empty()
    }

    /// How many entries and items the events hold.
    pub fn weight(&self) -> u32
        ensures weight { result ≡ total_weight self.now.history.events }
        ensures light { result ≤ MOST_WEIGHT }
    {
        self.weight
    }

    /// The event at the place, counted from 1. None comes exactly outside 1 to `len`.
    pub fn event(&self, place: u32) -> Option<&Event>
        ensures none { place ≡ 0 → option_copied result ≡ None }
        ensures some { 0 < place → option_copied result ≡ slice_get self.now.history.events (place - 1) }
    {
        if place == 0 {
            return None;
        }
        self.events.get((place - 1) as usize)
    }

    /// The configuration, which is in its limits. None comes exactly before the start.
    pub fn config(&self) -> Option<&Config>
        ensures config { option_copied result ≡ self.now.history.config }
        ensures limits { IfSome self.now.history.config (λ config. is_config config ≡ true) }
    {
        self.config.as_ref()
    }

    /// The idle note of that number, counted from 1 in the order of noting. None comes exactly
    /// where there is none.
    pub fn idle(&self, number: u32) -> Option<Idle>
        ensures none { number ≡ 0 → result ≡ None }
        ensures some { 0 < number → result ≡ slice_get self.now.history.idle (number - 1) }
    {
        if number == 0 {
            return None;
        }
        self.idle.get((number - 1) as usize).copied()
    }

    /// A journal of the same history. The only failure is that memory runs out.
    pub fn copy(&self, alloc: Global) -> Result<Journal, NoMemory>
        ensures { IfOk result (λ copy. copy.history ≡ self.now.history) }
    {
        let events = self.events.copy(alloc)?;
        let idle = self.idle.copy(alloc)?;
        Ok(Journal {
            config: self.config,
            events,
            weight: self.weight,
            idle,
        })
    }
}
