//! Calls are made, ask, and are answered.

ghost use Rattle.std.specs.Prelude.{◌≡◌, ◌+◌, ◌++◌, true, false, map, length, nat_lt, None, Some, is_some, IfOk, OnErr, OnOk};
ghost use Rattle.std.specs.List.{range_with_len};
ghost use Rattle.grid_event.specs.declared.call_events.Ask as asks_of;
ghost use Rattle.cluster_model.specs.Calls.{granted, has_open, incomplete, new_call, unit_made};
ghost use Rattle.cluster_model.specs.State as states;
ghost use Rattle.cluster_model.specs.State.{call_of};
ghost use Rattle.cluster_calls.specs.Calling.{changes_call, is_one, puts_call, round_of};
ghost use Rattle.cluster_calls.specs.Listed.{are_new, with_asked, without_asked};

use crate::call::Call;
use crate::calls::Calls;
use crate::parts::made_parts;
use crate::row::Row;
use crate::tally::Tally;
use crate::unit::Unit;
use grid_base::{CallId, NoMemory, NodeId, TopologyId};
use grid_event::{Ask, Outcome, Request};
use loss_listener::Listeners;
use std::alloc::Global;

impl Calls {
    /// The call, which isn't there yet, is made. After want of memory all is as before.
    pub fn invoke(
        &mut self,
        alloc: Global,
        number: CallId,
        originator: NodeId,
        request: Request,
    ) -> Result<(), NoMemory>
        requires { call_of self.old number ≡ None }
        ensures ok { OnOk result (self.new ≡ puts_call number (new_call originator request) self.old) }
        ensures err { OnErr result (self.new ≡ self.old) }
    {
        let parts = made_parts(alloc, self.segments, &request)?;
        let call = Call::new(alloc, originator, request)?;
        let tally = Tally::new(alloc, self.segments)?;
        self.table.insert(number, Row { call, tally, parts })?;
        Ok(())
    }

    /// The call, which has a round left and no open unit, asks for its incomplete segments by
    /// units that are numbered on, under the topology `id`. After want of memory all is as before;
    /// more units than 32 bits number are want of memory.
    pub fn round(
        &mut self,
        alloc: Global,
        number: CallId,
        id: TopologyId,
        asks: &[Ask],
    ) -> Result<(), NoMemory>
        requires left { is_one (λ call. nat_lt call.rounds (granted call)) (call_of self.old number) ≡ true }
        requires closed { has_open self.old number ≡ false }
        requires numbered { map (λ ask. ask.unit) asks.now ≡ range_with_len (length self.old.units + 1) (length asks.now) }
        requires segments { map (λ ask. ask.segment) asks.now ≡ incomplete self.old number }
        ensures ok { OnOk result (self.new ≡ round_of number id asks.now self.old) }
        ensures err { OnErr result (self.new ≡ self.old) }
    {
        let units = self.units.as_slice().len();
        if asks.len() >= u32::MAX as usize - units {
            return Err(NoMemory);
        }
        let mut asked = asked_units(alloc, number, id, asks)?;
        register_all(&mut self.listeners, alloc, asks)?;
        if self.units.append(&mut asked).is_err() {
            end_all(&mut self.listeners, asks);
            return Err(NoMemory);
        }
        self.table.ask(number, units as u32 + 1, asks);
        Ok(())
    }

    /// The call is answered, and nothing is booked for it any longer.
    pub fn answer(&mut self, number: CallId, outcome: Outcome)
        ensures { self.new ≡ changes_call number (λ call. record call { outcome = Some outcome }) self.old }
    {
        self.table.answer(number, outcome);
        self.move_on();
    }
}

/// The units that the asks make. The only failure is that memory runs out.
fn asked_units(
    alloc: Global,
    number: CallId,
    id: TopologyId,
    asks: &[Ask],
) -> Result<Vec<Unit>, NoMemory>
    ensures { IfOk result (λ units. units.items ≡ map (unit_made number id) asks.now) }
{
    let mut units = Vec::with_capacity(alloc, asks.len())?;
    for ask in asks {
        units.push(Unit::asked(alloc, ask.unit, number, ask.segment, ask.node, id))?;
    }
    Ok(units)
}

/// Registers the units that the asks make, which are new. After want of memory none of them is
/// registered.
fn register_all(listeners: &mut Listeners, alloc: Global, asks: &[Ask]) -> Result<(), NoMemory>
    requires { are_new listeners.old asks.now ≡ true }
    ensures ok { OnOk result (listeners.new ≡ with_asked listeners.old asks.now) }
    ensures err { OnErr result (listeners.new ≡ listeners.old) }
{
    for ask in asks {
        if listeners
            .register(alloc, ask.unit, ask.node, ask.segment)
            .is_err()
        {
            end_all(listeners, asks);
            return Err(NoMemory);
        }
    }
    Ok(())
}

/// Takes the units that the asks make out.
fn end_all(listeners: &mut Listeners, asks: &[Ask])
    ensures { listeners.new ≡ without_asked listeners.old asks.now }
{
    for ask in asks {
        listeners.end(ask.unit);
    }
}
