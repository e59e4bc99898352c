//! Calls and their rounds.

ghost use Rattle.std.specs.Prelude.{◌≡◌, ◌==◌, ◌+◌, length, not, true, unwrap_or, Some, IfOk, OnErr, OnOk};
ghost use Rattle.std.specs.FinSet as set_of;
ghost use Rattle.std.specs.List.{list_all};
ghost use Rattle.cluster_model.specs.Calls.{all_complete, asks_from, can_invoke, can_round, first_reader, has_caught_up, has_open, incomplete, invoked, is_due, is_request, rounded};
ghost use Rattle.cluster_model.specs.State.{call_of};
ghost use Rattle.cluster_model.specs.Topologies.{is_complete};
ghost use Rattle.cluster_model.specs.Writes.{has_reader};

use crate::cluster::Core;
use crate::same::same_asks;
use cluster_calls::Call;
use grid_base::limits::{LAST_CALL, MOST_BATCH, MOST_ROUNDS};
use grid_base::{CallId, NoMemory, NodeId, SegmentId, UnitId};
use grid_event::{Ask, InvokeEvent, Request, RoundEvent, ValueKind};
use pipeline_expr::check;
use sqlite_items::Items;
use std::alloc::Global;

impl Core {
    /// Whether the call may be made.
    #[tactic(auto, unfolding(cluster_model::specs::Calls::can_invoke))]
    pub(crate) fn can_invoke(&self, invoke: &InvokeEvent) -> bool
        ensures { result ≡ can_invoke self.now invoke.now }
    {
        if !self.store.is_live(invoke.node) {
            return false;
        }
        if self.call(invoke.call).is_some() {
            return false;
        }
        if invoke.call.number() < 1 {
            return false;
        }
        if LAST_CALL < invoke.call.number() {
            return false;
        }
        is_request(self.store.config().values, &invoke.request)
    }

    /// The call is made. After want of memory the core is as before.
    pub(crate) fn invoke(&mut self, alloc: Global, invoke: &InvokeEvent) -> Result<(), NoMemory>
        requires { can_invoke self.old invoke.now ≡ true }
        ensures ok { OnOk result (self.new ≡ record self.old { calling = invoked self.old.calling invoke.now }) }
        ensures err { OnErr result (self.new ≡ self.old) }
    {
        let request = invoke.request.copy(alloc)?;
        self.calls.invoke(alloc, invoke.call, invoke.node, request)?;
        Ok(())
    }

    /// Whether the round may be made. The only failure is that memory runs out.
    #[tactic(auto, unfolding(cluster_model::specs::Calls::can_round))]
    pub(crate) fn can_round(&self, alloc: Global, round: &RoundEvent) -> Result<bool, NoMemory>
        ensures { IfOk result (λ may. may ≡ can_round self.now round.now) }
    {
        let Some(call) = self.call(round.call) else {
            return Ok(false);
        };
        if !self.call_goes_on(call) {
            return Ok(false);
        }
        if !self.is_due(round.call, call) {
            return Ok(false);
        }
        if round.id != self.installed_id(call.originator()) {
            return Ok(false);
        }
        let asks = self.asks(alloc, round.call, call.originator())?;
        Ok(same_asks(round.asks.as_slice(), asks.as_slice()))
    }

    /// The round is made. After want of memory the core is as before; more units than a u32 numbers
    /// are want of memory.
    pub(crate) fn round(&mut self, alloc: Global, round: &RoundEvent) -> Result<(), NoMemory>
        requires { can_round self.old round.now ≡ true }
        ensures ok { OnOk result (self.new ≡ record self.old { calling = rounded self.old.calling round.now }) }
        ensures err { OnErr result (self.new ≡ self.old) }
    {
        self.calls
            .round(alloc, round.call, round.id, round.asks.as_slice())?;
        Ok(())
    }

    /// Whether no segment is noted as lost, no unit of the call is open, a granted round is left, a
    /// segment is incomplete, each incomplete one has a live reader, and the originator has caught
    /// up.
    pub(crate) fn is_due(&self, number: CallId, call: &Call) -> bool
        requires { call_of self.now.calling number ≡ Some call.now }
        ensures { result ≡ is_due self.now number call.now }
    {
        if has_lost(call) {
            return false;
        }
        if self.has_open(number) {
            return false;
        }
        if call.granted() <= call.rounds() {
            return false;
        }
        if self.all_complete(number) {
            return false;
        }
        if !self.have_readers(number, call.originator()) {
            return false;
        }
        self.has_caught_up(number, call)
    }

    /// Whether a unit of the call is open.
    pub(crate) fn has_open(&self, number: CallId) -> bool
        ensures { result ≡ has_open self.now.calling number }
    {
        self.calls.has_open(number)
    }

    /// Whether every segment is complete for the call.
    pub(crate) fn all_complete(&self, number: CallId) -> bool
        ensures { result ≡ all_complete self.now.calling number }
    {
        self.calls.all_complete(number)
    }

    /// Whether the segment is complete for the call.
    fn is_complete(&self, number: CallId, segment: SegmentId) -> bool
        ensures { result ≡ is_complete self.now.calling.units number segment }
    {
        self.calls.is_complete(number, segment)
    }

    /// Whether the originator has installed a topology not older than any at which a unit of the
    /// last round was refused or was lost by an installation.
    fn has_caught_up(&self, number: CallId, call: &Call) -> bool
        requires { call_of self.now.calling number ≡ Some call.now }
        ensures { result ≡ has_caught_up self.now call.now }
    {
        self.calls
            .has_caught_up(number, self.installed_id(call.originator()))
    }

    /// Whether each incomplete segment of the call has a live reader by the topology that the
    /// originator has installed.
    fn have_readers(&self, number: CallId, originator: NodeId) -> bool
        ensures { result ≡ list_all (has_reader self.now.holding originator) (incomplete self.now.calling number) }
    {
        for place in 0..self.calls.segments() {
            let segment = SegmentId::new(place);
            if self.is_complete(number, segment) {
                continue;
            }
            if !self.store.has_reader(originator, segment) {
                return false;
            }
        }
        true
    }

    /// The asks of the call's next round: for each incomplete segment, ascending, the next unit at
    /// its first live reader. The only failure is that memory runs out, as it does for more units
    /// than a u32 numbers.
    pub(crate) fn asks(
        &self,
        alloc: Global,
        number: CallId,
        originator: NodeId,
    ) -> Result<Items<Ask>, NoMemory>
        ensures { IfOk result (λ asks. asks ≡ asks_from self.now.holding originator (length self.now.calling.units + 1) (incomplete self.now.calling number)) }
    {
        let mut asks = Vec::new(alloc);
        let mut unit = self.calls.units().len();
        for place in 0..self.calls.segments() {
            let segment = SegmentId::new(place);
            if self.is_complete(number, segment) {
                continue;
            }
            if unit >= u32::MAX as usize {
                return Err(NoMemory);
            }
            unit += 1;
            asks.push(self.ask(originator, UnitId::new(unit as u32), segment))?;
        }
        Ok(Items::from_vec(asks))
    }

    /// The ask of the segment's first live reader by the unit; of node 0 where there is none.
    fn ask(&self, originator: NodeId, unit: UnitId, segment: SegmentId) -> Ask
        ensures { result ≡ record { unit = unit; segment = segment; node = unwrap_or (first_reader self.now.holding originator segment) 0 } }
    {
        let reader = self.store.first_reader(originator, segment);
        let node = reader.unwrap_or(NodeId::new(0));
        Ask {
            unit,
            segment,
            node,
        }
    }
}

/// Whether the call has noted a segment as lost.
#[tactic(auto, using(crate::proofs::SetFacts::some_elements, crate::proofs::SetFacts::no_elements))]
fn has_lost(call: &Call) -> bool
    ensures { result ≡ not (set_of.len call.now.lost == 0) }
{
    call.lost().next_from(SegmentId::new(0)).is_some()
}

/// Whether the numbers of a request are in their limits, and its pipeline checks.
fn is_request(values: ValueKind, request: &Request) -> bool
    ensures { result ≡ is_request values request.now }
{
    if request.rounds < 1 {
        return false;
    }
    if MOST_ROUNDS < request.rounds {
        return false;
    }
    if request.batch < 1 {
        return false;
    }
    if MOST_BATCH < request.batch {
        return false;
    }
    check(&request.pipeline, values).is_ok()
}
