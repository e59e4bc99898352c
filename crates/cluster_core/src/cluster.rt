//! The core: its data, and the questions about it.

ghost use Rattle.std.specs.Prelude.{◌≡◌, ℕ, true, None, Some, IfOk};
ghost use Rattle.std.specs.FinSet as set_of;
ghost use Rattle.std.specs.Option.{option_copied, option_map};
ghost use Rattle.grid_event.specs.Configs.{is_config};
ghost use Rattle.topology_coord.specs.Coordination.{installed_id, lives};
ghost use Rattle.cluster_model.specs.Answers.{least_of};
ghost use Rattle.cluster_model.specs.Commands.{is_unanswered};
ghost use Rattle.cluster_model.specs.State.{call_of, goes_on, start, unit_of};

mod answers;
mod apply;
mod choose;
mod drive;
mod events;
mod losses;
mod pieces;
mod rounds;
mod serve;
mod takes;
mod units;

use cluster_calls::{Call, Calls, Unit};
use cluster_store::Store;
use grid_base::{CallId, NoMemory, NodeId, NodeSet, SegmentId, TopologyId, UnitId};
use grid_event::{Config, Pipeline};
use std::alloc::Global;
use std::marker::Model;

/// The core of a cluster: what it holds, and its calls with their units. Contracts see it as the
/// state of the cluster step.
#[derive(Drop)]
pub struct Core {
    store: Store,
    calls: Calls,
}

impl Model for Core {
    ghost use Rattle.std.specs.FinMap as map_of;
    ghost use Rattle.std.specs.FinSet as set_of;
    ghost use Rattle.std.specs.Coded.{codes};
    ghost use Rattle.grid_base.specs.contracts.stamped.Stamped as stamped;
    ghost use Rattle.pipeline_expr.specs.contracts.expr.Expr as exprs;
    ghost use Rattle.state_transfer.specs.Cells.{cell_code, destination_code};
    ghost use Rattle.cluster_model.specs.State.{State};

    ghost Value = { State };

    ghost coded = { Prim.hlevel (codes, map_of.code, set_of.code, cell_code, destination_code, exprs.the_row.coded, stamped.the_row.coded) };

    ghost use Rattle.cluster_core.specs.Insides.{state_of, IsCore};

    ghost view = { state_of };

    ghost invariant = { IsCore };
}

impl Core {
    /// The core at the start of a cluster with these settings. The only failure is that memory runs
    /// out.
    pub fn new(alloc: Global, config: &Config) -> Result<Core, NoMemory>
        requires { is_config config.now ≡ true }
        ensures { IfOk result (λ core. core ≡ start config.now) }
    {
        let store = Store::new(alloc, config)?;
        let calls = Calls::new(alloc, config.segments);
        Ok(Core { store, calls })
    }

    /// The live nodes.
    pub fn live(&self) -> NodeSet
        ensures { (n : ℕ) → set_of.contains result n ≡ lives self.now.holding.coord n }
    {
        self.store.live()
    }

    /// The unit of that number. None comes exactly where there is none.
    pub fn unit(&self, number: UnitId) -> Option<&Unit>
        ensures { option_copied result ≡ unit_of self.now.calling number }
    {
        self.calls.unit(number)
    }

    /// The call of that number. None comes exactly where there is none.
    pub fn call(&self, number: CallId) -> Option<&Call>
        ensures { option_copied result ≡ call_of self.now.calling number }
    {
        self.calls.call(number)
    }

    /// The pipeline of the call of that number. None comes exactly where there is none.
    pub fn pipeline(&self, number: CallId) -> Option<&Pipeline>
        ensures { option_copied result ≡ option_map (λ call. call.request.pipeline) (call_of self.now.calling number) }
    {
        match self.call(number) {
            None => None,
            Some(call) => Some(&call.request().pipeline),
        }
    }

    /// Whether the call is there and unanswered, and its originator is live.
    pub(crate) fn goes_on(&self, number: CallId) -> bool
        ensures { result ≡ goes_on self.now.holding (call_of self.now.calling number) }
    {
        match self.call(number) {
            None => false,
            Some(call) => self.call_goes_on(call),
        }
    }

    /// Whether the call is unanswered, and its originator is live.
    pub(crate) fn call_goes_on(&self, call: &Call) -> bool
        ensures { result ≡ goes_on self.now.holding (Some call.now) }
    {
        if !call.is_unanswered() {
            return false;
        }
        self.store.is_live(call.originator())
    }

    /// Whether the call was made and isn't answered.
    pub(crate) fn is_unanswered(&self, number: CallId) -> bool
        ensures { result ≡ is_unanswered (call_of self.now.calling number) }
    {
        match self.call(number) {
            None => false,
            Some(call) => call.is_unanswered(),
        }
    }

    /// The number of the topology that the node has installed, and 0 where the node isn't live.
    pub(crate) fn installed_id(&self, node: NodeId) -> TopologyId
        ensures { result ≡ installed_id self.now.holding.coord node }
    {
        self.store.coord().installed_id(node)
    }
}

/// The least segment that the call has noted as lost.
#[tactic(auto, using(crate::proofs::SetFacts::least_some, crate::proofs::SetFacts::least_none))]
pub(crate) fn first_lost(call: &Call) -> Option<SegmentId>
    ensures { result ≡ least_of call.now.lost }
{
    call.lost().next_from(SegmentId::new(0))
}
