//! What a node does next.

ghost use Rattle.std.specs.Prelude.{◌≡◌, Some, IfOk};
ghost use Rattle.cluster_model.specs.Commands.{first_some, serve_event, served_event, units_at};
ghost use Rattle.cluster_model.specs.State.{unit_of};

use crate::cluster::Core;
use cluster_calls::Unit;
use grid_base::{NoMemory, NodeId};
use grid_event::Event;
use std::alloc::Global;

impl Core {
    /// The first that there is at a node: its installation; the landing, and then a copy, of its
    /// least segment; an event of an open unit. The only failure is that memory runs out.
    #[tactic(auto, unfolding(cluster_model::specs::Commands::serve_event))]
    pub(crate) fn serve_event(&self, alloc: Global, node: NodeId) -> Result<Option<Event>, NoMemory>
        ensures { IfOk result (λ event. event ≡ serve_event self.now node) }
    {
        if let Some(event) = self.store.install_event(node) {
            return Ok(Some(event));
        }
        if let Some(event) = self.store.first_landing(node) {
            return Ok(Some(event));
        }
        if let Some(event) = self.store.first_copy(alloc, node)? {
            return Ok(Some(event));
        }
        self.first_served(alloc, node)
    }

    /// An event of the first open unit at the node that has one. The only failure is that memory
    /// runs out.
    fn first_served(&self, alloc: Global, node: NodeId) -> Result<Option<Event>, NoMemory>
        ensures { IfOk result (λ event. event ≡ first_some (served_event self.now) (units_at self.now.calling node)) }
    {
        let units = self.calls.waiting();
        for unit in units {
            if !unit.is_open() {
                continue;
            }
            if unit.node() != node {
                continue;
            }
            if let Some(event) = self.served_event(alloc, unit)? {
                return Ok(Some(event));
            }
        }
        Ok(None)
    }

    /// Done of a walk, Scan, Fetch, Begin of a unit: the first that may happen. The only failure is
    /// that memory runs out.
    fn served_event(&self, alloc: Global, unit: &Unit) -> Result<Option<Event>, NoMemory>
        requires there { unit_of self.now.calling unit.now.work.id ≡ Some unit.now }
        ensures { IfOk result (λ event. event ≡ served_event self.now unit.now) }
    {
        if self.walks(unit.call()) {
            if let Some(event) = self.done_event(unit) {
                return Ok(Some(event));
            }
        }
        if let Some(event) = self.scan_event(alloc, unit)? {
            return Ok(Some(event));
        }
        if let Some(event) = self.fetch_event(alloc, unit)? {
            return Ok(Some(event));
        }
        Ok(self.begin_event(unit))
    }
}
