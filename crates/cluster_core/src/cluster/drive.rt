//! What brings a call nearer to its answer.

ghost use Rattle.std.specs.Prelude.{◌≡◌, true, Some, IfOk};
ghost use Rattle.cluster_model.specs.Commands.{drive_event, first_some, is_unanswered, open_units, unit_event};
ghost use Rattle.cluster_model.specs.State.{call_of, unit_of};

use crate::cluster::Core;
use cluster_calls::Unit;
use grid_base::{CallId, NoMemory};
use grid_event::Event;
use std::alloc::Global;

impl Core {
    /// The first that there is for a call that isn't answered: its answer, an event of an open unit,
    /// a round, a topology step. The only failure is that memory runs out.
    #[tactic(auto, unfolding(cluster_model::specs::Commands::drive_event))]
    pub(crate) fn drive_event(
        &self,
        alloc: Global,
        number: CallId,
    ) -> Result<Option<Event>, NoMemory>
        ensures { IfOk result (λ event. event ≡ drive_event self.now number) }
    {
        if !self.is_unanswered(number) {
            return Ok(None);
        }
        if let Some(event) = self.answer_event(alloc, number)? {
            return Ok(Some(event));
        }
        if let Some(event) = self.open_event(alloc, number)? {
            return Ok(Some(event));
        }
        if let Some(event) = self.round_event(alloc, number)? {
            return Ok(Some(event));
        }
        self.store.advance_event(alloc)
    }

    /// An event of the first open unit of the call, which isn't answered, by ascending segment, that
    /// has one. The only failure is that memory runs out.
    fn open_event(&self, alloc: Global, number: CallId) -> Result<Option<Event>, NoMemory>
        requires { is_unanswered (call_of self.now.calling number) ≡ true }
        ensures { IfOk result (λ event. event ≡ first_some (unit_event self.now) (open_units self.now.calling number)) }
    {
        let units = self.calls.open_round(number);
        for unit in units {
            if !unit.is_open() {
                continue;
            }
            if let Some(event) = self.unit_event(alloc, unit)? {
                return Ok(Some(event));
            }
        }
        Ok(None)
    }

    /// Take, Done, Scan, Fetch, Begin of a unit: the first that may happen. The only failure is that
    /// memory runs out.
    pub(crate) fn unit_event(&self, alloc: Global, unit: &Unit) -> Result<Option<Event>, NoMemory>
        requires there { unit_of self.now.calling unit.now.work.id ≡ Some unit.now }
        ensures { IfOk result (λ event. event ≡ unit_event self.now unit.now) }
    {
        if let Some(event) = self.take_event(alloc, unit)? {
            return Ok(Some(event));
        }
        if let Some(event) = self.done_event(unit) {
            return Ok(Some(event));
        }
        if let Some(event) = self.scan_event(alloc, unit)? {
            return Ok(Some(event));
        }
        if let Some(event) = self.fetch_event(alloc, unit)? {
            return Ok(Some(event));
        }
        Ok(self.begin_event(unit))
    }
}
