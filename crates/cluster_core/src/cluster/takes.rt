//! What a walk takes of its units.

ghost use Rattle.std.specs.Prelude.{◌≡◌, true, IfOk, OnErr, OnOk};
ghost use Rattle.cluster_model.specs.Units.{can_take, taken_by};
ghost use Rattle.cluster_core.specs.Taking.{taking_now};

use crate::cluster::Core;
use crate::same::{same_entries, same_items};
use cluster_calls::Unit;
use grid_base::NoMemory;
use grid_event::TakeEvent;
use std::alloc::Global;

impl Core {
    /// Whether the call of the unit takes these entries now, and gives these items. The only failure
    /// is that memory runs out.
    #[tactic(auto, unfolding(cluster_model::specs::Units::can_take))]
    pub(crate) fn can_take(&self, alloc: Global, take: &TakeEvent) -> Result<bool, NoMemory>
        ensures { IfOk result (λ may. may ≡ can_take self.now take.now) }
    {
        let Some(unit) = self.unit(take.unit) else {
            return Ok(false);
        };
        let Some(call) = self.call(unit.call()) else {
            return Ok(false);
        };
        if !self.call_goes_on(call) {
            return Ok(false);
        }
        let Some(flying) = unit.flying() else {
            return Ok(false);
        };
        let passing = call.passing(alloc, unit, flying)?;
        if !same_entries(take.entries.as_slice(), passing.as_slice()) {
            return Ok(false);
        }
        let further = call.further(alloc, take.entries.as_slice())?;
        Ok(same_items(take.given.as_slice(), further.as_slice()))
    }

    /// The entries are taken, and the items were given. After want of memory the core is as before.
    pub(crate) fn take_batch(&mut self, alloc: Global, take: &TakeEvent) -> Result<(), NoMemory>
        requires { can_take self.old take.now ≡ true }
        ensures ok { OnOk result (self.new ≡ record self.old { calling = taken_by self.old.calling take.now }) }
        ensures err { OnErr result (self.new ≡ self.old) }
    {
        let given = take.given.len() as u64;
        self.calls
            .take(alloc, take.unit, take.entries.as_slice(), given)?;
        Ok(())
    }

    /// What the unit's call takes now, and what it gives of it. None comes exactly where the call
    /// doesn't go on or no batch of the unit flies. The only failure is that memory runs out.
    pub(crate) fn taking(&self, alloc: Global, unit: &Unit) -> Result<Option<TakeEvent>, NoMemory>
        ensures { IfOk result (λ taking. taking ≡ taking_now self.now unit.now) }
    {
        let Some(call) = self.call(unit.call()) else {
            return Ok(None);
        };
        if !self.call_goes_on(call) {
            return Ok(None);
        }
        let Some(flying) = unit.flying() else {
            return Ok(None);
        };
        let entries = call.passing(alloc, unit, flying)?;
        let given = call.further(alloc, entries.as_slice())?;
        Ok(Some(TakeEvent {
            unit: unit.work().id,
            entries,
            given,
        }))
    }
}
