//! The events of calls and units that commands choose.

ghost use Rattle.std.specs.Prelude.{◌≡◌, Some, IfOk};
ghost use Rattle.std.specs.Option.{option_copied};
ghost use Rattle.cluster_core.specs.Reading.{batch_now};
ghost use Rattle.cluster_model.specs.Commands.{answer_event, begin_event, done_event, fetch_event, newest_unit, round_event, scan_event, take_event};
ghost use Rattle.cluster_model.specs.State as states;
ghost use Rattle.cluster_model.specs.State.{unit_of};

use crate::cluster::Core;
use cluster_calls::Unit;
use grid_base::{Batch, CallId, NoMemory, SegmentId};
use grid_event::{AnswerEvent, Event, FetchEvent, RoundEvent, ScanEvent};
use sqlite_items::Boxed;
use std::alloc::Global;

impl Core {
    /// The newest unit of the call on the segment. None comes exactly where there is none.
    pub(crate) fn newest(&self, call: CallId, segment: SegmentId) -> Option<&Unit>
        ensures newest { option_copied result ≡ newest_unit self.now.calling call segment }
        ensures there { (unit : states.Unit) → newest_unit self.now.calling call segment ≡ Some unit → unit_of self.now.calling unit.work.id ≡ Some unit }
    {
        self.calls.newest(call, segment)
    }

    /// The beginning of the unit, which runs where its node reads its segment.
    pub(crate) fn begin_event(&self, unit: &Unit) -> Option<Event>
        requires there { unit_of self.now.calling unit.now.work.id ≡ Some unit.now }
        ensures { result ≡ begin_event self.now unit.now }
    {
        let runs = self.reads(unit);
        if !self.unit_can_begin(unit, runs) {
            return None;
        }
        Some(Event::Begin {
            unit: unit.work().id,
            runs,
        })
    }

    /// The end of the unit.
    pub(crate) fn done_event(&self, unit: &Unit) -> Option<Event>
        requires there { unit_of self.now.calling unit.now.work.id ≡ Some unit.now }
        ensures { result ≡ done_event self.now unit.now }
    {
        if !self.unit_can_end(unit) {
            return None;
        }
        Some(Event::Done {
            unit: unit.work().id,
        })
    }

    /// The batch that the unit reads now for a call of this form. None comes exactly where it reads
    /// none. The only failure is that memory runs out.
    fn batch_now(&self, alloc: Global, walk: bool, unit: &Unit) -> Result<Option<Batch>, NoMemory>
        requires there { unit_of self.now.calling unit.now.work.id ≡ Some unit.now }
        ensures { IfOk result (λ batch. batch ≡ batch_now self.now walk unit.now) }
    {
        if !self.reads_on(walk, unit) {
            return Ok(None);
        }
        let batch = self.next_batch(alloc, walk, unit)?;
        if !self.has_room(batch.entries.len()) {
            return Ok(None);
        }
        Ok(Some(batch))
    }

    /// The scan of the next batch of a unit of a reduction. The only failure is that memory runs out.
    pub(crate) fn scan_event(&self, alloc: Global, unit: &Unit) -> Result<Option<Event>, NoMemory>
        requires there { unit_of self.now.calling unit.now.work.id ≡ Some unit.now }
        ensures { IfOk result (λ event. event ≡ scan_event self.now unit.now) }
    {
        let Some(batch) = self.batch_now(alloc, false, unit)? else {
            return Ok(None);
        };
        let unit = unit.work().id;
        let scan = Boxed::new(alloc, ScanEvent { unit, batch })?;
        Ok(Some(Event::Scan(scan)))
    }

    /// The fetch of the next batch of a unit of a walk. The only failure is that memory runs out.
    pub(crate) fn fetch_event(&self, alloc: Global, unit: &Unit) -> Result<Option<Event>, NoMemory>
        requires there { unit_of self.now.calling unit.now.work.id ≡ Some unit.now }
        ensures { IfOk result (λ event. event ≡ fetch_event self.now unit.now) }
    {
        let Some(batch) = self.batch_now(alloc, true, unit)? else {
            return Ok(None);
        };
        let unit = unit.work().id;
        let fetch = Boxed::new(alloc, FetchEvent { unit, batch })?;
        Ok(Some(Event::Fetch(fetch)))
    }

    /// The taking of what flies of the unit. The only failure is that memory runs out.
    pub(crate) fn take_event(&self, alloc: Global, unit: &Unit) -> Result<Option<Event>, NoMemory>
        requires there { unit_of self.now.calling unit.now.work.id ≡ Some unit.now }
        ensures { IfOk result (λ event. event ≡ take_event self.now unit.now) }
    {
        let Some(take) = self.taking(alloc, unit)? else {
            return Ok(None);
        };
        let take = Boxed::new(alloc, take)?;
        Ok(Some(Event::Take(take)))
    }

    /// The next round of the call, where it may be made. The only failure is that memory runs out,
    /// as it does for more units than a u32 numbers.
    pub(crate) fn round_event(
        &self,
        alloc: Global,
        number: CallId,
    ) -> Result<Option<Event>, NoMemory>
        ensures { IfOk result (λ event. event ≡ round_event self.now number) }
    {
        let Some(call) = self.call(number) else {
            return Ok(None);
        };
        if !self.call_goes_on(call) {
            return Ok(None);
        }
        if !self.is_due(number, call) {
            return Ok(None);
        }
        let asks = self.asks(alloc, number, call.originator())?;
        let round = RoundEvent {
            call: number,
            id: self.installed_id(call.originator()),
            asks,
        };
        let round = Boxed::new(alloc, round)?;
        Ok(Some(Event::Round(round)))
    }

    /// The answer of the call, where it has one. The only failure is that memory runs out.
    pub(crate) fn answer_event(
        &self,
        alloc: Global,
        number: CallId,
    ) -> Result<Option<Event>, NoMemory>
        ensures { IfOk result (λ event. event ≡ answer_event self.now number) }
    {
        let Some(call) = self.call(number) else {
            return Ok(None);
        };
        if !call.is_unanswered() {
            return Ok(None);
        }
        let Some(outcome) = self.outcome(alloc, number, call)? else {
            return Ok(None);
        };
        let answer = AnswerEvent {
            call: number,
            outcome,
        };
        let answer = Boxed::new(alloc, answer)?;
        Ok(Some(Event::Answer(answer)))
    }
}
