//! What becomes of a unit: it begins, it reads, it ends.

ghost use Rattle.std.specs.Prelude.{◌≡◌, ◌+◌, length, nat_le, true, Some, IfOk, OnErr, OnOk};
ghost use Rattle.grid_base.specs.declared.limits.TheConstants.{MOST_READ};
ghost use Rattle.cluster_model.specs.State.{call_of, unit_of};
ghost use Rattle.cluster_model.specs.Units.{batch_size, begun_unit, can_begin, can_begin_unit, can_end, can_end_unit, can_fetch, can_read, can_scan, ended_unit, fetched, last_key, next_batch, read_by, reads, scanned, walks};
ghost use Rattle.cluster_core.specs.Reading.{reads_on};

use crate::cluster::Core;
use crate::same::same_batch;
use cluster_calls::Unit;
use grid_base::limits::MOST_READ;
use grid_base::{Batch, CallId, Entry, Key, NoMemory, UnitId};
use grid_event::{FetchEvent, ScanEvent};
use std::alloc::Global;

impl Core {
    /// Whether the unit's node reads the unit's segment by the topology that it has installed.
    pub(crate) fn reads(&self, unit: &Unit) -> bool
        ensures { result ≡ reads self.now.holding unit.now }
    {
        let work = unit.work();
        self.store.reads(work.node, work.segment)
    }

    /// Whether the unit may begin so.
    #[tactic(auto, unfolding(cluster_model::specs::Units::can_begin))]
    pub(crate) fn can_begin(&self, number: UnitId, runs: bool) -> bool
        ensures { result ≡ can_begin self.now number runs }
    {
        match self.unit(number) {
            None => false,
            Some(unit) => self.unit_can_begin(unit, runs),
        }
    }

    /// Whether the unit's call goes on, the unit is asked, its node has installed the topology of
    /// its round or a later one, and it runs exactly where its node reads its segment.
    pub(crate) fn unit_can_begin(&self, unit: &Unit, runs: bool) -> bool
        ensures { result ≡ can_begin_unit self.now runs (Some unit.now) }
    {
        let work = unit.work();
        if !self.goes_on(unit.call()) {
            return false;
        }
        if !unit.is_asked() {
            return false;
        }
        if self.installed_id(work.node) < work.asked_at {
            return false;
        }
        runs == self.reads(unit)
    }

    /// The unit runs, or it is refused at the topology that its node has installed.
    pub(crate) fn begin(&mut self, number: UnitId, runs: bool)
        requires { can_begin self.old number runs ≡ true }
        ensures { self.new ≡ record self.old { calling = begun_unit self.old.holding self.old.calling number runs } }
    {
        match self.unit(number) {
            None => unreachable!(),
            Some(unit) => {
                let at = self.installed_id(unit.node());
                self.calls.begin(number, runs, at);
            }
        }
    }

    /// Whether the unit may end.
    #[tactic(auto, unfolding(cluster_model::specs::Units::can_end))]
    pub(crate) fn can_end(&self, number: UnitId) -> bool
        ensures { result ≡ can_end self.now number }
    {
        match self.unit(number) {
            None => false,
            Some(unit) => self.unit_can_end(unit),
        }
    }

    /// Whether the unit's call goes on, the unit runs, and it has read its last batch, of which
    /// nothing flies.
    pub(crate) fn unit_can_end(&self, unit: &Unit) -> bool
        ensures { result ≡ can_end_unit self.now (Some unit.now) }
    {
        if !self.goes_on(unit.call()) {
            return false;
        }
        if !unit.is_running() {
            return false;
        }
        if !unit.work().last {
            return false;
        }
        !unit.flies()
    }

    /// The unit has ended, and its segment is complete for its call. After want of memory the core
    /// is as before.
    pub(crate) fn end(&mut self, alloc: Global, number: UnitId) -> Result<(), NoMemory>
        requires { can_end self.old number ≡ true }
        ensures ok { OnOk result (self.new ≡ record self.old { calling = ended_unit self.old.calling number }) }
        ensures err { OnErr result (self.new ≡ self.old) }
    {
        self.calls.end(alloc, number)?;
        Ok(())
    }

    /// How many entries the call reads at a time; 0 where it isn't there.
    fn batch_size(&self, number: CallId) -> u16
        ensures { result ≡ batch_size (call_of self.now.calling number) }
    {
        match self.call(number) {
            None => 0,
            Some(call) => call.request().batch,
        }
    }

    /// Whether the call is a walk; one that isn't there is none.
    pub(crate) fn walks(&self, number: CallId) -> bool
        ensures { result ≡ walks (call_of self.now.calling number) }
    {
        match self.call(number) {
            None => false,
            Some(call) => call.is_walk(),
        }
    }

    /// Whether the unit's call goes on and is of this form, the unit runs, it hasn't read its last
    /// batch, and none flies.
    pub(crate) fn reads_on(&self, walk: bool, unit: &Unit) -> bool
        ensures { result ≡ reads_on self.now walk unit.now }
    {
        let work = unit.work();
        if !self.goes_on(unit.call()) {
            return false;
        }
        if walk != self.walks(unit.call()) {
            return false;
        }
        if !unit.is_running() {
            return false;
        }
        if work.last {
            return false;
        }
        !unit.flies()
    }

    /// The batch that the unit, which reads on, reads next. The only failure is that memory runs
    /// out.
    pub(crate) fn next_batch(
        &self,
        alloc: Global,
        walk: bool,
        unit: &Unit,
    ) -> Result<Batch, NoMemory>
        requires reading { reads_on self.now walk unit.now ≡ true }
        requires there { unit_of self.now.calling unit.now.work.id ≡ Some unit.now }
        ensures { IfOk result (λ batch. batch ≡ next_batch self.now unit.now) }
    {
        let work = unit.work();
        let most = self.batch_size(work.call);
        let after = last_key(work.entries.as_slice());
        self.store
            .next_batch(alloc, work.node, work.segment, after, most)
    }

    /// Whether all units together have room to read so many entries more.
    pub(crate) fn has_room(&self, more: usize) -> bool
        ensures { result ≡ nat_le (read_by self.now.calling.units + more) MOST_READ }
    {
        match (more as u64).checked_add(self.calls.read()) {
            None => false,
            Some(read) => read <= MOST_READ,
        }
    }

    /// Whether the unit reads this batch now. The only failure is that memory runs out.
    fn can_read(
        &self,
        alloc: Global,
        walk: bool,
        number: UnitId,
        batch: &Batch,
    ) -> Result<bool, NoMemory>
        ensures { IfOk result (λ may. may ≡ can_read self.now walk batch.now (unit_of self.now.calling number)) }
    {
        let Some(unit) = self.unit(number) else {
            return Ok(false);
        };
        if !self.reads_on(walk, unit) {
            return Ok(false);
        }
        let next = self.next_batch(alloc, walk, unit)?;
        if !same_batch(batch, &next) {
            return Ok(false);
        }
        Ok(self.has_room(batch.entries.len()))
    }

    /// Whether the unit of a reduction reads this batch now. The only failure is that memory runs
    /// out.
    #[tactic(auto, unfolding(cluster_model::specs::Units::can_scan))]
    pub(crate) fn can_scan(&self, alloc: Global, scan: &ScanEvent) -> Result<bool, NoMemory>
        ensures { IfOk result (λ may. may ≡ can_scan self.now scan.now) }
    {
        self.can_read(alloc, false, scan.unit, &scan.batch)
    }

    /// Whether the unit of a walk reads this batch now. The only failure is that memory runs out.
    #[tactic(auto, unfolding(cluster_model::specs::Units::can_fetch))]
    pub(crate) fn can_fetch(&self, alloc: Global, fetch: &FetchEvent) -> Result<bool, NoMemory>
        ensures { IfOk result (λ may. may ≡ can_fetch self.now fetch.now) }
    {
        self.can_read(alloc, true, fetch.unit, &fetch.batch)
    }

    /// The unit has read the batch. After want of memory the core is as before.
    pub(crate) fn scan(&mut self, alloc: Global, scan: &ScanEvent) -> Result<(), NoMemory>
        requires { can_scan self.old scan.now ≡ true }
        ensures ok { OnOk result (self.new ≡ record self.old { calling = scanned self.old.calling scan.now }) }
        ensures err { OnErr result (self.new ≡ self.old) }
    {
        let batch = scan.batch.copy(alloc)?;
        self.calls.scan(scan.unit, batch)?;
        Ok(())
    }

    /// The unit has read the batch, which flies to the originator. After want of memory the core is
    /// as before.
    pub(crate) fn fetch(&mut self, alloc: Global, fetch: &FetchEvent) -> Result<(), NoMemory>
        requires { can_fetch self.old fetch.now ≡ true }
        ensures ok { OnOk result (self.new ≡ record self.old { calling = fetched self.old.calling fetch.now }) }
        ensures err { OnErr result (self.new ≡ self.old) }
    {
        let batch = fetch.batch.copy(alloc)?;
        self.calls.fetch(fetch.unit, batch)?;
        Ok(())
    }
}

/// The key of the last entry.
fn last_key(entries: &[Entry]) -> Option<Key>
    ensures { result ≡ last_key entries.now }
{
    match entries.last() {
        None => None,
        Some(entry) => Some(entry.key),
    }
}
