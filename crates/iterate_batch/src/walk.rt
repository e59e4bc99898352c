//! The walk of a call.

ghost use Rattle.std.specs.Prelude.{◌≡◌, ◌<◌, false, map, IfOk, OnOk, OnErr};
ghost use Rattle.std.specs.FinMap as map_of;
ghost use Rattle.std.specs.List.{IsDistinct};
ghost use Rattle.std.specs.Option.{option_map};
ghost use Rattle.grid_base.specs.Datum.{same_bytes};
ghost use Rattle.iterate_batch.specs.Walks.{IsClear, completed, dropped, fetched, has_flight, is_complete, missing_of, next_given, segments_of, taken, walk_start};

use crate::flights::Flights;
use crate::flying::Flying;
use crate::marks::{least_unmarked, unmarked};
use delivery_mode::Guarantee;
use grid_base::{Batch, Entries, NoMemory, SegmentId, UnitId};
use seen_keys::Seen;
use std::alloc::Global;
use std::marker::Model;

/// The batches of a call that fly, the keys that it has delivered, and the segments that are
/// complete. Contracts see the flying batches as a finite map from units, and the delivered keys as
/// a set.
#[derive(Drop)]
pub struct Walk {
    guarantee: Guarantee,
    flights: Flights,
    seen: Seen,
    complete: Vec<bool>,
}

impl Model for Walk {
    ghost use Rattle.std.specs.Prelude.{◌<◌, ◌^◌, length};
    ghost use Rattle.std.specs.Coded.{codes, coded_ℕ, coded_list, coded×};
    ghost use Rattle.std.specs.FinMap as map;
    ghost use Rattle.std.specs.FinSet as set;
    ghost use Rattle.std.specs.Ordering.{nat_cmp};
    ghost use Rattle.seen_keys.specs.Passed.{delivery_cmp};
    ghost use Rattle.iterate_batch.specs.Walks.{Walking};
    ghost use Rattle.iterate_batch.specs.contracts.flying.Flying as flight;

    ghost Value = { Walking };

    ghost coded = { Prim.hlevel (codes, map.code {R = nat_cmp} coded_ℕ flight.the_row.coded, set.code {R = delivery_cmp} (coded× coded_ℕ (coded_list coded_ℕ))) };

    ghost view = { λ a. record { guarantee = a.guarantee; flying = a.flights; delivered = a.seen; complete = a.complete.items } };

    ghost invariant = { λ a. length a.complete.items < 2 ^ 16 };
}

impl Walk {
    /// No batch flies, no key is delivered, and none of so many segments is complete. The only
    /// failure is that memory runs out.
    pub fn new(alloc: Global, guarantee: Guarantee, segments: u16) -> Result<Walk, NoMemory>
        ensures { IfOk result (λ walk. walk ≡ walk_start guarantee segments) }
    {
        let seen = Seen::new(alloc)?;
        let complete = unmarked(alloc, usize::from(segments))?;
        Ok(Walk {
            guarantee,
            flights: Flights::new(alloc),
            seen,
            complete,
        })
    }

    /// The unit, of which no batch flies, has fetched a batch of the segment, which is incomplete.
    /// The keys of the batch differ. The only failure is that memory runs out; then the batch is
    /// gone, and nothing else has changed.
    pub fn fetch(&mut self, unit: UnitId, segment: SegmentId, batch: Batch) -> Result<(), NoMemory>
        requires none { has_flight self.old unit ≡ false }
        requires within { segment < segments_of self.old }
        requires incomplete { is_complete self.old segment ≡ false }
        requires distinct { IsDistinct same_bytes (map (λ entry. entry.key) batch.entries) }
        ensures ok { OnOk result (self.new ≡ fetched self.old unit segment batch.entries) }
        ensures err { OnErr result (self.new ≡ self.old) }
    {
        self.flights.put(unit, Flying::new(segment, batch.entries))
    }

    /// Takes the unit's batch, and gives its entries: exactly once those whose keys haven't been
    /// given from the segment before, and else all. None comes exactly where no batch of the unit
    /// flies. The only failure is that memory runs out; the walk is then as before.
    pub fn take(&mut self, alloc: Global, unit: UnitId) -> Result<Option<Entries>, NoMemory>
        ensures entries { IfOk result (λ entries. option_map (λ given. given.list) entries ≡ next_given self.old unit) }
        ensures ok { OnOk result (self.new ≡ taken self.old unit) }
        ensures err { OnErr result (self.new ≡ self.old) }
    {
        match self.guarantee {
            Guarantee::Exact => self.take_unseen(alloc, unit),
            Guarantee::AtLeast => Ok(self.take_all(unit)),
            Guarantee::AtMost => Ok(self.take_all(unit)),
        }
    }

    /// What `take` would give. It changes nothing, and the only failure is that memory runs out.
    pub fn next_take(&self, alloc: Global, unit: UnitId) -> Result<Option<Entries>, NoMemory>
        ensures { IfOk result (λ entries. option_map (λ given. given.list) entries ≡ next_given self.now unit) }
    {
        let Some(flying) = self.flights.get(unit) else {
            return Ok(None);
        };
        let entries = match self.guarantee {
            Guarantee::Exact => flying.passing(alloc, &self.seen)?,
            Guarantee::AtLeast => flying.entries(alloc)?,
            Guarantee::AtMost => flying.entries(alloc)?,
        };
        Ok(Some(entries))
    }

    /// Whether a batch of the unit flies. It takes no memory.
    pub fn flies(&self, unit: UnitId) -> bool
        ensures { result ≡ has_flight self.now unit }
    {
        self.flights.has(unit)
    }

    /// Drops the unit's batch, where one flies. It takes no memory.
    pub fn drop_unit(&mut self, unit: UnitId)
        ensures { self.new ≡ dropped self.old unit }
    {
        self.flights.remove(unit);
    }

    /// The segment, of which no batch flies, is complete: the keys that were given from it are
    /// forgotten. It takes no memory.
    pub fn complete(&mut self, segment: SegmentId)
        requires within { segment < segments_of self.old }
        requires clear { IsClear self.old segment }
        ensures { self.new ≡ completed self.old segment }
    {
        let place = usize::from(segment.number());
        self.complete[place] = true;
        self.seen.completed(segment);
    }

    /// The least segment that isn't complete. None comes exactly where all are. It takes no memory.
    pub fn missing(&self) -> Option<SegmentId>
        ensures { result ≡ missing_of self.now }
    {
        least_unmarked(&self.complete)
    }

    /// An equal walk. The only failure is that memory runs out.
    pub fn copy(&self, alloc: Global) -> Result<Walk, NoMemory>
        ensures { IfOk result (λ copy. copy ≡ self.now) }
    {
        let flights = self.flights.copy(alloc)?;
        let seen = self.seen.copy(alloc)?;
        let complete = self.complete.clone()?;
        Ok(Walk {
            guarantee: self.guarantee,
            flights,
            seen,
            complete,
        })
    }

    /// Takes the unit's batch, and gives the entries whose keys haven't been given from the segment.
    fn take_unseen(&mut self, alloc: Global, unit: UnitId) -> Result<Option<Entries>, NoMemory>
        requires { self.old.guarantee ≡ Guarantee.Exact }
        ensures entries { IfOk result (λ entries. option_map (λ given. given.list) entries ≡ next_given self.old unit) }
        ensures ok { OnOk result (self.new ≡ taken self.old unit) }
        ensures err { OnErr result (self.new ≡ self.old) }
    {
        let Some(flying) = self.flights.get(unit) else {
            return Ok(None);
        };
        let entries = flying.pass(alloc, &mut self.seen)?;
        let _taken = self.flights.remove(unit);
        Ok(Some(entries))
    }

    /// Takes the unit's batch, and gives all its entries.
    fn take_all(&mut self, unit: UnitId) -> Option<Entries>
        ensures entries { option_map (λ given. given.list) result ≡ option_map (λ flight. flight.entries) (map_of.get self.old.flying unit) }
        ensures rest { self.new ≡ dropped self.old unit }
    {
        match self.flights.remove(unit) {
            Some(flying) => Some(flying.into_entries()),
            None => None,
        }
    }
}
