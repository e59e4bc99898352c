//! Events of units: the entries that one reads, and those that its call takes.

ghost use Rattle.std.specs.Prelude.{◌≡◌, ◌+◌, length, IfOk};

use grid_base::{Batch, Duplicate, Entries, Items, NoMemory, UnitId};
use std::alloc::Global;
use std::marker::Model;

/// A unit read the next entries of its segment.
#[derive(Debug, Drop)]
pub struct ScanEvent {
    pub unit: UnitId,
    pub batch: Batch,
}

impl ScanEvent {
    /// An equal event. The only failure is that memory runs out.
    pub fn copy(&self, alloc: Global) -> Result<ScanEvent, NoMemory>
        ensures { IfOk result (λ copy. copy ≡ self.now) }
    {
        let batch = self.batch.copy(alloc)?;
        Ok(ScanEvent {
            unit: self.unit,
            batch,
        })
    }
}

impl Duplicate for ScanEvent {
    fn copy(&self, alloc: Global) -> Result<ScanEvent, NoMemory> {
        ScanEvent::copy(self, alloc)
    }
}

/// A unit of a walk read the next entries of its segment, which fly to its call.
#[derive(Debug, Drop)]
pub struct FetchEvent {
    pub unit: UnitId,
    pub batch: Batch,
}

impl FetchEvent {
    /// An equal event. The only failure is that memory runs out.
    pub fn copy(&self, alloc: Global) -> Result<FetchEvent, NoMemory>
        ensures { IfOk result (λ copy. copy ≡ self.now) }
    {
        let batch = self.batch.copy(alloc)?;
        Ok(FetchEvent {
            unit: self.unit,
            batch,
        })
    }
}

impl Duplicate for FetchEvent {
    fn copy(&self, alloc: Global) -> Result<FetchEvent, NoMemory> {
        FetchEvent::copy(self, alloc)
    }
}

/// A call took the next entries of a unit, and gave the items that its pipeline makes of them to
/// the user. Contracts see both lists without their spare places.
#[derive(Debug, Drop)]
pub struct TakeEvent {
    pub unit: UnitId,
    /// The entries that were taken.
    pub entries: Entries,
    /// The items that the user was given.
    pub given: Items,
}

impl Model for TakeEvent {
    ghost use Rattle.grid_event.specs.Taking.{Taking};

    ghost Value = { Taking };

    ghost view = { λ take. record { unit = take.unit; entries = take.entries.list; given = take.given.list } };
}

impl TakeEvent {
    /// How many entries and items there are.
    pub(crate) fn weight(&self) -> u128
        ensures { result ≡ length self.now.entries + length self.now.given }
    {
        self.entries.len() as u128 + self.given.len() as u128
    }

    /// An equal event. The only failure is that memory runs out.
    pub fn copy(&self, alloc: Global) -> Result<TakeEvent, NoMemory>
        ensures { IfOk result (λ copy. copy ≡ self.now) }
    {
        let entries = self.entries.copy(alloc)?;
        let given = self.given.copy(alloc)?;
        Ok(TakeEvent {
            unit: self.unit,
            entries,
            given,
        })
    }
}

impl Duplicate for TakeEvent {
    fn copy(&self, alloc: Global) -> Result<TakeEvent, NoMemory> {
        TakeEvent::copy(self, alloc)
    }
}
