//! The batches that fly.

ghost use Rattle.std.specs.Prelude.{◌≡◌, IfOk, OnOk, OnErr};
ghost use Rattle.std.specs.FinMap as map;
ghost use Rattle.std.specs.Option.{option_copied};

use crate::flying::Flying;
use grid_base::{Duplicate, NoMemory, UnitId};
use std::alloc::Global;
use std::collections::BTreeMap;
use std::marker::Model;

/// At most one batch of each unit. Contracts see the finite map from units to their batches.
#[derive(Drop)]
pub struct Flights {
    batches: BTreeMap<UnitId, Flying>,
}

impl Model for Flights {
    ghost use Rattle.std.specs.Coded.{coded_ℕ};
    ghost use Rattle.std.specs.FinMap as map;
    ghost use Rattle.iterate_batch.specs.Flights.{Flown};
    ghost use Rattle.iterate_batch.specs.contracts.flying.Flying as flight;

    ghost Value = { Flown };

    ghost coded = { map.code coded_ℕ flight.the_row.coded };

    ghost view = { λ a. map.from_entries a.batches.entries };
}

impl Flights {
    /// No batch flies. It takes no memory.
    pub fn new(alloc: Global) -> Flights
        ensures { result ≡ map.empty }
    {
        Flights {
            batches: BTreeMap::new(alloc),
        }
    }

    /// The batch of the unit, where one flies.
    pub fn get(&self, unit: UnitId) -> Option<&Flying>
        ensures { option_copied result ≡ map.get self.now unit }
    {
        self.batches.get(&unit)
    }

    /// Whether a batch of the unit flies.
    pub fn has(&self, unit: UnitId) -> bool
        ensures { result ≡ map.contains_key self.now unit }
    {
        self.batches.contains_key(&unit)
    }

    /// The batch is the one of the unit. The only failure is that memory runs out, and then nothing
    /// has changed.
    pub fn put(&mut self, unit: UnitId, flying: Flying) -> Result<(), NoMemory>
        ensures ok { OnOk result (self.new ≡ map.insert self.old unit flying) }
        ensures err { OnErr result (self.new ≡ self.old) }
    {
        self.batches.insert(unit, flying)?;
        Ok(())
    }

    /// Takes the batch of the unit, where one flies.
    pub fn remove(&mut self, unit: UnitId) -> Option<Flying>
        ensures before { result ≡ map.get self.old unit }
        ensures rest { self.new ≡ map.remove self.old unit }
    {
        self.batches.remove(&unit)
    }

    /// Equal batches. The only failure is that memory runs out.
    pub fn copy(&self, alloc: Global) -> Result<Flights, NoMemory>
        ensures { IfOk result (λ copy. copy ≡ self.now) }
    {
        let mut copied = Flights::new(alloc);
        let mut left = self.batches.iter();
        while let Some((unit, flying)) = left.next_back() {
            copied.put(*unit, flying.copy(alloc)?)?;
        }
        Ok(copied)
    }
}
