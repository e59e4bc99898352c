//! The registered units.

ghost use Rattle.std.specs.Prelude.{◌≡◌, ℕ, ◌<◌, ◌↔◌, ◌&&◌, ◌||◌, false, ◌==◌, IfOk, OnOk, OnErr, IfSome, IsNone};
ghost use Rattle.std.specs.BTreeSet.{contains};
ghost use Rattle.std.specs.FinMap as map;
ghost use Rattle.std.specs.FinSet as set;
ghost use Rattle.std.specs.List.{list_any};
ghost use Rattle.std.specs.List.Sorted.{IsStrictlySortedBy};
ghost use Rattle.std.specs.Ordering.{nat_cmp};
ghost use Rattle.loss_listener.specs.Registered.{is_registered, is_lost};

use crate::index::{Index, add, add_all, take_out};
use crate::place::Place;
use grid_base::{NoMemory, NodeId, SegmentId, UnitId, Units};
use segment_hash::SegmentSet;
use std::alloc::Global;
use std::collections::{BTreeMap, BTreeSet};
use std::marker::Model;

/// The units that are registered, each with its node and its segment. Contracts see the finite map
/// from the units to their places.
#[derive(Drop)]
pub struct Listeners {
    units: BTreeMap<UnitId, Place>,
    index: Index,
}

impl Model for Listeners {
    ghost use Rattle.std.specs.Coded.{codes, coded_ℕ};
    ghost use Rattle.std.specs.FinMap as map;
    ghost use Rattle.std.specs.Ordering.{nat_cmp};
    ghost use Rattle.loss_listener.specs.Registered.{Registered};
    ghost use Rattle.loss_listener.specs.Places.{coded_place};
    ghost use Rattle.loss_listener.specs.Index.{IsIndexed};

    ghost Value = { Registered };

    ghost coded = { map.code coded_ℕ coded_place };

    ghost view = { λ a. map.from_entries a.units.entries };

    ghost invariant = { λ a. IsIndexed a.units.entries a.index.entries };
}

impl Listeners {
    /// No unit is registered. The only failure is that memory runs out.
    pub fn new(alloc: Global) -> Result<Listeners, NoMemory>
        ensures { IfOk result (λ listeners. listeners ≡ map.empty) }
    {
        Ok(Listeners::empty(alloc))
    }

    /// No unit is registered. It takes no memory.
    pub fn empty(alloc: Global) -> Listeners
        ensures { result ≡ map.empty }
    {
        Listeners {
            units: BTreeMap::new(alloc),
            index: BTreeMap::new(alloc),
        }
    }

    /// Registers the unit, which is new, at the node on the segment. It fails only where memory runs
    /// out, and then the unit isn't registered.
    pub fn register(
        &mut self,
        alloc: Global,
        unit: UnitId,
        node: NodeId,
        segment: SegmentId,
    ) -> Result<(), NoMemory>
        requires { map.contains_key self.old unit ≡ false }
        ensures ok { OnOk result (self.new ≡ map.insert self.old unit (record { node = node; segment = segment })) }
        ensures err { OnErr result (self.new ≡ self.old) }
    {
        self.units.insert(unit, Place { node, segment })?;
        match add(&mut self.index, alloc, node, segment, unit) {
            Ok(()) => Ok(()),
            Err(error) => {
                self.units.remove(&unit);
                Err(error)
            }
        }
    }

    /// The units that are registered at the node on one of the segments, ascending. It changes
    /// nothing, and looks at no other segment. The only failure is that memory runs out.
    pub fn lost(
        &self,
        alloc: Global,
        node: NodeId,
        segments: &SegmentSet,
    ) -> Result<Units, NoMemory>
        ensures exactly { IfOk result (λ units. (u : ℕ) → list_any (λ x. x == u) units.list ≡ is_lost self.now node segments.now u) }
        ensures ascending { IfOk result (λ units. IsStrictlySortedBy nat_cmp units.list) }
    {
        let found = self.found(alloc, node, segments)?;
        listed(alloc, &found)
    }

    /// Takes the unit out, where it is registered. It takes no memory.
    pub fn end(&mut self, unit: UnitId)
        ensures { self.new ≡ map.remove self.old unit }
    {
        if let Some(place) = self.units.remove(&unit) {
            take_out(&mut self.index, place, unit);
        }
    }

    /// Lends the set of the units that are registered at the node on the segment. None comes exactly
    /// where there is no such unit. It takes no memory.
    pub fn at(&self, node: NodeId, segment: SegmentId) -> Option<&BTreeSet<UnitId>>
        ensures none { IsNone result ↔ ((u : ℕ) → is_registered self.now node segment u ≡ false) }
        ensures units { IfSome result (λ units. (u : ℕ) → contains nat_cmp units.now u ≡ is_registered self.now node segment u) }
    {
        let Some(units) = self.index.get(&Place { node, segment }) else {
            return None;
        };
        if units.is_empty() {
            return None;
        }
        Some(units)
    }

    /// Equal listeners. The only failure is that memory runs out.
    pub fn copy(&self, _alloc: Global) -> Result<Listeners, NoMemory>
        ensures { IfOk result (λ copy. copy ≡ self.now) }
    {
        let units = self.units.clone()?;
        let index = self.index.clone()?;
        Ok(Listeners { units, index })
    }

    /// The set of the units that are registered at the node on one of the segments.
    fn found(
        &self,
        alloc: Global,
        node: NodeId,
        segments: &SegmentSet,
    ) -> Result<BTreeSet<UnitId>, NoMemory>
        ensures { IfOk result (λ units. (u : ℕ) → contains nat_cmp units u ≡ is_lost self.now node segments.now u) }
    {
        let mut found = BTreeSet::new(alloc);
        if segments.next_from(SegmentId::new(0)).is_none() {
            return Ok(found);
        }
        for number in 0..256 {
            self.add_lost(&mut found, node, segments, SegmentId::new(number))?;
        }
        Ok(found)
    }

    /// Puts the units that are registered at the node on the segment into the set, where the segment
    /// is one of the lost ones.
    fn add_lost(
        &self,
        found: &mut BTreeSet<UnitId>,
        node: NodeId,
        segments: &SegmentSet,
        segment: SegmentId,
    ) -> Result<(), NoMemory>
        requires { segment < 256 }
        ensures { OnOk result ((u : ℕ) → contains nat_cmp found.new u ≡ (contains nat_cmp found.old u || (set.contains segments.now segment && is_registered self.now node segment u))) }
    {
        if !segments.has(segment) {
            return Ok(());
        }
        add_all(found, self.index.get(&Place { node, segment }))
    }
}

/// The units of the set, ascending.
fn listed(alloc: Global, found: &BTreeSet<UnitId>) -> Result<Units, NoMemory>
    ensures list { IfOk result (λ units. units.list ≡ found.now.keys) }
    ensures ascending { IfOk result (λ units. IsStrictlySortedBy nat_cmp units.list) }
{
    let mut units = Units::with_room(alloc, found.len())?;
    for unit in found.iter() {
        units.push(*unit)?;
    }
    Ok(units)
}
