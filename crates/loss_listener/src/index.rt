//! The index from places to units.

ghost use Rattle.std.specs.Prelude.{◌≡◌, ℕ, ◌&&◌, ◌||◌, ◌==◌, not, OnOk, OnErr};
ghost use Rattle.std.specs.BTreeSet.{contains};
ghost use Rattle.std.specs.Ordering.{nat_cmp};
ghost use Rattle.loss_listener.specs.declared.place.Place.{Place};
ghost use Rattle.loss_listener.specs.Registered.{is_place};
ghost use Rattle.loss_listener.specs.Index.{index_has, lent_has};

use crate::place::Place;
use grid_base::{NoMemory, NodeId, SegmentId, UnitId};
use std::alloc::Global;
use std::collections::{BTreeMap, BTreeSet};

/// The units of each place. A place without units may have an empty set.
pub type Index = BTreeMap<Place, BTreeSet<UnitId>>;

/// Puts the unit into the set of the place of that node and segment. It fails only where memory runs out, and then no set
/// has a unit more.
pub fn add(
    index: &mut Index,
    alloc: Global,
    node: NodeId,
    segment: SegmentId,
    unit: UnitId,
) -> Result<(), NoMemory>
    ensures ok { OnOk result ((p : Place) (u : ℕ) → index_has index.new.entries p u ≡ ((is_place node segment p && (unit == u)) || index_has index.old.entries p u)) }
    ensures err { OnErr result ((p : Place) (u : ℕ) → index_has index.new.entries p u ≡ index_has index.old.entries p u) }
{
    if let Some(units) = index.get_mut(&Place { node, segment }) {
        units.insert(unit)?;
        return Ok(());
    }
    let mut units = BTreeSet::new(alloc);
    units.insert(unit)?;
    index.insert(Place { node, segment }, units)?;
    Ok(())
}

/// Takes the unit out of the set of the place.
pub fn take_out(index: &mut Index, place: Place, unit: UnitId)
    ensures { (p : Place) (u : ℕ) → index_has index.new.entries p u ≡ (index_has index.old.entries p u && not (is_place place.node place.segment p && (unit == u))) }
{
    if let Some(units) = index.get_mut(&place) {
        units.remove(&unit);
    }
}

/// Puts the units of a place, where it has some, into the set. The only failure is that memory runs
/// out.
pub fn add_all(
    found: &mut BTreeSet<UnitId>,
    units: Option<&BTreeSet<UnitId>>,
) -> Result<(), NoMemory>
    ensures { OnOk result ((u : ℕ) → contains nat_cmp found.new u ≡ (contains nat_cmp found.old u || lent_has units.entry u)) }
{
    let Some(members) = units else {
        return Ok(());
    };
    for unit in members.iter() {
        found.insert(*unit)?;
    }
    Ok(())
}
