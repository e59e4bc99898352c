//! The keys that have passed, as one set for each segment. The segment's number is its place.

ghost use Rattle.std.specs.Prelude.{◌≡◌, ℕ, ◌≤◌, ◌||◌, List, IfOk, OnOk, OnErr, vec_len};
ghost use Rattle.std.specs.List.{list_any};
ghost use Rattle.grid_base.specs.Datum.{same_bytes};
ghost use Rattle.seen_keys.specs.Passed.{has_passed, with_key, all_passed, without_segment};
ghost use Rattle.seen_keys.specs.Places.{passed_from, has_key, place_has};

use grid_base::{Entry, Key, NoMemory, SegmentId};
use indexmap::IndexSet;
use std::alloc::Global;

/// The keys of each segment, or none where no key has passed in it.
pub type Places = Vec<Option<IndexSet<Key>>>;

/// Whether the key has passed in the segment.
pub fn holds(places: &Places, segment: SegmentId, key: &Key) -> bool
    ensures { result ≡ has_passed (passed_from 0 places.now.items) segment key.now }
{
    let place = usize::from(segment.number());
    if place >= places.len() {
        return false;
    }
    match &places[place] {
        Some(keys) => keys.contains(key),
        None => false,
    }
}

/// The key passes in the segment. It fails only where memory runs out, and then no key passes.
pub fn add_key(
    places: &mut Places,
    alloc: Global,
    segment: SegmentId,
    key: &Key,
) -> Result<(), NoMemory>
    ensures ok { OnOk result (passed_from 0 places.new.items ≡ with_key (passed_from 0 places.old.items) segment key.now) }
    ensures err { OnErr result (passed_from 0 places.new.items ≡ passed_from 0 places.old.items) }
{
    let place = usize::from(segment.number());
    grow(places, place + 1)?;
    let mut keys = places[place].take().unwrap_or(IndexSet::new(alloc));
    let added = keys.insert(*key);
    places[place] = Some(keys);
    added?;
    Ok(())
}

/// The keys of the entries pass in the segment. It fails only where memory runs out, and then no
/// key passes.
pub fn add_keys(
    places: &mut Places,
    alloc: Global,
    segment: SegmentId,
    entries: &[Entry],
) -> Result<(), NoMemory>
    ensures ok { OnOk result (passed_from 0 places.new.items ≡ all_passed (passed_from 0 places.old.items) segment entries.now) }
    ensures err { OnErr result (passed_from 0 places.new.items ≡ passed_from 0 places.old.items) }
{
    let place = usize::from(segment.number());
    grow(places, place + 1)?;
    let mut keys = places[place].take().unwrap_or(IndexSet::new(alloc));
    let added = insert_keys(&mut keys, entries);
    places[place] = Some(keys);
    added
}

/// The keys of the segment are forgotten.
pub fn forget(places: &mut Places, segment: SegmentId)
    ensures { passed_from 0 places.new.items ≡ without_segment (passed_from 0 places.old.items) segment }
{
    let place = usize::from(segment.number());
    if place < places.len() {
        places[place] = None;
    }
}

/// The same keys in memory of their own. The only failure is that memory runs out.
pub fn copy_places(alloc: Global, places: &Places) -> Result<Places, NoMemory>
    ensures { IfOk result (λ copy. passed_from 0 copy.items ≡ passed_from 0 places.now.items) }
{
    let mut copied = Vec::with_capacity(alloc, places.len())?;
    for place in places {
        copied.push(copy_place(place)?)?;
    }
    Ok(copied)
}

/// The same keys of one place in memory of their own.
fn copy_place(place: &Option<IndexSet<Key>>) -> Result<Option<IndexSet<Key>>, NoMemory>
    ensures { IfOk result (λ copy. (k : List ℕ) → place_has copy k ≡ place_has place.now k) }
{
    match place {
        Some(keys) => Ok(Some(keys.clone()?)),
        None => Ok(None),
    }
}

/// Sees that there are at least `len` places. It fails only where memory runs out. No key passes.
fn grow(places: &mut Places, len: usize) -> Result<(), NoMemory>
    ensures ok { OnOk result (len ≤ vec_len places.new) }
    ensures same { passed_from 0 places.new.items ≡ passed_from 0 places.old.items }
{
    while places.len() < len {
        places.push(None)?;
    }
    Ok(())
}

/// Puts the keys of the entries into the set. It fails only where memory runs out, and then the
/// set has the keys that it had.
fn insert_keys(keys: &mut IndexSet<Key>, entries: &[Entry]) -> Result<(), NoMemory>
    ensures ok { OnOk result ((q : List ℕ) → has_key keys.new q ≡ (has_key keys.old q || list_any (λ entry. same_bytes q entry.key) entries.now)) }
    ensures err { OnErr result ((q : List ℕ) → has_key keys.new q ≡ has_key keys.old q) }
{
    keys.reserve(entries.len())?;
    for entry in entries {
        keys.insert(entry.key)?;
    }
    Ok(())
}
