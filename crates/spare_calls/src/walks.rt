//! A walk that keeps its flying batches itself.

ghost use Rattle.std.specs.Prelude.{◌≡◌, ◌<◌, false, true, slice_set, OnOk};
ghost use Rattle.std.specs.FinMap as map;
ghost use Rattle.iterate_batch.specs.Walks.{is_complete, segments_of};

use anyhow::Result;
use delivery_mode::Guarantee;
use grid_base::{Batch, Datum, Entries, Entry, Key, NoMemory, SegmentId, UnitId};
use iterate_batch::Walk;
use std::alloc::Global;

/// How many entries a walk of two segments gives of a key: at first, again, and from the other
/// segment; and which segment is missing before and after the first is complete.
pub fn told_walk(alloc: Global, guarantee: Guarantee) -> Result<String> {
    let mut walk = Walk::new(alloc, guarantee, 2)?;
    let (first, second) = (SegmentId::new(0), SegmentId::new(1));
    let key = Key::new(b"a")?;
    let given = [
        given(&mut walk, alloc, first, key)?,
        given(&mut walk, alloc, first, key)?,
        given(&mut walk, alloc, second, key)?,
    ];
    let before = walk.missing();
    complete(&mut walk, first);
    let after = walk.missing();
    let copied = walk.copy(alloc)?.missing() == after;
    Ok(format!(in alloc; "{given:?} given, {before:?} and then {after:?} missing, {copied}")?)
}

/// Fetches a batch with the one key, where nothing flies.
fn fetch_one(
    walk: &mut Walk,
    alloc: Global,
    unit: UnitId,
    segment: SegmentId,
    key: Key,
) -> Result<(), NoMemory>
    requires idle { walk.old.flying ≡ map.empty }
    requires within { segment < segments_of walk.old }
    requires incomplete { is_complete walk.old segment ≡ false }
    ensures complete { walk.new.complete ≡ walk.old.complete }
    ensures only { OnOk result (map.remove walk.new.flying unit ≡ map.empty) }
{
    let mut entries = Entries::new(alloc);
    let value = Datum::Int(1);
    entries.push(Entry { key, value })?;
    let last = true;
    walk.fetch(unit, segment, Batch { entries, last })?;
    Ok(())
}

/// How many entries are given of a batch with the one key, where nothing flies and `next_take` says
/// the same.
fn given(
    walk: &mut Walk,
    alloc: Global,
    segment: SegmentId,
    key: Key,
) -> Result<Option<usize>, NoMemory>
    requires idle { walk.old.flying ≡ map.empty }
    requires within { segment < segments_of walk.old }
    requires incomplete { is_complete walk.old segment ≡ false }
    ensures complete { walk.new.complete ≡ walk.old.complete }
    ensures idle { OnOk result (walk.new.flying ≡ map.empty) }
{
    let unit = UnitId::new(7);
    fetch_one(walk, alloc, unit, segment, key)?;
    let next = walk.next_take(alloc, unit)?;
    let taken = walk.take(alloc, unit)?;
    if counted(&next) == counted(&taken) {
        return Ok(counted(&taken));
    }
    Ok(None)
}

/// Completes a segment where nothing flies.
fn complete(walk: &mut Walk, segment: SegmentId)
    requires idle { walk.old.flying ≡ map.empty }
    requires within { segment < segments_of walk.old }
    ensures complete { walk.new.complete ≡ slice_set walk.old.complete segment true }
    ensures idle { walk.new.flying ≡ map.empty }
{
    walk.complete(segment);
}

/// How many entries were given, where any batch was.
fn counted(entries: &Option<Entries>) -> Option<usize> {
    match entries {
        Some(entries) => Some(entries.len()),
        None => None,
    }
}
