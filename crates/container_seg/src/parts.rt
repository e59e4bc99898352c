//! Changes of one segment among those of a container.

ghost use Rattle.std.specs.Prelude.{◌≡◌, ℕ, ◌<◌, List, IfOk, OnOk, OnErr, None, vec_len, slice_set};
ghost use Rattle.std.specs.FinMap as map;
ghost use Rattle.container_seg.specs.Lifespans.{left};
ghost use Rattle.container_seg.specs.Scans.{without_deadlines};
ghost use Rattle.container_seg.specs.Stored.{left_of, part_at};

use crate::deadlines::{Deadline, Deadlines};
use crate::segment_map::{SegmentMap, outlasts};
use grid_base::{Batch, Chunk, Entries, Entry, Key, NoMemory, SegmentId, Stamped};
use std::alloc::Global;

/// Sees that there is a segment at `at`. It fails only where memory runs out, and never where there
/// is one.
pub(crate) fn grow(alloc: Global, segments: &mut Vec<SegmentMap>, at: usize) -> Result<(), NoMemory>
    requires { at < 65536 }
    ensures alike { (t : ℕ) → part_at segments.new.items t ≡ part_at segments.old.items t }
    ensures ok { OnOk result (at < vec_len segments.new) }
    ensures err { OnErr result (part_at segments.old.items at ≡ map.empty) }
{
    while segments.len() <= at {
        segments.push(SegmentMap::new(alloc))?;
    }
    Ok(())
}

/// Equal segments in memory of their own. The only failure is that memory runs out.
pub(crate) fn copied(alloc: Global, segments: &[SegmentMap]) -> Result<Vec<SegmentMap>, NoMemory>
    ensures { IfOk result (λ copied. copied.items ≡ segments.now) }
{
    let mut copied = Vec::with_capacity(alloc, segments.len())?;
    for segment in segments {
        copied.push(segment.copy(alloc)?)?;
    }
    Ok(copied)
}

/// Puts a value into the segment at `at`.
pub(crate) fn put_in(
    segments: &mut Vec<SegmentMap>,
    at: usize,
    key: Key,
    stamped: Stamped,
) -> Result<Option<Stamped>, NoMemory>
    requires { at < vec_len segments.old }
    ensures before { IfOk result (λ before. before ≡ map.get (part_at segments.old.items at) key) }
    ensures ok { OnOk result (segments.new.items ≡ slice_set segments.old.items at (map.insert (part_at segments.old.items at) key stamped)) }
    ensures err { OnErr result (segments.new.items ≡ segments.old.items) }
    ensures absent { OnErr result (map.get (part_at segments.old.items at) key ≡ None) }
{
    segments[at].put(key, stamped)
}

/// Takes a key out of the segment at `at`.
pub(crate) fn remove_in(segments: &mut Vec<SegmentMap>, at: usize, key: &Key) -> Option<Stamped>
    requires { at < vec_len segments.old }
    ensures before { result ≡ map.get (part_at segments.old.items at) key.now }
    ensures rest { segments.new.items ≡ slice_set segments.old.items at (map.remove (part_at segments.old.items at) key.now) }
{
    segments[at].remove(key)
}

/// Empties the segment at `at`.
pub(crate) fn clear_in(segments: &mut Vec<SegmentMap>, at: usize)
    requires { at < vec_len segments.old }
    ensures { segments.new.items ≡ slice_set segments.old.items at map.empty }
{
    segments[at].clear();
}

/// Frees what has expired in the segment at `at`.
pub(crate) fn purge_in(segments: &mut Vec<SegmentMap>, at: usize, clock: u32)
    requires { at < vec_len segments.old }
    ensures others { segments.new.items ≡ slice_set segments.old.items at (part_at segments.new.items at) }
    ensures alike { (q : List ℕ) → left clock (map.get (part_at segments.new.items at) q) ≡ left clock (map.get (part_at segments.old.items at) q) }
{
    segments[at].purge(clock);
}

/// Frees what has expired when the clock stands here, of what the deadlines name.
pub(crate) fn purge(segments: &mut Vec<SegmentMap>, deadlines: &mut Deadlines, clock: u32)
    ensures { left_of clock segments.new.items ≡ left_of clock segments.old.items }
{
    for _ in 0..deadlines.len() {
        let Some(due) = deadlines.pop(clock) else {
            return;
        };
        free_in(segments, &due, clock);
    }
}

/// Frees the entry that a deadline names, where it is there and has expired.
fn free_in(segments: &mut Vec<SegmentMap>, due: &Deadline, clock: u32)
    ensures { left_of clock segments.new.items ≡ left_of clock segments.old.items }
{
    let at = usize::from(due.segment.number());
    if at >= segments.len() {
        return;
    }
    free_at(segments, at, &due.key, clock);
}

/// Frees a key of the segment at `at`, where it has expired.
fn free_at(segments: &mut Vec<SegmentMap>, at: usize, key: &Key, clock: u32)
    requires { at < vec_len segments.old }
    ensures others { segments.new.items ≡ slice_set segments.old.items at (part_at segments.new.items at) }
    ensures alike { (q : List ℕ) → left clock (map.get (part_at segments.new.items at) q) ≡ left clock (map.get (part_at segments.old.items at) q) }
{
    segments[at].free(key, clock);
}

/// Takes the deadlines of a segment's entries out.
pub(crate) fn drop_deadlines(deadlines: &mut Deadlines, segment: SegmentId, entries: &SegmentMap) {
    let mut range = entries.all();
    while let Some((key, stamped)) = range.next() {
        deadlines.change(segment, key, stamped.until, None);
    }
}

/// The deadline of a stamped value, where there is one.
pub(crate) fn until_of(stamped: &Option<Stamped>) -> Option<u32> {
    match stamped {
        Some(stamped) => stamped.until,
        None => None,
    }
}

/// What is left of a stamped value when the clock stands here.
pub(crate) fn left(clock: u32, stamped: Option<Stamped>) -> Option<Stamped>
    ensures { result ≡ left clock stamped }
{
    let Some(stamped) = stamped else {
        return None;
    };
    if outlasts(clock, stamped.until) {
        return Some(stamped);
    }
    None
}

/// The entries of a chunk without their deadlines. The only failure is that memory runs out.
pub(crate) fn plain(alloc: Global, chunk: Chunk) -> Result<Batch, NoMemory>
    ensures { IfOk result (λ batch. batch ≡ without_deadlines chunk) }
{
    let mut entries = Entries::new(alloc);
    let last = chunk.last;
    for entry in chunk.entries.into_vec() {
        entries.push(Entry {
            key: entry.key,
            value: entry.stamped.value,
        })?;
    }
    Ok(Batch { entries, last })
}
