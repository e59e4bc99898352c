//! The entries of one segment.

ghost use Rattle.std.specs.Prelude.{◌≡◌, ℕ, List, true, reverse, IfOk, OnOk, OnErr, None};
ghost use Rattle.std.specs.FinMap as map;
ghost use Rattle.std.specs.Option.{option_copied};
ghost use Rattle.std.specs.List.{filter};
ghost use Rattle.std.specs.Ordering.{is_lt, is_gt};
ghost use Rattle.container_seg.specs.Lifespans.{fresh, left, outlasts};
ghost use Rattle.container_seg.specs.Places.{key_cmp};
ghost use Rattle.container_seg.specs.Scans.{comes_after, first_chunk, next_chunk};

use grid_base::{Chunk, Key, NoMemory, Stamped, StampedEntries, StampedEntry};
use std::alloc::Global;
use std::collections::BTreeMap;
use std::collections::btree_map::Range;
use std::marker::Model;
use std::ops::Bound;

/// The stored entries of a segment, with those that have expired and aren't freed yet. Contracts
/// see the finite map from keys to stamped values.
#[derive(Drop)]
pub(crate) struct SegmentMap {
    tree: BTreeMap<Key, Stamped>,
}

impl Model for SegmentMap {
    ghost use Rattle.std.specs.Coded.{coded_list, coded_ℕ};
    ghost use Rattle.std.specs.FinMap as map;
    ghost use Rattle.grid_base.specs.contracts.stamped.Stamped as stamped;
    ghost use Rattle.container_seg.specs.Stored.{Part};

    ghost Value = { Part };

    ghost coded = { map.code (coded_list coded_ℕ) stamped.the_row.coded };

    ghost view = { λ a. map.from_entries a.tree.entries };
}

impl SegmentMap {
    /// No entries. It takes no memory.
    pub(crate) fn new(alloc: Global) -> SegmentMap
        ensures { result ≡ map.empty }
    {
        SegmentMap {
            tree: BTreeMap::new(alloc),
        }
    }

    /// The stamped value of `key`, where there is one.
    pub(crate) fn get(&self, key: &Key) -> Option<&Stamped>
        ensures { option_copied result ≡ map.get self.now key.now }
    {
        self.tree.get(key)
    }

    /// The stamped value of `key`, where there is one that hasn't expired when the clock stands
    /// here.
    pub(crate) fn fresh(&self, key: &Key, clock: u32) -> Option<&Stamped>
        ensures { option_copied result ≡ left clock (map.get self.now key.now) }
    {
        let stamped = self.get(key)?;
        if !outlasts(clock, stamped.until) {
            return None;
        }
        Some(stamped)
    }

    /// Sets the stamped value of `key`, and gives the one before. It fails only where memory runs
    /// out, and never where the key is there.
    pub(crate) fn put(&mut self, key: Key, stamped: Stamped) -> Result<Option<Stamped>, NoMemory>
        ensures before { IfOk result (λ before. before ≡ map.get self.old key) }
        ensures ok { OnOk result (self.new ≡ map.insert self.old key stamped) }
        ensures err { OnErr result (self.new ≡ self.old) }
        ensures absent { OnErr result (map.get self.old key ≡ None) }
    {
        let before = self.tree.insert(key, stamped)?;
        Ok(before)
    }

    /// Takes `key` out, and gives its stamped value, where it is there.
    pub(crate) fn remove(&mut self, key: &Key) -> Option<Stamped>
        ensures before { result ≡ map.get self.old key.now }
        ensures rest { self.new ≡ map.remove self.old key.now }
    {
        self.tree.remove(key)
    }

    /// Takes all entries out.
    pub(crate) fn clear(&mut self)
        ensures { self.new ≡ map.empty }
    {
        self.tree.clear();
    }

    /// Equal entries in memory of their own. The only failure is that memory runs out.
    pub(crate) fn copy(&self, alloc: Global) -> Result<SegmentMap, NoMemory>
        ensures { IfOk result (λ copy. copy ≡ self.now) }
    {
        let mut copied = SegmentMap::new(alloc);
        let mut range = self.all();
        while let Some((key, stamped)) = range.next() {
            let _ = copied.put(*key, stamped.copy(alloc)?)?;
        }
        Ok(copied)
    }

    /// Frees the entries that have expired when the clock stands here.
    pub(crate) fn purge(&mut self, clock: u32)
        ensures { (q : List ℕ) → left clock (map.get self.new q) ≡ left clock (map.get self.old q) }
    {
        let mut last: Option<Key> = None;
        for _ in 0..self.len() {
            let Some(key) = self.key_after(last) else {
                return;
            };
            self.free(&key, clock);
            last = Some(key);
        }
    }

    /// Takes `key` out where it has expired when the clock stands here.
    pub(crate) fn free(&mut self, key: &Key, clock: u32)
        ensures { (q : List ℕ) → left clock (map.get self.new q) ≡ left clock (map.get self.old q) }
    {
        if !self.has_expired(key, clock) {
            return;
        }
        let _ = self.remove(key);
    }

    /// How many entries are stored.
    fn len(&self) -> usize {
        self.tree.len()
    }

    /// The least key above this one, or the least of all.
    fn key_after(&self, last: Option<Key>) -> Option<Key> {
        let range = match &last {
            Some(last) => self.above(last),
            None => self.tree.range(..),
        };
        first_key(range)
    }

    /// Whether `key` is there and has expired when the clock stands here.
    fn has_expired(&self, key: &Key, clock: u32) -> bool
        ensures { result ≡ true → left clock (map.get self.now key.now) ≡ None }
    {
        match self.get(key) {
            Some(stamped) => !outlasts(clock, stamped.until),
            None => false,
        }
    }

    /// The entries above `key`.
    fn above(&self, key: &Key) -> Range<'_, Key, Stamped>
        ensures { result ≡ filter (λ e. is_lt (key_cmp key.now e.0)) (map.entries self.now) }
    {
        self.tree.range((Bound::Excluded(*key), Bound::Unbounded))
    }

    /// The entries below `key`.
    fn below(&self, key: &Key) -> Range<'_, Key, Stamped>
        ensures { result ≡ filter (λ e. is_gt (key_cmp key.now e.0)) (map.entries self.now) }
    {
        self.tree.range(..*key)
    }

    /// All entries.
    pub(crate) fn all(&self) -> Range<'_, Key, Stamped>
        ensures { result ≡ map.entries self.now }
    {
        self.tree.range(..)
    }

    /// The next entries of the segment after a key in the node's order, at most so many, of those
    /// that haven't expired when the clock stands here. The only failure is that memory runs out.
    pub(crate) fn chunk(
        &self,
        alloc: Global,
        clock: u32,
        node: u8,
        after: Option<&Key>,
        most: u16,
    ) -> Result<Chunk, NoMemory>
        ensures { IfOk result (λ chunk. chunk ≡ next_chunk node (option_copied after.entry) most (fresh clock (map.entries self.now))) }
    {
        let range = self.range_from(node, after);
        if node % 2 == 0 {
            return gather_up(alloc, range, clock, most);
        }
        gather_down(alloc, range, clock, most)
    }

    /// The entries that come after a key in the node's order, in ascending order.
    fn range_from(&self, node: u8, after: Option<&Key>) -> Range<'_, Key, Stamped>
        ensures { result ≡ filter (λ e. comes_after node (option_copied after.entry) e.0) (map.entries self.now) }
    {
        let Some(key) = after else {
            return self.all();
        };
        if node % 2 == 0 {
            return self.above(key);
        }
        self.below(key)
    }
}

/// The first key of a range.
fn first_key(mut range: Range<'_, Key, Stamped>) -> Option<Key> {
    match range.next() {
        Some((key, _stamped)) => Some(*key),
        None => None,
    }
}

/// The first entries of a range that haven't expired, at most so many.
fn gather_up(
    alloc: Global,
    mut range: Range<'_, Key, Stamped>,
    clock: u32,
    most: u16,
) -> Result<Chunk, NoMemory>
    ensures { IfOk result (λ chunk. chunk ≡ first_chunk most (fresh clock range.entry)) }
{
    let mut entries = StampedEntries::new(alloc);
    while let Some((key, stamped)) = range.next() {
        if !outlasts(clock, stamped.until) {
            continue;
        }
        if entries.len() == usize::from(most) {
            return Ok(Chunk {
                entries,
                last: false,
            });
        }
        let stamped = stamped.copy(alloc)?;
        entries.push(StampedEntry { key: *key, stamped })?;
    }
    Ok(Chunk {
        entries,
        last: true,
    })
}

/// The last entries of a range that haven't expired, from its end on, at most so many.
fn gather_down(
    alloc: Global,
    mut range: Range<'_, Key, Stamped>,
    clock: u32,
    most: u16,
) -> Result<Chunk, NoMemory>
    ensures { IfOk result (λ chunk. chunk ≡ first_chunk most (reverse (fresh clock range.entry))) }
{
    let mut entries = StampedEntries::new(alloc);
    while let Some((key, stamped)) = range.next_back() {
        if !outlasts(clock, stamped.until) {
            continue;
        }
        if entries.len() == usize::from(most) {
            return Ok(Chunk {
                entries,
                last: false,
            });
        }
        let stamped = stamped.copy(alloc)?;
        entries.push(StampedEntry { key: *key, stamped })?;
    }
    Ok(Chunk {
        entries,
        last: true,
    })
}

/// Whether a deadline is none, or above the clock.
pub(crate) fn outlasts(clock: u32, until: Option<u32>) -> bool
    ensures { result ≡ outlasts clock until }
{
    match until {
        None => true,
        Some(until) => clock < until,
    }
}
