//! The copies that one node holds.

ghost use Rattle.std.specs.Prelude.{◌≡◌, ◌≤◌, ◌==◌, true, not, IfOk, IsOk, OnOk, OnErr, None};
ghost use Rattle.std.specs.FinMap as map;
ghost use Rattle.std.specs.List.{list_all};
ghost use Rattle.std.specs.Option.{option_copied};
ghost use Rattle.container_seg.specs.Contents.{place, part_entries};
ghost use Rattle.container_seg.specs.Lifespans.{is_fresh, left, outlasts};
ghost use Rattle.container_seg.specs.Scans.{next_chunk, without_deadlines};

use crate::deadlines::Deadlines;
use crate::parts::{
    clear_in, copied, drop_deadlines, grow, left, plain, purge, purge_in, put_in, remove_in,
    until_of,
};
use crate::segment_map::{SegmentMap, outlasts};
use grid_base::{Batch, Chunk, Key, NoMemory, NodeId, SegmentId, Stamped, StampedEntries};
use std::alloc::Global;
use std::marker::Model;

/// The copies that one node holds: for each segment an ordered map from keys to stamped values, a
/// clock, and the deadlines in order, by which a tick finds what it frees. Contracts see the node's
/// number, the clock, and the entries that haven't expired by segment and key.
#[derive(Drop)]
pub struct Container {
    node: NodeId,
    clock: u32,
    segments: Vec<SegmentMap>,
    deadlines: Deadlines,
}

impl Model for Container {
    ghost use Rattle.std.specs.Coded.{codes, coded_ℕ};
    ghost use Rattle.std.specs.FinMap as map;
    ghost use Rattle.grid_base.specs.contracts.stamped.Stamped as stamped;
    ghost use Rattle.container_seg.specs.Contents.{Contents};
    ghost use Rattle.container_seg.specs.Places.{place_cmp, place_code};
    ghost use Rattle.container_seg.specs.Stored.{left_of};

    ghost Value = { Contents };

    ghost coded = { Prim.hlevel (codes, map.code {R = place_cmp} place_code stamped.the_row.coded) };

    ghost view = { λ a. record { node = a.node; clock = a.clock; entries = left_of a.clock a.segments.items } };
}

impl Container {
    /// The container of a node: no entries, and the clock is 0. It takes no memory.
    pub fn new(alloc: Global, node: NodeId) -> Result<Container, NoMemory>
        ensures empty { IfOk result (λ c. c ≡ record { node = node; clock = 0; entries = map.empty }) }
        ensures succeeds { IsOk result }
    {
        Ok(Container {
            node,
            clock: 0,
            segments: Vec::new(alloc),
            deadlines: Deadlines::new(alloc),
        })
    }

    /// An equal container in memory of its own. The only failure is that memory runs out.
    pub fn copy(&self, alloc: Global) -> Result<Container, NoMemory>
        ensures { IfOk result (λ copy. copy ≡ self.now) }
    {
        let segments = copied(alloc, &self.segments)?;
        let deadlines = self.deadlines.copy()?;
        Ok(Container {
            node: self.node,
            clock: self.clock,
            segments,
            deadlines,
        })
    }

    /// The node whose copies these are.
    pub fn node(&self) -> NodeId
        ensures { result ≡ self.now.node }
    {
        self.node
    }

    /// The clock, in ticks.
    pub fn clock(&self) -> u32
        ensures { result ≡ self.now.clock }
    {
        self.clock
    }

    /// Whether the deadline of `stamped` is none or above the clock, so that it may be put.
    pub fn admits(&self, stamped: &Stamped) -> bool
        ensures { result ≡ outlasts self.now.clock stamped.now.until }
    {
        outlasts(self.clock, stamped.until)
    }

    /// The stamped value of `key` in `segment`. None comes exactly where the key isn't there or has
    /// expired.
    pub fn get(&self, segment: SegmentId, key: &Key) -> Option<&Stamped>
        ensures { option_copied result ≡ map.get self.now.entries (place segment key.now) }
    {
        let at = usize::from(segment.number());
        if at >= self.segments.len() {
            return None;
        }
        self.segments[at].fresh(key, self.clock)
    }

    /// Sets the stamped value of `key` in `segment`, whose deadline is none or above the clock, and
    /// gives the one before, where there is one; that hasn't expired. It fails only where memory
    /// runs out, and never where the key is there; the container is then as before.
    pub fn put(
        &mut self,
        alloc: Global,
        segment: SegmentId,
        key: Key,
        stamped: Stamped,
    ) -> Result<Option<Stamped>, NoMemory>
        requires { outlasts self.old.clock stamped.until ≡ true }
        ensures before { IfOk result (λ before. before ≡ map.get self.old.entries (place segment key)) }
        ensures lasting { IfOk result (λ before. left self.old.clock before ≡ before) }
        ensures ok { OnOk result (self.new ≡ record self.old { entries = map.insert self.old.entries (place segment key) stamped }) }
        ensures err { OnErr result (self.new ≡ self.old) }
        ensures absent { OnErr result (map.get self.old.entries (place segment key) ≡ None) }
    {
        let at = usize::from(segment.number());
        grow(alloc, &mut self.segments, at)?;
        let until = stamped.until;
        let before = put_in(&mut self.segments, at, key, stamped)?;
        self.deadlines
            .change(segment, &key, until_of(&before), until);
        Ok(left(self.clock, before))
    }

    /// Takes `key` out of `segment`, and gives its stamped value. None comes exactly where the key
    /// isn't there or has expired.
    pub fn remove(&mut self, segment: SegmentId, key: &Key) -> Option<Stamped>
        ensures before { result ≡ map.get self.old.entries (place segment key.now) }
        ensures rest { self.new ≡ record self.old { entries = map.remove self.old.entries (place segment key.now) } }
    {
        let at = usize::from(segment.number());
        if at >= self.segments.len() {
            return None;
        }
        let before = remove_in(&mut self.segments, at, key);
        self.deadlines.change(segment, key, until_of(&before), None);
        left(self.clock, before)
    }

    /// Takes all entries of `segment` out.
    pub fn drop_segment(&mut self, segment: SegmentId)
        ensures { self.new ≡ record self.old { entries = map.retain_keys self.old.entries (λ p. not (p.segment == segment)) } }
    {
        let at = usize::from(segment.number());
        if at >= self.segments.len() {
            return;
        }
        drop_deadlines(&mut self.deadlines, segment, &self.segments[at]);
        clear_in(&mut self.segments, at);
    }

    /// Raises the clock to `clock`, which isn't below it: entries whose deadline isn't above it are
    /// gone.
    pub fn tick(&mut self, clock: u32)
        requires { self.old.clock ≤ clock }
        ensures { self.new ≡ record self.old { clock = clock; entries = map.retain_keys self.old.entries (λ p. is_fresh clock (map.get self.old.entries p)) } }
    {
        self.clock = clock;
        purge(&mut self.segments, &mut self.deadlines, clock);
    }

    /// Frees the memory of the entries of `segment` that have expired. A tick frees those whose
    /// deadlines are kept; one for whose deadline memory ran out goes here.
    pub fn purge(&mut self, segment: SegmentId)
        ensures { self.new ≡ self.old }
    {
        let at = usize::from(segment.number());
        if at >= self.segments.len() {
            return;
        }
        purge_in(&mut self.segments, at, self.clock);
    }

    /// The next entries of `segment` after a key in the node's order, from its first on where no
    /// key is given, at most `most`, which is at least 1; and whether they are the last. The only
    /// failure is that memory runs out.
    pub fn scan(
        &self,
        alloc: Global,
        segment: SegmentId,
        after: Option<&Key>,
        most: u16,
    ) -> Result<Batch, NoMemory>
        requires { 1 ≤ most }
        ensures { IfOk result (λ batch. batch ≡ without_deadlines (next_chunk self.now.node (option_copied after.entry) most (part_entries self.now.entries segment))) }
    {
        plain(alloc, self.scan_stamped(alloc, segment, after, most)?)
    }

    /// The same entries as `scan`, with their deadlines; none of them has expired.
    pub fn scan_stamped(
        &self,
        alloc: Global,
        segment: SegmentId,
        after: Option<&Key>,
        most: u16,
    ) -> Result<Chunk, NoMemory>
        requires { 1 ≤ most }
        ensures chunk { IfOk result (λ chunk. chunk ≡ next_chunk self.now.node (option_copied after.entry) most (part_entries self.now.entries segment)) }
        ensures lasting { IfOk result (λ chunk. list_all (λ e. outlasts self.now.clock e.stamped.until) chunk.entries ≡ true) }
    {
        let at = usize::from(segment.number());
        if at >= self.segments.len() {
            return Ok(Chunk {
                entries: StampedEntries::new(alloc),
                last: true,
            });
        }
        self.segments[at].chunk(alloc, self.clock, self.node.number(), after, most)
    }
}
