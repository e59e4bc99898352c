//! What is kept up to date of a call's units.

ghost use Rattle.std.specs.Prelude.{◌≡◌, ◌+◌, ◌-◌, ◌<◌, ◌≤◌, ◌^◌, ◌==◌, true, not, length, slice_get, slice_index, IfOk, Some};
ghost use Rattle.std.specs.FinSet as set_of;
ghost use Rattle.cluster_calls.specs.Tallied.{AreAsked, Tallied, with_asks, with_end, with_newest, without_open, nothing_tallied};

use grid_base::{NoMemory, SegmentId};
use grid_event::Ask;
use segment_hash::SegmentSet;
use std::alloc::Global;
use std::marker::Model;

/// The tally of a call's units: how many are open, which segments are complete and how many aren't,
/// and by segment the number of the newest unit, 0 for none.
#[derive(Debug, Drop)]
pub(crate) struct Tally {
    unended: u32,
    complete: SegmentSet,
    left: u16,
    newest: Vec<u32>,
}

impl Model for Tally {
    ghost use Rattle.std.specs.Coded.{codes, coded_ℕ};
    ghost use Rattle.std.specs.FinSet as set_of;
    ghost use Rattle.std.specs.Ordering.{nat_cmp};
    ghost use Rattle.cluster_calls.specs.Tallied.{Tallied};

    ghost Value = { Tallied };

    ghost coded = { Prim.hlevel (codes, set_of.code {R = nat_cmp} coded_ℕ) };

    ghost view = { λ a. record { unended = a.unended; complete = a.complete; left = a.left; newest = a.newest.items } };
}

impl Tally {
    /// The tally of a call without units. The only failure is that memory runs out.
    pub(crate) fn new(alloc: Global, segments: u16) -> Result<Tally, NoMemory>
        ensures { IfOk result (λ tally. tally ≡ nothing_tallied segments) }
    {
        let newest = vec![in alloc; 0; usize::from(segments)]?;
        Ok(Tally {
            unended: 0,
            complete: SegmentSet::new(),
            left: segments,
            newest,
        })
    }

    /// Whether a unit is open.
    pub(crate) fn has_open(&self) -> bool
        ensures { result ≡ not (self.now.unended == 0) }
    {
        self.unended != 0
    }

    /// Whether the segment, which is below 256, is complete.
    pub(crate) fn is_complete(&self, segment: SegmentId) -> bool
        requires { segment < 256 }
        ensures { result ≡ set_of.contains self.now.complete segment }
    {
        self.complete.has(segment)
    }

    /// Whether no segment is incomplete.
    pub(crate) fn all_complete(&self) -> bool
        ensures { result ≡ (self.now.left == 0) }
    {
        self.left == 0
    }

    /// The number of the newest unit on the segment, 0 for none.
    pub(crate) fn newest(&self, segment: SegmentId) -> u32
        requires { segment < length self.now.newest }
        ensures { slice_get self.now.newest segment ≡ Some result }
    {
        self.newest[usize::from(segment.number())]
    }

    /// These units are asked, of which with those that are open there are fewer than 2^32.
    pub(crate) fn ask(&mut self, asks: &[Ask])
        requires few { self.old.unended + length asks.now < 2 ^ 32 }
        requires within { AreAsked (length self.old.newest) asks.now }
        ensures { self.new ≡ with_asks asks.now self.old }
    {
        self.unended += asks.len() as u32;
        set_newest(&mut self.newest, asks);
    }

    /// An open unit is open no longer, and its segment isn't complete by it.
    pub(crate) fn close(&mut self)
        requires { 0 < self.old.unended }
        ensures { self.new ≡ without_open self.old }
    {
        self.unended -= 1;
    }

    /// An open unit has ended, by which its segment, which is below 256, is complete.
    pub(crate) fn end(&mut self, segment: SegmentId)
        requires some { 0 < self.old.unended }
        requires left { 0 < self.old.left }
        requires within { segment < 256 }
        ensures { self.new ≡ with_end segment self.old }
    {
        self.close();
        self.left -= 1;
        self.complete.add(segment);
    }
}

/// The asked units are the newest ones on their segments.
fn set_newest(newest: &mut [u32], asks: &[Ask])
    requires { AreAsked (length newest.old) asks.now }
    ensures { newest.new ≡ with_newest newest.old asks.now }
{
    for ask in asks {
        newest[usize::from(ask.segment.number())] = ask.unit.number();
    }
}
