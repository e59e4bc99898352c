//! Which chunks fly.

ghost use Rattle.std.specs.Prelude.{◌≡◌, ℕ, ◌<◌, true, false, slice_get};
ghost use Rattle.std.specs.FinSet as set_of;
ghost use Rattle.std.specs.Ordering.{nat_cmp};
ghost use Rattle.cluster_store.specs.Hints.{IsWith, IsWithout, in_set, may_fly};

use grid_base::{NodeId, SegmentId};
use segment_hash::SegmentSet;
use std::marker::Model;

/// How many nodes have a place.
const NODES: u8 = 16;

/// How many segments a set has room for.
const SEGMENTS: u16 = 256;

/// A set of segments for each of the nodes from 0 to 15. Contracts see the list of the sets.
#[derive(Debug, Drop)]
pub(crate) struct Places {
    sets: [SegmentSet; 16],
}

impl Model for Places {
    ghost use Rattle.std.specs.Prelude.{◌≡◌, List, length};
    ghost use Rattle.std.specs.Coded.{coded_list, coded_ℕ};
    ghost use Rattle.std.specs.FinSet as set_of;
    ghost use Rattle.std.specs.Ordering.{nat_cmp};

    ghost Value = { List (set_of.FinSet nat_cmp) };

    ghost coded = { coded_list (set_of.code coded_ℕ) };

    ghost view = { λ a. a.sets };

    ghost invariant = { λ a. length a.sets ≡ 16 };
}

/// Where chunks may fly. None flies elsewhere.
#[derive(Debug, Drop)]
pub(crate) enum Flying {
    /// Of the segments of these places, to their nodes.
    To(Places),
    /// Nothing is known.
    Unknown,
}

impl Places {
    /// No set has a segment.
    fn new() -> Places
        ensures { (r s : ℕ) → in_set (slice_get result r) s ≡ false }
    {
        Places {
            sets: [
                SegmentSet::new(),
                SegmentSet::new(),
                SegmentSet::new(),
                SegmentSet::new(),
                SegmentSet::new(),
                SegmentSet::new(),
                SegmentSet::new(),
                SegmentSet::new(),
                SegmentSet::new(),
                SegmentSet::new(),
                SegmentSet::new(),
                SegmentSet::new(),
                SegmentSet::new(),
                SegmentSet::new(),
                SegmentSet::new(),
                SegmentSet::new(),
            ],
        }
    }

    /// The segment, below 256, is put into the set of the node, at most 15.
    fn add(&mut self, node: NodeId, segment: SegmentId)
        requires node { node < 16 }
        requires segment { segment < 256 }
        ensures { IsWith (Flying.To self.old) node segment (Flying.To self.new) }
    {
        self.sets[usize::from(node.number())].add(segment);
    }

    /// The segment, below 256, is taken out of the set of the node, at most 15.
    fn remove(&mut self, node: NodeId, segment: SegmentId)
        requires node { node < 16 }
        requires segment { segment < 256 }
        ensures { IsWithout (Flying.To self.old) node segment (Flying.To self.new) }
    {
        self.sets[usize::from(node.number())].remove(segment);
    }
}

impl Flying {
    /// No chunk flies.
    pub(crate) fn nothing() -> Flying
        ensures { (r s : ℕ) → may_fly result r s ≡ false }
    {
        Flying::To(Places::new())
    }

    /// A chunk of the segment flies to the receiver as well.
    pub(crate) fn add(&mut self, receiver: NodeId, segment: SegmentId)
        ensures { IsWith self.old receiver segment self.new }
    {
        if receiver.number() >= NODES || segment.number() >= SEGMENTS {
            *self = Flying::Unknown;
            return;
        }
        if let Flying::To(places) = self {
            places.add(receiver, segment);
        }
    }

    /// That chunk flies no longer.
    pub(crate) fn remove(&mut self, receiver: NodeId, segment: SegmentId)
        ensures { IsWithout self.old receiver segment self.new }
    {
        if receiver.number() >= NODES || segment.number() >= SEGMENTS {
            return;
        }
        if let Flying::To(places) = self {
            places.remove(receiver, segment);
        }
    }

    /// Whether a chunk of the segment may fly to the receiver. Where not, none flies.
    pub(crate) fn may_fly(&self, receiver: NodeId, segment: SegmentId) -> bool
        ensures { result ≡ false → may_fly self.now receiver segment ≡ false }
    {
        if segment.number() >= SEGMENTS {
            return true;
        }
        match self {
            Flying::To(places) => match places.sets.get(usize::from(receiver.number())) {
                Some(set) => set.has(segment),
                None => false,
            },
            Flying::Unknown => true,
        }
    }

    /// Whether it is known that nothing flies to the receiver.
    pub(crate) fn spares(&self, receiver: NodeId) -> bool
        ensures { result ≡ true → (s : ℕ) → may_fly self.now receiver s ≡ false }
    {
        match self {
            Flying::To(places) => match places.sets.get(usize::from(receiver.number())) {
                Some(set) => set.next_from(SegmentId::new(0)).is_none(),
                None => true,
            },
            Flying::Unknown => false,
        }
    }
}
