//! The deadlines of stored entries, in order.

use crate::segment_map::outlasts;
use grid_base::{Key, NoMemory, SegmentId};
use std::alloc::Global;
use std::collections::BTreeSet;

/// The deadline of an entry, and where the entry lies. Deadlines are ordered by tick.
#[derive(Clone, Copy, Debug, PartialEq, Eq, PartialOrd, Ord)]
pub(crate) struct Deadline {
    pub(crate) until: u32,
    pub(crate) segment: SegmentId,
    pub(crate) key: Key,
}

/// Deadlines of stored entries. They say where to look for what has expired; whether an entry has
/// expired is told by the entry alone. A deadline for which memory runs out is left out, and its
/// entry is stored until its key or its segment goes.
#[derive(Drop)]
pub(crate) struct Deadlines {
    tree: BTreeSet<Deadline>,
}

impl Deadlines {
    /// No deadlines. It takes no memory.
    pub(crate) fn new(alloc: Global) -> Deadlines {
        Deadlines {
            tree: BTreeSet::new(alloc),
        }
    }

    /// Equal deadlines in memory of their own. The only failure is that memory runs out.
    pub(crate) fn copy(&self) -> Result<Deadlines, NoMemory> {
        Ok(Deadlines {
            tree: self.tree.clone()?,
        })
    }

    /// How many deadlines there are.
    pub(crate) fn len(&self) -> usize {
        self.tree.len()
    }

    /// The entry has another deadline than before, or none.
    pub(crate) fn change(
        &mut self,
        segment: SegmentId,
        key: &Key,
        before: Option<u32>,
        after: Option<u32>,
    ) {
        if before == after {
            return;
        }
        if let Some(until) = before {
            let _ = self.tree.remove(&Deadline {
                until,
                segment,
                key: *key,
            });
        }
        if let Some(until) = after {
            let _ = self.tree.insert(Deadline {
                until,
                segment,
                key: *key,
            });
        }
    }

    /// Takes out a deadline that the clock has reached, where there is one.
    pub(crate) fn pop(&mut self, clock: u32) -> Option<Deadline> {
        let first = self.tree.first()?;
        if outlasts(clock, Some(first.until)) {
            return None;
        }
        self.tree.pop_first()
    }
}
