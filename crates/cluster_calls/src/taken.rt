//! An entry that a walk took.

ghost use Rattle.std.specs.Prelude.{◌≡◌, ◌++◌, map, IfOk, take};
ghost use Rattle.cluster_calls.specs.Takings.{taken_in};

use grid_base::{Entry, NoMemory, SegmentId, Sequence};
use std::alloc::Global;
use std::marker::Model;

/// An entry that a walk took, and the segment that it came from.
#[derive(Debug, Drop)]
pub struct Taken {
    segment: SegmentId,
    entry_of: Entry,
}

impl Model for Taken {
    ghost use Rattle.cluster_model.specs.State as states;

    ghost Value = { states.Taken };

    ghost view = { λ taken. record { segment = taken.segment; entry_of = taken.entry_of } };
}

impl Taken {
    /// The segment.
    pub fn segment(&self) -> SegmentId
        ensures { result ≡ self.now.segment }
    {
        self.segment
    }

    /// The entry.
    pub fn entry(&self) -> &Entry
        ensures { result.now ≡ self.now.entry_of }
    {
        &self.entry_of
    }
}

/// The entries as taken from the segment, in memory of their own. The only failure is that memory
/// runs out.
pub(crate) fn taken_from(
    alloc: Global,
    segment: SegmentId,
    entries: &[Entry],
) -> Result<Sequence<Taken>, NoMemory>
    ensures { IfOk result (λ taken. taken.list ≡ taken_in segment entries.now) }
{
    let mut taken = Sequence::with_room(alloc, entries.len())?;
    for entry in entries {
        let entry_of = entry.copy(alloc)?;
        taken.push(Taken { segment, entry_of })?;
    }
    Ok(taken)
}
