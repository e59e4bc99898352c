//! A batch that flies.

ghost use Rattle.std.specs.Prelude.{◌≡◌, map, IfOk, OnOk, OnErr};
ghost use Rattle.std.specs.List.{IsDistinct};
ghost use Rattle.grid_base.specs.Datum.{same_bytes};
ghost use Rattle.seen_keys.specs.Passed.{all_passed, passing};

use grid_base::{Duplicate, Entries, NoMemory, SegmentId};
use seen_keys::Seen;
use std::alloc::Global;
use std::marker::Model;

/// The entries of a batch that was fetched and is not taken yet, and the segment that they were
/// read from. Their keys differ.
#[derive(Drop)]
pub struct Flying {
    segment: SegmentId,
    entries: Entries,
}

impl Model for Flying {
    ghost use Rattle.std.specs.Prelude.{map};
    ghost use Rattle.std.specs.List.{IsDistinct};
    ghost use Rattle.grid_base.specs.Datum.{same_bytes};
    ghost use Rattle.iterate_batch.specs.Flights.{Flight};

    ghost Value = { Flight };

    ghost view = { λ a. record { segment = a.segment; entries = a.entries.list } };

    ghost invariant = { λ a. IsDistinct same_bytes (map (λ entry. entry.key) a.entries.list) };
}

impl Flying {
    /// A batch of entries, whose keys differ, that were read from the segment.
    pub fn new(segment: SegmentId, entries: Entries) -> Flying
        requires { IsDistinct same_bytes (map (λ entry. entry.key) entries.list) }
        ensures { result ≡ record { segment = segment; entries = entries.list } }
    {
        Flying { segment, entries }
    }

    /// Equal entries.
    pub fn entries(&self, alloc: Global) -> Result<Entries, NoMemory>
        ensures { IfOk result (λ entries. entries.list ≡ self.now.entries) }
    {
        self.entries.copy(alloc)
    }

    /// The entries.
    pub fn into_entries(self) -> Entries
        ensures { result.list ≡ self.entries }
    {
        let Flying {
            segment: _,
            entries,
        } = self;
        entries
    }

    /// The entries whose keys haven't passed in the segment.
    pub fn passing(&self, alloc: Global, seen: &Seen) -> Result<Entries, NoMemory>
        ensures { IfOk result (λ entries. entries.list ≡ passing seen.now self.now.segment self.now.entries) }
    {
        seen.passing(alloc, self.segment, &self.entries)
    }

    /// Each key passes in the segment. The answer has the entries whose keys hadn't passed before.
    /// Where memory runs out no key passes.
    pub fn pass(&self, alloc: Global, seen: &mut Seen) -> Result<Entries, NoMemory>
        ensures entries { IfOk result (λ entries. entries.list ≡ passing seen.old self.now.segment self.now.entries) }
        ensures ok { OnOk result (seen.new ≡ all_passed seen.old self.now.segment self.now.entries) }
        ensures err { OnErr result (seen.new ≡ seen.old) }
    {
        seen.pass_all(alloc, self.segment, &self.entries)
    }
}

impl Duplicate for Flying {
    fn copy(&self, alloc: Global) -> Result<Flying, NoMemory> {
        let entries = self.entries.copy(alloc)?;
        Ok(Flying {
            segment: self.segment,
            entries,
        })
    }
}
