//! The delivered keys of a call.

ghost use Rattle.std.specs.Prelude.{◌≡◌, not, map, IfOk, OnOk, OnErr};
ghost use Rattle.std.specs.FinSet as set;
ghost use Rattle.std.specs.List.{IsDistinct};
ghost use Rattle.grid_base.specs.Datum.{same_bytes};
ghost use Rattle.seen_keys.specs.Passed.{has_passed, with_key, passing, all_passed, without_segment};

use crate::places::{Places, add_key, add_keys, copy_places, forget, holds};
use grid_base::{Entries, Entry, Key, NoMemory, SegmentId};
use std::alloc::Global;
use std::marker::Model;

/// The keys that have passed, by segment. Contracts see the finite set of the pairs of a segment
/// and a key.
#[derive(Drop)]
pub struct Seen {
    places: Places,
}

impl Model for Seen {
    ghost use Rattle.std.specs.Coded.{coded_ℕ, coded_list, coded×};
    ghost use Rattle.std.specs.FinSet as set;
    ghost use Rattle.seen_keys.specs.Passed.{Passed};
    ghost use Rattle.seen_keys.specs.Places.{passed_from};

    ghost Value = { Passed };

    ghost coded = { set.code (coded× coded_ℕ (coded_list coded_ℕ)) };

    ghost view = { λ seen. passed_from 0 seen.places.items };
}

impl Seen {
    /// No key has passed yet. The only failure is that memory runs out.
    pub fn new(alloc: Global) -> Result<Seen, NoMemory>
        ensures { IfOk result (λ seen. seen ≡ set.empty) }
    {
        Ok(Seen {
            places: Vec::new(alloc),
        })
    }

    /// Whether the key has passed in the segment, and the segment isn't complete since. It takes no
    /// memory.
    pub fn passed(&self, segment: SegmentId, key: &Key) -> bool
        ensures { result ≡ has_passed self.now segment key.now }
    {
        holds(&self.places, segment, key)
    }

    /// The key passes, unless it has passed in the segment before and the segment isn't complete
    /// since: then the answer is false. Where memory runs out no key passes.
    pub fn pass(&mut self, alloc: Global, segment: SegmentId, key: &Key) -> Result<bool, NoMemory>
        ensures passes { IfOk result (λ passes. passes ≡ not (has_passed self.old segment key.now)) }
        ensures ok { OnOk result (self.new ≡ with_key self.old segment key.now) }
        ensures err { OnErr result (self.new ≡ self.old) }
    {
        if holds(&self.places, segment, key) {
            return Ok(false);
        }
        add_key(&mut self.places, alloc, segment, key)?;
        Ok(true)
    }

    /// The entries of the batch, in order, whose keys haven't passed in the segment. It changes
    /// nothing, and the only failure is that memory runs out.
    pub fn passing(
        &self,
        alloc: Global,
        segment: SegmentId,
        batch: &Entries,
    ) -> Result<Entries, NoMemory>
        ensures { IfOk result (λ entries. entries.list ≡ passing self.now segment batch.now.list) }
    {
        let mut entries = Entries::new(alloc);
        for entry in batch.as_slice() {
            if !holds(&self.places, segment, &entry.key) {
                entries.push(entry.copy(alloc)?)?;
            }
        }
        Ok(entries)
    }

    /// Each key of the batch passes. The answer has the entries, in order, whose keys hadn't passed
    /// in the segment before. Where memory runs out no key passes.
    pub fn pass_all(
        &mut self,
        alloc: Global,
        segment: SegmentId,
        batch: &Entries,
    ) -> Result<Entries, NoMemory>
        requires { IsDistinct same_bytes (map (λ entry. entry.key) batch.now.list) }
        ensures entries { IfOk result (λ entries. entries.list ≡ passing self.old segment batch.now.list) }
        ensures ok { OnOk result (self.new ≡ all_passed self.old segment batch.now.list) }
        ensures err { OnErr result (self.new ≡ self.old) }
    {
        let entries = self.passing(alloc, segment, batch)?;
        add_keys(&mut self.places, alloc, segment, batch.as_slice())?;
        Ok(entries)
    }

    /// The keys of the entries pass in the segment. Where memory runs out no key passes.
    pub fn pass_each(
        &mut self,
        alloc: Global,
        segment: SegmentId,
        entries: &[Entry],
    ) -> Result<(), NoMemory>
        ensures ok { OnOk result (self.new ≡ all_passed self.old segment entries.now) }
        ensures err { OnErr result (self.new ≡ self.old) }
    {
        add_keys(&mut self.places, alloc, segment, entries)
    }

    /// The same keys in memory of their own. The only failure is that memory runs out.
    pub fn copy(&self, alloc: Global) -> Result<Seen, NoMemory>
        ensures { IfOk result (λ copy. copy ≡ self.now) }
    {
        let places = copy_places(alloc, &self.places)?;
        Ok(Seen { places })
    }

    /// The segment is complete: its keys are forgotten. It takes no memory.
    pub fn completed(&mut self, segment: SegmentId)
        ensures { self.new ≡ without_segment self.old segment }
    {
        forget(&mut self.places, segment);
    }
}
