//! The owners of all segments.

ghost use Rattle.std.specs.Prelude.{◌≡◌, ◌<◌, ◌≤◌, [], ◌∷◌, ◌++◌, length, IfOk, OnOk, OnErr};
ghost use Rattle.topology_phase.specs.Owners.{owners_at};
ghost use Rattle.topology_phase.specs.Topologies.{same_hash};

use crate::owners::Owners;
use grid_base::{Duplicate, NoMemory, SegmentId};
use std::alloc::Global;
use std::marker::Model;

/// A hash: the owners of each segment, segment 0 first, of at most 256 segments. Contracts see the
/// list of the owners' lists.
#[derive(Debug, Drop)]
pub struct Hash {
    owners: Vec<Owners>,
}

impl Model for Hash {
    ghost use Rattle.std.specs.Prelude.{ℕ, List, ◌≤◌, vec_len};

    ghost Value = { List (List ℕ) };

    ghost view = { λ a. a.owners.items };

    ghost invariant = { λ a. vec_len a.owners ≤ 256 };
}

impl Hash {
    /// A hash without segments. It takes no memory.
    pub fn new(alloc: Global) -> Hash
        ensures { result ≡ [] }
    {
        Hash {
            owners: Vec::new(alloc),
        }
    }

    /// Adds the next segment, of at most 256, with its owners. The only failure is that memory runs
    /// out; the hash is then as before.
    pub fn push(&mut self, owners: Owners) -> Result<(), NoMemory>
        requires { length self.old < 256 }
        ensures ok { OnOk result (self.new ≡ self.old ++ owners ∷ []) }
        ensures err { OnErr result (self.new ≡ self.old) }
    {
        self.owners.push(owners)?;
        Ok(())
    }

    /// How many segments there are, at most 256.
    pub fn segments(&self) -> u16
        ensures segments { result ≡ length self.now }
        ensures few { length self.now ≤ 256 }
    {
        self.owners.len() as u16
    }

    /// The owners of `segment`, which is below the number of segments.
    pub fn owners(&self, segment: SegmentId) -> Owners
        requires { segment < length self.now }
        ensures { result ≡ owners_at self.now segment }
    {
        self.owners[usize::from(segment.number())]
    }

    /// Whether the two hashes have the same owners in the same order.
    pub fn is_same(&self, other: &Hash) -> bool
        ensures { result ≡ same_hash self.now other.now }
    {
        self.rows() == other.rows()
    }

    /// The owners of the segments.
    pub(crate) fn rows(&self) -> &[Owners]
        ensures rows { result.now ≡ self.now }
        ensures few { length self.now ≤ 256 }
    {
        self.owners.as_slice()
    }

    /// The hash with these owners of the segments, at most 256. The only failure is that memory runs
    /// out.
    pub(crate) fn of_rows(alloc: Global, rows: &[Owners]) -> Result<Hash, NoMemory>
        requires { length rows.now ≤ 256 }
        ensures { IfOk result (λ hash. hash ≡ rows.now) }
    {
        let owners = Vec::from_slice(alloc, rows)?;
        Ok(Hash { owners })
    }

    /// An equal hash. The only failure is that memory runs out.
    pub fn copy(&self, alloc: Global) -> Result<Hash, NoMemory>
        ensures { IfOk result (λ copy. copy ≡ self.now) }
    {
        let owners = Vec::from_slice(alloc, self.owners.as_slice())?;
        Ok(Hash { owners })
    }
}

impl Duplicate for Hash {
    fn copy(&self, alloc: Global) -> Result<Hash, NoMemory> {
        Hash::copy(self, alloc)
    }
}
