//! Reading a source to its end.

ghost use Rattle.std.specs.Prelude.{◌≡◌, ℕ, ◌<◌, ◌≤◌, ◌↔◌, List, [], length};
ghost use Rattle.std.specs.Prelude.{Some, IfOk, OnOk, IfSome, IsErrOf};
ghost use Rattle.std.specs.Io.KnownBytes.{Consumes};
ghost use Rattle.grid_io.specs.Count.{Rose};

use crate::read_all_fault::ReadAllFault;
use crate::source::Source;
use grid_base::Bytes;
use std::alloc::Global;

/// How many bytes are asked for at a time.
const PIECE: usize = 65536;

/// All bytes of `source`, up to its answer 0, where they are at most `limit`.
///
/// `ReadFault` comes only where the source's count of faults rose, `TooLong` exactly where more
/// than `limit` bytes were taken, and `NoMemory` where memory ran out. After each of the three a
/// front of the source's bytes has been taken.
pub fn read_all<S: Source>(
    alloc: Global,
    source: &mut S,
    limit: usize,
) -> Result<Bytes, ReadAllFault>
    ensures all { IfOk result (λ bytes. IfSome (S.left source.old) (λ all. bytes.list ≡ all)) }
    ensures end { OnOk result (IfSome (S.left source.old) (λ _. S.left source.new ≡ Some [])) }
    ensures short { IfOk result (λ bytes. length bytes.list ≤ limit) }

    // What was taken, and that it is more than the limit exactly where the answer says so.
    ensures taken { (taken : List ℕ) × Consumes (S.left source.old) (S.left source.new) taken
        × (IsErrOf result ReadAllFault.TooLong ↔ (limit < length taken)) }
    ensures too_long { IsErrOf result ReadAllFault.TooLong →
        IfSome (S.left source.old) (λ all. limit < length all) }

    ensures fault { IsErrOf result ReadAllFault.ReadFault →
        Rose (S.faults source.old) (S.faults source.new) }
    ensures counted { S.faults source.old ≤ S.faults source.new }
{
    let mut bytes = Bytes::new(alloc);
    let mut piece = [0; PIECE];
    'pieces: loop {
        let count = source.read(&mut piece)?;
        if count == 0 {
            return Ok(bytes);
        }
        if count > limit - bytes.len() {
            return Err(ReadAllFault::TooLong);
        }
        bytes.extend(&piece[..count])?;
    }
}
