//! Writing bytes whole.

ghost use Rattle.std.specs.Prelude.{◌≤◌, OnOk, OnErr};
ghost use Rattle.std.specs.Io.KnownBytes.{Appends};
ghost use Rattle.grid_io.specs.Count.{Rose};
ghost use Rattle.grid_io.specs.Written.{AppendsPart, Wrote};

use crate::sink::Sink;
use crate::write_fault::WriteFault;

/// Writes all of `bytes`. It takes no memory.
///
/// The fault comes only where the sink's count of faults rose, and then a front of the bytes was
/// written, but not all of them.
pub fn write_all<K: Sink>(sink: &mut K, bytes: &[u8]) -> Result<(), WriteFault>
    ensures ok { OnOk result (Appends (K.told sink.old) (K.told sink.new) bytes.now) }
    ensures err { OnErr result (AppendsPart (K.told sink.old) (K.told sink.new) bytes.now) }
    ensures fault { OnErr result (Rose (K.faults sink.old) (K.faults sink.new)) }
    ensures counted { K.faults sink.old ≤ K.faults sink.new }

    // Both answers in one, for a caller that doesn't look at the answer.
    ensures wrote { Wrote (K.told sink.old) (K.told sink.new)
        (K.faults sink.old) (K.faults sink.new) bytes.now }
{
    let mut written = 0;
    'pieces: while written < bytes.len() {
        let count = sink.write(&bytes[written..])?;
        written += count;
    }
    Ok(())
}
