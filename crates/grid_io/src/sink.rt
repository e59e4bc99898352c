//! What bytes are written to.

ghost use Rattle.std.specs.Prelude.{◌≡◌, ℕ, ◌<◌, ◌≤◌, List, length, take};
ghost use Rattle.std.specs.Prelude.{IfOk, OnErr, Option};
ghost use Rattle.std.specs.Io.KnownBytes.{Appends};
ghost use Rattle.grid_io.specs.Count.{Rose};

use crate::failed::Failed;

/// What bytes are written to. Contracts see as `told` the bytes that were written, where the sink
/// tells them, and as `faults` how many writes have failed, a count that never falls.
pub trait Sink {
    ghost told: { Self → Option (List ℕ) };

    ghost faults: { Self → ℕ };

    /// Writes bytes from the front of `piece`, which isn't empty, and answers how many: at least
    /// one. It fails only where the count of faults rose, and then no byte was written; a count
    /// that stands at the greatest unsigned 64 bit number counts as risen.
    fn write(&mut self, piece: &[u8]) -> Result<usize, Failed>
        requires { 0 < length piece.now }
        ensures some { IfOk result (λ n. 0 < n) }
        ensures bound { IfOk result (λ n. n ≤ length piece.now) }
        ensures added { IfOk result (λ n.
            Appends (told self.old) (told self.new) (take n piece.now)) }
        ensures err { OnErr result (told self.new ≡ told self.old) }
        ensures counted { faults self.old ≤ faults self.new }
        ensures failed { OnErr result (Rose (faults self.old) (faults self.new)) };
}
