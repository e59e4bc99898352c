//! What bytes are read from.

ghost use Rattle.std.specs.Prelude.{◌≡◌, ℕ, ◌<◌, ◌≤◌, ◌↔◌, List, [], length, take};
ghost use Rattle.std.specs.Prelude.{IfOk, OnErr, IfSome, Option};
ghost use Rattle.std.specs.Io.KnownBytes.{Consumes};
ghost use Rattle.grid_io.specs.Count.{Rose};

use crate::failed::Failed;

/// What bytes are read from. Contracts see as `left` the bytes that are still to come, where the
/// source tells them, and as `faults` how many reads have failed, a count that never falls.
pub trait Source {
    ghost left: { Self → Option (List ℕ) };

    ghost faults: { Self → ℕ };

    /// Reads into the front of `buf`, which isn't empty, and answers how many bytes it put there:
    /// the next ones of the source. The answer 0 comes exactly at the end. It fails only where the
    /// count of faults rose, and then no byte was taken; a count that stands at the greatest
    /// unsigned 64 bit number counts as risen.
    fn read(&mut self, buf: &mut [u8]) -> Result<usize, Failed>
        requires { 0 < length buf.old }
        ensures bound { IfOk result (λ n. n ≤ length buf.new) }
        ensures taken { IfOk result (λ n.
            Consumes (left self.old) (left self.new) (take n buf.new)) }
        ensures end { IfOk result (λ n. IfSome (left self.old) (λ all. (n ≡ 0) ↔ (all ≡ []))) }
        ensures err { OnErr result (left self.new ≡ left self.old) }
        ensures counted { faults self.old ≤ faults self.new }
        ensures failed { OnErr result (Rose (faults self.old) (faults self.new)) };
}
