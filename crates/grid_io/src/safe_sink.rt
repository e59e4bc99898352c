//! A sink that never fails and keeps nothing.

ghost use Rattle.std.specs.Prelude.{◌≡◌, ◌<◌, ◌≤◌, length, min};
ghost use Rattle.std.specs.Prelude.{None, IfOk, IsOk};

use crate::failed::Failed;
use crate::sink::Sink;
use std::marker::Model;

/// A sink that takes a limited number of bytes at each call and never fails: its count of faults is
/// 0, which never rises. It keeps no byte, and so tells none.
#[derive(Debug, Drop)]
pub struct SafeSink {
    most: usize,
}

impl Model for SafeSink {
    ghost use Rattle.std.specs.Prelude.{ℕ, ◌<◌};

    ghost Value = { ℕ };

    ghost view = { λ s. s.most };

    ghost invariant = { λ s. 0 < s.most };
}

impl SafeSink {
    /// A sink that takes at most `most` bytes at each call. `most` is at least 1.
    pub fn new(most: usize) -> SafeSink
        requires { 0 < most }
        ensures made { result ≡ most }
        ensures told { ⟦<SafeSink as Sink>⟧.told result ≡ None }
        ensures faults { ⟦<SafeSink as Sink>⟧.faults result ≡ 0 }
    {
        SafeSink { most }
    }
}

impl Sink for SafeSink {
    ghost told = { λ _. None };

    ghost faults = { λ _. 0 };

    /// As the trait says. It never fails, and takes as many bytes as it may.
    fn write(&mut self, piece: &[u8]) -> Result<usize, Failed>
        requires { 0 < length piece.now }
        ensures never_fails { IsOk result }
        ensures count { IfOk result (λ n. n ≡ min self.old (length piece.now)) }
        ensures stays { self.new ≡ self.old }
        ensures some { IfOk result (λ n. 0 < n) }
        ensures bound { IfOk result (λ n. n ≤ length piece.now) }
    {
        Ok(self.most.min(piece.len()))
    }
}
