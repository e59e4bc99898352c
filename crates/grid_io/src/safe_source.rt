//! A source in memory that never fails.

ghost use Rattle.std.specs.Prelude.{◌≡◌, ◌<◌, ◌≤◌, ◌↔◌, [], length, take, drop};
ghost use Rattle.std.specs.Prelude.{Some, IfOk, OnErr, IfSome, IsOk};
ghost use Rattle.std.specs.Io.KnownBytes.{Consumes};
ghost use Rattle.grid_io.specs.Count.{Rose};
ghost use Rattle.grid_io.specs.Feed.{Feed, move_count, after_move};

use crate::failed::Failed;
use crate::source::Source;
use grid_base::Bytes;
use std::marker::Model;

/// A source that gives the bytes it was made with, a limited number at each call, and never fails:
/// its count of faults is 0, which never rises.
#[derive(Debug, Drop)]
pub struct SafeSource {
    bytes: Bytes,
    at: usize,
    most: usize,
}

impl Model for SafeSource {
    ghost use Rattle.std.specs.Prelude.{◌<◌, ◌≤◌, length, drop};
    ghost use Rattle.grid_io.specs.Feed.{Feed};

    ghost Value = { Feed };

    ghost view = { λ s. record { left = drop s.at s.bytes.list; most = s.most } };

    ghost invariant = { λ s. (s.at ≤ length s.bytes.list) × (0 < s.most) };
}

impl SafeSource {
    /// A source of these bytes, which gives at most `most` of them at each call. `most` is at least
    /// 1.
    pub fn new(bytes: Bytes, most: usize) -> SafeSource
        requires { 0 < most }
        ensures made { result ≡ record { left = bytes.list; most = most } }
        ensures left { ⟦<SafeSource as Source>⟧.left result ≡ Some bytes.list }
        ensures faults { ⟦<SafeSource as Source>⟧.faults result ≡ 0 }
    {
        SafeSource { bytes, at: 0, most }
    }

    /// Moves the next bytes into the front of `buf`, and answers how many: as many as `most`, the
    /// room in `buf` and the bytes that are left allow.
    pub(crate) fn move_into(&mut self, buf: &mut [u8]) -> usize
        ensures count { result ≡ move_count (length buf.old) self.old }
        ensures bytes { take result buf.new ≡ take result self.old.left }
        ensures after { self.new ≡ after_move result self.old }
        ensures end { 0 < length buf.old → ((result ≡ 0) ↔ (self.old.left ≡ [])) }
    {
        let left = &self.bytes.as_slice()[self.at..];
        let count = self.most.min(buf.len()).min(left.len());
        buf[..count].copy_from_slice(&left[..count]);
        self.at += count;
        count
    }
}

impl Source for SafeSource {
    ghost left = { λ s. Some s.left };

    ghost faults = { λ _. 0 };

    /// As the trait says. It never fails, and moves as many bytes as it may.
    fn read(&mut self, buf: &mut [u8]) -> Result<usize, Failed>
        requires { 0 < length buf.old }
        ensures never_fails { IsOk result }
        ensures count { IfOk result (λ n. n ≡ move_count (length buf.old) self.old) }
        ensures after { IfOk result (λ n. self.new ≡ after_move n self.old) }
        ensures bound { IfOk result (λ n. n ≤ length buf.new) }
        ensures taken { IfOk result (λ n.
            Consumes (Some self.old.left) (Some self.new.left) (take n buf.new)) }
        ensures end { IfOk result (λ n. (n ≡ 0) ↔ (self.old.left ≡ [])) }
    {
        Ok(self.move_into(buf))
    }
}
