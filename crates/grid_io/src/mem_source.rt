//! A source in memory that fails at listed calls.

ghost use Rattle.std.specs.Prelude.{◌≡◌, ◌<◌, ◌≤◌, ◌↔◌, [], length, take};
ghost use Rattle.std.specs.Prelude.{Some, IfOk, OnErr, IsErr};
ghost use Rattle.std.specs.Io.KnownBytes.{Consumes};
ghost use Rattle.grid_io.specs.Count.{Rose};
ghost use Rattle.grid_io.specs.Failures.{FailsNext};
ghost use Rattle.grid_io.specs.Feed.{move_count};
ghost use Rattle.grid_io.specs.Supply.{Supply, supply_of, after_read, after_read_fault};

use crate::failed::Failed;
use crate::failures::{Calls, Failures};
use crate::safe_source::SafeSource;
use crate::source::Source;
use grid_base::Bytes;
use std::marker::Model;

/// A source that gives the bytes it was made with, a limited number at each call, and fails at the
/// calls whose numbers are listed.
#[derive(Debug, Drop)]
pub struct MemSource {
    source: SafeSource,
    failures: Failures,
}

impl Model for MemSource {
    ghost use Rattle.grid_io.specs.Supply.{Supply};

    ghost Value = { Supply };

    ghost view = { λ s. record { feed = s.source; counts = s.failures } };
}

impl MemSource {
    /// A source of these bytes, which gives at most `most` of them at each call and fails at the
    /// calls `fails`. `most` is at least 1.
    pub fn new(bytes: Bytes, most: usize, fails: Calls) -> MemSource
        requires { 0 < most }
        ensures made { result ≡ supply_of bytes.list most fails.list }
        ensures left { ⟦<MemSource as Source>⟧.left result ≡ Some bytes.list }
        ensures faults { ⟦<MemSource as Source>⟧.faults result ≡ 0 }
    {
        MemSource {
            source: SafeSource::new(bytes, most),
            failures: Failures::new(fails),
        }
    }
}

impl Source for MemSource {
    ghost left = { λ s. Some s.feed.left };

    ghost faults = { λ s. s.counts.faults };

    /// As the trait says. It fails exactly where the call's number is listed, and else moves as
    /// many bytes as it may.
    fn read(&mut self, buf: &mut [u8]) -> Result<usize, Failed>
        requires { 0 < length buf.old }
        ensures fails { IsErr result ↔ FailsNext self.old.counts }
        ensures count { IfOk result (λ n. n ≡ move_count (length buf.old) self.old.feed) }
        ensures after { IfOk result (λ n. self.new ≡ after_read n self.old) }
        ensures stands { OnErr result (self.new ≡ after_read_fault self.old) }

        ensures bound { IfOk result (λ n. n ≤ length buf.new) }
        ensures taken { IfOk result (λ n.
            Consumes (Some self.old.feed.left) (Some self.new.feed.left) (take n buf.new)) }
        ensures end { IfOk result (λ n. (n ≡ 0) ↔ (self.old.feed.left ≡ [])) }
        ensures err { OnErr result (self.new.feed.left ≡ self.old.feed.left) }
        ensures counted { self.old.counts.faults ≤ self.new.counts.faults }
        ensures failed { OnErr result (Rose self.old.counts.faults self.new.counts.faults) }
    {
        self.failures.next_call()?;
        Ok(self.source.move_into(buf))
    }
}
