//! A sink in memory that fails at listed calls and where it has no room.

ghost use Rattle.std.specs.Prelude.{◌≡◌, ◌<◌, ◌≤◌, ◌↔◌, [], length, take};
ghost use Rattle.std.specs.Prelude.{Some, IfOk, OnErr, IsErr, IsOk};
ghost use Rattle.std.specs.Io.KnownBytes.{Appends};
ghost use Rattle.grid_io.specs.Count.{Rose};
ghost use Rattle.grid_io.specs.Store.{Store, store_of, store_count};
ghost use Rattle.grid_io.specs.Store.{RefusesNext, after_write, after_write_fault};

use crate::failed::Failed;
use crate::failures::{Calls, Failures};
use crate::sink::Sink;
use grid_base::{Bytes, NoMemory};
use std::alloc::Global;
use std::marker::Model;

/// A sink that keeps the bytes that were written, a limited number at each call. It fails at the
/// calls whose numbers are listed, and at each call that finds no room left.
#[derive(Debug, Drop)]
pub struct MemSink {
    written: Bytes,
    room: usize,
    most: usize,
    failures: Failures,
}

impl Model for MemSink {
    ghost use Rattle.std.specs.Prelude.{◌<◌, ◌≤◌};
    ghost use Rattle.grid_io.specs.Store.{Store};

    ghost Value = { Store };

    ghost view = { λ s. record {
      written = s.written.list;
      room = s.room;
      most = s.most;
      counts = s.failures;
    } };

    ghost invariant = { λ s. (s.room ≤ s.written.spare) × (0 < s.most) };
}

impl MemSink {
    /// An empty sink with room for `room` bytes, which takes at most `most` of them at each call
    /// and fails at the calls `fails`. `most` is at least 1. The memory for all bytes is taken
    /// here; the only failure is that it runs out.
    pub fn new(alloc: Global, room: usize, most: usize, fails: Calls) -> Result<MemSink, NoMemory>
        requires { 0 < most }
        ensures made { IfOk result (λ sink. sink ≡ store_of room most fails.list) }
        ensures told { IfOk result (λ sink. ⟦<MemSink as Sink>⟧.told sink ≡ Some []) }
        ensures faults { IfOk result (λ sink. ⟦<MemSink as Sink>⟧.faults sink ≡ 0) }
        ensures takes_none { room ≡ 0 → IsOk result }
    {
        let written = Bytes::with_room(alloc, room)?;
        Ok(MemSink {
            written,
            room,
            most,
            failures: Failures::new(fails),
        })
    }

    /// The bytes that were written.
    pub fn written(&self) -> &Bytes
        ensures bytes { result.now.list ≡ self.now.written }
        ensures told { ⟦<MemSink as Sink>⟧.told self.now ≡ Some result.now.list }
    {
        &self.written
    }
}

impl Sink for MemSink {
    ghost told = { λ s. Some s.written };

    ghost faults = { λ s. s.counts.faults };

    /// As the trait says. It fails exactly where the call's number is listed or no room is left,
    /// and else takes as many bytes as it may. It takes no memory.
    fn write(&mut self, piece: &[u8]) -> Result<usize, Failed>
        requires { 0 < length piece.now }
        ensures fails { IsErr result ↔ RefusesNext self.old }
        ensures count { IfOk result (λ n. n ≡ store_count (length piece.now) self.old) }
        ensures after { IfOk result (λ n. self.new ≡ after_write (take n piece.now) self.old) }
        ensures stands { OnErr result (self.new ≡ after_write_fault self.old) }

        ensures some { IfOk result (λ n. 0 < n) }
        ensures bound { IfOk result (λ n. n ≤ length piece.now) }
        ensures added { IfOk result (λ n.
            Appends (Some self.old.written) (Some self.new.written) (take n piece.now)) }
        ensures err { OnErr result (self.new.written ≡ self.old.written) }
        ensures counted { self.old.counts.faults ≤ self.new.counts.faults }
        ensures failed { OnErr result (Rose self.old.counts.faults self.new.counts.faults) }
    {
        self.failures.next_call()?;
        if self.room == 0 {
            return Err(self.failures.fault());
        }
        let count = self.most.min(piece.len()).min(self.room);
        self.written.extend_reserved(&piece[..count]);
        self.room -= count;
        Ok(count)
    }
}
