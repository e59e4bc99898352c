//! The standard writer as a sink.

ghost use Rattle.std.specs.Prelude.{◌≡◌, ◌<◌, ◌≤◌, length, take, None};
ghost use Rattle.std.specs.Prelude.{IfOk, OnOk, OnErr};
ghost use Rattle.std.specs.Io.KnownBytes.{Appends};
ghost use Rattle.grid_io.specs.Count.{next_count, Rose};
ghost use Rattle.grid_io.specs.Adapter.{Adapter};

use crate::failed::Failed;
use crate::sink::Sink;
use std::io::Write;
use std::marker::Model;

/// A standard writer as a sink. As a sink it tells nothing of the bytes, since no contract can say
/// what a file or a terminal holds. Each error of the writer is one fault, and so is a write that
/// takes no byte; the count of them stands still at the greatest unsigned 64 bit number.
#[derive(Debug, Drop)]
pub struct StdSink<W> {
    writer: W,
    faults: u64,
}

impl<W> Model for StdSink<W> {
    ghost use Rattle.grid_io.specs.Adapter.{Adapter, adapter_code};

    ghost Value = { Adapter W };

    ghost coded = { adapter_code W.code };

    ghost view = { λ s. record { inner = s.writer; faults = s.faults } };
}

impl<W: Write> StdSink<W> {
    /// A sink over this writer, with no fault so far.
    pub fn new(writer: W) -> StdSink<W>
        ensures made { result ≡ record { inner = writer; faults = 0 } }
        ensures told { ⟦<StdSink<W> as Sink>⟧.told result ≡ None }
        ensures faults { ⟦<StdSink<W> as Sink>⟧.faults result ≡ 0 }
    {
        StdSink { writer, faults: 0 }
    }
}

impl<W: Write> Sink for StdSink<W> {
    ghost told = { λ _. None };

    ghost faults = { λ s. s.faults };

    /// As the trait says: what the writer takes. The count of faults rises by one where the writer
    /// fails or takes no byte, and nowhere else.
    fn write(&mut self, piece: &[u8]) -> Result<usize, Failed>
        requires { 0 < length piece.now }
        ensures taken { IfOk result (λ n.
            Appends (W.contents self.old.inner) (W.contents self.new.inner) (take n piece.now)) }
        ensures same { OnOk result (self.new.faults ≡ self.old.faults) }
        ensures fault { OnErr result (self.new.faults ≡ next_count self.old.faults) }

        ensures some { IfOk result (λ n. 0 < n) }
        ensures bound { IfOk result (λ n. n ≤ length piece.now) }
        ensures counted { self.old.faults ≤ self.new.faults }
        ensures failed { OnErr result (Rose self.old.faults self.new.faults) }
    {
        match self.writer.write(piece) {
            Ok(count) if count > 0 => Ok(count),
            _ => {
                self.faults = self.faults.saturating_add(1);
                Err(Failed)
            }
        }
    }
}
