//! Runs over sources and sinks in memory.

ghost use Rattle.std.specs.Prelude.{◌≡◌, true, IfOk};
ghost use Rattle.cluster_model.specs.Step.{is_run};

use grid_base::{Bytes, NoMemory, Text};
use grid_event::Journal;
use grid_io::{Calls, MemSink, MemSource};
use grid_shell::{Status, run_plain};
use std::alloc::Global;

/// How many bytes a source gives and a sink takes at a time.
const PIECE: usize = 40;

/// How many bytes a sink has room for.
const ROOM: usize = 20_000;

/// What a run ends with.
#[derive(Drop)]
pub struct End {
    pub status: Status,
    pub sink: MemSink,
    pub journal: Journal,
}

impl End {
    /// What the run has written.
    pub fn written(&self) -> &[u8] {
        self.sink.written().as_slice()
    }
}

/// Runs what the words say over a script. It ends with a run of the cluster.
pub fn run(alloc: Global, words: &[Text], script: &[u8]) -> Result<End, NoMemory>
    ensures { IfOk result (λ end. is_run end.journal.history ≡ true) }
{
    let mut bytes = Bytes::new(alloc);
    bytes.extend(script)?;
    let mut source = MemSource::new(bytes, PIECE, Calls::new(alloc));
    let mut sink = MemSink::new(alloc, ROOM, PIECE, Calls::new(alloc))?;
    let mut journal = Journal::new(alloc);
    let status = run_plain(alloc, words, &mut source, &mut sink, &mut journal);
    Ok(End {
        status,
        sink,
        journal,
    })
}
