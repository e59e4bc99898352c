//! Live runs over sources and sinks in memory.

ghost use Rattle.std.specs.Prelude.{◌≡◌, true, IfOk};
ghost use Rattle.cluster_model.specs.Step.{is_run};

use grid_base::{Bytes, NoMemory, Text};
use grid_event::Journal;
use grid_io::{Calls, MemSink, MemSource};
use grid_shell::{Status, run};
use node_workers::Gate;
use std::alloc::Global;
use std::sync::Wait;
use std::thread::Threads;

/// How many bytes a source gives and a sink takes at a time.
const PIECE: usize = 4_096;

/// How many bytes a sink has room for.
const ROOM: usize = 100_000;

/// What a run ends with.
#[derive(Drop)]
pub struct End {
    pub status: Status,
    pub sink: MemSink,
    pub journal: Journal,
}

impl End {
    /// What the run has written.
    pub fn written(&self) -> &[u8] {
        self.sink.written().as_slice()
    }
}

/// Runs what the words say over a script. Workers pass the gate. It ends with a run of the cluster,
/// however the threads took turns.
pub fn run_once<R: Threads + Wait + Sync, G: Gate>(
    rt: &R,
    alloc: Global,
    words: &[Text],
    script: &[u8],
    gate: &G,
) -> Result<End, NoMemory>
    ensures { IfOk result (λ end. is_run end.journal.history ≡ true) }
{
    let mut bytes = Bytes::new(alloc);
    bytes.extend(script)?;
    let mut source = MemSource::new(bytes, PIECE, Calls::new(alloc));
    let mut sink = MemSink::new(alloc, ROOM, PIECE, Calls::new(alloc))?;
    let mut journal = Journal::new(alloc);
    let status = run(rt, alloc, words, &mut source, &mut sink, gate, &mut journal);
    Ok(End {
        status,
        sink,
        journal,
    })
}
