//! Runs over sources and sinks in memory.

ghost use Rattle.std.specs.Prelude.{◌≡◌, true, IfOk};
ghost use Rattle.cluster_model.specs.Step.{is_run};

use grid_base::{Bytes, NoMemory, Text};
use grid_event::Journal;
use grid_io::{Calls, MemSink, MemSource};
use grid_shell::Status;
use node_workers::NoGate;
use std::alloc::Global;
use std::sync::Wait;
use std::thread::Threads;

/// How many bytes a source gives at a time.
pub const READ: usize = 20;

/// How many bytes a sink takes at a time.
pub const WRITTEN: usize = 40;

/// How many bytes a sink has room for.
const ROOM: usize = 20_000;

/// What a run ends with.
#[derive(Drop)]
pub struct End {
    pub status: Status,
    pub sink: MemSink,
    pub journal: Journal,
}

impl End {
    /// What the run has written.
    pub fn written(&self) -> &[u8] {
        self.sink.written().as_slice()
    }
}

/// Runs what the words say over a script, where one read and one write fail; 0 stands for none. It
/// ends with a run of the cluster, whatever fails.
pub fn run<R: Threads + Wait + Sync>(
    rt: &R,
    alloc: Global,
    words: &[Text],
    script: &[u8],
    read_fails: u32,
    write_fails: u32,
) -> Result<End, NoMemory>
    ensures { IfOk result (λ end. is_run end.journal.history ≡ true) }
{
    let mut bytes = Bytes::new(alloc);
    bytes.extend(script)?;
    let mut source = MemSource::new(bytes, READ, call(alloc, read_fails)?);
    let mut sink = MemSink::new(alloc, ROOM, WRITTEN, call(alloc, write_fails)?)?;
    let mut journal = Journal::new(alloc);
    let status = grid_shell::run(
        rt,
        alloc,
        words,
        &mut source,
        &mut sink,
        &NoGate,
        &mut journal,
    );
    Ok(End {
        status,
        sink,
        journal,
    })
}

/// The one call of that number, or none for 0.
fn call(alloc: Global, number: u32) -> Result<Calls, NoMemory> {
    let mut calls = Calls::new(alloc);
    if number > 0 {
        calls.push(number)?;
    }
    Ok(calls)
}
