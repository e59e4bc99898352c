//! Live runs.

ghost use Rattle.std.specs.Prelude.{◌≡◌, ◌⊎◌, ℕ, [], true, Err, IsErrOf, OnOk};
ghost use Rattle.grid_event.specs.Histories.{blank};
ghost use Rattle.cluster_laws.specs.RightRuns.{IsRightAndCaused};
ghost use Rattle.cluster_model.specs.Step.{is_run};
ghost use Rattle.grid_book.specs.Booked.{history_of};
ghost use Rattle.live_run.specs.Due.{WasFull};
ghost use Rattle.live_run.specs.Serving.{IsPartlyServed, IsServed};
ghost use Rattle.step_run.specs.Finished.{IsFinished};

use crate::actors::run_threads;
use crate::loading::do_load;
use crate::serial::finish_serial;
use crate::shared::{Scripted, Shared};
use grid_book::{ActFault, Book};
use grid_event::Journal;
use grid_script::LiveScript;
use node_workers::{Gate, Grid};
use std::alloc::Global;
use std::marker::Brand;
use std::sync::Wait;
use std::thread::Threads;
use step_run::RunFault;

/// Runs a live script: a thread for each session, one for the coordinator, and so many workers for
/// each node. What they leave is done on this thread. With Ok the journal serves the script; whatever
/// comes, it is a run of the cluster, in which the answers of all calls are right and each outcome
/// has its cause. Full comes, at line 0, only where the journal was full for what might come next;
/// after it the journal serves a part of the script, and after want of memory so it does, or it is
/// empty.
pub fn run_live<R: Threads + Wait + Sync, G: Gate>(
    rt: &R,
    alloc: Global,
    script: &LiveScript,
    workers: u32,
    gate: &G,
    journal: &mut Journal,
) -> Result<(), RunFault>
    requires blank { journal.old.history ≡ blank }
    ensures ok { OnOk result (IsServed script.now journal.new.history) }
    ensures full { (line : ℕ) → result ≡ Err (RunFault.Full line) → (line ≡ 0) × IsPartlyServed script.now journal.new.history × WasFull script.now journal.new.history }
    ensures no_memory { result ≡ Err RunFault.NoMemory → (journal.new.history ≡ blank) ⊎ IsPartlyServed script.now journal.new.history }
    ensures run { is_run journal.new.history ≡ true }
    ensures right { IsRightAndCaused journal.new.history }
    ensures finished { OnOk result (IsFinished journal.new.history) }
{
    let Ok(book) = Book::new(alloc, &script.config) else {
        return Err(RunFault::NoMemory);
    };
    let (book, ended) = serve::<R, Brand, G>(rt, alloc, script, workers, gate, book);
    *journal = book.into_journal();
    match ended {
        Ok(()) => Ok(()),
        Err(ActFault::Full) => Err(RunFault::Full { line: 0 }),
        Err(ActFault::NoMemory) => Err(RunFault::NoMemory),
    }
}

/// Loads a new book, runs the threads over it, and finishes what they leave.
fn serve<R: Threads + Wait + Sync, B: Scripted + Send + Sync, G: Gate>(
    rt: &R,
    alloc: Global,
    script: &LiveScript,
    workers: u32,
    gate: &G,
    book: Book,
) -> (Book, Result<(), ActFault>)
    requires script { script.now ≡ B.script }
    requires new { book ≡ record { config = script.now.config; events = [] } }
    ensures ok { OnOk result.1 (IsServed script.now (history_of result.0)) }
    ensures partly { IsPartlyServed script.now (history_of result.0) }
    ensures full { IsErrOf result.1 ActFault.Full → WasFull script.now (history_of result.0) }
{
    let mut book = book;
    let sessions = script.sessions.as_slice().len();
    if let Err(fault) = do_load(alloc, &mut book, script) {
        return (book, Err(fault));
    }
    let Ok(done) = Vec::from_elem(alloc, 0, sessions) else {
        return (book, Err(ActFault::NoMemory));
    };
    let grid = Grid::new(Shared::<B>::new(alloc, book, script, done));
    run_threads(rt, alloc, &grid, script, workers, gate);
    let Grid { lock, wake: _ } = grid;
    let (book, done, moved, fault) = lock.into_inner().into_parts();
    let mut book = book;
    if let Some(fault) = fault {
        return (book, Err(fault));
    }
    let ended = finish_serial(alloc, &mut book, script, done.as_slice(), moved);
    (book, ended)
}
