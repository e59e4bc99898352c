//! The run of a script and its text.

ghost use Rattle.std.specs.Prelude.{◌≡◌, ◌≤◌, ◌⊎◌, ℕ, true, IsSome};
ghost use Rattle.std.specs.Io.KnownBytes.{Appends};
ghost use Rattle.cluster_laws.specs.RightRuns.{IsRightAndCaused};
ghost use Rattle.cluster_model.specs.Step.{is_run};
ghost use Rattle.grid_event.specs.Histories.{blank};
ghost use Rattle.grid_io.specs.Count.{Rose};
ghost use Rattle.grid_io.specs.Written.{AppendsPart, Wrote};
ghost use Rattle.grid_shell.specs.Causes.{IsRunFront, IsRunTo, IsWholeRun};
ghost use Rattle.grid_shell.specs.Endings.{IsEnding};
ghost use Rattle.grid_shell.specs.Lines.{full_line, refused_line, text_of};
ghost use Rattle.step_run.specs.Finished.{IsFinished};

use crate::asks::Form;
use crate::status::Status;
use crate::texts::{full, refused, text};
use grid_event::Journal;
use grid_io::{Sink, write_all};
use grid_script::{Reason, StepScript};
use std::alloc::Global;
use step_run::{RunFault, run_steps};

/// Runs the script, and writes the run in this form.
pub(crate) fn run_script<K: Sink>(
    alloc: Global,
    form: Form,
    script: &StepScript,
    sink: &mut K,
    journal: &mut Journal,
) -> Status
    requires { journal.old.history ≡ blank }
    ensures ending { IsEnding result }
    ensures full { result ≡ Status.Full → (line : ℕ) × IsRunTo line journal.new.history script.now
        × Wrote (K.told sink.old) (K.told sink.new) (K.faults sink.old) (K.faults sink.new) (full_line line) }
    ensures write_fault { result ≡ Status.WriteFault →
        IsWholeRun journal.new.history script.now
        × AppendsPart (K.told sink.old) (K.told sink.new) (text_of form journal.new.history)
        × Rose (K.faults sink.old) (K.faults sink.new) }
    ensures done { result ≡ Status.Done →
        IsWholeRun journal.new.history script.now
        × Appends (K.told sink.old) (K.told sink.new) (text_of form journal.new.history) }
    ensures no_memory { result ≡ Status.NoMemory →
        (journal.new.history ≡ blank) ⊎ IsRunFront journal.new.history script.now }
    ensures run { is_run journal.new.history ≡ true }
    ensures right { IsRightAndCaused journal.new.history }
    ensures finished { result ≡ Status.Done → IsFinished journal.new.history }
    ensures unwritten { result ≡ Status.NoMemory → sink.new ≡ sink.old }
    ensures writes_counted { K.faults sink.old ≤ K.faults sink.new }
{
    match run_steps(alloc, script, journal) {
        Ok(()) => write_text(alloc, form, sink, journal),
        Err(RunFault::Full { line }) => write_full(alloc, sink, line),
        Err(RunFault::NoMemory) => Status::NoMemory,
    }
}

/// Writes the run of a journal in this form.
pub(crate) fn write_text<K: Sink>(
    alloc: Global,
    form: Form,
    sink: &mut K,
    journal: &Journal,
) -> Status
    requires { IsSome journal.now.history.config }
    ensures ending { IsEnding result }
    ensures never { result ≡ Status.Full → ⊥ }
    ensures write_fault { result ≡ Status.WriteFault →
        AppendsPart (K.told sink.old) (K.told sink.new) (text_of form journal.now.history)
        × Rose (K.faults sink.old) (K.faults sink.new) }
    ensures done { result ≡ Status.Done →
        Appends (K.told sink.old) (K.told sink.new) (text_of form journal.now.history) }
    ensures unwritten { result ≡ Status.NoMemory → sink.new ≡ sink.old }
    ensures writes_counted { K.faults sink.old ≤ K.faults sink.new }
{
    let Ok(text) = text(alloc, form, journal) else {
        return Status::NoMemory;
    };
    match write_all(sink, text.as_slice()) {
        Ok(()) => Status::Done,
        Err(_) => Status::WriteFault,
    }
}

/// Writes that the journal was full at a line.
pub(crate) fn write_full<K: Sink>(alloc: Global, sink: &mut K, line: u32) -> Status
    ensures ending { (result ≡ Status.Full) ⊎ (result ≡ Status.NoMemory) }
    ensures full { result ≡ Status.Full →
        Wrote (K.told sink.old) (K.told sink.new) (K.faults sink.old) (K.faults sink.new) (full_line line) }
    ensures unwritten { result ≡ Status.NoMemory → sink.new ≡ sink.old }
    ensures writes_counted { K.faults sink.old ≤ K.faults sink.new }
{
    let Ok(text) = full(alloc, line) else {
        return Status::NoMemory;
    };
    let _ = write_all(sink, text.as_slice());
    Status::Full
}

/// Writes that the script is refused at a line, and for which reason.
pub(crate) fn write_refused<K: Sink>(
    alloc: Global,
    sink: &mut K,
    line: u32,
    reason: Reason,
) -> Status
    ensures ending { (result ≡ Status.ScriptRefused) ⊎ (result ≡ Status.NoMemory) }
    ensures refused { result ≡ Status.ScriptRefused →
        Wrote (K.told sink.old) (K.told sink.new) (K.faults sink.old) (K.faults sink.new) (refused_line line reason) }
    ensures unwritten { result ≡ Status.NoMemory → sink.new ≡ sink.old }
    ensures writes_counted { K.faults sink.old ≤ K.faults sink.new }
{
    let Ok(text) = refused(alloc, line, reason) else {
        return Status::NoMemory;
    };
    let _ = write_all(sink, text.as_slice());
    Status::ScriptRefused
}
