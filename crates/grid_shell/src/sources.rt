//! Where the script of a run comes from: a source, or the generator.

ghost use Rattle.std.specs.Prelude.{◌≡◌, ◌≤◌, ◌⊎◌, ℕ, List, true, false};
ghost use Rattle.std.specs.Io.KnownBytes.{Appends, Consumes};
ghost use Rattle.cluster_laws.specs.RightRuns.{IsRightAndCaused};
ghost use Rattle.cluster_model.specs.Step.{is_run};
ghost use Rattle.grid_event.specs.Histories.{blank};
ghost use Rattle.grid_io.specs.Count.{Rose};
ghost use Rattle.grid_io.specs.Written.{AppendsPart, Wrote};
ghost use Rattle.grid_script.specs.Generating.{generated};
ghost use Rattle.grid_script.specs.declared.reason.Reason.{Reason};
ghost use Rattle.grid_script.specs.declared.reason.Reason.TheVariants.{TooLong};
ghost use Rattle.grid_shell.specs.Causes.{Ends, HadScript, HasScript, IsRunFront, IsRunTo, IsSourceRefusal, IsWholeRun};
ghost use Rattle.grid_shell.specs.Endings.{IsAnswer, IsEnding};
ghost use Rattle.grid_shell.specs.Lines.{full_line, refused_line, text_of};
ghost use Rattle.step_run.specs.Finished.{IsFinished};

use crate::asks::Form;
use crate::runs::{run_script, write_refused};
use crate::status::Status;
use grid_base::limits::LONGEST_SCRIPT;
use grid_event::Journal;
use grid_io::{ReadAllFault, Sink, Source, read_all};
use grid_script::{Reason, Script, ScriptFault, ScriptKind, generate, read_script};
use std::alloc::Global;

/// Runs the script that the source gives, and writes the run in this form.
pub(crate) fn run_source<S: Source, K: Sink>(
    alloc: Global,
    form: Form,
    source: &mut S,
    sink: &mut K,
    journal: &mut Journal,
) -> Status
    requires { journal.old.history ≡ blank }
    ensures answer { IsAnswer result }
    ensures read_fault { result ≡ Status.ReadFault → Rose (S.faults source.old) (S.faults source.new) }
    ensures refused { result ≡ Status.ScriptRefused → (line : ℕ) × (reason : Reason)
        × IsSourceRefusal (S.left source.old) (S.left source.new) line reason
        × Wrote (K.told sink.old) (K.told sink.new) (K.faults sink.old) (K.faults sink.new) (refused_line line reason) }
    ensures full { result ≡ Status.Full → (line : ℕ)
        × HadScript (S.left source.old) (λ script. IsRunTo line journal.new.history script)
        × Wrote (K.told sink.old) (K.told sink.new) (K.faults sink.old) (K.faults sink.new) (full_line line) }
    ensures write_fault { result ≡ Status.WriteFault →
        HadScript (S.left source.old) (λ script. IsWholeRun journal.new.history script
        × AppendsPart (K.told sink.old) (K.told sink.new) (text_of form journal.new.history))
        × Rose (K.faults sink.old) (K.faults sink.new) }
    ensures done { result ≡ Status.Done →
        HadScript (S.left source.old) (λ script. IsWholeRun journal.new.history script
        × Appends (K.told sink.old) (K.told sink.new) (text_of form journal.new.history)) }
    ensures no_memory { result ≡ Status.NoMemory → (journal.new.history ≡ blank)
        ⊎ HadScript (S.left source.old) (λ script. IsRunFront journal.new.history script) }
    ensures complete { HasScript (S.left source.old) Ends
        → (Rose (S.faults source.old) (S.faults source.new) → ⊥)
        → (Rose (K.faults sink.old) (K.faults sink.new) → ⊥)
        → (result ≡ Status.Done) ⊎ (result ≡ Status.NoMemory) }
    ensures run { is_run journal.new.history ≡ true }
    ensures right { IsRightAndCaused journal.new.history }
    ensures finished { result ≡ Status.Done → IsFinished journal.new.history }
    ensures unused { (result ≡ Status.ReadFault) ⊎ (result ≡ Status.ScriptRefused) → journal.new.history ≡ blank }
    ensures unwritten { (result ≡ Status.ReadFault) ⊎ (result ≡ Status.NoMemory) → sink.new ≡ sink.old }
    ensures taken { (taken : List ℕ) × Consumes (S.left source.old) (S.left source.new) taken }
    ensures reads_counted { S.faults source.old ≤ S.faults source.new }
    ensures writes_counted { K.faults sink.old ≤ K.faults sink.new }
{
    let bytes = match read_all(alloc, source, LONGEST_SCRIPT) {
        Ok(bytes) => bytes,
        Err(ReadAllFault::ReadFault) => return Status::ReadFault,
        Err(ReadAllFault::NoMemory) => return Status::NoMemory,
        Err(ReadAllFault::TooLong) => return write_refused(alloc, sink, 0, Reason::TooLong),
    };
    let script = match read_script(alloc, bytes.as_slice(), ScriptKind::Step) {
        Ok(script) => script,
        Err(ScriptFault::NoMemory) => return Status::NoMemory,
        Err(ScriptFault::Refused { line, reason }) => return write_refused(
            alloc, sink, line, reason,
        ),
    };
    match &script {
        Script::Step(script) => run_script(alloc, form, script, sink, journal),
        Script::Live(_) => unreachable!(),
    }
}

/// Runs the script that a seed makes, with so many keys and steps, and writes the run in this form.
pub(crate) fn run_generated<K: Sink>(
    alloc: Global,
    form: Form,
    seed: u32,
    keys: u32,
    steps: u32,
    sink: &mut K,
    journal: &mut Journal,
) -> Status
    requires { journal.old.history ≡ blank }
    ensures ending { IsEnding result }
    ensures full { result ≡ Status.Full → (line : ℕ) × IsRunTo line journal.new.history (generated seed keys steps)
        × Wrote (K.told sink.old) (K.told sink.new) (K.faults sink.old) (K.faults sink.new) (full_line line) }
    ensures write_fault { result ≡ Status.WriteFault →
        IsWholeRun journal.new.history (generated seed keys steps)
        × AppendsPart (K.told sink.old) (K.told sink.new) (text_of form journal.new.history)
        × Rose (K.faults sink.old) (K.faults sink.new) }
    ensures done { result ≡ Status.Done →
        IsWholeRun journal.new.history (generated seed keys steps)
        × Appends (K.told sink.old) (K.told sink.new) (text_of form journal.new.history) }
    ensures no_memory { result ≡ Status.NoMemory →
        (journal.new.history ≡ blank) ⊎ IsRunFront journal.new.history (generated seed keys steps) }
    ensures run { is_run journal.new.history ≡ true }
    ensures right { IsRightAndCaused journal.new.history }
    ensures finished { result ≡ Status.Done → IsFinished journal.new.history }
    ensures unwritten { result ≡ Status.NoMemory → sink.new ≡ sink.old }
    ensures writes_counted { K.faults sink.old ≤ K.faults sink.new }
{
    let Ok(script) = generate(alloc, seed, keys, steps) else {
        return Status::NoMemory;
    };
    run_script(alloc, form, &script, sink, journal)
}
