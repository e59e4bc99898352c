//! The run of a script from its words to its text: stepped on one thread, or live in several.

ghost use Rattle.std.specs.Prelude.{◌≡◌, ◌≤◌, ◌↔◌, ◌⊎◌, ℕ, List, None, true, false};
ghost use Rattle.std.specs.Io.KnownBytes.{Appends, Consumes};
ghost use Rattle.cluster_laws.specs.RightRuns.{IsRightAndCaused};
ghost use Rattle.cluster_model.specs.Step.{is_run};
ghost use Rattle.grid_event.specs.Histories.{blank};
ghost use Rattle.grid_io.specs.Count.{Rose};
ghost use Rattle.grid_io.specs.Written.{AppendsPart, Wrote};
ghost use Rattle.grid_script.specs.declared.reason.Reason.{Reason};
ghost use Rattle.grid_shell.specs.Causes.{IsRunFront, IsRunTo, IsWholeRun};
ghost use Rattle.grid_shell.specs.Endings.{IsAnswer, IsEnding};
ghost use Rattle.grid_shell.specs.Lines.{full_line, refused_line, text_of, usage_line};
ghost use Rattle.grid_shell.specs.LiveCauses.{HadAny, HadLive, HasLive, IsAnyRefusal, IsAnyServable, IsFullAt, IsLiveRefusal, NeverFull, is_read};
ghost use Rattle.grid_shell.specs.Words.{asked_of};
ghost use Rattle.live_run.specs.Serving.{IsPartlyServed, IsServed};
ghost use Rattle.step_run.specs.Finished.{IsFinished};

use crate::asks::{Asked, Form};
use crate::runs::{write_full, write_refused, write_text};
use crate::sources::{run_generated, run_source};
use crate::status::Status;
use crate::texts::usage;
use crate::words::asked;
use grid_base::Text;
use grid_base::limits::LONGEST_SCRIPT;
use grid_event::Journal;
use grid_io::{ReadAllFault, Sink, Source, read_all, write_all};
use grid_script::{LiveScript, Reason, Script, ScriptFault, ScriptKind, read_script};
use live_run::run_live;
use node_workers::Gate;
use std::alloc::Global;
use std::sync::Wait;
use std::thread::Threads;
use step_run::RunFault;

/// Runs what the words say, as [`asked`] reads them: with `step` the stepped run of the script that
/// `source` gives, with `gen` that of the script that its seed makes, and with `live` a live run of
/// the script that `source` gives, in several threads. The run goes to `sink` in the form that the
/// words name, and its history stays in `journal`. A worker passes `gate` before and after it makes
/// a piece.
///
/// - `Usage` comes exactly where the words are none of those. It takes no memory.
/// - `ReadFault` comes only where the source's count of faults rose. Nothing is written.
/// - `ScriptRefused` comes exactly where the source, read without fault, gave more than 4,194,304
///   bytes, or bytes that stand for no script. The line and the reason are written.
/// - `Full` comes with `step` and `gen` exactly where the stepped run stops for a full journal, at the
///   line that is written. With `live` the line is 0, and it comes only where at some moment the
///   journal was full for what might come next; the journal serves a part of the script.
/// - `WriteFault` comes only where the sink's count of faults rose after a whole run, and a front
///   of its text was written.
/// - `NoMemory` comes wherever memory is missing. Nothing is written, and the journal is empty, holds
///   a front of the stepped run, or serves a part of the live script.
/// - `Done` comes in all other cases, with the whole text written: that of the script's stepped run,
///   or of a run that serves the live script. Each call that was made has an answer then, and the
///   topology is settled.
///
/// The source is read for `step` and `live` alone. The journal stays empty with `Usage`, `ReadFault`
/// and `ScriptRefused`. Whatever comes, and however the threads took turns, it is a run of the
/// cluster, in which the answers of all calls are right by their guarantees and each outcome has its
/// cause. Nothing is said of how long a live run takes, or that it ends. The line of `Usage`,
/// `ScriptRefused` or `Full` is written whole, or a front of it where the sink's count of faults
/// rose.
pub fn run<R: Threads + Wait + Sync, S: Source, K: Sink, G: Gate>(
    rt: &R,
    alloc: Global,
    words: &[Text],
    source: &mut S,
    sink: &mut K,
    gate: &G,
    journal: &mut Journal,
) -> Status
    requires { journal.old.history ≡ blank }

    // When each status comes, with what was written and what the journal holds.
    ensures usage { result ≡ Status.Usage ↔ (asked_of words.now ≡ None) }
    ensures usage_line { result ≡ Status.Usage →
        Wrote (K.told sink.old) (K.told sink.new) (K.faults sink.old) (K.faults sink.new) usage_line }
    ensures read_fault { result ≡ Status.ReadFault → Rose (S.faults source.old) (S.faults source.new) }
    ensures refused { result ≡ Status.ScriptRefused → (line : ℕ) × (reason : Reason)
        × IsAnyRefusal (asked_of words.now) (S.left source.old) (S.left source.new) line reason
        × Wrote (K.told sink.old) (K.told sink.new) (K.faults sink.old) (K.faults sink.new) (refused_line line reason) }
    ensures full { result ≡ Status.Full → (line : ℕ)
        × HadAny (asked_of words.now) (S.left source.old) (λ form script. IsRunTo line journal.new.history script)
        (λ form script. IsFullAt line journal.new.history script)
        × Wrote (K.told sink.old) (K.told sink.new) (K.faults sink.old) (K.faults sink.new) (full_line line) }
    ensures write_fault { result ≡ Status.WriteFault →
        HadAny (asked_of words.now) (S.left source.old) (λ form script. IsWholeRun journal.new.history script
        × AppendsPart (K.told sink.old) (K.told sink.new) (text_of form journal.new.history))
        (λ form script. IsServed script journal.new.history
        × AppendsPart (K.told sink.old) (K.told sink.new) (text_of form journal.new.history))
        × Rose (K.faults sink.old) (K.faults sink.new) }
    ensures done { result ≡ Status.Done →
        HadAny (asked_of words.now) (S.left source.old) (λ form script. IsWholeRun journal.new.history script
        × Appends (K.told sink.old) (K.told sink.new) (text_of form journal.new.history))
        (λ form script. IsServed script journal.new.history
        × Appends (K.told sink.old) (K.told sink.new) (text_of form journal.new.history)) }
    ensures no_memory { result ≡ Status.NoMemory → (journal.new.history ≡ blank)
        ⊎ HadAny (asked_of words.now) (S.left source.old) (λ form script. IsRunFront journal.new.history script)
        (λ form script. IsPartlyServed script journal.new.history) }

    // Good words, a good script, no fault and a run within the limits give Done, or want of memory.
    ensures complete { IsAnyServable (asked_of words.now) (S.left source.old)
        → (Rose (S.faults source.old) (S.faults source.new) → ⊥)
        → (Rose (K.faults sink.old) (K.faults sink.new) → ⊥)
        → (result ≡ Status.Done) ⊎ (result ≡ Status.NoMemory) }

    // What stands after it.
    ensures run { is_run journal.new.history ≡ true }
    ensures right { IsRightAndCaused journal.new.history }
    ensures finished { result ≡ Status.Done → IsFinished journal.new.history }
    ensures unused { (result ≡ Status.Usage) ⊎ (result ≡ Status.ReadFault) ⊎ (result ≡ Status.ScriptRefused)
        → journal.new.history ≡ blank }
    ensures unwritten { (result ≡ Status.ReadFault) ⊎ (result ≡ Status.NoMemory) → sink.new ≡ sink.old }
    ensures unread { is_read (asked_of words.now) ≡ false → source.new ≡ source.old }
    ensures taken { (taken : List ℕ) × Consumes (S.left source.old) (S.left source.new) taken }
    ensures reads_counted { S.faults source.old ≤ S.faults source.new }
    ensures writes_counted { K.faults sink.old ≤ K.faults sink.new }
{
    run_any(rt, alloc, asked(words), source, sink, gate, journal)
}

/// Runs what was asked for.
fn run_any<R: Threads + Wait + Sync, S: Source, K: Sink, G: Gate>(
    rt: &R,
    alloc: Global,
    asked: Option<Asked>,
    source: &mut S,
    sink: &mut K,
    gate: &G,
    journal: &mut Journal,
) -> Status
    requires { journal.old.history ≡ blank }
    ensures usage { result ≡ Status.Usage ↔ (asked ≡ None) }
    ensures usage_line { result ≡ Status.Usage →
        Wrote (K.told sink.old) (K.told sink.new) (K.faults sink.old) (K.faults sink.new) usage_line }
    ensures read_fault { result ≡ Status.ReadFault → Rose (S.faults source.old) (S.faults source.new) }
    ensures refused { result ≡ Status.ScriptRefused → (line : ℕ) × (reason : Reason)
        × IsAnyRefusal asked (S.left source.old) (S.left source.new) line reason
        × Wrote (K.told sink.old) (K.told sink.new) (K.faults sink.old) (K.faults sink.new) (refused_line line reason) }
    ensures full { result ≡ Status.Full → (line : ℕ)
        × HadAny asked (S.left source.old) (λ form script. IsRunTo line journal.new.history script)
        (λ form script. IsFullAt line journal.new.history script)
        × Wrote (K.told sink.old) (K.told sink.new) (K.faults sink.old) (K.faults sink.new) (full_line line) }
    ensures write_fault { result ≡ Status.WriteFault →
        HadAny asked (S.left source.old) (λ form script. IsWholeRun journal.new.history script
        × AppendsPart (K.told sink.old) (K.told sink.new) (text_of form journal.new.history))
        (λ form script. IsServed script journal.new.history
        × AppendsPart (K.told sink.old) (K.told sink.new) (text_of form journal.new.history))
        × Rose (K.faults sink.old) (K.faults sink.new) }
    ensures done { result ≡ Status.Done →
        HadAny asked (S.left source.old) (λ form script. IsWholeRun journal.new.history script
        × Appends (K.told sink.old) (K.told sink.new) (text_of form journal.new.history))
        (λ form script. IsServed script journal.new.history
        × Appends (K.told sink.old) (K.told sink.new) (text_of form journal.new.history)) }
    ensures no_memory { result ≡ Status.NoMemory → (journal.new.history ≡ blank)
        ⊎ HadAny asked (S.left source.old) (λ form script. IsRunFront journal.new.history script)
        (λ form script. IsPartlyServed script journal.new.history) }
    ensures complete { IsAnyServable asked (S.left source.old)
        → (Rose (S.faults source.old) (S.faults source.new) → ⊥)
        → (Rose (K.faults sink.old) (K.faults sink.new) → ⊥)
        → (result ≡ Status.Done) ⊎ (result ≡ Status.NoMemory) }
    ensures run { is_run journal.new.history ≡ true }
    ensures right { IsRightAndCaused journal.new.history }
    ensures finished { result ≡ Status.Done → IsFinished journal.new.history }
    ensures unused { (result ≡ Status.Usage) ⊎ (result ≡ Status.ReadFault) ⊎ (result ≡ Status.ScriptRefused)
        → journal.new.history ≡ blank }
    ensures unwritten { (result ≡ Status.ReadFault) ⊎ (result ≡ Status.NoMemory) → sink.new ≡ sink.old }
    ensures unread { is_read asked ≡ false → source.new ≡ source.old }
    ensures taken { (taken : List ℕ) × Consumes (S.left source.old) (S.left source.new) taken }
    ensures reads_counted { S.faults source.old ≤ S.faults source.new }
    ensures writes_counted { K.faults sink.old ≤ K.faults sink.new }
{
    match asked {
        Some(Asked::Live { form, workers }) => run_live_source(
            rt, alloc, form, workers, source, sink, gate, journal,
        ),
        Some(Asked::Step { form }) => run_source(alloc, form, source, sink, journal),
        Some(
            Asked::Gen {
                form,
                seed,
                keys,
                steps,
            },
        ) => run_generated(alloc, form, seed, keys, steps, sink, journal),
        None => {
            let _ = write_all(sink, usage());
            Status::Usage
        }
    }
}

/// Runs the live script that the source gives, and writes the run in this form.
fn run_live_source<R: Threads + Wait + Sync, S: Source, K: Sink, G: Gate>(
    rt: &R,
    alloc: Global,
    form: Form,
    workers: u32,
    source: &mut S,
    sink: &mut K,
    gate: &G,
    journal: &mut Journal,
) -> Status
    requires { journal.old.history ≡ blank }
    ensures answer { IsAnswer result }
    ensures read_fault { result ≡ Status.ReadFault → Rose (S.faults source.old) (S.faults source.new) }
    ensures refused { result ≡ Status.ScriptRefused → (line : ℕ) × (reason : Reason)
        × IsLiveRefusal (S.left source.old) (S.left source.new) line reason
        × Wrote (K.told sink.old) (K.told sink.new) (K.faults sink.old) (K.faults sink.new) (refused_line line reason) }
    ensures full { result ≡ Status.Full → (line : ℕ)
        × HadLive (S.left source.old) (λ script. IsFullAt line journal.new.history script)
        × Wrote (K.told sink.old) (K.told sink.new) (K.faults sink.old) (K.faults sink.new) (full_line line) }
    ensures write_fault { result ≡ Status.WriteFault →
        HadLive (S.left source.old) (λ script. IsServed script journal.new.history
        × AppendsPart (K.told sink.old) (K.told sink.new) (text_of form journal.new.history))
        × Rose (K.faults sink.old) (K.faults sink.new) }
    ensures done { result ≡ Status.Done →
        HadLive (S.left source.old) (λ script. IsServed script journal.new.history
        × Appends (K.told sink.old) (K.told sink.new) (text_of form journal.new.history)) }
    ensures no_memory { result ≡ Status.NoMemory → (journal.new.history ≡ blank)
        ⊎ HadLive (S.left source.old) (λ script. IsPartlyServed script journal.new.history) }
    ensures complete { HasLive (S.left source.old) NeverFull
        → (Rose (S.faults source.old) (S.faults source.new) → ⊥)
        → (Rose (K.faults sink.old) (K.faults sink.new) → ⊥)
        → (result ≡ Status.Done) ⊎ (result ≡ Status.NoMemory) }
    ensures run { is_run journal.new.history ≡ true }
    ensures right { IsRightAndCaused journal.new.history }
    ensures finished { result ≡ Status.Done → IsFinished journal.new.history }
    ensures unused { (result ≡ Status.ReadFault) ⊎ (result ≡ Status.ScriptRefused) → journal.new.history ≡ blank }
    ensures unwritten { (result ≡ Status.ReadFault) ⊎ (result ≡ Status.NoMemory) → sink.new ≡ sink.old }
    ensures taken { (taken : List ℕ) × Consumes (S.left source.old) (S.left source.new) taken }
    ensures reads_counted { S.faults source.old ≤ S.faults source.new }
    ensures writes_counted { K.faults sink.old ≤ K.faults sink.new }
{
    let bytes = match read_all(alloc, source, LONGEST_SCRIPT) {
        Ok(bytes) => bytes,
        Err(ReadAllFault::ReadFault) => return Status::ReadFault,
        Err(ReadAllFault::NoMemory) => return Status::NoMemory,
        Err(ReadAllFault::TooLong) => return write_refused(alloc, sink, 0, Reason::TooLong),
    };
    let script = match read_script(alloc, bytes.as_slice(), ScriptKind::Live) {
        Ok(script) => script,
        Err(ScriptFault::NoMemory) => return Status::NoMemory,
        Err(ScriptFault::Refused { line, reason }) => return write_refused(
            alloc, sink, line, reason,
        ),
    };
    match &script {
        Script::Live(script) => run_live_script(
            rt, alloc, form, workers, script, sink, gate, journal,
        ),
        Script::Step(_) => unreachable!(),
    }
}

/// Runs the live script, and writes the run in this form.
fn run_live_script<R: Threads + Wait + Sync, K: Sink, G: Gate>(
    rt: &R,
    alloc: Global,
    form: Form,
    workers: u32,
    script: &LiveScript,
    sink: &mut K,
    gate: &G,
    journal: &mut Journal,
) -> Status
    requires { journal.old.history ≡ blank }
    ensures ending { IsEnding result }
    ensures full { result ≡ Status.Full → (line : ℕ) × IsFullAt line journal.new.history script.now
        × Wrote (K.told sink.old) (K.told sink.new) (K.faults sink.old) (K.faults sink.new) (full_line line) }
    ensures write_fault { result ≡ Status.WriteFault →
        IsServed script.now journal.new.history
        × AppendsPart (K.told sink.old) (K.told sink.new) (text_of form journal.new.history)
        × Rose (K.faults sink.old) (K.faults sink.new) }
    ensures done { result ≡ Status.Done →
        IsServed script.now journal.new.history
        × Appends (K.told sink.old) (K.told sink.new) (text_of form journal.new.history) }
    ensures no_memory { result ≡ Status.NoMemory →
        (journal.new.history ≡ blank) ⊎ IsPartlyServed script.now journal.new.history }
    ensures run { is_run journal.new.history ≡ true }
    ensures right { IsRightAndCaused journal.new.history }
    ensures finished { result ≡ Status.Done → IsFinished journal.new.history }
    ensures unwritten { result ≡ Status.NoMemory → sink.new ≡ sink.old }
    ensures writes_counted { K.faults sink.old ≤ K.faults sink.new }
{
    match run_live(rt, alloc, script, workers, gate, journal) {
        Ok(()) => write_text(alloc, form, sink, journal),
        Err(RunFault::Full { line }) => write_full(alloc, sink, line),
        Err(RunFault::NoMemory) => Status::NoMemory,
    }
}
