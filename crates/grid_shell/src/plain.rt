//! The run of a script from its words to its text, on one thread.

ghost use Rattle.std.specs.Prelude.{◌≡◌, ◌≤◌, ◌↔◌, ◌⊎◌, ℕ, List, true, false};
ghost use Rattle.std.specs.Io.KnownBytes.{Appends, Consumes};
ghost use Rattle.cluster_laws.specs.RightRuns.{IsRightAndCaused};
ghost use Rattle.cluster_model.specs.Step.{is_run};
ghost use Rattle.grid_event.specs.Histories.{blank};
ghost use Rattle.grid_io.specs.Count.{Rose};
ghost use Rattle.grid_io.specs.Written.{AppendsPart, Wrote};
ghost use Rattle.grid_script.specs.declared.reason.Reason.{Reason};
ghost use Rattle.grid_shell.specs.Causes.{Had, IsRefusal, IsRunFront, IsRunTo, IsServable, IsWholeRun, is_of_source, is_plain};
ghost use Rattle.grid_shell.specs.Lines.{full_line, refused_line, text_of, usage_line};
ghost use Rattle.grid_shell.specs.Words.{asked_of};
ghost use Rattle.step_run.specs.Finished.{IsFinished};

use crate::asks::Asked;
use crate::sources::{run_generated, run_source};
use crate::status::Status;
use crate::texts::usage;
use crate::words::asked;
use grid_base::Text;
use grid_event::Journal;
use grid_io::{Sink, Source, write_all};
use std::alloc::Global;

/// Runs what the words say, as [`asked`] reads them: with `step` the stepped run of the script that
/// `source` gives, and with `gen` that of the script that its seed makes. The run goes to `sink` in
/// the form that the words name, and its history stays in `journal`.
///
/// - `Usage` comes exactly where the words are none of those; `live` isn't served here. It takes no
///   memory.
/// - `ReadFault` comes only where the source's count of faults rose. Nothing is written.
/// - `ScriptRefused` comes exactly where the source, read without fault, gave more than 4,194,304
///   bytes, or bytes that stand for no script. The line and the reason are written.
/// - `Full` comes exactly where the stepped run stops for a full journal, at the line that is
///   written.
/// - `WriteFault` comes only where the sink's count of faults rose after a whole run, and a front
///   of its text was written.
/// - `NoMemory` comes wherever memory is missing. Nothing is written, and the journal is empty or
///   holds a front of the run.
/// - `Done` comes in all other cases, with the whole text written. Each call that was made has an
///   answer then, and the topology is settled.
///
/// The source is read for `step` alone. The journal stays empty with `Usage`, `ReadFault` and
/// `ScriptRefused`. Whatever comes, it is a run of the cluster, in which the answers of all calls
/// are right by their guarantees and each outcome has its cause. The line of `Usage`,
/// `ScriptRefused` or `Full` is written whole, or a front of it where the sink's count of faults
/// rose.
pub fn run_plain<S: Source, K: Sink>(
    alloc: Global,
    words: &[Text],
    source: &mut S,
    sink: &mut K,
    journal: &mut Journal,
) -> Status
    requires { journal.old.history ≡ blank }

    // When each status comes, with what was written and what the journal holds.
    ensures usage { result ≡ Status.Usage ↔ (is_plain (asked_of words.now) ≡ false) }
    ensures usage_line { result ≡ Status.Usage →
        Wrote (K.told sink.old) (K.told sink.new) (K.faults sink.old) (K.faults sink.new) usage_line }
    ensures read_fault { result ≡ Status.ReadFault → Rose (S.faults source.old) (S.faults source.new) }
    ensures refused { result ≡ Status.ScriptRefused → (line : ℕ) × (reason : Reason)
        × IsRefusal (asked_of words.now) (S.left source.old) (S.left source.new) line reason
        × Wrote (K.told sink.old) (K.told sink.new) (K.faults sink.old) (K.faults sink.new) (refused_line line reason) }
    ensures full { result ≡ Status.Full → (line : ℕ)
        × Had (asked_of words.now) (S.left source.old) (λ form script. IsRunTo line journal.new.history script)
        × Wrote (K.told sink.old) (K.told sink.new) (K.faults sink.old) (K.faults sink.new) (full_line line) }
    ensures write_fault { result ≡ Status.WriteFault →
        Had (asked_of words.now) (S.left source.old) (λ form script. IsWholeRun journal.new.history script
        × AppendsPart (K.told sink.old) (K.told sink.new) (text_of form journal.new.history))
        × Rose (K.faults sink.old) (K.faults sink.new) }
    ensures done { result ≡ Status.Done →
        Had (asked_of words.now) (S.left source.old) (λ form script. IsWholeRun journal.new.history script
        × Appends (K.told sink.old) (K.told sink.new) (text_of form journal.new.history)) }
    ensures no_memory { result ≡ Status.NoMemory → (journal.new.history ≡ blank)
        ⊎ Had (asked_of words.now) (S.left source.old) (λ form script. IsRunFront journal.new.history script) }

    // Good words, a good script, no fault and a run within the limits give Done, or want of memory.
    ensures complete { IsServable (asked_of words.now) (S.left source.old)
        → (Rose (S.faults source.old) (S.faults source.new) → ⊥)
        → (Rose (K.faults sink.old) (K.faults sink.new) → ⊥)
        → (result ≡ Status.Done) ⊎ (result ≡ Status.NoMemory) }

    // What stands after it.
    ensures run { is_run journal.new.history ≡ true }
    ensures right { IsRightAndCaused journal.new.history }
    ensures finished { result ≡ Status.Done → IsFinished journal.new.history }
    ensures unused { (result ≡ Status.Usage) ⊎ (result ≡ Status.ReadFault) ⊎ (result ≡ Status.ScriptRefused)
        → journal.new.history ≡ blank }
    ensures unwritten { (result ≡ Status.ReadFault) ⊎ (result ≡ Status.NoMemory) → sink.new ≡ sink.old }
    ensures unread { is_of_source (asked_of words.now) ≡ false → source.new ≡ source.old }
    ensures taken { (taken : List ℕ) × Consumes (S.left source.old) (S.left source.new) taken }
    ensures reads_counted { S.faults source.old ≤ S.faults source.new }
    ensures writes_counted { K.faults sink.old ≤ K.faults sink.new }
{
    run_asked(alloc, asked(words), source, sink, journal)
}

/// Runs what was asked for.
fn run_asked<S: Source, K: Sink>(
    alloc: Global,
    asked: Option<Asked>,
    source: &mut S,
    sink: &mut K,
    journal: &mut Journal,
) -> Status
    requires { journal.old.history ≡ blank }
    ensures usage { result ≡ Status.Usage ↔ (is_plain asked ≡ false) }
    ensures usage_line { result ≡ Status.Usage →
        Wrote (K.told sink.old) (K.told sink.new) (K.faults sink.old) (K.faults sink.new) usage_line }
    ensures read_fault { result ≡ Status.ReadFault → Rose (S.faults source.old) (S.faults source.new) }
    ensures refused { result ≡ Status.ScriptRefused → (line : ℕ) × (reason : Reason)
        × IsRefusal asked (S.left source.old) (S.left source.new) line reason
        × Wrote (K.told sink.old) (K.told sink.new) (K.faults sink.old) (K.faults sink.new) (refused_line line reason) }
    ensures full { result ≡ Status.Full → (line : ℕ)
        × Had asked (S.left source.old) (λ form script. IsRunTo line journal.new.history script)
        × Wrote (K.told sink.old) (K.told sink.new) (K.faults sink.old) (K.faults sink.new) (full_line line) }
    ensures write_fault { result ≡ Status.WriteFault →
        Had asked (S.left source.old) (λ form script. IsWholeRun journal.new.history script
        × AppendsPart (K.told sink.old) (K.told sink.new) (text_of form journal.new.history))
        × Rose (K.faults sink.old) (K.faults sink.new) }
    ensures done { result ≡ Status.Done →
        Had asked (S.left source.old) (λ form script. IsWholeRun journal.new.history script
        × Appends (K.told sink.old) (K.told sink.new) (text_of form journal.new.history)) }
    ensures no_memory { result ≡ Status.NoMemory → (journal.new.history ≡ blank)
        ⊎ Had asked (S.left source.old) (λ form script. IsRunFront journal.new.history script) }
    ensures complete { IsServable asked (S.left source.old)
        → (Rose (S.faults source.old) (S.faults source.new) → ⊥)
        → (Rose (K.faults sink.old) (K.faults sink.new) → ⊥)
        → (result ≡ Status.Done) ⊎ (result ≡ Status.NoMemory) }
    ensures run { is_run journal.new.history ≡ true }
    ensures right { IsRightAndCaused journal.new.history }
    ensures finished { result ≡ Status.Done → IsFinished journal.new.history }
    ensures unused { (result ≡ Status.Usage) ⊎ (result ≡ Status.ReadFault) ⊎ (result ≡ Status.ScriptRefused)
        → journal.new.history ≡ blank }
    ensures unwritten { (result ≡ Status.ReadFault) ⊎ (result ≡ Status.NoMemory) → sink.new ≡ sink.old }
    ensures unread { is_of_source asked ≡ false → source.new ≡ source.old }
    ensures taken { (taken : List ℕ) × Consumes (S.left source.old) (S.left source.new) taken }
    ensures reads_counted { S.faults source.old ≤ S.faults source.new }
    ensures writes_counted { K.faults sink.old ≤ K.faults sink.new }
{
    match asked {
        Some(Asked::Step { form }) => run_source(alloc, form, source, sink, journal),
        Some(
            Asked::Gen {
                form,
                seed,
                keys,
                steps,
            },
        ) => run_generated(alloc, form, seed, keys, steps, sink, journal),
        _ => {
            let _ = write_all(sink, usage());
            Status::Usage
        }
    }
}
