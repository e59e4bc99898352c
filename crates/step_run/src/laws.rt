//! Laws of stepped runs.

ghost use Rattle.step_run.specs.Laws.{RepeatingEnds, SteppedRunsAreRuns, UnstoppedRunsFinish};

/// The journal of a stepped run is a run of the cluster: each of its events may happen where it
/// stands.
pub fn stepped_runs_are_runs()
    ensures { SteppedRunsAreRuns }
{}

/// A command that is repeated ends by itself, or the journal is full.
pub fn repeating_ends()
    ensures { RepeatingEnds }
{}

/// A stepped run that nothing stopped has answered each call that was made, and has settled the
/// topology.
pub fn unstopped_runs_finish()
    ensures { UnstoppedRunsFinish }
{}
