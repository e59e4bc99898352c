//! The law. It does no work: a call of it hands what it ensures to the caller's proof.

ghost use Rattle.audit_runs.specs.Laws.{RunsAreFaultless};

/// In every run of a cluster whose settings are in their limits all clauses hold of each event: it
/// has the shape that its place asks for, and where it is an answer or a take, what it answers or
/// gives is right by the events before it and has its cause.
pub fn runs_are_faultless()
    ensures { RunsAreFaultless }
{}
