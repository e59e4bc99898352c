//! The laws. None does any work: a call of one hands what it ensures to the caller's proof.

ghost use Rattle.audit_clauses.specs.Laws.{ClausesAreGuarantees, FaultsAreOne};

/// The clauses Stable, Twice, Often and Held of a call are together what its guarantee says.
pub fn clauses_are_guarantees()
    ensures { ClausesAreGuarantees }
{}

/// A history has at most one first fault: one event, and one clause of it.
pub fn faults_are_one()
    ensures { FaultsAreOne }
{}
