//! What a printed history is checked by: the shape of each of its events, and the clauses of its
//! answers, by the events alone.
#![tactic(auto)]

mod clause;
mod laws;

pub use clause::Clause;
pub use laws::{clauses_are_guarantees, faults_are_one};
