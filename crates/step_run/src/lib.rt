//! Stepped runs: the journal that a script names, line by line.
#![tactic(auto)]

mod laws;
mod lines;
mod repeats;
mod run_fault;
mod runs;
mod steps;

pub use laws::{repeating_ends, stepped_runs_are_runs};
pub use run_fault::RunFault;
pub use runs::run_steps;
