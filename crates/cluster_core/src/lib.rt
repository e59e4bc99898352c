//! The core of a cluster: its state, the step that an event makes, and the event that a command
//! chooses.
#![tactic(auto)]

mod apply_fault;
mod cluster;
mod same;

pub use apply_fault::ApplyFault;
pub use cluster::Core;
