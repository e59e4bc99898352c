//! That no run has a fault: all that a printed history is checked by holds in every run of a
//! cluster, whatever the order of its events.
#![tactic(auto)]

mod laws;

pub use laws::runs_are_faultless;
