//! The coordinator of a cluster: who is a member, which topology each node has installed, which
//! topology is next, and which segments a departure loses.
#![tactic(auto)]

mod coord;
mod installed;
mod lost;
mod next;

pub use coord::Coord;
