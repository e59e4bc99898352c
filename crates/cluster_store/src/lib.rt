//! What a cluster holds: its settings, its members and topologies, and the copies of its nodes with
//! the transfers between them; which events may change them, what each changes, and which of them a
//! command chooses.
#![tactic(auto)]

mod hints;
mod matches;
mod owners;
mod store;

pub use store::Store;
