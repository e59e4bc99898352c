//! Who is a member of a cluster, which topologies are in force, and what the clock tells, kept
//! along the events of a history.
#![tactic(auto)]

mod by_node;
mod changes;
mod laws;
mod members;
mod questions;
mod shapes;
mod unread;

pub use laws::moves_are_told;
pub use members::Members;
