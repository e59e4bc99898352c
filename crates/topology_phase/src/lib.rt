//! Topologies of the grid: which nodes own each segment, the four phases of a rebalance, who reads,
//! writes and holds a segment in each, and which topologies may follow one another.
#![tactic(auto)]

mod aim;
mod following;
mod hash;
mod members;
mod next;
mod owners;
mod phase;
mod safety;
mod topology;

pub use aim::Aim;
pub use following::neighbours;
pub use hash::Hash;
pub use members::Members;
pub use owners::Owners;
pub use phase::Phase;
pub use safety::{neighbours_follow, safe_neighbours};
pub use topology::Topology;
