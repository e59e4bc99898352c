//! The copies of all nodes, and the transfers of segments between nodes: writes at the owners, chunks
//! that fly and land, and what joins, departures and ticks do to them.
#![tactic(auto)]

mod change;
mod copies;
mod destination;
pub mod faithful;
mod holders;
mod landing;
mod slots;
mod transfer;
mod transfers;

pub use change::Change;
pub use copies::Copies;
