//! Which units run where: the node and the segment of each unit, and an index from node and segment
//! to the units there. When a node ceases to read segments, the units that are lost are found
//! without a look at any other segment.
#![tactic(auto)]

mod index;
mod listeners;
mod place;

pub use listeners::Listeners;
pub use place::Place;

#[cfg(test)]
mod tests;
