//! The copies that one node holds: an ordered map of stamped values for each segment, and a clock.
#![tactic(auto)]

mod container;
mod deadlines;
mod parts;
mod segment_map;

pub use container::Container;
