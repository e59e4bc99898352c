//! The segments of the keys: the hash of a key, the segment that a key belongs to, and sets of
//! segments. Nothing here takes memory.
#![tactic(auto)]

mod hash;
mod partition;
mod segment_set;
mod segments;

pub use hash::fnv1a;
pub use partition::Partition;
pub use segment_set::SegmentSet;
pub use segments::segment_of;

#[cfg(test)]
mod tests;
