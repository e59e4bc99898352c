//! The walk of a call: the batches that its units have fetched, the entries that are given when a
//! batch is taken, and the segments that are complete. Exactly once, a key of an incomplete segment
//! is given once.
#![tactic(auto)]

mod flights;
mod flying;
mod marks;
mod walk;

pub use walk::Walk;
