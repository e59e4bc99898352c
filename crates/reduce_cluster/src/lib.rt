//! The reduction of a call: the parts that are booked for its segments, the segments that are
//! complete, and the outcome, which is the join of all booked parts.
#![tactic(auto)]

mod reduction;
mod shares;

pub use reduction::Reduction;

#[cfg(test)]
mod tests;
