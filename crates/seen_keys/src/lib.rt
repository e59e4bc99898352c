//! The keys that a call has delivered. A key passes once in a segment, until the segment is
//! complete; then its keys are forgotten.
#![tactic(auto)]

mod places;
mod seen;

pub use seen::Seen;

#[cfg(test)]
mod tests;
