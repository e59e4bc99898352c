//! What a call promises of the entries that it reads while segments move between nodes, and the
//! two rules that follow from it. Nothing here takes memory.
#![tactic(auto)]

mod guarantee;

pub use guarantee::Guarantee;

#[cfg(test)]
mod tests;
