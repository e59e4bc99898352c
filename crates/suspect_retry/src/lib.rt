//! The rounds of a call: how many are granted and made, and when the next one may be asked. A round
//! is held up until the originator has installed each topology at which a unit of the last round
//! was refused or lost, so that it asks by owners that are new to it. Nothing here takes memory.
#![tactic(auto)]

mod rounds;

pub use rounds::{Rounds, closed_at};

#[cfg(test)]
mod tests;
