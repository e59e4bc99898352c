//! Workers over a desk: each takes a job of its node, makes a piece of it, and gives the piece.
#![tactic(auto)]

mod desk;
mod gate;
mod grid;
mod serving;
#[cfg(test)]
mod tests;

pub use desk::{Desk, Order};
pub use gate::{Gate, NoGate};
pub use grid::Grid;
pub use serving::serve_node;
