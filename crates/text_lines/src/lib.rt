//! Texts cut into their lines.
#![tactic(auto)]

mod lines;

pub use lines::{Cut, first_line};
