//! The lines of a script of a stepped run.

use crate::order::Order;

/// A line of a script: its number, which counts all lines of the text from 1, and what it orders.
#[derive(Debug, Drop)]
pub struct StepLine {
    pub line: u32,
    pub order: Order,
}
