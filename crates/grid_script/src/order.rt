//! What a line of a script orders.

use grid_base::CallId;
use grid_event::Command;

/// What a line of a script orders.
#[derive(Debug, Drop)]
pub enum Order {
    /// One command.
    One(Command),
    /// Advances until nothing is left to advance.
    Settle,
    /// Drives a call until it is answered.
    Finish(CallId),
}
