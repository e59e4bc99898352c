//! Scripts of either kind.

use crate::live_script::LiveScript;
use crate::step_script::StepScript;

/// A script of either kind.
#[derive(Debug, Drop)]
pub enum Script {
    /// The script of a stepped run.
    Step(StepScript),
    /// The script of a live run.
    Live(LiveScript),
}
