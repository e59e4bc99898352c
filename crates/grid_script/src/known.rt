//! What is known behind some lines of a stepped run.

use crate::call_set::CallSet;
use crate::members::Members;
use crate::step_line::StepLine;
use grid_event::Config;
use sqlite_items::Items;

/// What is known behind some lines of a stepped run: the settings, the members, the calls that were
/// made, the sum of the ticks, and the lines that order something.
#[derive(Debug, Drop)]
pub(crate) struct Known {
    pub config: Config,
    pub members: Members,
    pub calls: CallSet,
    pub ticks: u32,
    pub lines: Items<StepLine>,
}
