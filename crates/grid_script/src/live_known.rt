//! What is known behind some lines of a live run.

use crate::call_set::CallSet;
use crate::load::Load;
use crate::member::Member;
use crate::members::Members;
use crate::section::Section;
use crate::session::Session;
use grid_event::Config;
use sqlite_items::Items;

/// What is known behind some lines of a live run: the settings, the members, the calls that were
/// made, the section whose lines are being read, the load, the changes, and the complete sessions.
#[derive(Debug, Drop)]
pub(crate) struct LiveKnown {
    pub config: Config,
    pub members: Members,
    pub calls: CallSet,
    pub section: Section,
    pub load: Load,
    pub changes: Items<Member>,
    pub sessions: Items<Session>,
}
