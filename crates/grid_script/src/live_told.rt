//! What a line of a live script tells.

use crate::deed::Deed;
use crate::member::Member;
use crate::section::Section;
use grid_base::Entry;

/// What a line of a live script tells.
#[derive(Debug, Drop)]
pub(crate) enum LiveTold {
    /// A section begins.
    Opens(Section),
    /// The membership changes.
    Changes(Member),
    /// An entry is loaded.
    Loads(Entry),
    /// The session does something.
    Does(Deed),
}
