//! The sections of a live script.

use crate::session::Session;

/// The section of a live script whose lines are being read.
#[derive(Debug, Drop)]
pub(crate) enum Section {
    /// None was begun yet.
    Start,
    /// The entries that are loaded first.
    Load,
    /// The changes of the membership.
    Changes,
    /// A session, with its deeds so far.
    Session(Session),
}
