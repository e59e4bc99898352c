//! The sessions of a live script.

use crate::deed::Deed;
use grid_base::{NodeId, SessionId};
use sqlite_items::Items;

/// A session of a live script: its number, its home, which is one of the first nodes, and what it
/// does, one thing after the other.
#[derive(Debug, Drop)]
pub struct Session {
    pub number: SessionId,
    pub home: NodeId,
    pub orders: Items<Deed>,
}
