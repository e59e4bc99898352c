//! A unit of a call.

use crate::places::Places;
use grid_base::{CallId, TopologyId};
use grid_event::Ask;

/// A unit that a round asked for, and what became of it so far. Events are counted from 1, and
/// place 0 is none.
#[derive(Drop)]
pub struct Unit {
    /// The call whose round asked for it.
    pub call: CallId,
    /// The number of the topology by which the round asked.
    pub id: TopologyId,
    /// Its number, its segment and its node.
    pub ask: Ask,
    /// The place of the round.
    pub asked: u32,
    /// The place at which it began to run.
    pub begun: u32,
    /// Whether it was refused when it should begin.
    pub refused: bool,
    /// Whether it ended.
    pub ended: bool,
    /// Whether it was gone when it was refused or ended.
    pub gone: bool,
    /// The places of its scans.
    pub scans: Places,
}
