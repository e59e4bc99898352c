//! What a call asks for, as its line says it.

use grid_event::{Guarantee, Pipeline};

/// What a call asks for, as its line says it: its numbers may be out of their ranges.
#[derive(Debug, Drop)]
pub(crate) struct Asked {
    pub guarantee: Guarantee,
    pub rounds: u32,
    pub batch: u32,
    pub pipeline: Pipeline,
}
