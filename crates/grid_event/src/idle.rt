//! Notes of idle script lines.

use grid_base::{Duplicate, NoMemory};
use std::alloc::Global;

/// A line of a script that had no event, and the number of events that stood before it.
#[derive(Clone, Copy, Debug, PartialEq, Eq)]
pub struct Idle {
    pub place: u32,
    pub line: u32,
}

impl Duplicate for Idle {
    fn copy(&self, _alloc: Global) -> Result<Idle, NoMemory> {
        Ok(*self)
    }
}
