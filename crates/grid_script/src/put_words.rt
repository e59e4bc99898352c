//! The fields of a put.

use grid_base::{Datum, Key};

/// The fields of a put, as its line says them: its numbers may be out of their ranges.
#[derive(Debug, Drop)]
pub(crate) struct PutWords {
    pub node: u32,
    pub key: Key,
    pub datum: Datum,
    pub lifespan: Option<u32>,
}
