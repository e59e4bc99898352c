//! The fields of a call.

use crate::asked::Asked;

/// The fields of a call, as its line says them: its numbers may be out of their ranges.
#[derive(Debug, Drop)]
pub(crate) struct CallWords {
    pub call: u32,
    pub node: u32,
    pub asked: Asked,
}
