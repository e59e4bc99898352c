//! Why a text is no pipeline.

use thiserror::Error;

/// Why a text gives no pipeline.
#[derive(Clone, Copy, Debug, PartialEq, Eq, Error)]
pub enum ParseFault {
    /// The text is no pipeline's. `at` is the length of the longest front of the text with which
    /// some pipeline's text begins.
    #[error("no pipeline goes on so behind {at} bytes")]
    Syntax { at: u32 },
    /// Memory ran out.
    #[error("out of memory")]
    NoMemory,
}
