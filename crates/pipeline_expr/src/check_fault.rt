//! Why a pipeline is refused.

use thiserror::Error;

/// Why a pipeline is refused: the first operation at fault, counted from 0, with the end last.
#[derive(Clone, Copy, Debug, PartialEq, Eq, Error)]
pub enum CheckFault {
    /// The operation is the ninth, a second flatmap, or a list of more than eight expressions.
    #[error("operation {op} is past a limit")]
    Over { op: u8 },
    /// The need of the operation or of the end isn't met.
    #[error("operation {op} is mistyped")]
    Mistyped { op: u8 },
}
