//! The fault of one read or write.

use thiserror::Error;

/// A read or a write failed, and moved no byte.
#[derive(Clone, Copy, Debug, PartialEq, Eq, Error)]
#[error("the call failed")]
pub struct Failed;
