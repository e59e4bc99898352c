//! What a write does at a key.

use grid_base::Stamped;

/// What a write leaves at its key.
#[derive(Debug, Drop)]
pub enum Change {
    /// The key has this value.
    Put(Stamped),
    /// The key is absent.
    Erase,
}
