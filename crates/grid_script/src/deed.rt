//! What a session of a live script does.

use grid_base::{CallId, Entry, Key};
use grid_event::Request;

/// What a session of a live script does.
#[derive(Debug, Drop)]
pub enum Deed {
    /// Writes an entry.
    Put(Entry),
    /// Erases what stands at a key.
    Erase(Key),
    /// Makes a call at the session's home and waits for its answer.
    Call(CallId, Request),
}
