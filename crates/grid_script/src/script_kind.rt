//! The kinds of scripts.

/// The kind of a script.
#[derive(Clone, Copy, Debug, PartialEq, Eq)]
pub enum ScriptKind {
    /// Scripts of stepped runs.
    Step,
    /// Scripts of live runs.
    Live,
}
