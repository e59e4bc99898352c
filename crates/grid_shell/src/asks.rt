//! What the words of the program ask for.

/// In which form a run is told.
#[derive(Clone, Copy, Debug, PartialEq, Eq)]
pub enum Form {
    /// Its whole report.
    Full,
    /// Its outcome, in a few lines.
    Brief,
    /// Its outcome, as JSON.
    Json,
}

/// What the words of the program ask for.
#[derive(Clone, Copy, Debug, PartialEq, Eq)]
pub enum Asked {
    /// The stepped run of the script that is read.
    Step {
        form: Form,
    },
    /// The live run of the script that is read, with 1 to 8 workers for each node.
    Live {
        form: Form,
        workers: u32,
    },
    /// The stepped run of the script that a seed makes, with 1 to 50,000 keys and 0 to 50,000 further
    /// steps.
    Gen {
        form: Form,
        seed: u32,
        keys: u32,
        steps: u32,
    },
}
