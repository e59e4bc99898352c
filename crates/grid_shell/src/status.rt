//! How the program ends.

/// How the program ends.
#[derive(Clone, Copy, Debug, PartialEq, Eq)]
pub enum Status {
    /// All was done, and the report was written.
    Done,
    /// The words are none that the program serves.
    Usage,
    /// The script was refused.
    ScriptRefused,
    /// The source failed.
    ReadFault,
    /// The sink failed while the report was written.
    WriteFault,
    /// Memory ran out.
    NoMemory,
    /// The journal was full before the run came to its end.
    Full,
}

impl Status {
    ghost use Rattle.std.specs.Prelude.{◌≡◌};
    ghost use Rattle.grid_shell.specs.Statuses.{number_of};

    /// The status with which the program exits.
    pub fn number(self) -> u8
        ensures { result ≡ number_of self }
    {
        match self {
            Status::Done => 0,
            Status::Usage => 2,
            Status::ScriptRefused => 3,
            Status::ReadFault => 4,
            Status::WriteFault => 5,
            Status::NoMemory => 6,
            Status::Full => 7,
        }
    }
}
