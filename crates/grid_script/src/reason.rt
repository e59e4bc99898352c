//! Why scripts are refused.

/// Why a script is refused. Of the reasons that apply to a line the first in this order is given,
/// but that a number's `OverLimit` comes after `OtherKind`, and that of a pipeline at the end.
#[derive(Clone, Copy, Debug, PartialEq, Eq)]
pub enum Reason {
    /// The line has more than 1,024 bytes, a number is out of its range, or a pipeline is past a
    /// limit.
    OverLimit,
    /// The line isn't one of those that may stand there.
    Syntax,
    /// The script is of the other kind.
    OtherKind,
    /// The node has never been a member.
    NodeUnknown,
    /// The node has departed.
    NodeGone,
    /// The node that joins is live.
    NodeTwice,
    /// The node that departs is the only live one.
    LastNode,
    /// No line before makes the call.
    CallUnknown,
    /// A line before makes a call of this number.
    CallTwice,
    /// Keys are grouped, and the key names no group.
    KeyUngrouped,
    /// A value isn't of the kind that the settings name, or the need of an operation isn't met.
    Mistyped,
    /// The script has more than 4,194,304 bytes.
    TooLong,
}
