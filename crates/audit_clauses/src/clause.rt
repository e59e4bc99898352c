//! What can be at fault with an event.

/// What can be at fault with an event, in the order in which faults are looked for: of several
/// clauses that fail at one event the first counts.
#[derive(Clone, Copy, Debug, PartialEq, Eq)]
pub enum Clause {
    /// The event can't stand behind those before it, or names a node, a segment, a key or a value
    /// that the cluster can't have.
    Shape,
    /// The outcome of an answer isn't the first that applies.
    Cause,
    /// The value of an answer isn't that of the pipeline over the evidence.
    Value,
    /// The items that a walk gave aren't those of the pipeline over the entries taken.
    Items,
    /// An entry that stood throughout the call isn't in the evidence; at most once, one of a
    /// segment that ended.
    Stable,
    /// A key is in the evidence twice.
    Twice,
    /// At least once, a key is in the evidence more often than there were rounds, or than one
    /// plus the installations and departures during the call.
    Often,
    /// An entry of the evidence never stood during the call.
    Held,
}
