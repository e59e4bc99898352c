//! What a pipeline makes of the list that its operations leave.

/// The end of a pipeline.
#[derive(Clone, Copy, Debug, PartialEq, Eq)]
pub enum End {
    /// The number of elements.
    Count,
    /// The sum of the elements, modulo 2^64; 0 where there is none.
    Sum,
    /// The least element, if there is one.
    Min,
    /// The greatest element, if there is one.
    Max,
    /// The list of all elements.
    Collect,
    /// The elements one after another, as they come.
    Each,
}
