//! How keys are divided into segments.

/// How the segment of a key is found.
#[derive(Clone, Copy, Debug, PartialEq, Eq)]
pub enum Partition {
    /// By the hash of the key: the hashes, without their highest bit, are cut into ranges of one
    /// length, one range a segment. Each key has a segment.
    Plain,
    /// By the group that the key names at its front: one to nine decimal digits and then a `#`. The
    /// segment is that number modulo the number of segments. A key that names no group has none.
    Grouped,
}
