//! The settings of a cluster.

ghost use Rattle.std.specs.Prelude.{◌≡◌};

use grid_base::limits::{MOST_CHUNK, MOST_NODES, MOST_OWNERS, MOST_SEGMENTS};
use pipeline_expr::ValueKind;
use segment_hash::Partition;
use topology_phase::Aim;

/// The settings of a cluster: the first nodes, which are numbered from 0; the segments; how many
/// owners a segment has at most; how keys are divided among the segments; the kind of the values;
/// how many entries a chunk of a transfer has at most; and what a rebalance aims at.
#[derive(Clone, Copy, Debug, PartialEq, Eq)]
pub struct Config {
    pub nodes: u8,
    pub segments: u16,
    pub owners: u8,
    pub partition: Partition,
    pub values: ValueKind,
    pub chunk: u16,
    pub aim: Aim,
}

impl Config {
    ghost use Rattle.grid_event.specs.Configs.{is_config};

    /// Whether each number is in its limits: 1 to 16 nodes, 1 to 256 segments, 1 to 4 owners, and
    /// chunks of 1 to 1,000 entries.
    pub fn is_in_limits(&self) -> bool
        ensures { result ≡ is_config self.now }
    {
        1 <= self.nodes
            && self.nodes <= MOST_NODES
            && 1 <= self.segments
            && self.segments <= MOST_SEGMENTS
            && 1 <= self.owners
            && self.owners <= MOST_OWNERS
            && 1 <= self.chunk
            && self.chunk <= MOST_CHUNK
    }
}
