//! The limits of the grid: each is a named constant, with its unit and what it bounds.

/// The most nodes that a grid has; their numbers are below this.
pub const MOST_NODES: u8 = 16;

/// The most segments that the keys are divided into; their numbers are below this.
pub const MOST_SEGMENTS: u16 = 256;

/// The most owners that a segment has.
pub const MOST_OWNERS: u8 = 4;

/// The longest key, in bytes; the shortest has one.
pub const LONGEST_KEY: usize = 64;

/// The longest text, in bytes; the shortest has none.
pub const LONGEST_TEXT: usize = 64;

/// The most entries of a transfer's chunk.
pub const MOST_CHUNK: u16 = 1000;

/// The most entries of a call's batch.
pub const MOST_BATCH: u16 = 1000;

/// The most rounds of a call.
pub const MOST_ROUNDS: u8 = 64;

/// The highest number of a call; the lowest is 1.
pub const LAST_CALL: u32 = 4096;

/// The most events of a journal.
pub const MOST_EVENTS: u32 = 1_000_000;

/// The most entries and items of a journal, counted over all of its events.
pub const MOST_WEIGHT: u32 = 2_000_000;

/// The longest script, in bytes.
pub const LONGEST_SCRIPT: usize = 4_194_304;

/// The longest line of a script, in bytes without its end.
pub const LONGEST_LINE: usize = 1024;

/// The latest clock, in ticks.
pub const LAST_CLOCK: u32 = 1_000_000_000;

/// The longest lifespan of an entry, in ticks.
pub const LONGEST_LIFESPAN: u32 = 999_999_999;

/// The most entries that all units of a run read together.
pub const MOST_READ: u64 = 1_099_511_627_776;

/// The highest number of a topology; the lowest is 1.
pub const LAST_TOPOLOGY: u32 = 4_294_967_295;
