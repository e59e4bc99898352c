//! The limits of the grid as numbers.

ghost use Rattle.std.specs.Prelude.{◌≡◌};
ghost use Rattle.grid_base.specs.declared.limits.TheConstants.{
  LAST_CALL,
  LAST_CLOCK,
  LONGEST_KEY,
  LONGEST_LIFESPAN,
  LONGEST_LINE,
  LONGEST_SCRIPT,
  LONGEST_TEXT,
  MOST_BATCH,
  MOST_CHUNK,
  MOST_EVENTS,
  MOST_NODES,
  MOST_OWNERS,
  MOST_ROUNDS,
  MOST_SEGMENTS,
  MOST_WEIGHT,
};

/// A law: the limits that a script and its run keep to are these. A cluster has at most 16 nodes,
/// 256 segments and 4 owners of a segment. Keys and texts have at most 64 bytes, a chunk and a batch
/// at most 1,000 entries. There are at most 4,096 calls, each with at most 64 rounds. The clock goes
/// up to 1,000,000,000 ticks, and a lifespan has at most 999,999,999. A script has at most 4,194,304
/// bytes, and a line of it 1,024. A history has at most 1,000,000 events, with 2,000,000 entries and
/// items.
pub fn limits_are_these()
    ensures nodes { MOST_NODES ≡ 16 }
    ensures segments { MOST_SEGMENTS ≡ 256 }
    ensures owners { MOST_OWNERS ≡ 4 }
    ensures key { LONGEST_KEY ≡ 64 }
    ensures text { LONGEST_TEXT ≡ 64 }
    ensures chunk { MOST_CHUNK ≡ 1000 }
    ensures batch { MOST_BATCH ≡ 1000 }
    ensures calls { LAST_CALL ≡ 4096 }
    ensures rounds { MOST_ROUNDS ≡ 64 }
    ensures clock { LAST_CLOCK ≡ 1000000000 }
    ensures lifespan { LONGEST_LIFESPAN ≡ 999999999 }
    ensures script { LONGEST_SCRIPT ≡ 4194304 }
    ensures line { LONGEST_LINE ≡ 1024 }
    ensures events { MOST_EVENTS ≡ 1000000 }
    ensures entries { MOST_WEIGHT ≡ 2000000 }
{}
