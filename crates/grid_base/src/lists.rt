//! The lists that the layers hand to one another.

use crate::entry::Entry;
use crate::item::Item;
use crate::sequence::Sequence;
use crate::stamped_entry::StampedEntry;
use crate::unit_id::UnitId;

/// A list of bytes.
pub type Bytes = Sequence<u8>;

/// A list of entries.
pub type Entries = Sequence<Entry>;

/// A list of items.
pub type Items = Sequence<Item>;

/// A list of entries with their deadlines.
pub type StampedEntries = Sequence<StampedEntry>;

/// A list of units of work.
pub type Units = Sequence<UnitId>;
