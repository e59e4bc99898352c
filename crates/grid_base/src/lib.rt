//! What every layer of the grid speaks of: numbers of nodes, segments and calls, keys and texts,
//! values and entries, the lists that hold them, sets of nodes, and partial results that join.
#![tactic(auto)]

mod batch;
mod call_id;
mod chunk;
mod datum;
mod duplicate;
mod entry;
mod inline_text;
mod item;
mod key;
mod key_fault;
pub mod limits;
mod lists;
mod no_memory;
mod node_id;
mod node_set;
mod part;
mod segment_id;
mod sequence;
mod session_id;
mod stamped;
mod stamped_entry;
mod text;
mod text_fault;
mod topology_id;
mod unit_id;

pub use batch::Batch;
pub use call_id::CallId;
pub use chunk::Chunk;
pub use datum::Datum;
pub use duplicate::Duplicate;
pub use entry::Entry;
pub use item::Item;
pub use key::Key;
pub use key_fault::KeyFault;
pub use lists::{Bytes, Entries, Items, StampedEntries, Units};
pub use no_memory::NoMemory;
pub use node_id::NodeId;
pub use node_set::NodeSet;
pub use part::Part;
pub use segment_id::SegmentId;
pub use sequence::Sequence;
pub use session_id::SessionId;
pub use stamped::Stamped;
pub use stamped_entry::StampedEntry;
pub use text::Text;
pub use text_fault::TextFault;
pub use topology_id::TopologyId;
pub use unit_id::UnitId;
