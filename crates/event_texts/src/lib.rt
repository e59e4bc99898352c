//! The texts of events: the one text of each event, written and read. The writers of their words
//! serve other texts too.
#![tactic(auto)]

mod event_fault;
mod events;
mod kind;
mod outcomes;
mod read_calls;
mod read_events;
mod read_fields;
mod read_topologies;
mod read_values;
mod topologies;
mod words;

pub use event_fault::EventFault;
pub use events::{add_event, print_event};
pub use outcomes::add_outcome;
pub use read_events::read_event;
pub use topologies::{add_between, add_hash, add_phase};
pub use words::{add_number, add_number_word};
