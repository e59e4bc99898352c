//! What became of the units that rounds asked for, kept along the events of a history.
#![tactic(auto)]

mod changes;
mod laws;
mod places;
mod questions;
mod unit;
mod units;

pub use laws::{asks_are_units, gone_is_dated, places_tell_events, scans_tell_entries};
pub use places::Places;
pub use unit::Unit;
pub use units::Units;
