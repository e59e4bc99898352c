//! The units of a call: one segment asked of one node, the stages that the unit goes through, and
//! the entries that were read for it. A unit that was refused, was lost or has ended stays so.
#![tactic(auto)]

mod unit;
mod unit_state;

pub use unit::Unit;
pub use unit_state::UnitState;

#[cfg(test)]
mod tests;
