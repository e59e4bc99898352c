//! The calls of a cluster and their units. Beside each call a tally of its units is kept up to
//! date, so that no question about a call goes over all units, and beside a reduction the pieces
//! of what its units read, so that its answer is finished from these.
#![tactic(auto)]

mod call;
mod calls;
mod feeding;
mod parts;
mod row;
mod table;
mod taken;
mod tally;
mod unit;

pub use call::Call;
pub use calls::Calls;
pub use taken::Taken;
pub use unit::Unit;
