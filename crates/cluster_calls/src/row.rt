//! A call beside the tally of its units and the pieces that are booked for it.

use crate::call::Call;
use crate::parts::Parts;
use crate::tally::Tally;

/// A call, what is kept up to date of its units, and where it is a reduction that isn't answered,
/// the pieces that are booked for its segments.
#[derive(Drop)]
pub struct Row {
    pub(crate) call: Call,
    pub(crate) tally: Tally,
    pub(crate) parts: Option<Parts>,
}
