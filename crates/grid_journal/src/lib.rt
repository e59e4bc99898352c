//! What a reader is shown of a run: the report of a journal, its brief, and its brief as JSON.
#![tactic(auto)]

mod briefs;
mod json_briefs;
mod key_map;
mod membership;
mod numbered;
mod rebalances;
mod reports;
mod standing;

pub use briefs::brief;
pub use json_briefs::brief_json;
pub use reports::report;
