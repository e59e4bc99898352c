//! Laws of every run of a cluster, whatever the order of its events.
#![tactic(auto)]

mod laws;

pub use laws::{
    answered_calls_stay, answers_are_right, calls_are_told, copies_hold, events_keep_all,
    events_tell_the_state, no_call_is_stuck, one_unit_stands, outcomes_are_caused,
    settled_is_aimed, stages_are_told, units_are_completed,
};
