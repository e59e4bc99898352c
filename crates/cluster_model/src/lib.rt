//! What may happen in a cluster, and what is claimed of the answers of its calls: definitions, with
//! the laws that show that they say what they should.
#![tactic(auto)]

mod laws;

pub use laws::{
    causes_exclude_one_another, chosen_events_may_happen, evidence_is_its_own, map_is_key_by_key,
    others_stay, steps_are_functional,
};
