//! Live runs: sessions, a coordinator and workers of nodes side by side over one book, and what is
//! left of them done on one thread.
#![tactic(auto)]

mod actors;
mod changes;
mod desk;
mod laws;
mod loading;
mod orders;
mod places;
mod repeats;
mod runs;
mod serial;
mod shared;
mod turns;

pub use laws::{
    calls_differ, changes_keep_the_parts, full_for_done_is_full,
    inner_commands_choose_inner_events, inner_events_keep_the_parts, loads_keep_the_parts,
    next_calls_are_new, orders_keep_the_parts, writes_go,
};
pub use runs::run_live;
