//! The top call: words, a source and a sink in, a status and a journal out.
#![tactic(auto)]

mod asks;
mod limits;
mod live;
mod plain;
mod runs;
mod sources;
mod status;
mod texts;
mod word_laws;
mod words;

pub use asks::{Asked, Form};
pub use limits::limits_are_these;
pub use live::run;
pub use plain::run_plain;
pub use status::Status;
pub use word_laws::{the_order_of_options_is_free, words_are_those_of_the_table};
pub use words::asked;
