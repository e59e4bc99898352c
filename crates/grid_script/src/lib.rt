//! Scripts: what they are, and how they are read. A script is either one of stepped runs, whose
//! lines are done one after the other, or one of live runs, whose sessions work side by side. Bytes
//! stand for at most one script; where they stand for none, the first line at fault is named with
//! its reason. The generator makes long scripts of stepped runs from a number.
#![tactic(auto)]

mod asked;
mod call_set;
mod call_words;
mod deed;
mod generator;
mod head_words;
mod known;
mod laws;
mod line_fault;
mod lines;
mod live_known;
mod live_lines;
mod live_script;
mod live_told;
mod load;
mod member;
mod members;
mod order;
mod put_words;
pub mod readers;
mod reading;
mod reason;
mod rules;
mod script;
mod script_fault;
mod script_kind;
mod section;
mod session;
mod settings;
mod step_line;
mod step_lines;
mod step_script;
mod words;

pub use deed::Deed;
pub use generator::generate;
pub use laws::pipelines_stand_by_their_texts;
pub use live_script::LiveScript;
pub use member::Member;
pub use order::Order;
pub use reading::read_script;
pub use reason::Reason;
pub use script::Script;
pub use script_fault::ScriptFault;
pub use script_kind::ScriptKind;
pub use session::Session;
pub use step_line::StepLine;
pub use step_script::StepScript;
