//! The texts of pipelines: the one text of each pipeline, read and written, and the place where a
//! text stops being one. The readers of values and words serve other texts too.
#![tactic(auto)]

mod expressions;
mod forms;
mod halt;
mod parse_fault;
mod parser;
mod pipelines;
mod printing;
pub mod reading;
mod word;
pub mod writing;

pub use halt::{Halt, Unread};
pub use parse_fault::ParseFault;
pub use parser::parse_pipeline;
pub use printing::print_pipeline;
pub use word::Word;
