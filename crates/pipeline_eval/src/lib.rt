//! What pipelines mean: an expression has a value at each element, and a pipeline applies each of
//! its operations to the whole list in turn, and then its end.
#![tactic(auto)]

mod distinct;
mod ends;
mod evaluation;
mod laws;
mod operations;
mod pipes;
mod values;
mod words;

pub use ends::{answer_of, greatest, least, sum};
pub use evaluation::eval;
pub use laws::{elements_grow, walk_is_its_elements};
pub use operations::apply_all;
pub use pipes::{elements_of, run_plain_pipeline};
pub use values::compared;
