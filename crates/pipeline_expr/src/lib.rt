//! What a user asks of a list of entries: a pipeline of operations and an end, the expressions in
//! it, the kinds of values, and the typing that every pipeline is held to before it runs.
#![tactic(auto)]

mod alike;
mod answer;
mod check_fault;
mod end;
mod expr;
mod kind;
mod lists;
mod needs;
mod op;
mod pipeline;
mod spread;
mod typing;
mod values;

pub use answer::Answer;
pub use check_fault::CheckFault;
pub use end::End;
pub use expr::Expr;
pub use kind::{Kind, ValueKind};
pub use op::Op;
pub use pipeline::{Ops, Pipeline};
pub use spread::{Exprs, Spread};
pub use typing::check;
