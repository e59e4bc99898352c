//! The book of a run: a core beside the journal that it replays. An event is chosen, prepared and
//! done in one place, for books and for runs that keep a core and a journal of their own.
#![tactic(auto)]

mod act_fault;
mod acts;
mod book;
mod job;
mod made;

pub use act_fault::ActFault;
pub use acts::step;
pub use book::Book;
pub use job::Job;
pub use made::Made;
