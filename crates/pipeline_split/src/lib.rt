//! The two halves of a pipeline. The remote half goes where the entries lie and makes a piece of
//! them; pieces join, in the order of their entries; the local half makes the answer of the joined
//! piece, and it is the answer of the plain pipeline over all entries.
#![tactic(auto)]

mod elements;
mod evaluation;
mod halves;
mod laws;
mod part;
mod piece;

pub use elements::Elements;
pub use evaluation::{finish, piece_of};
pub use halves::{Local, Remote, split};
pub use laws::{
    finished_nothing_is_the_empty_answer, finished_piece_is_the_answer, nothing_changes_no_piece,
    pieces_fit_in_any_groups, pieces_join, pieces_join_in_any_groups, typed_pieces_fit,
};
pub use piece::Piece;
