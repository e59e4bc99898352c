//! A pipeline that is fed entries batch by batch, and gives of each batch the further elements
//! alone. What was fed before isn't evaluated again: of it only the elements are remembered that
//! came to a `distinct`.
#![tactic(auto)]

mod element_set;
mod feed;
mod stages;

pub use feed::Feed;
