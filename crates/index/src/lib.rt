// The index of a book's held blocks, which lives for one call: built, kept while blocks become held, and asked whether
// a fingerprint is its own.

#![tactic(auto)]

mod inserting;
mod linking;

pub use inserting::hold;
pub use linking::{build, clear, link_apart};
