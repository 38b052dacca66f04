// The changes of a backup's list, on a working copy of the book: document 01, steps 1 to 4 of each change.

#![tactic(auto)]

pub mod changing;
pub mod moving;
