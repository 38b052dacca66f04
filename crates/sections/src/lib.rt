// The sections of a book in form, but for the journal.

#![tactic(auto)]

pub mod blocks;
pub mod zeros;
