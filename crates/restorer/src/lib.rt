// Read: a block of a backup, brought back from the journal and the current maps.

#![tactic(auto)]

pub mod image;
pub mod read;
