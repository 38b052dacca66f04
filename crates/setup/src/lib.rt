// The two calls by which a box is set up: format makes a fresh book, enrol gives a volume its retention.

#![tactic(auto)]

pub mod enrol;
pub mod format;
