// Numbers that a host shows of a book: its sizes, how much of it is used, and what a volume has.

#![tactic(auto)]

pub mod enrolled;
pub mod header;
pub mod volume;
