// The expiries that a journal asks for: a slot's backup keeps what it replaced for so many days from the day of its
// volume's backup before.

#![tactic(auto)]

pub mod expiries;
pub mod lasts;
