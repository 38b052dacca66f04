// Steps 1 and 2 of a change (document 01, "The calls"): the block that it goes to, found or taken.

#![tactic(auto)]

pub mod find;
pub mod placing;
