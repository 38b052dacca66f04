// The sections of the journal in form: the used slots, and the used records.

#![tactic(auto)]

pub mod journal;
pub mod records;
