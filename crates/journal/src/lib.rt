// The backup slots and the records: read one, append one.

#![tactic(auto)]

pub mod record;
pub mod slot;
