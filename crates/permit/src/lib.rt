// Whether a backup is allowed, before its first change: numbers 1 to 10, and the plan that it goes by.

#![tactic(auto)]

pub mod allowing;
pub mod backups;
