// A volume's backups by their days, as rows that a host shows.

#![tactic(auto)]

pub mod backups;
