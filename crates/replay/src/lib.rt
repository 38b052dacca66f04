// The journal replayed: one pass over its records, with a cell for each LBN of each volume, an expiry for each block,
// and a stamp for each LBN of a backup.

#![tactic(auto)]

pub mod notes;
pub mod records;
