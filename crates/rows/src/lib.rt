// Rows that a host shows of a book: the map of a volume, and the blocks of the pool.

#![tactic(auto)]

pub mod blocks;
pub mod cells;
