// The maps and the entries of a book against what its records leave: cells, expiries, and the counts of the cells.

#![tactic(auto)]

pub mod maps;
pub mod matching;
