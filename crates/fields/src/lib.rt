// The header, the maps and a fresh book: one reader and one writer for each field, and the offset of every element.

#![tactic(auto)]

pub mod fresh;
pub mod header;
pub mod map;
pub mod offsets;
pub mod sizes;
