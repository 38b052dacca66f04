// How many blocks of a book are held, free and waiting, and how many references point to them.

#![tactic(auto)]

pub mod count;
pub mod counts;
