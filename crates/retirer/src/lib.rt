// Retire: a volume's cells are cleared on a copy of the book, then the book (document 02, K6).

#![tactic(auto)]

pub mod allowing;
pub mod clearing;
pub mod retire;
