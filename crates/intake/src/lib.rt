// Backup: the changes on a copy of the book, then the pool and the book.

#![tactic(auto)]

pub mod backup;
pub mod storing;
